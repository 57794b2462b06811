//! The parts of an index file, once both of its tables are cut.

ghost use Rattle.std.specs.Prelude.{◌≡◌};
ghost use Rattle.index_file.specs.Image.{terms_in};
ghost use Rattle.index_file.specs.steps.Groups.{terms_of_groups};
ghost use Rattle.index_file.specs.steps.Sections.{HasCounts, counts_in, layout_with};

use crate::counts::IndexCounts;
use crate::group::Groups;
use crate::table::PieceTable;
use std::marker::Model;

/// How many of each a file has, its texts and its slices. It is seen as the layout that they make.
#[derive(Debug, Drop)]
pub(crate) struct Parts<'a> {
    counts: IndexCounts,
    texts: PieceTable<'a>,
    slices: PieceTable<'a>,
}

impl<'a> Model for Parts<'a> {
    ghost use Rattle.index_file.specs.Layout.{Layout};
    ghost use Rattle.index_file.specs.steps.Sections.{HasCounts, layout_with};

    ghost Value = { Layout };

    ghost view = { λ p. layout_with p.counts p.texts p.slices };

    ghost invariant = { λ p. HasCounts (layout_with p.counts p.texts p.slices) };
}

impl<'a> Parts<'a> {
    /// The parts with these counts and tables.
    pub(crate) fn of(
        counts: IndexCounts,
        texts: PieceTable<'a>,
        slices: PieceTable<'a>,
    ) -> Parts<'a>
        requires { HasCounts (layout_with counts texts slices) }
        ensures { result ≡ layout_with counts texts.entry slices.entry }
    {
        Parts {
            counts,
            texts,
            slices,
        }
    }

    /// How many of each the file has.
    pub(crate) fn counts(&self) -> IndexCounts
        ensures counts { result ≡ counts_in self.now }
        ensures has { HasCounts self.now }
    {
        self.counts
    }

    /// The groups of its terms.
    pub(crate) fn groups(&self) -> Groups<'a>
        ensures groups { terms_of_groups result ≡ terms_in self.now }
        ensures has { HasCounts self.now }
    {
        Groups::of(&self.counts, &self.texts)
    }

    /// Its texts.
    pub(crate) fn texts(&self) -> PieceTable<'a>
        ensures texts { result ≡ self.now.texts }
        ensures has { HasCounts self.now }
    {
        self.texts.again()
    }

    /// Its slices.
    pub(crate) fn slices(&self) -> PieceTable<'a>
        ensures slices { result ≡ self.now.slices }
        ensures has { HasCounts self.now }
    {
        self.slices.again()
    }
}
