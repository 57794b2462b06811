//! Pieces of a table that are next to one another, and the groups of the term table.

ghost use Rattle.std.specs.Prelude.{◌≡◌, ◌+◌, ◌^◌, ◌<◌, ◌≤◌, [], ◌∷◌, length, take, drop, slice_index_or};
ghost use Rattle.index_file.specs.steps.Groups.{terms_of_groups, terms_at};

use crate::counts::IndexCounts;
use crate::table::PieceTable;
use std::marker::Model;

/// Pieces of a table that are next to one another: texts or slices. It is seen as the list of them.
#[derive(Debug, Drop)]
pub(crate) struct Group<'a> {
    table: PieceTable<'a>,
    first: u32,
    count: u32,
}

impl<'a> Model for Group<'a> {
    ghost use Rattle.std.specs.Prelude.{List, ℕ, ◌+◌, ◌≤◌, length, take, drop};

    ghost Value = { List (List ℕ) };

    ghost view = { λ g. take g.count (drop g.first g.table) };

    ghost invariant = { λ g. g.first + g.count ≤ length g.table };
}

impl<'a> Group<'a> {
    /// So many pieces of a table, from a place on.
    pub(crate) fn of(table: &PieceTable<'a>, first: u32, count: u32) -> Group<'a>
        requires { first + count ≤ length table.now }
        ensures { result ≡ take count (drop first table.now) }
    {
        Group {
            table: table.again(),
            first,
            count,
        }
    }

    /// How many pieces there are.
    pub(crate) fn len(&self) -> u32
        ensures { result ≡ length self.now }
    {
        self.count
    }

    /// The piece in place `i`.
    pub(crate) fn get(&self, i: u32) -> &'a [u8]
        requires { i < length self.now }
        ensures piece { slice_index_or self.now i [] ≡ result.now }
        ensures at { drop i self.now ≡ result.now ∷ drop (i + 1) self.now }
    {
        self.table.get(self.first as usize + i as usize)
    }
}

/// The groups of the term table: terms that are subject and object, subjects alone, objects alone, and predicates.
#[derive(Debug, Drop)]
pub(crate) struct Groups<'a> {
    pub shared: Group<'a>,
    pub subjects: Group<'a>,
    pub objects: Group<'a>,
    pub predicates: Group<'a>,
}

impl<'a> Groups<'a> {
    /// The groups of a table with so many texts.
    pub(crate) fn of(counts: &IndexCounts, texts: &PieceTable<'a>) -> Groups<'a>
        requires count { length texts.now ≡ counts.now.shared + counts.now.subjects + counts.now.objects + counts.now.predicates }
        requires few { length texts.now < 2 ^ 32 }
        ensures { terms_of_groups result ≡ terms_at counts.now texts.now }
    {
        let alone = counts.shared + counts.subjects;
        let nodes = alone + counts.objects;
        Groups {
            shared: Group::of(texts, 0, counts.shared),
            subjects: Group::of(texts, counts.shared, counts.subjects),
            objects: Group::of(texts, alone, counts.objects),
            predicates: Group::of(texts, nodes, counts.predicates),
        }
    }
}
