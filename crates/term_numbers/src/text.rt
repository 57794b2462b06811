//! Texts, ordered by their bytes.
ghost use Rattle.std.specs.Prelude.{◌≡◌, ◌==◌};
ghost use Rattle.std.proofs.Common.{rules};
ghost use Rattle.std.specs.Cmp.{partial_order_from_own_ties};
ghost use Rattle.std.specs.Cmp.Rules.{comparing};
ghost use Rattle.std.specs.Cmp.Lexicographic.{pointwise, slice_cmp};
ghost use Rattle.std.specs.Ordering.{nat_cmp, as_partial_cmp};
ghost use Rattle.bm_term.specs.TermRef.{text_of};

use bm_term::{Term, TermRef};
use std::cmp::Ordering;
use std::marker::Model;

/// A canonical text that is borrowed from a term. It is seen as its bytes.
#[derive(Drop)]
pub(crate) struct Text<'a> {
    bytes: &'a [u8],
}

impl<'a> Model for Text<'a> {
    ghost use Rattle.std.specs.Prelude.{List, ℕ};
    ghost use Rattle.bm_term.specs.Canonical.{IsCanonical};

    ghost Value = { List ℕ };

    ghost view = { λ t. t.bytes.now };

    ghost invariant = { λ t. ∥ IsCanonical t.bytes.now ∥₁ };
}

impl<'a> Text<'a> {
    /// The text of a term.
    pub(crate) fn of(term: &'a Term) -> Text<'a>
        ensures { result ≡ term.now }
    {
        Text {
            bytes: term.as_ref().bytes(),
        }
    }

    /// The same text.
    pub(crate) fn again(&self) -> Text<'a>
        ensures { result ≡ self.now }
    {
        Text { bytes: self.bytes }
    }

    /// The text as a term.
    pub(crate) fn term(&self) -> TermRef<'a>
        ensures { text_of result ≡ self.now }
    {
        TermRef::from_canonical(self.bytes)
    }
}

impl PartialEq for Text<'_> {
    ghost eq = { pointwise ◌==◌ };

    ghost laws = { Prim.search (comparing, rules) };

    fn eq(&self, other: &Self) -> bool {
        self.bytes == other.bytes
    }
}

impl Eq for Text<'_> {
    ghost laws = { Prim.search (comparing, rules) };
}

impl PartialOrd for Text<'_> {
    ghost partial_cmp = { as_partial_cmp (slice_cmp nat_cmp) };

    ghost laws = { partial_order_from_own_ties (Prim.search (comparing, rules)) (Prim.search (comparing, rules)) };

    fn partial_cmp(&self, other: &Self) -> Option<Ordering> {
        Some(self.cmp(other))
    }
}

impl Ord for Text<'_> {
    ghost cmp = { slice_cmp nat_cmp };

    ghost total = { Prim.search (comparing, rules) };

    ghost matches_partial_cmp = { Prim.search (comparing, rules) };

    ghost matches_eq = { Prim.search (comparing, rules) };

    fn cmp(&self, other: &Self) -> Ordering {
        self.bytes.cmp(&other.bytes)
    }
}
