ghost use Rattle.std.specs.Prelude.{◌≡◌, ◌==◌, [], ◌∷◌, IfOk};
ghost use Rattle.std.proofs.Common.{rules};
ghost use Rattle.std.specs.Cmp.{partial_order_from_own_ties};
ghost use Rattle.std.specs.Cmp.Rules.{comparing, hashing};
ghost use Rattle.std.specs.Cmp.Lexicographic.{pointwise, slice_cmp};
ghost use Rattle.std.specs.Ordering.{nat_cmp, as_partial_cmp};
ghost use Rattle.bm_term.specs.TermRef.{text_of};
ghost use Rattle.bm_term.specs.Canonical.{IsCanonical};

use crate::TermRef;
use std::alloc::{AllocError, Global};
use std::cmp::Ordering;
use std::hash::{Hash, Hasher};
use std::marker::Model;

/// A term that owns its canonical text. It is seen as that text.
#[derive(Debug, Drop)]
pub struct Term {
    text: Vec<u8>,
}

impl Model for Term {
    ghost use Rattle.std.specs.Prelude.{List, ℕ};
    ghost use Rattle.bm_term.specs.Canonical.{IsCanonical};

    ghost Value = { List ℕ };

    ghost view = { λ t. t.text.items };

    ghost invariant = { λ t. ∥ IsCanonical t.text.items ∥₁ };
}

impl Term {
    /// A copy of a term. `Err` only where memory runs out.
    pub fn copy_of(alloc: Global, term: TermRef<'_>) -> Result<Term, AllocError>
        ensures { IfOk result (λ copy. copy ≡ text_of term.entry) }
    {
        Ok(Term {
            text: term.bytes().to_vec(alloc)?,
        })
    }

    /// The term with a text that is known to be canonical. It is not looked into.
    pub fn from_canonical(text: Vec<u8>) -> Term
        requires { ∥ IsCanonical text.items ∥₁ }
        ensures { result ≡ text.items }
    {
        Term { text }
    }

    /// The term, lent.
    pub fn as_ref(&self) -> TermRef<'_>
        ensures { text_of result ≡ self.now }
    {
        TermRef::from_canonical(&self.text)
    }
}

impl Clone for Term {
    ghost is_clone = { λ a b. b ≡ a };

    fn clone(&self) -> Result<Term, AllocError> {
        Ok(Term {
            text: self.text.clone()?,
        })
    }
}

impl PartialEq for Term {
    ghost eq = { pointwise ◌==◌ };

    ghost laws = { Prim.search (comparing, rules) };

    fn eq(&self, other: &Term) -> bool {
        self.text.as_slice() == other.text.as_slice()
    }
}

impl Eq for Term {
    ghost laws = { Prim.search (comparing, rules) };
}

impl PartialOrd for Term {
    ghost partial_cmp = { as_partial_cmp (slice_cmp nat_cmp) };

    ghost laws = { partial_order_from_own_ties (Prim.search (comparing, rules)) (Prim.search (comparing, rules)) };

    fn partial_cmp(&self, other: &Term) -> Option<Ordering> {
        Some(self.cmp(other))
    }
}

impl Ord for Term {
    ghost cmp = { slice_cmp nat_cmp };

    ghost total = { Prim.search (comparing, rules) };

    ghost matches_partial_cmp = { Prim.search (comparing, rules) };

    ghost matches_eq = { Prim.search (comparing, rules) };

    fn cmp(&self, other: &Term) -> Ordering {
        self.text.as_slice().cmp(other.text.as_slice())
    }
}

impl Hash for Term {
    // The whole text at once: byte by byte it would take a hasher many times as long.
    ghost hash_input = { λ t. t ∷ [] };

    ghost respects_eq = { Prim.search (hashing, rules) };

    fn hash<H: Hasher>(&self, state: &mut H) {
        state.write(&self.text);
    }
}
