ghost use Rattle.bm_term.specs.Canonical.{IsCanonical};

use crate::scanning::parts;
use crate::term_parts::Parts;

/// A borrowed term: a canonical text. It is seen as that text.
#[derive(Clone, Copy)]
pub struct TermRef<'a> {
    text: &'a [u8],
    pub ghost canonical: { ∥ IsCanonical text.now ∥₁ },
}

impl<'a> TermRef<'a> {
    ghost use Rattle.std.specs.Prelude.{◌≡◌, ◌↔◌, IsSome, IfSome};
    ghost use Rattle.bm_term.specs.TermRef.{text_of};
    ghost use Rattle.bm_term.specs.Parts.{ArePartsOf};

    /// The term with this text. `None` exactly where the bytes are no canonical text.
    pub fn new(bytes: &'a [u8]) -> Option<TermRef<'a>>
        ensures canonical { IsSome result ↔ IsCanonical bytes.now }
        ensures text { IfSome result (λ term. text_of term ≡ bytes.now) }
    {
        match parts(bytes) {
            Some(_) => Some(TermRef { text: bytes }),
            None => None,
        }
    }

    /// The term with a text that is known to be canonical. It is not looked into.
    pub fn from_canonical(text: &'a [u8]) -> TermRef<'a>
        requires { ∥ IsCanonical text.now ∥₁ }
        ensures { text_of result ≡ text.now }
    {
        TermRef { text }
    }

    /// The text.
    pub fn bytes(self) -> &'a [u8]
        ensures text { result.now ≡ text_of self.entry }
        ensures canonical { IsCanonical result.now }
    {
        self.text
    }

    /// The parts of the text.
    pub fn parts(self) -> Parts<'a>
        ensures { ArePartsOf (text_of self.entry) result }
    {
        match parts(self.text) {
            Some(found) => found,
            None => unreachable!(),
        }
    }
}
