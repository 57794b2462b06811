//! Texts with their places.
ghost use Rattle.std.specs.Prelude.{◌≡◌};

use crate::text::Text;

/// A text with its place in the order of first sight. Entries are ordered by text.
#[derive(PartialEq, Eq, PartialOrd, Ord, Drop)]
pub(crate) struct Entry<'a> {
    pub(crate) text: Text<'a>,
    pub(crate) place: u32,
}

impl<'a> Entry<'a> {
    /// The same entry.
    pub(crate) fn again(&self) -> Entry<'a>
        ensures { result ≡ self.now }
    {
        Entry {
            text: self.text.again(),
            place: self.place,
        }
    }
}
