//! A list of texts in one piece of memory.
ghost use Rattle.std.specs.Prelude.{◌≡◌, ◌<◌, ◌≤◌, ◌-◌, [], ◌∷◌, ◌++◌, length, take, drop, IfOk, OnOk, Some};
ghost use Rattle.std.specs.List.{slice_get};
ghost use Rattle.bm_term.specs.TermRef.{text_of};

use bm_term::TermRef;
use std::alloc::{AllocError, Global};
use std::marker::Model;

/// Canonical texts one after the other, and where each starts. It is seen as the list of the texts.
#[derive(Debug, Drop)]
pub(crate) struct Table {
    starts: Vec<usize>,
    bytes: Vec<u8>,
}

impl Model for Table {
    ghost use Rattle.std.specs.Prelude.{List, ℕ};
    ghost use Rattle.byte_tables.specs.Pieces.{pieces_at};
    ghost use Rattle.term_numbers.specs.held.Table.{IsTextTable};

    ghost Value = { List (List ℕ) };

    ghost view = { λ t. pieces_at t.starts.items t.bytes.items };

    ghost invariant = { λ t. IsTextTable t.starts.items t.bytes.items };
}

impl Table {
    /// A table of no text.
    pub(crate) fn new(alloc: Global) -> Result<Table, AllocError>
        ensures { IfOk result (λ table. table ≡ []) }
    {
        let starts = vec![in alloc; 0]?;
        let bytes = Vec::new(alloc);
        Ok(Table { starts, bytes })
    }

    /// Puts a text at the end.
    pub(crate) fn push(&mut self, text: TermRef<'_>) -> Result<(), AllocError>
        ensures { OnOk result (self.new ≡ self.old ++ text_of text.entry ∷ []) }
    {
        self.starts.reserve(1)?;
        self.bytes.extend_from_slice(text.bytes())?;
        self.starts.push(self.bytes.len())?;
        Ok(())
    }

    /// The text at a place.
    pub(crate) fn text(&self, place: usize) -> TermRef<'_>
        requires { place < length self.now }
        ensures { slice_get self.now place ≡ Some (text_of result) }
    {
        let text = piece(&self.bytes, self.starts[place], self.starts[place + 1]);
        TermRef::from_canonical(text)
    }
}

fn piece(bytes: &[u8], start: usize, end: usize) -> &[u8]
    requires up { start ≤ end }
    requires within { end ≤ length bytes.now }
    ensures { result.now ≡ take (end - start) (drop start bytes.now) }
{
    &bytes[start..end]
}
