//! A row, borrowed from its bytes.

ghost use Rattle.std.specs.Prelude.{◌≡◌, ◌↔◌, ◌-◌, ◌^◌, ℕ, List, length, Contains, IsTrue, IsSome, IfSome, Some};
ghost use Rattle.std.specs.List.Sorted.{IsStrictlyIncreasing};
ghost use Rattle.run_rows.specs.Row.{IsRow, IsLeastFrom};
ghost use Rattle.run_rows.specs.Runs.{members, runs_of, AreRuns};
ghost use Rattle.run_rows.specs.Encoding.{row_numbers, Encodes, IsEncoding};

use crate::form::RowForm;
use crate::iter::{RowIter, RunIter};
use crate::runs;
use std::marker::Model;

/// A row that borrows its bytes. It is seen as the list of its numbers: at least one, strictly ascending,
/// each below 2^32 − 1. That they lie below the columns is told by [`check`] and [`view`].
#[derive(Debug, Drop)]
pub struct RowRef<'a> {
    form: RowForm,
    bytes: &'a [u8],
}

impl<'a> Model for RowRef<'a> {
    ghost use Rattle.std.specs.Prelude.{ℕ, List, ◌-◌, ◌^◌};
    ghost use Rattle.run_rows.specs.Runs.{members, runs_of, AreRuns};
    ghost use Rattle.run_rows.specs.Encoding.{row_numbers, IsEncoding};

    ghost Value = { List ℕ };

    ghost view = { λ r. row_numbers r.form r.bytes.now };

    ghost invariant = { λ r. IsEncoding r.form (2 ^ 32 - 1) r.bytes.now };
}

impl<'a> RowRef<'a> {
    /// Whether the row has `n`, found by halving.
    pub fn test(&self, n: u32) -> bool
        ensures { IsTrue result ↔ Contains self.now n }
    {
        self.at_least(n) == Some(n)
    }

    /// The least number of the row that is not below `n`, found by halving. `None` where there is none.
    #[tactic(auto, using(crate::proofs::EncodingLaws::row_as_runs))]
    pub fn at_least(&self, n: u32) -> Option<u32>
        ensures { IsLeastFrom n self.now result }
    {
        match self.form {
            RowForm::V1 => runs::at_least(self.bytes, n),
        }
    }

    /// How many numbers the row has.
    #[tactic(auto, using(crate::proofs::EncodingLaws::row_as_runs))]
    pub fn count(&self) -> u32
        ensures count { result ≡ length self.now }
        ensures row { IsRow (2 ^ 32 - 1) self.now }
    {
        match self.form {
            RowForm::V1 => runs::count(self.bytes),
        }
    }

    /// The numbers of the row in ascending order.
    #[tactic(auto, using(crate::proofs::EncodingLaws::row_as_runs))]
    pub fn iter(&self) -> RowIter<'a>
        ensures numbers { result ≡ self.now }
        ensures row { IsRow (2 ^ 32 - 1) self.now }
        ensures ascending { IsStrictlyIncreasing self.now }
    {
        match self.form {
            RowForm::V1 => RowIter::over_runs(self.bytes),
        }
    }
}

impl<'a> RowRef<'a> {
    /// The runs of the row in order: each as long as can be, with a gap between it and the next.
    #[tactic(auto, using(crate::proofs::EncodingLaws::row_as_runs))]
    pub fn runs(&self) -> RunIter<'a>
        ensures numbers { members result ≡ self.now }
        ensures runs { result ≡ runs_of self.now }
        ensures in_order { AreRuns 0 (2 ^ 32 - 1) result }
    {
        match self.form {
            RowForm::V1 => RunIter::over(self.bytes),
        }
    }

    /// Whether two rows have the same numbers. As a row has one encoding, their bytes are compared.
    pub fn same(&self, other: &RowRef<'_>) -> bool
        ensures { IsTrue result ↔ (self.now ≡ other.now) }
    {
        match (self.form, other.form) {
            (RowForm::V1, RowForm::V1) => self.bytes == other.bytes,
        }
    }
}

/// Whether the bytes are the encoding of a row with this many columns.
fn is_encoding(form: RowForm, bytes: &[u8], columns: u32) -> bool
    ensures { IsTrue result ↔ IsEncoding form columns bytes.now }
{
    match form {
        RowForm::V1 => !bytes.is_empty() && runs::are_runs(bytes, columns),
    }
}

/// The row that the bytes encode. `None` exactly where they are not the encoding of a row with this many
/// columns: a row has one encoding, so what [`encode`](crate::encode) gave is that row, and no other bytes
/// are.
pub fn check(form: RowForm, bytes: &[u8], columns: u32) -> Option<RowRef<'_>>
    ensures some { IsSome result ↔ IsEncoding form columns bytes.now }
    ensures found { IfSome result (Encodes form columns bytes.now) }
    ensures numbers { IfSome result (λ xs. xs ≡ row_numbers form bytes.now) }
    ensures only { (xs : List ℕ) → Encodes form columns bytes.now xs → result ≡ Some xs }
{
    if !is_encoding(form, bytes, columns) {
        return None;
    }
    Some(RowRef { form, bytes })
}

/// The row that the bytes encode, where they are known to encode one: where [`check`] would answer `Some`.
/// No byte is read.
pub fn view(form: RowForm, bytes: &[u8], columns: u32) -> RowRef<'_>
    requires { IsEncoding form columns bytes.now }
    ensures encoded { Encodes form columns bytes.now result }
    ensures numbers { result ≡ row_numbers form bytes.now }
{
    RowRef { form, bytes }
}
