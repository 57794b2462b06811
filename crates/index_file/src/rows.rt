//! Whether the slices are encodings, and whether each family has as many triples as are written.

ghost use Rattle.std.specs.Prelude.{◌≡◌, ◌↔◌, ◌-◌, ◌^◌, length, min, IsTrue, IsSome, IfSome, IfNone};
ghost use Rattle.std.specs.List.{flat_map};
ghost use Rattle.cube_slices.specs.Slices.{IsSlice};
ghost use Rattle.index_file.specs.Conditions.{columns_for, rows_for, AreSlices, CountsAgree, RowsAreEncodings};
ghost use Rattle.index_file.specs.Image.{group_in, slice_pairs, triples_in};

use crate::families::{columns_for, group_of, rows_for};
use crate::family::Family;
use crate::group::Group;
use crate::parts::Parts;
use cube_slices::check_slice;
use run_rows::RowForm;

/// How many pairs a slice has. `None` exactly where the bytes are none.
fn count_pairs(form: RowForm, bytes: &[u8], rows: u32, columns: u32) -> Option<u64>
    ensures some { IsSome result ↔ IsSlice form rows columns bytes.now }
    ensures pairs { IfSome result (λ n. n ≡ length (slice_pairs form bytes.now)) }
{
    let slice = check_slice(form, bytes, rows, columns)?;
    Some(slice.pairs())
}

/// How many pairs slices have together, or `2^64 − 1` where they have more. `None` exactly where one of them is no slice.
fn count_all_pairs(form: RowForm, slices: &Group<'_>, rows: u32, columns: u32) -> Option<u64>
    ensures some { IsSome result ↔ AreSlices form rows columns slices.now }
    ensures pairs { IfSome result (λ n. n ≡ min (length (flat_map (slice_pairs form) slices.now)) (2 ^ 64 - 1)) }
{
    let mut total = 0u64;
    for i in 0..slices.len() {
        match count_pairs(form, slices.get(i), rows, columns) {
            Some(pairs) => total = total.saturating_add(pairs),
            None => return None,
        }
    }
    Some(total)
}

/// How many triples a family has, or `2^64 − 1` where it has more. `None` exactly where one of its slices is none.
fn count_triples(form: RowForm, parts: &Parts<'_>, family: Family) -> Option<u64>
    ensures some { IsSome result ↔ AreSlices form (rows_for parts.now family) (columns_for parts.now family) (group_in parts.now family) }
    ensures triples { IfSome result (λ n. n ≡ min (length (triples_in form parts.now family)) (2 ^ 64 - 1)) }
{
    let rows = rows_for(parts, family);
    let columns = columns_for(parts, family);
    count_all_pairs(form, &group_of(parts, family), rows, columns)
}

/// Whether a family has as many triples as are written. `None` exactly where one of its slices is none.
fn count_agrees(form: RowForm, parts: &Parts<'_>, family: Family) -> Option<bool>
    ensures some { IsSome result ↔ AreSlices form (rows_for parts.now family) (columns_for parts.now family) (group_in parts.now family) }
    ensures agree { IfSome result (λ agree. IsTrue agree ↔ (length (triples_in form parts.now family) ≡ parts.now.triples)) }
{
    let triples = count_triples(form, parts, family)?;
    Some(triples == u64::from(parts.counts().triples))
}

/// Whether all four are true.
fn are_all(so: bool, os: bool, ps: bool, po: bool) -> bool
    ensures { IsTrue result ↔ (IsTrue so × IsTrue os × IsTrue ps × IsTrue po) }
{
    so && os && ps && po
}

/// Whether each family has as many triples as are written. `None` exactly where a slice is none.
pub(crate) fn counts_agree(form: RowForm, parts: &Parts<'_>) -> Option<bool>
    ensures none { IfNone result (RowsAreEncodings form parts.now → ⊥) }
    ensures rows { IfSome result (λ _. RowsAreEncodings form parts.now) }
    ensures counts { IfSome result (λ agree. IsTrue agree ↔ CountsAgree form parts.now) }
{
    let so = count_agrees(form, parts, Family::So)?;
    let os = count_agrees(form, parts, Family::Os)?;
    let ps = count_agrees(form, parts, Family::Ps)?;
    let po = count_agrees(form, parts, Family::Po)?;
    Some(are_all(so, os, ps, po))
}
