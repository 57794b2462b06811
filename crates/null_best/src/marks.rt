//! Which rows others extend.
ghost use Rattle.std.specs.Prelude.{◌≡◌, ◌≢◌, ◌≤◌, ◌↔◌, IsTrue, OnOk, length};
ghost use Rattle.std.specs.Int.Bits.{bit_and};
ghost use Rattle.std.specs.List.Sorted.{IsStrictlySortedBy};
ghost use Rattle.null_best.specs.steps.Groups.{AreGroups, IsGroup};
ghost use Rattle.null_best.specs.steps.Keys.{key_cmp};
ghost use Rattle.null_best.specs.steps.Marks.{AddsMarks, IsImproved, IsImprovedAcross, IsImprovedBy, HaveWidth};
ghost use Rattle.null_best.specs.steps.Searches.{Matches};

use crate::cut::Cut;
use crate::groups::Group;
use crate::row_key::RowKey;
use crate::search::find_near;
use std::alloc::{AllocError, Global};

/// Marks the rows that another row extends with more variables.
pub(crate) fn mark_extended(
    alloc: Global,
    keys: &[RowKey<'_>],
    groups: &[Group],
    marks: &mut [bool],
) -> Result<(), AllocError>
    requires ascends { IsStrictlySortedBy key_cmp keys.now }
    requires widths { HaveWidth keys.now }
    requires groups { AreGroups keys.now groups.now }
    requires len { length marks.old ≡ length keys.now }
    ensures { OnOk result (AddsMarks (IsImproved keys.now) marks.old marks.new) }
{
    let mut cut = Cut::new(alloc);
    for large in groups {
        mark_by(keys, groups, large, marks, &mut cut)?;
    }
    Ok(())
}

/// Marks the rows that a row of a group extends.
fn mark_by(
    keys: &[RowKey<'_>],
    groups: &[Group],
    large: &Group,
    marks: &mut [bool],
    cut: &mut Cut,
) -> Result<(), AllocError>
    requires ascends { IsStrictlySortedBy key_cmp keys.now }
    requires widths { HaveWidth keys.now }
    requires groups { AreGroups keys.now groups.now }
    requires large { IsGroup keys.now large.now }
    requires len { length marks.old ≡ length keys.now }
    ensures { OnOk result (AddsMarks (IsImprovedBy keys.now large.now) marks.old marks.new) }
{
    for small in groups {
        if is_part(small.vars, large.vars) {
            mark_group(keys, large, small, marks, cut)?;
        }
    }
    Ok(())
}

/// Whether a set is a part of another, and not the same.
fn is_part(small: u64, large: u64) -> bool
    ensures { IsTrue result ↔ ((bit_and small large ≡ small) × (small ≢ large)) }
{
    small & large == small && small != large
}

/// Marks the rows of a group that a row of another extends.
fn mark_group(
    keys: &[RowKey<'_>],
    large: &Group,
    small: &Group,
    marks: &mut [bool],
    cut: &mut Cut,
) -> Result<(), AllocError>
    requires ascends { IsStrictlySortedBy key_cmp keys.now }
    requires widths { HaveWidth keys.now }
    requires large { IsGroup keys.now large.now }
    requires small { IsGroup keys.now small.now }
    requires other { small.now.vars ≢ large.now.vars }
    requires len { length marks.old ≡ length keys.now }
    ensures { OnOk result (AddsMarks (IsImprovedAcross keys.now large.now small.now) marks.old marks.new) }
{
    let mut near = small.start;
    for i in large.start..large.end {
        cut.cut(keys[i].cells(), small.vars)?;
        let key = RowKey::new(cut.cells());
        near = mark_row(keys, small, near, &key, marks);
    }
    Ok(())
}

/// Marks a row in a group, if it is there. The answer is a place near which it stands.
fn mark_row(
    keys: &[RowKey<'_>],
    small: &Group,
    near: usize,
    key: &RowKey<'_>,
    marks: &mut [bool],
) -> usize
    requires ascends { IsStrictlySortedBy key_cmp keys.now }
    requires small { IsGroup keys.now small.now }
    requires near { small.now.start ≤ near }
    requires len { length marks.old ≡ length keys.now }
    ensures near { small.now.start ≤ result }
    ensures marks { AddsMarks (Matches keys.now small.now key.now) marks.old marks.new }
{
    match find_near(keys, small, near, key) {
        Ok(place) => {
            marks[place] = true;
            place
        }
        Err(place) => place,
    }
}
