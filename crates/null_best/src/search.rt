//! Where a row stands in a group. A search begins near the place of the last one, since rows come in order.
ghost use Rattle.std.specs.Prelude.{◌≡◌, ◌<◌, ◌≤◌, false, true};
ghost use Rattle.std.specs.List.Sorted.{IsStrictlySortedBy};
ghost use Rattle.std.specs.Ordering.{is_lt};
ghost use Rattle.null_best.specs.steps.Groups.{IsGroup, row_at};
ghost use Rattle.null_best.specs.steps.Keys.{key_cmp};
ghost use Rattle.null_best.specs.steps.Searches.{IsFound, IsWindow};

use crate::groups::Group;
use crate::row_key::RowKey;
use std::cmp::Ordering;

/// The place of a row in a group, or else a place near which it would stand.
pub(crate) fn find_near(
    keys: &[RowKey<'_>],
    group: &Group,
    near: usize,
    cut: &RowKey<'_>,
) -> Result<usize, usize>
    requires ascends { IsStrictlySortedBy key_cmp keys.now }
    requires group { IsGroup keys.now group.now }
    requires near { group.now.start ≤ near }
    ensures { IsFound keys.now group.now cut.now result }
{
    let (low, high) = if near < group.end && precedes(&keys[near], cut) {
        after(keys, group, near, cut)
    } else {
        before(keys, group, near, cut)
    };
    find_between(keys, group, low, high, cut)
}

/// Whether a row comes before another.
fn precedes(key: &RowKey<'_>, cut: &RowKey<'_>) -> bool
    ensures { result ≡ is_lt (key_cmp key.now cut.now) }
{
    matches!(key.compare(cut), Ordering::Less)
}

/// A window from a place on, in steps that double.
fn after(keys: &[RowKey<'_>], group: &Group, near: usize, cut: &RowKey<'_>) -> (usize, usize)
    requires ascends { IsStrictlySortedBy key_cmp keys.now }
    requires group { IsGroup keys.now group.now }
    requires from { group.now.start ≤ near }
    requires below { near < group.now.end }
    requires before { is_lt (key_cmp (row_at keys.now near) cut.now) ≡ true }
    ensures { IsWindow keys.now group.now cut.now result.0 result.1 }
{
    let mut low = near;
    let mut step = 1;
    while step < group.end - low {
        let probe = low + step;
        if !precedes(&keys[probe], cut) {
            return (low, probe + 1);
        }
        low = probe;
        step = step.saturating_mul(2);
    }
    (low, group.end)
}

/// A window up to a place, in steps that double.
fn before(keys: &[RowKey<'_>], group: &Group, near: usize, cut: &RowKey<'_>) -> (usize, usize)
    requires ascends { IsStrictlySortedBy key_cmp keys.now }
    requires group { IsGroup keys.now group.now }
    requires from { group.now.start ≤ near }
    requires after { near < group.now.end → is_lt (key_cmp (row_at keys.now near) cut.now) ≡ false }
    ensures { IsWindow keys.now group.now cut.now result.0 result.1 }
{
    let mut high = if near < group.end {
        near + 1
    } else {
        group.end
    };
    let mut step = 1;
    while step < high - group.start {
        let probe = high - 1 - step;
        if precedes(&keys[probe], cut) {
            return (probe, high);
        }
        high = probe + 1;
        step = step.saturating_mul(2);
    }
    (group.start, high)
}

/// The place of a row in a window, or else where it would stand.
fn find_between(
    keys: &[RowKey<'_>],
    group: &Group,
    mut low: usize,
    mut high: usize,
    cut: &RowKey<'_>,
) -> Result<usize, usize>
    requires ascends { IsStrictlySortedBy key_cmp keys.now }
    requires group { IsGroup keys.now group.now }
    requires window { IsWindow keys.now group.now cut.now low high }
    ensures { IsFound keys.now group.now cut.now result }
{
    while low < high {
        let middle = low + (high - low) / 2;
        match keys[middle].compare(cut) {
            Ordering::Equal => return Ok(middle),
            Ordering::Less => low = middle + 1,
            Ordering::Greater => high = middle,
        }
    }
    Err(low)
}
