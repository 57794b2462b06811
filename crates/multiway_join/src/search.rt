//! The search for the flat rows: a recursion over the nodes and their triple patterns.
ghost use Rattle.std.specs.Prelude.{◌≡◌, ℕ, ◌+◌, ◌<◌, ◌≤◌, ◌++◌, true, false, if◌then◌else◌, [], All, map, length, Some, OnOk, IfOk, IfSome};
ghost use Rattle.pattern_tree.specs.FlatTable.{row_of};
ghost use Rattle.pattern_rel.specs.Left.{pairs_left};
ghost use Rattle.tree_relations.specs.Prepared.{FitsTogether};
ghost use Rattle.multiway_join.specs.steps.Binding.{bind_pair, continued_by, CanJoin, HasNumber, IsReady};
ghost use Rattle.multiway_join.specs.steps.Search.{Lists, ListsAll, ListsPair, as_node, cells_dead, cells_from, cells_within, holds_parent, patterns_in, CanJoinNode};

use crate::binding::{bind_both, restore, saved_cells};
use crate::cursor::agreeing_with;
use crate::order::{JoinNode, JoinPattern, place_of};
use pattern_tree::FlatRows;
use std::alloc::AllocError;
use tree_relations::{Entry, Prepared};

/// Whether the parent of a node is matched. The root has none.
fn parent_is_matched(matched: u64, parent: Option<u8>) -> bool
    requires { IfSome parent (λ parent. parent < 64) }
    ensures { result ≡ holds_parent matched parent }
{
    match parent {
        Some(parent) => (matched >> parent) & 1 == 1,
        None => false,
    }
}

/// Lists the rows of the nodes from number k on, the root not among them, for a row and the nodes that it has matched.
#[cycle(join)]
fn from_node(
    prepared: &Prepared<'_>,
    nodes: &[JoinNode<'_>],
    k: u8,
    matched: u64,
    row: &mut [u32],
    rows: &mut FlatRows,
) -> Result<(), AllocError>
    requires together { FitsTogether prepared.now }
    requires few { k + length nodes.now ≤ 64 }
    requires later { 0 < k }
    requires width { length row.old ≡ rows.old.vars }
    requires narrow { length row.old ≤ 64 }
    requires nodes { All (CanJoinNode prepared.now (length row.old)) (map as_node nodes.now) }
    ensures listed { OnOk result (Lists (cells_from prepared.now (map as_node nodes.now) k matched row.old) rows.old rows.new) }
    ensures row { OnOk result (row.new ≡ row.old) }
{
    match nodes.split_first() {
        None => rows.push(row),
        Some((node, nodes)) => {
            if parent_is_matched(matched, node.parent) {
                tried(prepared, &node.patterns, nodes, k, matched, row, rows)
            } else {
                from_node(prepared, nodes, k + 1, matched, row, rows)
            }
        }
    }
}

/// Tries node k, on a copy of the row.
#[cycle(join)]
fn tried(
    prepared: &Prepared<'_>,
    patterns: &[JoinPattern<'_>],
    nodes: &[JoinNode<'_>],
    k: u8,
    matched: u64,
    entry: &mut [u32],
    rows: &mut FlatRows,
) -> Result<(), AllocError>
    requires together { FitsTogether prepared.now }
    requires few { k + length nodes.now < 64 }
    requires width { length entry.old ≡ rows.old.vars }
    requires narrow { length entry.old ≤ 64 }
    requires patterns { All (CanJoin prepared.now (length entry.old)) (patterns_in patterns.now) }
    requires nodes { All (CanJoinNode prepared.now (length entry.old)) (map as_node nodes.now) }
    ensures listed { OnOk result (Lists (cells_within prepared.now (patterns_in patterns.now) (map as_node nodes.now) k matched entry.old entry.old) rows.old rows.new) }
    ensures entry { OnOk result (entry.new ≡ entry.old) }
{
    let mut cells = [0; 64];
    let row = &mut cells[..entry.len()];
    row.copy_from_slice(entry);
    within(prepared, patterns, nodes, k, matched, entry, row, rows)
}

/// Lists the rows of a dead end at node k: those of the nodes behind it that are not below it, for the row that came to
/// the node. At the root there are none.
#[cycle(join)]
fn dead_end(
    prepared: &Prepared<'_>,
    nodes: &[JoinNode<'_>],
    k: u8,
    matched: u64,
    entry: &mut [u32],
    rows: &mut FlatRows,
) -> Result<(), AllocError>
    requires together { FitsTogether prepared.now }
    requires few { k + length nodes.now < 64 }
    requires width { length entry.old ≡ rows.old.vars }
    requires narrow { length entry.old ≤ 64 }
    requires nodes { All (CanJoinNode prepared.now (length entry.old)) (map as_node nodes.now) }
    ensures listed { OnOk result (Lists (cells_dead prepared.now (map as_node nodes.now) k matched entry.old) rows.old rows.new) }
    ensures entry { OnOk result (entry.new ≡ entry.old) }
{
    if k == 0 {
        return Ok(());
    }
    from_node(prepared, nodes, k + 1, matched, entry, rows)
}

/// Lists the rows of the triple patterns of node k that are left, and of the nodes behind it. `entry` is the row that
/// came to the node.
#[cycle(join)]
pub(crate) fn within(
    prepared: &Prepared<'_>,
    patterns: &[JoinPattern<'_>],
    nodes: &[JoinNode<'_>],
    k: u8,
    matched: u64,
    entry: &mut [u32],
    row: &mut [u32],
    rows: &mut FlatRows,
) -> Result<(), AllocError>
    requires together { FitsTogether prepared.now }
    requires few { k + length nodes.now < 64 }
    requires width { length row.old ≡ rows.old.vars }
    requires same_width { length entry.old ≡ rows.old.vars }
    requires narrow { length row.old ≤ 64 }
    requires patterns { All (CanJoin prepared.now (length row.old)) (patterns_in patterns.now) }
    requires nodes { All (CanJoinNode prepared.now (length row.old)) (map as_node nodes.now) }
    ensures listed { OnOk result (Lists (cells_within prepared.now (patterns_in patterns.now) (map as_node nodes.now) k matched entry.old row.old) rows.old rows.new) }
    ensures row { OnOk result (row.new ≡ row.old) }
    ensures entry { OnOk result (entry.new ≡ entry.old) }
{
    match patterns.split_first() {
        None => from_node(prepared, nodes, k + 1, matched | 1 << k, row, rows),
        Some((pattern, patterns)) => {
            let relation = prepared.entries.get(place_of(pattern.pattern));
            if with_pairs(
                prepared, relation, patterns, nodes, k, matched, entry, row, rows,
            )? {
                Ok(())
            } else {
                dead_end(prepared, nodes, k, matched, entry, rows)
            }
        }
    }
}

/// Lists the rows that have a pair of a relation, for each pair left that the row agrees with, and says whether there is
/// one.
#[cycle(join)]
fn with_pairs<'s, 'a>(
    prepared: &'s Prepared<'a>,
    relation: &'s Entry<'a>,
    patterns: &[JoinPattern<'_>],
    nodes: &[JoinNode<'_>],
    k: u8,
    matched: u64,
    entry: &mut [u32],
    row: &mut [u32],
    rows: &mut FlatRows,
) -> Result<bool, AllocError>
    requires together { FitsTogether prepared.now }
    requires few { k + length nodes.now < 64 }
    requires width { length row.old ≡ rows.old.vars }
    requires same_width { length entry.old ≡ rows.old.vars }
    requires narrow { length row.old ≤ 64 }
    requires ready { IsReady prepared.now (length row.old) relation.now }
    requires patterns { All (CanJoin prepared.now (length row.old)) (patterns_in patterns.now) }
    requires nodes { All (CanJoinNode prepared.now (length row.old)) (map as_node nodes.now) }
    ensures listed { IfOk result (λ any. ListsAll (cells_within prepared.now (patterns_in patterns.now) (map as_node nodes.now) k matched entry.old) (continued_by prepared.now (Some relation.now) (pairs_left prepared.now.pool relation.now.rel) row.old) any rows.old rows.new) }
    ensures row { OnOk result (row.new ≡ row.old) }
    ensures entry { OnOk result (entry.new ≡ entry.old) }
{
    let mut pairs = agreeing_with(prepared, relation, row);
    let mut any = false;
    while let Some(pair) = pairs.next() {
        if with_pair(
            prepared, relation, pair, patterns, nodes, k, matched, entry, row, rows,
        )? {
            any = true;
        }
    }
    Ok(any)
}

/// Lists the rows that have a pair, where the row agrees with it, and says whether it does.
#[cycle(join)]
fn with_pair(
    prepared: &Prepared<'_>,
    relation: &Entry<'_>,
    pair: (u32, u32),
    patterns: &[JoinPattern<'_>],
    nodes: &[JoinNode<'_>],
    k: u8,
    matched: u64,
    entry: &mut [u32],
    row: &mut [u32],
    rows: &mut FlatRows,
) -> Result<bool, AllocError>
    requires together { FitsTogether prepared.now }
    requires few { k + length nodes.now < 64 }
    requires width { length row.old ≡ rows.old.vars }
    requires same_width { length entry.old ≡ rows.old.vars }
    requires narrow { length row.old ≤ 64 }
    requires first_number { HasNumber prepared.now relation.now.first pair.0 }
    requires second_number { HasNumber prepared.now relation.now.second pair.1 }
    requires ready { IsReady prepared.now (length row.old) relation.now }
    requires patterns { All (CanJoin prepared.now (length row.old)) (patterns_in patterns.now) }
    requires nodes { All (CanJoinNode prepared.now (length row.old)) (map as_node nodes.now) }
    ensures listed { IfOk result (λ any. ListsPair (cells_within prepared.now (patterns_in patterns.now) (map as_node nodes.now) k matched entry.old) (bind_pair prepared.now relation.now row.old pair) any rows.old rows.new) }
    ensures row { OnOk result (row.new ≡ row.old) }
    ensures entry { OnOk result (entry.new ≡ entry.old) }
{
    let cells = saved_cells(relation, row);
    let agrees = bind_both(prepared, relation, pair, row);
    if agrees {
        within(prepared, patterns, nodes, k, matched, entry, row, rows)?;
    }
    restore(relation, cells, row);
    Ok(agrees)
}
