//! The flat rows of a tree, over the relations that are prepared for it.
ghost use Rattle.std.specs.Prelude.{◌≡◌, ℕ, ◌+◌, ◌<◌, ◌≤◌, [], ◌∷◌, All, map, length, replicate, IfOk, OnOk};
ghost use Rattle.alg_model.specs.Limits.{max_variables};
ghost use Rattle.pattern_tree.specs.Standing.{OccursAt};
ghost use Rattle.tree_relations.specs.Fits.{FitsTree};
ghost use Rattle.tree_relations.specs.Prepared.{FitsTogether};
ghost use Rattle.multiway_join.specs.Joined.{AreFlatRows};
ghost use Rattle.multiway_join.specs.steps.Search.{Lists, as_node, flat_cells, CanJoinNode};

use crate::order::{JoinNode, ordered_nodes};
use crate::search::within;
use pattern_tree::{FlatRows, Tree};
use std::alloc::{AllocError, Global};
use tree_relations::Prepared;

/// The flat rows of a tree, in its join order, over what is left of its relations. The tree has no variable that is not
/// below `vars`, and `vars` is at most 64. It takes memory for the rows and for the order. `Err` only where memory runs
/// out.
pub fn flat_rows(
    alloc: Global,
    prepared: &Prepared<'_>,
    tree: &Tree<'_>,
    vars: u8,
) -> Result<FlatRows, AllocError>
    requires fits { FitsTree tree.now prepared.now }
    requires few { vars ≤ max_variables }
    requires below { (k var : ℕ) → OccursAt tree.now k var → var < vars }
    ensures rows { IfOk result (AreFlatRows prepared.now tree.now vars) }
{
    tree.nodes();
    let nodes = ordered_nodes(alloc, prepared, tree)?;
    let mut rows = FlatRows::new(alloc, vars);
    join_nodes(prepared, &nodes, vars, &mut rows)?;
    Ok(rows)
}

/// Lists the rows of nodes that are in order.
fn join_nodes(
    prepared: &Prepared<'_>,
    nodes: &[JoinNode<'_>],
    vars: u8,
    rows: &mut FlatRows,
) -> Result<(), AllocError>
    requires together { FitsTogether prepared.now }
    requires few { vars ≤ max_variables }
    requires few_nodes { length nodes.now ≤ 64 }
    requires width { rows.old.vars ≡ vars }
    requires nodes { All (CanJoinNode prepared.now vars) (map as_node nodes.now) }
    ensures { OnOk result (Lists (flat_cells prepared.now (map as_node nodes.now) vars) rows.old rows.new) }
{
    let Some((root, nodes)) = nodes.split_first() else {
        return Ok(());
    };
    let mut entry = [0; 64];
    let mut row = [0; 64];
    let width = vars as usize;
    join_root(
        prepared,
        root,
        nodes,
        &mut entry[..width],
        &mut row[..width],
        rows,
    )
}

/// Lists the rows of the root and of the nodes behind it, for two rows in which nothing is bound.
fn join_root(
    prepared: &Prepared<'_>,
    root: &JoinNode<'_>,
    nodes: &[JoinNode<'_>],
    entry: &mut [u32],
    row: &mut [u32],
    rows: &mut FlatRows,
) -> Result<(), AllocError>
    requires together { FitsTogether prepared.now }
    requires few_nodes { length nodes.now < 64 }
    requires few { rows.old.vars ≤ max_variables }
    requires entry { entry.old ≡ replicate rows.old.vars 0 }
    requires row { row.old ≡ replicate rows.old.vars 0 }
    requires root { CanJoinNode prepared.now rows.old.vars (as_node root.now) }
    requires nodes { All (CanJoinNode prepared.now rows.old.vars) (map as_node nodes.now) }
    ensures { OnOk result (Lists (flat_cells prepared.now (as_node root.now ∷ map as_node nodes.now) rows.old.vars) rows.old rows.new) }
{
    within(prepared, &root.patterns, nodes, 0, 0, entry, row, rows)
}
