//! The values with which the variables of a node begin.

ghost use Rattle.std.specs.Prelude.{◌≡◌, ◌↔◌, ◌<◌, ℕ, IsTrue, length};
ghost use Rattle.std.specs.Int.{bit_at};
ghost use Rattle.pattern_tree.specs.Tree.{TreeNode};
ghost use Rattle.pruning_laws.specs.Plans.{IsEdge};
ghost use Rattle.pruning_laws.specs.Scene.{Scene};
ghost use Rattle.tree_relations.specs.Fits.{FitsTree};
ghost use Rattle.tree_relations.specs.Prepared.{FitsTogether};
ghost use Rattle.tree_relations.specs.Readings.{lists_left};
ghost use Rattle.mask_steps.specs.Held.{HasLayoutOf, HasValue, IsVarAt, OccursAt, kind_in};
ghost use Rattle.mask_steps.specs.Measure.{mask_bits};
ghost use Rattle.prune_plan.specs.Accepted.{HasNoCrossPlace};
ghost use Rattle.prune_plan.specs.steps.Nodes.{HasLevel, IsFirstValue, IsParent, IsReducedOnce, IsSceneOf};

use crate::nodes::parent_of;
use alg_model::Var;
use mask_steps::{VarKinds, gather};
use node_plans::node_sets;
use pattern_tree::Tree;
use tree_relations::Prepared;

/// The values with which the variables of a node begin: those that occur in each triple pattern of the parent that has the
/// variable. Those of the root's begin with all values. Where `once`, the parent's triple patterns have the same values, and
/// one is asked for each variable.
pub(crate) fn first_values(
    prepared: &mut Prepared<'_>,
    tree: &Tree<'_>,
    node: u8,
    once: bool,
) -> VarKinds
    requires node { node < length tree.now }
    requires fits { FitsTree tree.now prepared.old }
    requires accepted { HasNoCrossPlace tree.now }
    requires level { IsTrue once → (parent : ℕ) → IsParent tree.now node parent → HasLevel tree.now prepared.old parent }
    ensures values { (scene : Scene ℕ (ℕ × ℕ)) → IsSceneOf tree.now prepared.old scene → (i v x : ℕ) → IsEdge tree.now node i v →
        HasValue prepared.new result v x ↔ IsFirstValue tree.now prepared.old node v x }
    ensures lists { (i : ℕ) → lists_left prepared.new i ≡ lists_left prepared.old i }
    ensures bits { mask_bits prepared.new ≡ mask_bits prepared.old }
    ensures layout { HasLayoutOf prepared.old prepared.new }
{
    let mut kinds = VarKinds::new();
    if let Some(parent) = parent_of(tree, node) {
        let wanted = tree.vars(node);
        if once {
            gather_once(prepared, &mut kinds, tree, parent, wanted);
        } else {
            gather_parent(prepared, &mut kinds, tree, parent, wanted);
        }
    }
    kinds
}

/// Reduces each of the wanted variables by the first triple pattern of the parent that has it.
fn gather_once(
    prepared: &mut Prepared<'_>,
    kinds: &mut VarKinds,
    tree: &Tree<'_>,
    parent: u8,
    wanted: u64,
)
    requires parent { parent < length tree.now }
    requires fits { FitsTree tree.now prepared.old }
    requires accepted { HasNoCrossPlace tree.now }
    ensures values { (v : ℕ) → bit_at wanted v ≡ 1 → IsReducedOnce tree.now parent prepared.old kinds.old prepared.new kinds.new v }
    ensures lists { (i : ℕ) → lists_left prepared.new i ≡ lists_left prepared.old i }
    ensures bits { mask_bits prepared.new ≡ mask_bits prepared.old }
    ensures layout { HasLayoutOf prepared.old prepared.new }
{
    let sets = node_sets(tree, parent);
    let sets = sets.as_slice();
    let mut left = wanted;
    for place in 0..sets.len() {
        let own = sets[place] & left;
        gather_each(prepared, kinds, place as u16, own);
        left ^= own;
    }
}

/// Reduces each of the wanted variables by each triple pattern of the parent that has it.
fn gather_parent(
    prepared: &mut Prepared<'_>,
    kinds: &mut VarKinds,
    tree: &Tree<'_>,
    parent: u8,
    wanted: u64,
)
    requires parent { parent < length tree.now }
    requires fits { FitsTree tree.now prepared.old }
    requires accepted { HasNoCrossPlace tree.now }
    ensures values { (v x : ℕ) → bit_at wanted v ≡ 1 → HasValue prepared.new kinds.new v x ↔
        (HasValue prepared.old kinds.old v x × ((i : ℕ) → IsEdge tree.now parent i v → OccursAt prepared.old i v x)) }
    ensures lists { (i : ℕ) → lists_left prepared.new i ≡ lists_left prepared.old i }
    ensures bits { mask_bits prepared.new ≡ mask_bits prepared.old }
    ensures layout { HasLayoutOf prepared.old prepared.new }
{
    let sets = node_sets(tree, parent);
    let sets = sets.as_slice();
    for place in 0..sets.len() {
        gather_each(prepared, kinds, place as u16, sets[place] & wanted);
    }
}

/// Reduces each of some variables of a triple pattern by it.
fn gather_each(prepared: &mut Prepared<'_>, kinds: &mut VarKinds, place: u16, vars: u64)
    requires fits { FitsTogether prepared.old }
    requires there { (v : ℕ) → v < 64 → bit_at vars v ≡ 1 → IsVarAt prepared.old place v }
    ensures values { (v x : ℕ) → HasValue prepared.new kinds.new v x ↔ (HasValue prepared.old kinds.old v x × (v < 64 → bit_at vars v ≡ 1 → OccursAt prepared.old place v x)) }
    ensures lists { (i : ℕ) → lists_left prepared.new i ≡ lists_left prepared.old i }
    ensures bits { mask_bits prepared.new ≡ mask_bits prepared.old }
    ensures layout { HasLayoutOf prepared.old prepared.new }
{
    if vars == 0 {
        return;
    }
    for var in 0..64 {
        if (vars >> var) & 1 == 1 {
            gather(prepared, kinds, place, Var(var));
        }
    }
}
