//! All edges of a node.

ghost use Rattle.std.specs.Prelude.{◌≡◌, ◌+◌, ◌-◌, ◌<◌, ◌≤◌, ◌++◌, All, length, map};
ghost use Rattle.alg_model.specs.Pattern.{place_vars};
ghost use Rattle.join_graph.specs.declared.steps.Step.TheVariants.{Pattern, Variable};
ghost use Rattle.node_plans.specs.Placed.{IsPlaced, edges_of, pattern_edges};

use crate::pairs::NodePairs;
use alg_model::{Place, TriplePat};
use join_graph::Step;
use pattern_tree::PatRefs;

/// The edges of some triple patterns, from each of them to its variables.
pub(crate) fn all_edges(patterns: &PatRefs<'_, '_>) -> NodePairs
    requires few { length patterns.now ≤ 256 }
    requires placed { All IsPlaced patterns.now }
    ensures { result ≡ edges_of patterns.now }
{
    let mut pairs = NodePairs::new();
    for i in 0..patterns.len() {
        push_edges(&mut pairs, patterns.get(i));
    }
    pairs
}

/// Puts the edges of a triple pattern at the end.
fn push_edges(pairs: &mut NodePairs, pattern: &TriplePat)
    requires room { length pairs.old + 3 ≤ 768 }
    requires placed { IsPlaced pattern.now }
    ensures edges { pairs.new ≡ pairs.old ++ pattern_edges pattern.now }
    ensures few { length pairs.new ≤ length pairs.old + 3 }
{
    let place = pattern.number - 1;
    push_edge(pairs, place, &pattern.subject);
    push_edge(pairs, place, &pattern.predicate);
    push_edge(pairs, place, &pattern.object);
}

/// Puts the edge to the variable at a place of a triple pattern at the end, if a variable stands there.
fn push_edge(pairs: &mut NodePairs, pattern: u16, place: &Place)
    requires { length pairs.old < 768 }
    ensures edge { pairs.new ≡ pairs.old ++ map (λ v. (Pattern pattern, Variable v)) (place_vars place.now) }
    ensures few { length pairs.new ≤ length pairs.old + 1 }
{
    if let Place::Var(var) = place {
        pairs.push(Step::Pattern(pattern), Step::Variable(var.0));
    }
}
