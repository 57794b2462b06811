//! Whether passes look at what a member holds.

ghost use Rattle.std.specs.Prelude.{◌≡◌, ◌↔◌, ◌≤◌, IsTrue, length};
ghost use Rattle.join_graph.specs.declared.steps.Step.TheVariants.{Variable};
ghost use Rattle.prune_plan.specs.steps.Members.{IsWanted, StandsBefore};

use join_graph::Step;
use node_plans::NodePairs;

/// Whether what a member holds is looked at after the passes over the pairs from the i-th on.
pub(crate) fn is_wanted(pairs: &NodePairs, i: u16, member: Step) -> bool
    requires { i ≤ length pairs.now }
    ensures { IsTrue result ↔ IsWanted pairs.now i member }
{
    match member {
        Step::Pattern(_) => true,
        Step::Variable(variable) => stands_before(pairs, i, variable),
    }
}

/// Whether a variable stands in one of the first i pairs.
fn stands_before(pairs: &NodePairs, i: u16, variable: u8) -> bool
    requires { i ≤ length pairs.now }
    ensures { IsTrue result ↔ StandsBefore pairs.now i (Variable variable) }
{
    for k in 0..i {
        let (first, second) = pairs.get(k);
        if is_variable(first, variable) {
            return true;
        }
        if is_variable(second, variable) {
            return true;
        }
    }
    false
}

fn is_variable(member: Step, variable: u8) -> bool
    ensures { IsTrue result ↔ (member ≡ Variable variable) }
{
    match member {
        Step::Pattern(_) => false,
        Step::Variable(other) => other == variable,
    }
}
