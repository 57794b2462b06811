ghost use Rattle.std.specs.Prelude.{◌≡◌, [], IfOk};
ghost use Rattle.alg_model.specs.Pattern.{Bgp, LeftJoin, algebra_of};

use crate::tree_of;
use alg_model::{PatList, Pattern};
use std::alloc::{AllocError, Global};
use std::process::Abort;
use std::test::Fail;

// {} OPTIONAL {{} OPTIONAL {}}
fn chain(alloc: Global) -> Result<Pattern, AllocError>
    ensures { IfOk result (λ pattern. algebra_of pattern ≡ LeftJoin (Bgp []) (LeftJoin (Bgp []) (Bgp []))) }
{
    let first = Pattern::Bgp(PatList::new(alloc));
    let second = Pattern::Bgp(PatList::new(alloc));
    let third = Pattern::Bgp(PatList::new(alloc));
    let inner = Pattern::left_join(alloc, second, third)?;
    Pattern::left_join(alloc, first, inner)
}

// The parents of the nodes, and how many variables and triple patterns they have together.
fn shape_of(alloc: Global, pattern: &Pattern) -> Result<(Vec<Option<u8>>, u64, usize), AllocError>
    requires { algebra_of pattern.now ≡ LeftJoin (Bgp []) (LeftJoin (Bgp []) (Bgp [])) }
{
    let tree = tree_of(alloc, pattern)?;
    let mut parents = Vec::new(alloc);
    let mut vars = 0;
    let mut patterns: usize = 0;
    for node in 0..tree.nodes() {
        parents.push(tree.parent(node))?;
        vars |= tree.vars(node);
        patterns = patterns.wrapping_add(tree.patterns(node).len());
    }
    Ok((parents, vars, patterns))
}

#[test]
fn the_nodes_of_a_chain_hang_one_from_the_other(rt: HostRuntime) -> Result<(), Fail> {
    let alloc = rt.alloc();
    let pattern = chain(alloc)?;
    let (parents, vars, patterns) = shape_of(alloc, &pattern)?;
    assert!(rt; parents.as_slice() == [None, Some(0), Some(1)].as_slice());
    assert_eq!(rt; vars, 0);
    assert_eq!(rt; patterns, 0);
    Ok(())
}
