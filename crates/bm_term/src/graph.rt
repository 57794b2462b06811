// Laws of graphs and of the order of triples.
ghost use Rattle.std.specs.Prelude.{◌≡◌, ◌↔◌, List};
ghost use Rattle.bm_term.specs.declared.triple.Triple.{Triple};
ghost use Rattle.bm_term.specs.Graph.{triple_cmp, IsGraph, graph_of};

use crate::Triple;
use std::cmp::Ordering;

/// Each list of triples has one graph. The call does nothing: its contract is the law.
pub fn each_list_has_one_graph()
    ensures { (triples graph : List Triple) → IsGraph triples graph ↔ (graph ≡ graph_of triples) }
{}

/// Triples are compared as graphs are ordered: by subject, then predicate, then object, each by the bytes of
/// its text.
pub fn compare_triples(triple: &Triple, other: &Triple) -> Ordering
    ensures { result ≡ triple_cmp triple.now other.now }
{
    triple.cmp(other)
}
