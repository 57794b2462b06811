//! The pairs of a node.

ghost use Rattle.std.specs.Prelude.{◌≡◌, ◌<◌, ◌==◌, [], ◌∷◌, ◌++◌, Some, length, slice_get};

use join_graph::Step;
use std::marker::Model;

/// At most so many pairs: 256 triple patterns, of three variables each.
const MAX_PAIRS: usize = 768;

/// Pairs of members, in the order in which passes take them. They are seen as the list of them.
#[derive(Drop)]
pub struct NodePairs {
    pairs: [(Step, Step); MAX_PAIRS],
    len: u16,
}

impl Model for NodePairs {
    ghost use Rattle.std.specs.Prelude.{◌≤◌, List, length, take};
    ghost use Rattle.join_graph.specs.Members.{Member};

    ghost Value = { List (Member × Member) };

    ghost view = { λ l. take l.len l.pairs };

    ghost invariant = { λ l. l.len ≤ length l.pairs };
}

impl NodePairs {
    /// No pair.
    pub(crate) fn new() -> NodePairs
        ensures { result ≡ [] }
    {
        NodePairs {
            pairs: [(Step::Pattern(0), Step::Pattern(0)); MAX_PAIRS],
            len: 0,
        }
    }

    /// Puts a pair at the end.
    pub(crate) fn push(&mut self, from: Step, to: Step)
        requires { length self.old < 768 }
        ensures { self.new ≡ self.old ++ (from, to) ∷ [] }
    {
        self.pairs[self.len as usize] = (from, to);
        self.len += 1;
    }

    /// How many pairs there are.
    pub fn len(&self) -> u16
        ensures { result ≡ length self.now }
    {
        self.len
    }

    /// Whether there is no pair.
    pub fn is_empty(&self) -> bool
        ensures { result ≡ (length self.now == 0) }
    {
        self.len == 0
    }

    /// The i-th pair, from 0.
    pub fn get(&self, i: u16) -> (Step, Step)
        requires { i < length self.now }
        ensures { slice_get self.now i ≡ Some result }
    {
        self.pairs[i as usize]
    }
}
