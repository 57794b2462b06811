//! The removal of a member, and the order of removals.

ghost use Rattle.std.specs.Prelude.{◌≡◌, ◌+◌, ◌<◌, ◌≤◌, [], ◌∷◌, ◌++◌, Some, length, slice_get};

use std::marker::Model;

/// The removal of a pattern, by its place in the list from 0, or of a variable, by its number.
#[derive(Clone, Copy, PartialEq, Eq, Debug)]
pub enum Step {
    Pattern(u16),
    Variable(u8),
}

/// How many patterns a list may have.
pub(crate) const MAX_PATTERNS: usize = 256;

/// As many steps as there can be: a step for each pattern, and one for each of 64 variables.
const MAX_STEPS: usize = MAX_PATTERNS + 64;

/// The steps of a removal in their order, and how many members were not removed.
#[derive(Drop)]
pub struct Order {
    steps: [Step; MAX_STEPS],
    len: u16,
    core: u16,
}

impl Model for Order {
    ghost use Rattle.std.specs.Prelude.{◌+◌, ◌≤◌, length, take};
    ghost use Rattle.join_graph.specs.Removal.{Removal};

    ghost Value = { Removal };

    ghost view = { λ order. record { steps = take order.len order.steps; core = order.core } };

    ghost invariant = { λ order. order.len + order.core ≤ length order.steps };
}

impl Order {
    /// No step yet, of a graph with so many members.
    pub(crate) fn new(members: u16) -> Order
        requires { members ≤ 320 }
        ensures steps { result.steps ≡ [] }
        ensures core { result.core ≡ members }
    {
        Order {
            steps: [Step::Pattern(0); MAX_STEPS],
            len: 0,
            core: members,
        }
    }

    /// Takes a member from those that were not removed.
    pub(crate) fn push(&mut self, step: Step)
        requires { 0 < self.old.core }
        ensures steps { self.new.steps ≡ self.old.steps ++ step ∷ [] }
        ensures core { self.new.core + 1 ≡ self.old.core }
    {
        self.steps[self.len as usize] = step;
        self.len += 1;
        self.core -= 1;
    }

    /// How many steps there are.
    pub fn len(&self) -> u16
        ensures { result ≡ length self.now.steps }
    {
        self.len
    }

    /// The i-th step, from 0.
    pub fn step(&self, i: u16) -> Step
        requires { i < length self.now.steps }
        ensures { slice_get self.now.steps i ≡ Some result }
    {
        self.steps[i as usize]
    }

    /// How many members the core has.
    pub fn core(&self) -> u16
        ensures { result ≡ self.now.core }
    {
        self.core
    }
}
