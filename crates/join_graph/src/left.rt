//! The members that are left while others are removed, and which of them are leaves.

ghost use Rattle.std.specs.Prelude.{ℕ, ◌<◌, ◌≤◌, ◌↔◌, length, IsTrue};
ghost use Rattle.std.specs.Bool.{OnTrue, OnFalse};
ghost use Rattle.join_graph.specs.Sets.{HasSize, without};
ghost use Rattle.join_graph.specs.Members.{Member, IsMember};
ghost use Rattle.join_graph.specs.Core.{neighbours_in};
ghost use Rattle.join_graph.specs.Removal.{IsLeaf};

use crate::steps::{MAX_PATTERNS, Step};
use crate::variables::{self, has, variables_of};

/// The members that are left.
#[derive(Drop)]
pub(crate) struct Left {
    patterns: [bool; MAX_PATTERNS],
    variables: u64,
}

impl Left {
    ghost use Rattle.join_graph.specs.Left.{IsKept, IsInRange, HasTwoIfKept};

    /// All members of the list.
    pub(crate) fn all(sets: &[u64]) -> Left
        requires { length sets.now ≤ 256 }
        ensures { (m : Member) → IsKept result m ↔ IsMember sets.now m }
    {
        let mut patterns = [false; MAX_PATTERNS];
        for place in 0..sets.len() {
            patterns[place] = true;
        }
        Left {
            patterns,
            variables: variables_of(sets),
        }
    }

    /// Takes one of the members away.
    pub(crate) fn remove(&mut self, step: Step)
        requires { IsKept self.old step }
        ensures { (m : Member) → IsKept self.new m ↔ without (IsKept self.old) step m }
    {
        match step {
            Step::Pattern(place) => self.patterns[place as usize] = false,
            Step::Variable(variable) => {
                self.variables = variables::remove(self.variables, variable);
            }
        }
    }

    /// Whether the member is left, and at most one of its neighbours.
    pub(crate) fn is_leaf(&self, sets: &[u64], step: Step) -> bool
        requires few { length sets.now ≤ 256 }
        requires in_range { IsInRange (length sets.now) step }
        ensures leaf { OnTrue result (IsLeaf sets.now (IsKept self.now) step) }
        ensures no_leaf { OnFalse result (HasTwoIfKept sets.now self.now step) }
    {
        if !self.contains(step) {
            return false;
        }
        self.neighbours(sets, step) <= 1
    }

    fn contains(&self, step: Step) -> bool
        requires { IsInRange 256 step }
        ensures { IsTrue result ↔ IsKept self.now step }
    {
        match step {
            Step::Pattern(place) => self.patterns[place as usize],
            Step::Variable(variable) => has(self.variables, variable),
        }
    }

    /// How many neighbours of the member are left.
    fn neighbours(&self, sets: &[u64], step: Step) -> u16
        requires few { length sets.now ≤ 256 }
        requires in_range { IsInRange (length sets.now) step }
        ensures { HasSize (neighbours_in sets.now (IsKept self.now) step) result }
    {
        match step {
            Step::Pattern(place) => (sets[place as usize] & self.variables).count_ones() as u16,
            Step::Variable(variable) => self.patterns_with(sets, variable),
        }
    }

    /// How many patterns that have the variable are left.
    fn patterns_with(&self, sets: &[u64], variable: u8) -> u16
        requires few { length sets.now ≤ 256 }
        requires number { variable < 64 }
        ensures { HasSize (neighbours_in sets.now (IsKept self.now) (Step.Variable variable)) result }
    {
        let mut count = 0;
        for place in 0..sets.len() {
            if self.patterns[place] && has(sets[place], variable) {
                count += 1;
            }
        }
        count
    }
}
