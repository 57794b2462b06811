//! The calls of a world in memory that are to fail.
ghost use Rattle.std.specs.Prelude.{◌≡◌, [], ◌∷◌, ◌++◌, OnOk, OnErr};
ghost use Rattle.bm_world.specs.Schedule.{is_due, count_call, after_call};

use std::alloc::{AllocError, Global};
use std::marker::Model;

/// A call of a `World`, by its name.
#[derive(Clone, Copy, Debug, PartialEq, Eq)]
pub enum WorldCall {
    Open,
    Read,
    Create,
    Write,
    Close,
    Print,
    Complain,
}

#[derive(Drop)]
pub struct Schedule {
    entries: Vec<(WorldCall, u64)>,
}

impl Model for Schedule {
    ghost use Rattle.bm_world.specs.Schedule as spec;

    ghost Value = { spec.Schedule };

    ghost view = { λ schedule. schedule.entries.items };
}

impl Schedule {
    pub fn new(alloc: Global) -> Self
        ensures { result ≡ [] }
    {
        Schedule {
            entries: Vec::new(alloc),
        }
    }

    /// From now on the `k`-th call of this kind is to fail.
    pub fn add(&mut self, call: WorldCall, k: u64) -> Result<(), AllocError>
        ensures ok { OnOk result (self.new ≡ self.old ++ (call, k) ∷ []) }
        ensures err { OnErr result (self.new ≡ self.old) }
    {
        self.entries.push((call, k))?;
        Ok(())
    }

    /// Counts a call, and answers whether it is to fail.
    pub fn pass(&mut self, call: WorldCall) -> bool
        ensures due { result ≡ is_due call self.old }
        ensures left { self.new ≡ after_call call self.old }
    {
        let due = any_due(&self.entries, call);
        count_down(&mut self.entries, call);
        due
    }
}

fn any_due(entries: &[(WorldCall, u64)], call: WorldCall) -> bool
    ensures { result ≡ is_due call entries.now }
{
    entries.iter().any(|(kind, k)| *kind == call && *k == 1)
}

fn count_down(entries: &mut [(WorldCall, u64)], call: WorldCall)
    ensures { entries.new ≡ after_call call entries.old }
{
    for entry in entries.iter_mut() {
        *entry = counted(*entry, call);
    }
}

fn counted(entry: (WorldCall, u64), call: WorldCall) -> (WorldCall, u64)
    ensures { result ≡ count_call call entry }
{
    let (kind, k) = entry;
    if kind == call {
        (kind, k.saturating_sub(1))
    } else {
        entry
    }
}
