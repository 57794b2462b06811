//! The numbers of a row, and its runs, one after the other.

ghost use Rattle.std.specs.Prelude.{◌≡◌, ◌+◌, ◌-◌, ◌^◌, ◌<◌, [], ◌∷◌, IfSome, IfNone};
ghost use Rattle.std.specs.Iterator.{YieldsFirst, item_count};
ghost use Rattle.run_rows.specs.Runs.{members};
ghost use Rattle.run_rows.specs.Encoding.{runs_in, SpellsRuns};

use crate::run::{Run, split_run};
use std::marker::Model;

/// The numbers of a row in ascending order. It is seen as the numbers that are left.
#[derive(Debug, Drop)]
pub struct RowIter<'a> {
    run: Run,
    rest: &'a [u8],
}

impl<'a> Model for RowIter<'a> {
    ghost use Rattle.std.specs.Prelude.{ℕ, List, ◌∷◌, ◌+◌, ◌-◌, ◌^◌, ◌<◌};
    ghost use Rattle.run_rows.specs.Runs.{members};
    ghost use Rattle.run_rows.specs.Encoding.{runs_in, SpellsRuns};

    ghost Value = { List ℕ };

    ghost view = { λ i. members (i.run ∷ runs_in i.rest.now) };

    ghost invariant = { λ i. (i.run.start + i.run.len < 2 ^ 32) × SpellsRuns 0 (2 ^ 32 - 1) i.rest.now };
}

impl<'a> RowIter<'a> {
    /// The numbers of the runs that the bytes spell.
    pub(crate) fn over_runs(bytes: &'a [u8]) -> RowIter<'a>
        requires { SpellsRuns 0 (2 ^ 32 - 1) bytes.now }
        ensures { result ≡ members (runs_in bytes.now) }
    {
        RowIter {
            run: Run { start: 0, len: 0 },
            rest: bytes,
        }
    }
}

/// The runs of a row in order, each as long as can be. It is seen as the runs that are left.
#[derive(Debug, Drop)]
pub struct RunIter<'a> {
    rest: &'a [u8],
}

impl<'a> Model for RunIter<'a> {
    ghost use Rattle.std.specs.Prelude.{List, ◌-◌, ◌^◌};
    ghost use Rattle.run_rows.specs.declared.run.Run.{Run};
    ghost use Rattle.run_rows.specs.Encoding.{runs_in, SpellsRuns};

    ghost Value = { List Run };

    ghost view = { λ i. runs_in i.rest.now };

    ghost invariant = { λ i. SpellsRuns 0 (2 ^ 32 - 1) i.rest.now };
}

impl<'a> RunIter<'a> {
    /// The runs that the bytes spell.
    pub(crate) fn over(bytes: &'a [u8]) -> RunIter<'a>
        requires { SpellsRuns 0 (2 ^ 32 - 1) bytes.now }
        ensures { result ≡ runs_in bytes.now }
    {
        RunIter { rest: bytes }
    }
}

/// The first of the runs, and the bytes of the others.
fn split_first_run(rest: &[u8]) -> Option<(Run, &[u8])>
    requires { SpellsRuns 0 (2 ^ 32 - 1) rest.now }
    ensures first { IfSome result (λ parts. runs_in rest.now ≡ parts.0 ∷ runs_in parts.1.now) }
    ensures left { IfSome result (λ parts. SpellsRuns 0 (2 ^ 32 - 1) parts.1.now) }
    ensures none { IfNone result (runs_in rest.now ≡ []) }
{
    let (run, rest) = split_run(rest)?;
    Some((run, rest))
}

impl<'a> Iterator for RunIter<'a> {
    type Item = Run;

    ghost next_gives = { YieldsFirst (λ r. r) };

    ghost remaining = { item_count (λ r. r) };

    fn next(&mut self) -> Option<Run> {
        let (run, rest) = split_first_run(self.rest)?;
        self.rest = rest;
        Some(run)
    }
}

/// The first number of a run and the runs behind it, and what is left of them.
fn split_number(run: Run, rest: &[u8]) -> Option<(u32, Run, &[u8])>
    requires fits { run.start + run.len < 2 ^ 32 }
    requires runs { SpellsRuns 0 (2 ^ 32 - 1) rest.now }
    ensures first { IfSome result (λ parts.
        members (run ∷ runs_in rest.now) ≡ parts.0 ∷ members (parts.1 ∷ runs_in parts.2.now)) }
    ensures left_fits { IfSome result (λ parts. parts.1.start + parts.1.len < 2 ^ 32) }
    ensures left_runs { IfSome result (λ parts. SpellsRuns 0 (2 ^ 32 - 1) parts.2.now) }
    ensures none { IfNone result (members (run ∷ runs_in rest.now) ≡ []) }
{
    if run.len > 0 {
        return Some((run.start, run.tail(), rest));
    }
    let (run, rest) = split_run(rest)?;
    Some((run.start, run.tail(), rest))
}

impl<'a> Iterator for RowIter<'a> {
    type Item = u32;

    ghost next_gives = { YieldsFirst (λ r. r) };

    ghost remaining = { item_count (λ r. r) };

    fn next(&mut self) -> Option<u32> {
        let (number, run, rest) = split_number(self.run, self.rest)?;
        self.run = run;
        self.rest = rest;
        Some(number)
    }
}
