//! What a command does, and how it ends. The clause `step` says what is known at the ending, of the verdict of the steps
//! that are left and of what has moved; `reason` what shows that a call failed; `moves` which
//! files were opened, and that none is left in the making.
ghost use Rattle.std.specs.Prelude.{◌≡◌, None, Some, IfSome};
ghost use Rattle.std.specs.Option.{option_map};
ghost use Rattle.bm_world.specs.World.{NothingIsMade, Step};
ghost use Rattle.bm_top.specs.Command.{files_read, names_read};
ghost use Rattle.bm_top.specs.Standard.{IsRequestVerdict};
ghost use Rattle.bm_top.specs.steps.Ending.{Ends, HasReason, Moves, after_deciding, after_printing, after_reading, status_of};
ghost use Rattle.bm_top.specs.steps.Printing.{after_writing};
ghost use Rattle.bm_top.specs.steps.Requested.{requested};

use crate::ask::ask;
use crate::command::Command;
use crate::ending::Ending;
use crate::index_steps::{check, query};
use crate::load::load;
use crate::refusal::Refusal;
use crate::undecided::Undecided;
use bm_world::{Failed, ReadEnd, World};
use result_write::WriteEnd;
use std::alloc::Global;
use std::hash::BuildHasher;

/// The bytes that a data file may have.
pub(crate) const MAX_DATA_BYTES: u64 = 536_870_912;

/// The bytes that a query file may have.
pub(crate) const MAX_QUERY_BYTES: u64 = 1_048_576;

/// The bytes that an index file may have.
pub(crate) const MAX_INDEX_BYTES: u64 = 4_294_967_295;

/// Does what a command asks for, if there is one.
pub(crate) fn perform<'a, W: World, S: BuildHasher + Copy + Drop>(
    alloc: Global,
    hashers: S,
    command: Option<Command<'a>>,
    world: &mut W,
) -> Ending<'a>
    requires { IfSome (W.told world.old) NothingIsMade }
    ensures usage { option_map requested command.entry ≡ None → (status_of result ≡ 1) × (W.told world.new ≡ W.told world.old) }
    ensures step { Step (W.told world.old) (W.told world.new) (λ m n. Ends (IsRequestVerdict m.files (option_map requested command.entry)) result m n) }
    ensures reason { HasReason (λ files. IsRequestVerdict files (option_map requested command.entry)) (names_read (option_map requested command.entry))
        (W.told world.old) (W.faults world.old) (W.faults world.new) result }
    ensures moves { Step (W.told world.old) (W.told world.new) (Moves (names_read (option_map requested command.entry))) }
{
    match command {
        Some(command) => perform_command(alloc, hashers, command, world),
        None => Ending::Refused {
            refusal: Refusal::Usage,
        },
    }
}

fn perform_command<'a, W: World, S: BuildHasher + Copy + Drop>(
    alloc: Global,
    hashers: S,
    command: Command<'a>,
    world: &mut W,
) -> Ending<'a>
    requires { IfSome (W.told world.old) NothingIsMade }
    ensures step { Step (W.told world.old) (W.told world.new)
        (λ m n. Ends (IsRequestVerdict m.files (Some (requested command.entry))) result m n) }
    ensures reason { HasReason (λ files. IsRequestVerdict files (Some (requested command.entry))) (files_read (requested command.entry))
        (W.told world.old) (W.faults world.old) (W.faults world.new) result }
    ensures moves { Step (W.told world.old) (W.told world.new) (Moves (files_read (requested command.entry))) }
{
    match command {
        Command::Ask { data, query, form } => ask(alloc, hashers, data, query, form, world),
        Command::Load { data, index } => load(alloc, hashers, data, index, world),
        Command::Query {
            index,
            query: text,
            form,
        } => query(alloc, index, text, form, world),
        Command::Check { index } => check(alloc, index, world),
    }
}

/// How a command ends where the answers were printed, or not.
pub(crate) fn write_ending<'a>(written: Result<(), WriteEnd>) -> Ending<'a>
    ensures { result ≡ after_writing written }
{
    match written {
        Ok(()) => Ending::Done,
        Err(WriteEnd::Failed) => Ending::WriteFault,
        Err(WriteEnd::Memory) => Ending::Memory,
    }
}

/// How a command ends where a text was printed, or not.
pub(crate) fn print_ending<'a>(printed: Result<(), Failed>) -> Ending<'a>
    ensures { result ≡ after_printing printed }
{
    match printed {
        Ok(()) => Ending::Done,
        Err(Failed) => Ending::WriteFault,
    }
}

/// How a command ends where there is no answer.
pub(crate) fn undecided_ending<'a>(undecided: Undecided) -> Ending<'a>
    ensures { result ≡ after_deciding undecided }
{
    match undecided {
        Undecided::BadLine { line } => Ending::Refused {
            refusal: Refusal::BadLine { line },
        },
        Undecided::TooManyTriples => Ending::Refused {
            refusal: Refusal::TooManyTriples,
        },
        Undecided::ImageTooLong => Ending::Refused {
            refusal: Refusal::ImageTooLong,
        },
        Undecided::Query { refusal } => Ending::Refused {
            refusal: Refusal::Query { refusal },
        },
        Undecided::Memory => Ending::Memory,
    }
}

/// How a command ends where a file was not read.
pub(crate) fn read_ending(end: ReadEnd, name: &str, limit: u64) -> Ending<'_>
    ensures { result ≡ after_reading end name.entry limit }
{
    match end {
        ReadEnd::Fault => Ending::ReadFault { name },
        ReadEnd::TooLong => Ending::Refused {
            refusal: Refusal::TooLong { name, limit },
        },
        ReadEnd::Memory => Ending::Memory,
    }
}
