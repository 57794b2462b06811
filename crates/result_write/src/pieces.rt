//! Prints a text that comes in pieces, through one buffer that is used again.
ghost use Rattle.std.specs.Prelude.{◌≡◌, ◌<◌, ◌++◌, [], ℕ, List, length, slice_index_or, OnOk};
ghost use Rattle.std.specs.List.{concat};
ghost use Rattle.bm_world.specs.World.{Step, RisesOnErr};
ghost use Rattle.result_write.specs.Printing.{Prints, HasWriteCause};
ghost use Rattle.result_write.specs.held.Buffered.{HandsOn};

use crate::WriteEnd;
use bm_world::{Failed, World, print_all};
use std::alloc::{AllocError, Global};

/// A text in pieces, each of which is made when it is asked for.
pub(crate) trait Pieces {
    ghost pieces: { Self → List (List ℕ) };

    /// How many pieces there are.
    fn count(&self) -> usize
        ensures { result ≡ length (pieces self.now) };

    /// Puts a piece behind a text.
    fn push(&self, i: usize, text: &mut Vec<u8>) -> Result<(), AllocError>
        requires { i < length (pieces self.now) }
        ensures { OnOk result (text.new.items ≡ text.old.items ++ slice_index_or (pieces self.now) i []) };
}

/// Prints all pieces. They are gathered in a buffer, which is printed where it holds so many bytes or more, and at the
/// end: it never holds more than that and one piece. After an `Err` some front of the text was printed.
pub(crate) fn print_pieces<W: World, P: Pieces>(
    alloc: Global,
    enough: usize,
    pieces: &P,
    world: &mut W,
) -> Result<(), WriteEnd>
    ensures step { Step (W.told world.old) (W.told world.new) (Prints (concat (P.pieces pieces.now)) result) }
    ensures cause { HasWriteCause (W.faults world.old).writes (W.faults world.new).writes result }
    ensures reads_stay { (W.faults world.new).reads ≡ (W.faults world.old).reads }
    ensures says_stay { (W.faults world.new).says ≡ (W.faults world.old).says }
{
    let mut text = Vec::new(alloc);
    for i in 0..pieces.count() {
        match push_and_hand_on(enough, pieces, i, &mut text, world) {
            Ok(()) => {}
            Err(end) => return Err(end),
        }
    }
    match print_all(world, &text) {
        Ok(()) => Ok(()),
        Err(_) => Err(WriteEnd::Failed),
    }
}

/// Puts a piece into the buffer, and prints the buffer where it holds enough.
fn push_and_hand_on<W: World, P: Pieces>(
    enough: usize,
    pieces: &P,
    i: usize,
    text: &mut Vec<u8>,
    world: &mut W,
) -> Result<(), WriteEnd>
    requires { i < length (P.pieces pieces.now) }
    ensures step { Step (W.told world.old) (W.told world.new)
        (HandsOn (text.old.items ++ slice_index_or (P.pieces pieces.now) i []) text.new.items result) }
    ensures cause { HasWriteCause (W.faults world.old).writes (W.faults world.new).writes result }
    ensures reads_stay { (W.faults world.new).reads ≡ (W.faults world.old).reads }
    ensures says_stay { (W.faults world.new).says ≡ (W.faults world.old).says }
{
    match pieces.push(i, text) {
        Ok(()) => {}
        Err(_) => return Err(WriteEnd::Memory),
    }
    match hand_on(enough, text, world) {
        Ok(()) => Ok(()),
        Err(_) => Err(WriteEnd::Failed),
    }
}

/// Prints the buffer and empties it, where it holds enough.
fn hand_on<W: World>(enough: usize, text: &mut Vec<u8>, world: &mut W) -> Result<(), Failed>
    ensures step { Step (W.told world.old) (W.told world.new) (HandsOn text.old.items text.new.items result) }
    ensures cause { RisesOnErr (W.faults world.old).writes (W.faults world.new).writes result }
    ensures reads_stay { (W.faults world.new).reads ≡ (W.faults world.old).reads }
    ensures says_stay { (W.faults world.new).says ≡ (W.faults world.old).says }
{
    if text.len() < enough {
        return Ok(());
    }
    match print_all(world, text) {
        Ok(()) => {
            text.clear();
            Ok(())
        }
        Err(failed) => Err(failed),
    }
}
