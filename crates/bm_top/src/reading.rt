//! A data file is read in pieces: no more of it is in memory than a buffer, and the line that has not ended.
ghost use Rattle.std.specs.Prelude.{◌≡◌, ◌⊎◌, ◌≤◌, Ok, IsErrOf, IsSomeAnd};
ghost use Rattle.bm_world.specs.World.{IsMissing, Rose};
ghost use Rattle.bm_world.specs.declared.reading.ReadEnd.TheVariants.{Fault};
ghost use Rattle.nt_read.specs.Pieces.{new_stream};
ghost use Rattle.bm_top.specs.Lines.{max_data_bytes};
ghost use Rattle.bm_top.specs.Pieces.{CameInPieces};
ghost use Rattle.bm_top.specs.steps.Pieces.{CameAsData, end_of};

use crate::steps::MAX_DATA_BYTES;
use bm_term::Taker;
use bm_world::{ReadEnd, World};
use nt_read::{FeedFault, Reader};
use std::alloc::Global;
use std::hash::BuildHasher;
use term_numbers::{Builder, MAX_TRIPLES};

/// How many bytes come at once, at most.
const BUFFER: usize = 65_536;

/// Opens the named file, once, and reads it to its end, if it has at most `limit` bytes, and hands the triples of its
/// lines to `into`. The answer is the first bad line, if there is one: the file is read to its end all the same, and of
/// the lines after it nothing is taken. A longer file whose calls succeed is `TooLong`, or `Memory`. After a refusal
/// `into` has taken the triples of some of the lines.
pub fn read_pieces<W: World, T: Taker>(
    alloc: Global,
    world: &mut W,
    name: &str,
    limit: u64,
    reader: &mut Reader,
    into: &mut T,
) -> Result<Option<u64>, ReadEnd>
    requires { reader.old ≡ Ok new_stream }
    ensures came { CameInPieces name.now limit (W.told world.old) (W.told world.new) (T.kept into.old) (T.kept into.new) result }
    ensures fault { IsErrOf result ReadEnd.Fault →
        Rose (W.faults world.old).reads (W.faults world.new).reads
        ⊎ IsSomeAnd (W.told world.old) (IsMissing name.now) }
    ensures later { (W.faults world.old).reads ≤ (W.faults world.new).reads }
    ensures writes_stay { (W.faults world.new).writes ≡ (W.faults world.old).writes }
    ensures says_stay { (W.faults world.new).says ≡ (W.faults world.old).says }
{
    world.open(name)?;
    let mut room = vec![in alloc; 0u8; BUFFER]?;
    let buffer = room.as_mut_slice();
    let mut left = limit;
    loop {
        let count = world.read(buffer)?;
        if count == 0 {
            return ended(reader.finish(into));
        }
        if count as u64 > left {
            return Err(ReadEnd::TooLong);
        }
        left -= count as u64;
        if reader.feed(&buffer[..count], into) == Err(FeedFault::Memory) {
            return Err(ReadEnd::Memory);
        }
    }
}

/// Reads a data file, and numbers its triples as they come: the first bad line, if there is one, and the triples.
pub(crate) fn read_data<W: World, S: BuildHasher + Copy>(
    alloc: Global,
    hashers: S,
    world: &mut W,
    name: &str,
) -> Result<(Option<u64>, Builder<S>), ReadEnd>
    ensures came { CameAsData name.now max_data_bytes (W.told world.old) (W.told world.new) result }
    ensures fault { IsErrOf result ReadEnd.Fault →
        Rose (W.faults world.old).reads (W.faults world.new).reads
        ⊎ IsSomeAnd (W.told world.old) (IsMissing name.now) }
    ensures later { (W.faults world.old).reads ≤ (W.faults world.new).reads }
    ensures writes_stay { (W.faults world.new).writes ≡ (W.faults world.old).writes }
    ensures says_stay { (W.faults world.new).says ≡ (W.faults world.old).says }
{
    let mut reader = Reader::new(alloc);
    let mut triples = Builder::with_hasher(alloc, hashers, MAX_TRIPLES);
    let read = read_pieces(
        alloc,
        world,
        name,
        MAX_DATA_BYTES,
        &mut reader,
        &mut triples,
    );
    match read {
        Ok(bad) => Ok((bad, triples)),
        Err(end) => Err(end),
    }
}

/// What the end of the stream says of the file.
fn ended(finished: Result<(), FeedFault>) -> Result<Option<u64>, ReadEnd>
    ensures { result ≡ end_of finished }
{
    match finished {
        Ok(()) => Ok(None),
        Err(FeedFault::NotNTriples { line }) => Ok(Some(line)),
        Err(FeedFault::Memory) => Err(ReadEnd::Memory),
    }
}
