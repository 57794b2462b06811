//! Reads a whole file, up to a limit.
ghost use Rattle.std.specs.Prelude.{◌≡◌, ◌⊎◌, ◌≤◌, IfOk, IsErrOf, IsSomeAnd, vec_len};
ghost use Rattle.bm_world.specs.declared.reading.ReadEnd.TheVariants.{Fault, Memory};
ghost use Rattle.bm_world.specs.World.{Step, Rose, IsMissing};
ghost use Rattle.bm_world.specs.Reading.{ReadsAll};

use crate::{Failed, World};
use std::alloc::{AllocError, Global};

/// Why a file was not read to its end.
#[derive(Clone, Copy, Debug, PartialEq, Eq)]
pub enum ReadEnd {
    /// A call of the world failed, as it does where the file is missing.
    Fault,
    /// The file has more bytes than the limit.
    TooLong,
    /// Out of memory.
    Memory,
}

impl From<Failed> for ReadEnd {
    ghost from_gives = { λ _ e. e ≡ Fault };

    fn from(_: Failed) -> Self {
        ReadEnd::Fault
    }
}

impl From<AllocError> for ReadEnd {
    ghost from_gives = { λ _ e. e ≡ Memory };

    fn from(_: AllocError) -> Self {
        ReadEnd::Memory
    }
}

/// How many bytes come at once, at most.
const BUFFER: usize = 65_536;

/// Opens the named file, once, and reads it to its end, if it has at most `limit` bytes. A longer
/// file whose calls succeed is `TooLong`, or `Memory`. No more is read once more than `limit` bytes
/// have come.
pub fn read_all<W: World>(
    alloc: Global,
    world: &mut W,
    name: &str,
    limit: u64,
) -> Result<Vec<u8>, ReadEnd>
    ensures step { Step (W.told world.old) (W.told world.new) (ReadsAll name.now limit result) }
    ensures within { IfOk result (λ bytes. vec_len bytes ≤ limit) }
    ensures fault { IsErrOf result ReadEnd.Fault →
        Rose (W.faults world.old).reads (W.faults world.new).reads
        ⊎ IsSomeAnd (W.told world.old) (IsMissing name.now) }
    ensures later { (W.faults world.old).reads ≤ (W.faults world.new).reads }
    ensures writes_stay { (W.faults world.new).writes ≡ (W.faults world.old).writes }
    ensures says_stay { (W.faults world.new).says ≡ (W.faults world.old).says }
{
    world.open(name)?;
    let mut room = vec![in alloc; 0u8; BUFFER]?;
    let buffer = room.as_mut_slice();
    let mut bytes = Vec::new(alloc);
    loop {
        let count = world.read(buffer)?;
        if count == 0 {
            return Ok(bytes);
        }
        bytes.extend_from_slice(&buffer[..count])?;
        if bytes.len() as u64 > limit {
            return Err(ReadEnd::TooLong);
        }
    }
}
