//! Writes whole texts to standard output and to standard error, by as many calls as the world takes.
ghost use Rattle.std.specs.Prelude.{◌≡◌};
ghost use Rattle.bm_world.specs.Meanings.{with_printed, with_complained};
ghost use Rattle.bm_world.specs.World.{Step, RisesOnErr, AppendsAll};

use crate::{Failed, World};

/// Writes all of `bytes` to standard output. After `Failed` some front of them was written.
pub fn print_all<W: World>(world: &mut W, bytes: &[u8]) -> Result<(), Failed>
    ensures step { Step (W.told world.old) (W.told world.new)
        (AppendsAll with_printed bytes.now result) }
    ensures cause { RisesOnErr (W.faults world.old).writes (W.faults world.new).writes result }
    ensures reads_stay { (W.faults world.new).reads ≡ (W.faults world.old).reads }
    ensures says_stay { (W.faults world.new).says ≡ (W.faults world.old).says }
{
    let mut rest = bytes;
    while !rest.is_empty() {
        match world.print(rest) {
            Ok(count) => rest = rest.split_at(count).1,
            Err(failed) => return Err(failed),
        }
    }
    Ok(())
}

/// Writes all of `bytes` to standard error. After `Failed` some front of them was written.
pub fn complain_all<W: World>(world: &mut W, bytes: &[u8]) -> Result<(), Failed>
    ensures step { Step (W.told world.old) (W.told world.new)
        (AppendsAll with_complained bytes.now result) }
    ensures cause { RisesOnErr (W.faults world.old).says (W.faults world.new).says result }
    ensures reads_stay { (W.faults world.new).reads ≡ (W.faults world.old).reads }
    ensures writes_stay { (W.faults world.new).writes ≡ (W.faults world.old).writes }
{
    let mut rest = bytes;
    while !rest.is_empty() {
        match world.complain(rest) {
            Ok(count) => rest = rest.split_at(count).1,
            Err(failed) => return Err(failed),
        }
    }
    Ok(())
}
