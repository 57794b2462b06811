//! Makes a whole file.
ghost use Rattle.std.specs.Prelude.{◌≡◌, IfSome};
ghost use Rattle.bm_world.specs.Meanings.{with_written};
ghost use Rattle.bm_world.specs.World.{Step, RisesOnErr, AppendsAll, IsBeingMade, NothingIsMade, MakesFile};

use crate::{Failed, World};

/// Makes the named file, with these bytes alone, whether it was there or not. No file may be in the making. After
/// `Failed` the file holds some front of the bytes, or nothing has changed, where it could not be begun. No file is
/// in the making after it, however it ends.
pub fn write_all_of<W: World>(world: &mut W, name: &str, bytes: &[u8]) -> Result<(), Failed>
    requires { IfSome (W.told world.old) NothingIsMade }
    ensures step { Step (W.told world.old) (W.told world.new)
        (MakesFile name.now bytes.now result) }
    ensures cause { RisesOnErr (W.faults world.old).writes (W.faults world.new).writes result }
    ensures reads_stay { (W.faults world.new).reads ≡ (W.faults world.old).reads }
    ensures says_stay { (W.faults world.new).says ≡ (W.faults world.old).says }
{
    world.create(name)?;
    let written = write_all(world, bytes);
    let closed = world.close();
    written.and(closed)
}

/// Writes all of `bytes` to the file that is being made. After `Failed` some front of them was written.
fn write_all<W: World>(world: &mut W, bytes: &[u8]) -> Result<(), Failed>
    requires { IfSome (W.told world.old) IsBeingMade }
    ensures step { Step (W.told world.old) (W.told world.new)
        (AppendsAll with_written bytes.now result) }
    ensures cause { RisesOnErr (W.faults world.old).writes (W.faults world.new).writes result }
    ensures reads_stay { (W.faults world.new).reads ≡ (W.faults world.old).reads }
    ensures says_stay { (W.faults world.new).says ≡ (W.faults world.old).says }
{
    let mut rest = bytes;
    while !rest.is_empty() {
        match world.write(rest) {
            Ok(count) => rest = rest.split_at(count).1,
            Err(failed) => return Err(failed),
        }
    }
    Ok(())
}
