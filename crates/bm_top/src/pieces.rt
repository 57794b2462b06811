//! A text that is written piece by piece, which takes no memory. After the first piece that fails no other is handed on.
ghost use Rattle.std.specs.Prelude.{◌≡◌};
ghost use Rattle.std.specs.List.{flat_map};
ghost use Rattle.bm_world.specs.Meanings.{with_complained, with_printed};
ghost use Rattle.bm_world.specs.World.{Step, RisesOnErr, AppendsAll};

use bm_world::{Failed, World, complain_all, print_all};

/// Writes the pieces to standard error, one after another.
pub(crate) fn complain_pieces<W: World>(world: &mut W, pieces: &[&[u8]]) -> Result<(), Failed>
    ensures step { Step (W.told world.old) (W.told world.new)
        (AppendsAll with_complained (flat_map (λ piece. piece.now) pieces.now) result) }
    ensures cause { RisesOnErr (W.faults world.old).says (W.faults world.new).says result }
    ensures reads_stay { (W.faults world.new).reads ≡ (W.faults world.old).reads }
    ensures writes_stay { (W.faults world.new).writes ≡ (W.faults world.old).writes }
{
    for piece in pieces {
        match complain_all(world, piece) {
            Ok(()) => {}
            Err(failed) => return Err(failed),
        }
    }
    Ok(())
}

/// Prints the pieces, one after another.
pub(crate) fn print_pieces<W: World>(world: &mut W, pieces: &[&[u8]]) -> Result<(), Failed>
    ensures step { Step (W.told world.old) (W.told world.new)
        (AppendsAll with_printed (flat_map (λ piece. piece.now) pieces.now) result) }
    ensures cause { RisesOnErr (W.faults world.old).writes (W.faults world.new).writes result }
    ensures reads_stay { (W.faults world.new).reads ≡ (W.faults world.old).reads }
    ensures says_stay { (W.faults world.new).says ≡ (W.faults world.old).says }
{
    for piece in pieces {
        match print_all(world, piece) {
            Ok(()) => {}
            Err(failed) => return Err(failed),
        }
    }
    Ok(())
}
