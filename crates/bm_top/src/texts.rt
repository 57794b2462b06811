//! What the commands print that answer no query. It takes no memory.
ghost use Rattle.std.specs.Prelude.{◌≡◌};
ghost use Rattle.bm_world.specs.Meanings.{with_printed};
ghost use Rattle.bm_world.specs.World.{Step, RisesOnErr, AppendsAll};
ghost use Rattle.bm_top.specs.Texts.{counts_text, stored_text};

use crate::pieces::print_pieces;
use bm_world::{Failed, World};
use index_file::IndexCounts;
use itoa::Buffer;

/// Prints how many triples are stored, and in how many bytes.
pub(crate) fn print_stored<W: World>(
    triples: u32,
    bytes: usize,
    world: &mut W,
) -> Result<(), Failed>
    ensures step { Step (W.told world.old) (W.told world.new) (AppendsAll with_printed (stored_text triples bytes) result) }
    ensures cause { RisesOnErr (W.faults world.old).writes (W.faults world.new).writes result }
    ensures reads_stay { (W.faults world.new).reads ≡ (W.faults world.old).reads }
    ensures says_stay { (W.faults world.new).says ≡ (W.faults world.old).says }
{
    let mut count = Buffer::new();
    let mut length = Buffer::new();
    print_pieces(
        world,
        &[
            b"stored triples ",
            count.format(triples).as_bytes(),
            b" bytes ",
            length.format(bytes).as_bytes(),
            b"\n",
        ],
    )
}

/// Prints the version of an index, and how many of each it has.
pub(crate) fn print_counts<W: World>(counts: IndexCounts, world: &mut W) -> Result<(), Failed>
    ensures step { Step (W.told world.old) (W.told world.new) (AppendsAll with_printed (counts_text counts) result) }
    ensures cause { RisesOnErr (W.faults world.old).writes (W.faults world.new).writes result }
    ensures reads_stay { (W.faults world.new).reads ≡ (W.faults world.old).reads }
    ensures says_stay { (W.faults world.new).says ≡ (W.faults world.old).says }
{
    let mut version = Buffer::new();
    let mut triples = Buffer::new();
    let mut shared = Buffer::new();
    let mut subjects = Buffer::new();
    let mut objects = Buffer::new();
    let mut predicates = Buffer::new();
    print_pieces(
        world,
        &[
            b"index ok: version ",
            version.format(counts.version).as_bytes(),
            b", triples ",
            triples.format(counts.triples).as_bytes(),
            b", shared ",
            shared.format(counts.shared).as_bytes(),
            b", subjects ",
            subjects.format(counts.subjects).as_bytes(),
            b", objects ",
            objects.format(counts.objects).as_bytes(),
            b", predicates ",
            predicates.format(counts.predicates).as_bytes(),
            b"\n",
        ],
    )
}
