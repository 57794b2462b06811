ghost use Rattle.std.specs.Prelude.{◌≡◌};
ghost use Rattle.bm_world.specs.Meanings.{with_complained};
ghost use Rattle.bm_world.specs.World.{Step, RisesOnErr, AppendsAll};
ghost use Rattle.bm_top.specs.steps.Ending.{line_of};
ghost use Rattle.bm_top.specs.Lines.{fault_line, query_line, refusal_line};

use crate::ending::Ending;
use crate::pieces::complain_pieces;
use crate::refusal::{QueryRefusal, Refusal};
use bm_world::{Failed, World, complain_all};
use itoa::Buffer;
use sparql_parse::QueryFault;

const USAGE: &[u8] =
    b"usage: bitmat ask DATA QUERY tsv|json | load DATA INDEX | query INDEX QUERY tsv|json | check INDEX | explain INDEX QUERY | trial N\n";

const WRITE_FAULT: &[u8] = b"write fault\n";

const OUT_OF_MEMORY: &[u8] = b"out of memory\n";

const TOO_MANY_TRIPLES: &[u8] = b"limit: more than 8388608 triples\n";

const IMAGE_TOO_LONG: &[u8] = b"limit: the image is longer than 4294967295 bytes\n";

const REFUSED: &[u8] = b"query refused: ";

const LINE_END: &[u8] = b"\n";

/// Writes the line of an ending to standard error, in pieces that take no memory.
pub(crate) fn complain_ending<W: World>(ending: &Ending<'_>, world: &mut W) -> Result<(), Failed>
    ensures step { Step (W.told world.old) (W.told world.new) (AppendsAll with_complained (line_of ending.now) result) }
    ensures cause { RisesOnErr (W.faults world.old).says (W.faults world.new).says result }
    ensures reads_stay { (W.faults world.new).reads ≡ (W.faults world.old).reads }
    ensures writes_stay { (W.faults world.new).writes ≡ (W.faults world.old).writes }
{
    match ending {
        Ending::Done => Ok(()),
        Ending::Refused { refusal } => complain_refusal(refusal, world),
        Ending::ReadFault { name } => {
            complain_pieces(world, &[b"read fault: ", name.as_bytes(), LINE_END])
        }
        Ending::WriteFault => complain_all(world, WRITE_FAULT),
        Ending::Memory => complain_all(world, OUT_OF_MEMORY),
    }
}

fn complain_refusal<W: World>(refusal: &Refusal<'_>, world: &mut W) -> Result<(), Failed>
    ensures step { Step (W.told world.old) (W.told world.new) (AppendsAll with_complained (refusal_line refusal.now) result) }
    ensures cause { RisesOnErr (W.faults world.old).says (W.faults world.new).says result }
    ensures reads_stay { (W.faults world.new).reads ≡ (W.faults world.old).reads }
    ensures writes_stay { (W.faults world.new).writes ≡ (W.faults world.old).writes }
{
    let mut number = Buffer::new();
    match refusal {
        Refusal::Usage => complain_all(world, USAGE),
        Refusal::Query { refusal } => complain_query(refusal, world),
        Refusal::TooManyTriples => complain_all(world, TOO_MANY_TRIPLES),
        Refusal::ImageTooLong => complain_all(world, IMAGE_TOO_LONG),
        Refusal::Damaged { part } => complain_pieces(
            world,
            &[b"index refused: ", part.name().as_bytes(), LINE_END],
        ),
        Refusal::BadLine { line } => {
            complain_pieces(
                world,
                &[
                    b"data refused: line ",
                    number.format(*line).as_bytes(),
                    LINE_END,
                ],
            )
        }
        Refusal::TooLong { name, limit } => complain_pieces(
            world,
            &[
                b"limit: ",
                name.as_bytes(),
                b" is longer than ",
                number.format(*limit).as_bytes(),
                b" bytes\n",
            ],
        ),
    }
}

fn complain_query<W: World>(refusal: &QueryRefusal, world: &mut W) -> Result<(), Failed>
    ensures step { Step (W.told world.old) (W.told world.new) (AppendsAll with_complained (query_line refusal.now) result) }
    ensures cause { RisesOnErr (W.faults world.old).says (W.faults world.new).says result }
    ensures reads_stay { (W.faults world.new).reads ≡ (W.faults world.old).reads }
    ensures writes_stay { (W.faults world.new).writes ≡ (W.faults world.old).writes }
{
    let mut number = Buffer::new();
    match refusal {
        QueryRefusal::Fault { fault } => complain_fault(*fault, world),
        QueryRefusal::NotWellDesigned { optional, name } => complain_pieces(
            world,
            &[
                b"query refused: not well designed: optional ",
                number.format(*optional).as_bytes(),
                b", variable ?",
                name.as_bytes(),
                LINE_END,
            ],
        ),
        QueryRefusal::ThreePlaces { pattern } => complain_pieces(
            world,
            &[
                b"query refused: three variables in pattern ",
                number.format(*pattern).as_bytes(),
                LINE_END,
            ],
        ),
        QueryRefusal::CrossPlace { name } => complain_pieces(
            world,
            &[
                b"query refused: variable ?",
                name.as_bytes(),
                b" at predicate and node places\n",
            ],
        ),
    }
}

/// Writes to standard error what is wrong with the text of a query, and where.
fn complain_fault<W: World>(fault: QueryFault, world: &mut W) -> Result<(), Failed>
    ensures step { Step (W.told world.old) (W.told world.new) (AppendsAll with_complained (fault_line fault) result) }
    ensures cause { RisesOnErr (W.faults world.old).says (W.faults world.new).says result }
    ensures reads_stay { (W.faults world.new).reads ≡ (W.faults world.old).reads }
    ensures writes_stay { (W.faults world.new).writes ≡ (W.faults world.old).writes }
{
    let (cause, word) = fault.cause_words();
    match fault.at() {
        Some(at) => {
            let mut number = Buffer::new();
            complain_pieces(
                world,
                &[
                    REFUSED,
                    cause.as_bytes(),
                    word.as_bytes(),
                    b" at byte ",
                    number.format(at).as_bytes(),
                    LINE_END,
                ],
            )
        }
        None => {
            complain_pieces(
                world,
                &[REFUSED, cause.as_bytes(), word.as_bytes(), LINE_END],
            )
        }
    }
}
