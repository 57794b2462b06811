//! The line of N-Triples.
ghost use Rattle.std.specs.Prelude.{IfOk, IfSome, IfNone, IsErrOf};
ghost use Rattle.std.specs.Str.{chars};
ghost use Rattle.bm_term.specs.declared.triple.Triple.{Triple};
ghost use Rattle.bm_term.specs.Triple.{IsRdfTriple};
ghost use Rattle.nt_read.specs.Line.{Spells, SpellsNothing, IsBadLine};
ghost use Rattle.nt_read.specs.scanning.Line.{bad, nothing, spelled, scan_chars, scan_line, AnswersLine};

use crate::places::is_end;
use crate::statement::statement;
use crate::writing::triple;
use bm_term::Triple;
use std::alloc::Global;

/// Why a line is not read: it is not in the grammar, or memory ran out.
#[derive(Clone, Copy, PartialEq, Eq, Debug)]
pub enum LineFault {
    /// The line is not in the grammar.
    Bad,
    /// Memory ran out.
    Memory,
}

/// The triple that a line spells, or `None` where it spells nothing. The line is without its line end.
/// `Memory` comes only where memory runs out; else `Bad` comes exactly where the line is not in the
/// grammar, and bytes that are not UTF-8 are not in it.
/// N-Triples 1.1, section 7.
pub fn read_line(alloc: Global, line: &[u8]) -> Result<Option<Triple>, LineFault>
    ensures reads { AnswersLine (scan_line line.now) result }
    // What is answered is so.
    ensures spelled { IfOk result (λ answer. IfSome answer (λ triple. Spells line.now triple)) }
    ensures nothing { IfOk result (λ answer. IfNone answer (SpellsNothing line.now)) }
    ensures bad { IsErrOf result LineFault.Bad → IsBadLine line.now }
    ensures triple { IfOk result (λ answer. IfSome answer (λ triple. IsRdfTriple triple)) }
    // What is so is answered, unless memory runs out.
    ensures only_spelled { (triple : Triple) → Spells line.now triple → AnswersLine (spelled triple) result }
    ensures only_nothing { SpellsNothing line.now → AnswersLine nothing result }
    ensures only_bad { IsBadLine line.now → AnswersLine bad result }
{
    read(alloc, line)
}

fn read(alloc: Global, line: &[u8]) -> Result<Option<Triple>, LineFault>
    ensures { AnswersLine (scan_line line.now) result }
{
    match str::from_utf8(line) {
        Ok(text) => read_text(alloc, text),
        Err(_) => Err(LineFault::Bad),
    }
}

/// line ::= (subject predicate object '.')? comment?
fn read_text(alloc: Global, text: &str) -> Result<Option<Triple>, LineFault>
    ensures { AnswersLine (scan_chars (chars text.now)) result }
{
    if is_end(text) {
        return Ok(None);
    }
    match statement(text) {
        Some(found) => match triple(alloc, found) {
            Ok(triple) => Ok(Some(triple)),
            Err(_) => Err(LineFault::Memory),
        },
        None => Err(LineFault::Bad),
    }
}
