//! The lines of bytes, one by one.
ghost use Rattle.std.specs.Prelude.{◌≡◌, ◌+◌, ◌∷◌, ◌++◌, ◌||◌, ◌==◌, true, [], length, slice_index, OnOk, IfOk, IfSome, IfNone, IsOkUnless};
ghost use Rattle.memchr.specs.Find.{is_byte2, IsFirstByte};
ghost use Rattle.rdf_text.specs.Marks.{line_feed, carriage_return};
ghost use Rattle.nt_read.specs.scanning.Line.{scan_line};
ghost use Rattle.nt_read.specs.scanning.Lines.{lines_of};
ghost use Rattle.nt_read.specs.Lines.{HasNoEnd};
ghost use Rattle.nt_read.specs.Pieces.{counted, without_lf, ended, unfinished};
ghost use Rattle.nt_read.specs.Feeding.{AnswersLines, TakesLines, AnswersEnded, TakesEnded};
ghost use Rattle.nt_read.specs.scanning.Taking.{TakesLine};
ghost use Rattle.nt_read.specs.declared.lines.FeedFault.TheVariants.{Memory};

use crate::line::{LineFault, read_line};
use bm_term::Taker;
use memchr::memchr2;
use std::alloc::{AllocError, Global};

/// LF, which ends a line, alone or after a CR.
const LINE_FEED: u8 = b'\n';

/// CR, which ends a line, alone or with an LF after it.
pub(crate) const CARRIAGE_RETURN: u8 = b'\r';

/// Why a stream was not read.
#[derive(Clone, Copy, Debug, PartialEq, Eq)]
pub enum FeedFault {
    /// The stream is no N-Triples file: this line, counted from 1, is the first bad one. The number stays
    /// at 2^64 - 1 once it is there; in fewer than 2^64 bytes it is exact.
    NotNTriples { line: u64 },
    /// Memory ran out.
    Memory,
}

/// Reads the lines of a whole file that lies in memory, and hands their triples to `into`, in their
/// order. A last line without a line end is a line. `NotNTriples` comes where there is a bad line, with
/// the number of the first one: then `into` has taken the triples of the lines before it. After `Memory`
/// it has taken those of some of these lines. The bytes are not copied.
pub fn read_lines<T: Taker>(alloc: Global, bytes: &[u8], into: &mut T) -> Result<(), FeedFault>
    ensures answers { AnswersLines bytes.now result }
    ensures takes { TakesLines bytes.now (T.kept into.old) (T.kept into.new) result }
{
    let (last, ends) = read_ended(alloc, bytes, 0, into)?;
    read_next(alloc, last, ends, into)?;
    Ok(())
}

/// Reads the lines of `bytes` that have ended, which follow `ends` line ends. Answers the last line, which
/// has not ended, and the number of line ends before it.
fn read_ended<'a, T: Taker>(
    alloc: Global,
    bytes: &'a [u8],
    ends: u64,
    into: &mut T,
) -> Result<(&'a [u8], u64), FeedFault>
    ensures answers { AnswersEnded ends (ended (lines_of bytes.now)) result }
    ensures takes { TakesEnded (ended (lines_of bytes.now)) (T.kept into.old) (T.kept into.new) result }
    ensures last { IfOk result (λ found. found.0.now ≡ unfinished (lines_of bytes.now)) }
    ensures counts { IfOk result (λ found. found.1 ≡ counted (ends + length (ended (lines_of bytes.now)))) }
{
    let mut rest = bytes;
    let mut before = ends;
    while let Some((line, after)) = split_line(rest) {
        before = read_next(alloc, line, before, into)?;
        rest = after;
    }
    Ok((rest, before))
}

/// Reads the next line after `ends` line ends. Answers their number with its end.
pub(crate) fn read_next<T: Taker>(
    alloc: Global,
    line: &[u8],
    ends: u64,
    into: &mut T,
) -> Result<u64, FeedFault>
    ensures answers { AnswersEnded ends (line.now ∷ []) result }
    ensures takes { TakesEnded (line.now ∷ []) (T.kept into.old) (T.kept into.new) result }
    ensures counts { IfOk result (λ after. after ≡ counted (ends + 1)) }
{
    let number = ends.saturating_add(1);
    match take_line(alloc, line, into) {
        Ok(()) => Ok(number),
        Err(LineFault::Bad) => Err(FeedFault::NotNTriples { line: number }),
        Err(LineFault::Memory) => Err(FeedFault::Memory),
    }
}

/// Reads the lines that end in `bytes`, the first of which begins with `text`, and leaves the last one,
/// which has not ended, in `text`. Answers the number of line ends, of which there were `ends` before. Of
/// the lines that end the first is copied, if it begins in `text`, and no other.
pub(crate) fn read_on<T: Taker>(
    alloc: Global,
    text: &mut Vec<u8>,
    bytes: &[u8],
    ends: u64,
    into: &mut T,
) -> Result<u64, FeedFault>
    requires { HasNoEnd text.old.items }
    ensures answers { AnswersEnded ends (ended (lines_of (text.old.items ++ bytes.now))) result }
    ensures takes { TakesEnded (ended (lines_of (text.old.items ++ bytes.now))) (T.kept into.old) (T.kept into.new) result }
    ensures last { OnOk result (text.new.items ≡ unfinished (lines_of (text.old.items ++ bytes.now))) }
    ensures counts { IfOk result (λ after. after ≡ counted (ends + length (ended (lines_of (text.old.items ++ bytes.now))))) }
{
    let Some((line, after)) = split_line(bytes) else {
        keep(text, bytes)?;
        return Ok(ends);
    };
    let ends_before = read_first(alloc, text, line, ends, into)?;
    let (last, ends_after) = read_ended(alloc, after, ends_before, into)?;
    keep(text, last)?;
    Ok(ends_after)
}

/// Reads the line that is `text` and then `line`, and clears `text`.
fn read_first<T: Taker>(
    alloc: Global,
    text: &mut Vec<u8>,
    line: &[u8],
    ends: u64,
    into: &mut T,
) -> Result<u64, FeedFault>
    ensures answers { AnswersEnded ends ((text.old.items ++ line.now) ∷ []) result }
    ensures takes { TakesEnded ((text.old.items ++ line.now) ∷ []) (T.kept into.old) (T.kept into.new) result }
    ensures counts { IfOk result (λ after. after ≡ counted (ends + 1)) }
    ensures cleared { OnOk result (text.new.items ≡ []) }
{
    if text.is_empty() {
        return read_next(alloc, line, ends, into);
    }
    keep(text, line)?;
    let after = read_next(alloc, text, ends, into)?;
    text.clear();
    Ok(after)
}

/// Puts bytes at the end of the text.
fn keep(text: &mut Vec<u8>, bytes: &[u8]) -> Result<(), FeedFault>
    ensures ok { OnOk result (text.new.items ≡ text.old.items ++ bytes.now) }
    ensures only_memory { IsOkUnless result Memory }
{
    match text.extend_from_slice(bytes) {
        Ok(()) => Ok(()),
        Err(AllocError) => Err(FeedFault::Memory),
    }
}

/// Hands the triple of a line to `into`, if the line spells one.
fn take_line<T: Taker>(alloc: Global, line: &[u8], into: &mut T) -> Result<(), LineFault>
    ensures { TakesLine (scan_line line.now) (T.kept into.old) (T.kept into.new) result }
{
    match read_line(alloc, line) {
        Ok(Some(triple)) => match into.take(triple) {
            Ok(()) => Ok(()),
            Err(AllocError) => Err(LineFault::Memory),
        },
        Ok(None) => Ok(()),
        Err(fault) => Err(fault),
    }
}

/// The first line and what is after its end, where there is a line end.
#[tactic(auto, using(crate::proofs::Splits::first_line, crate::proofs::Splits::one_line), unfolding(crate::specs::scanning::Lines::lines_of))]
fn split_line(bytes: &[u8]) -> Option<(&[u8], &[u8])>
    ensures some { IfSome result (λ found. lines_of bytes.now ≡ found.0.now ∷ lines_of found.1.now) }
    ensures none { IfNone result (lines_of bytes.now ≡ bytes.now ∷ []) }
{
    let at = memchr2(LINE_FEED, CARRIAGE_RETURN, bytes)?;
    let (line, rest) = bytes.split_at(at);
    Some((line, after_line_end(rest)))
}

/// What is after the line end that the bytes begin with.
#[tactic(auto, using(crate::proofs::Splits::after_end), unfolding(crate::specs::scanning::Lines::lines_of))]
fn after_line_end(bytes: &[u8]) -> &[u8]
    requires { is_byte2 line_feed carriage_return (slice_index bytes.now 0) ≡ true }
    ensures { lines_of bytes.now ≡ [] ∷ lines_of result.now }
{
    match bytes {
        [first, rest @ ..] => without_line_feed(*first == CARRIAGE_RETURN, rest),
        [] => unreachable!(),
    }
}

/// The bytes without the LF that they begin with, where they are after a CR.
pub(crate) fn without_line_feed(after_cr: bool, bytes: &[u8]) -> &[u8]
    ensures { result.now ≡ without_lf after_cr bytes.now }
{
    match bytes {
        [first, rest @ ..] if after_cr && *first == LINE_FEED => rest,
        _ => bytes,
    }
}
