//! A stream of bytes that comes in pieces.
ghost use Rattle.std.specs.Prelude.{◌≡◌, ◌<◌, ◌^◌, ℕ, List, [], ◌∷◌, ◌++◌, length, Some, Ok, Err, OnOk, IfOk, IfErr};
ghost use Rattle.bm_term.specs.Kept.{Kept};
ghost use Rattle.nt_read.specs.Pieces.{new_stream, ends_with_cr, ended_in, cut};
ghost use Rattle.nt_read.specs.Feeding.{AnswersLines, TakesLines, AnswersEnded, TakesEnded, HasRead};

use crate::lines::{CARRIAGE_RETURN, FeedFault, read_next, read_on, without_line_feed};
use bm_term::Taker;
use std::alloc::Global;
use std::marker::Model;

/// A reader of an N-Triples stream that comes in pieces, cut anywhere. Of the bytes it keeps those of the
/// line that has not ended. A reader that has not failed is seen as the number of line ends so far, these
/// bytes, and whether the last byte was a CR; one that has failed as its fault, which is the answer of
/// every later call.
#[derive(Debug, Drop)]
pub struct Reader {
    alloc: Global,
    ends: u64,
    text: Vec<u8>,
    after_cr: bool,
    fault: Option<FeedFault>,
}

impl Model for Reader {
    ghost use Rattle.std.specs.Prelude.{◌≡◌, None, Result};
    ghost use Rattle.nt_read.specs.declared.lines.FeedFault.{FeedFault};
    ghost use Rattle.nt_read.specs.Pieces.{Stream};

    ghost Value = { Result Stream FeedFault };

    ghost use Rattle.nt_read.specs.Feeding.{seen};

    ghost view = { λ r. seen (record { ends = r.ends; text = r.text.items; after_cr = r.after_cr }) r.fault };

    ghost use Rattle.nt_read.specs.Lines.{HasNoEnd};

    ghost invariant = { λ r. r.fault ≡ None → HasNoEnd r.text.items };
}

impl Reader {
    /// A reader that was fed nothing.
    pub fn new(alloc: Global) -> Reader
        ensures new { result ≡ Ok new_stream }
        ensures read { (kept : Kept) → HasRead [] result kept kept }
    {
        Reader {
            alloc,
            ends: 0,
            text: Vec::new(alloc),
            after_cr: false,
            fault: None,
        }
    }

    /// Takes the next piece of the stream: reads the lines that end in it, and hands their triples to
    /// `into`, in their order. An LF after a CR ends no second line, though a piece begins with it. Of the
    /// piece the reader keeps the bytes after the last line end, and copies no others, but those of the
    /// line that began before the piece. `NotNTriples` comes where a line that ended is bad, with the number
    /// of the first one, from 1 in the whole stream: then `into` has taken the triples of the lines before
    /// it. `Memory` comes where memory ran out: then it has taken those of some of these lines.
    pub fn feed<T: Taker>(&mut self, piece: &[u8], into: &mut T) -> Result<(), FeedFault>
        ensures answers { IfOk self.old (λ stream. AnswersEnded stream.ends (ended_in stream piece.now) result) }
        ensures takes { IfOk self.old (λ stream. TakesEnded (ended_in stream piece.now) (T.kept into.old) (T.kept into.new) result) }
        ensures cut { OnOk result (IfOk self.old (λ stream. self.new ≡ Ok (cut stream piece.now))) }

        // The answer of a reader that has failed is its fault, and `into` stays as it was.
        ensures failed { IfErr self.old (λ fault. result ≡ Err fault) }
        ensures failed_takes_none { IfErr self.old (λ fault. T.kept into.new ≡ T.kept into.old) }
        ensures fails { IfErr result (λ fault. self.new ≡ Err fault) }

        // Of a reader that was fed pieces since it was new: this piece is read after them.
        ensures read { (bytes : List ℕ) (kept : Kept) →
            HasRead bytes self.old kept (T.kept into.old) → HasRead (bytes ++ piece.now) self.new kept (T.kept into.new) }
    {
        if let Some(fault) = self.fault {
            return Err(fault);
        }
        let bytes = without_line_feed(self.after_cr, piece);
        match read_on(self.alloc, &mut self.text, bytes, self.ends, into) {
            Ok(ends) => {
                self.ends = ends;
                self.after_cr = ends_with_carriage_return(self.after_cr, piece);
                Ok(())
            }
            Err(fault) => fail(&mut self.fault, fault),
        }
    }

    /// Ends the stream: the line that has not ended is a line, and is read as in `feed`. After `Ok` the
    /// reader is a new one.
    pub fn finish<T: Taker>(&mut self, into: &mut T) -> Result<(), FeedFault>
        ensures answers { IfOk self.old (λ stream. AnswersEnded stream.ends (stream.text ∷ []) result) }
        ensures takes { IfOk self.old (λ stream. TakesEnded (stream.text ∷ []) (T.kept into.old) (T.kept into.new) result) }
        ensures is_new { OnOk result (self.new ≡ Ok new_stream) }

        // The answer of a reader that has failed is its fault, and `into` stays as it was.
        ensures failed { IfErr self.old (λ fault. result ≡ Err fault) }
        ensures failed_takes_none { IfErr self.old (λ fault. T.kept into.new ≡ T.kept into.old) }
        ensures fails { IfErr result (λ fault. self.new ≡ Err fault) }

        // Of a reader that was fed pieces since it was new: they are read as a file of all their bytes.
        ensures answers_all { (bytes : List ℕ) (kept : Kept) → length bytes < 2 ^ 64 →
            HasRead bytes self.old kept (T.kept into.old) → AnswersLines bytes result }
        ensures takes_all { (bytes : List ℕ) (kept : Kept) → length bytes < 2 ^ 64 →
            HasRead bytes self.old kept (T.kept into.old) → TakesLines bytes kept (T.kept into.new) result }
    {
        if let Some(fault) = self.fault {
            return Err(fault);
        }
        match read_next(self.alloc, &self.text, self.ends, into) {
            Ok(_) => {
                self.ends = 0;
                self.text.clear();
                self.after_cr = false;
                Ok(())
            }
            Err(fault) => fail(&mut self.fault, fault),
        }
    }
}

/// Keeps a fault, and answers it.
fn fail(kept: &mut Option<FeedFault>, fault: FeedFault) -> Result<(), FeedFault>
    ensures kept { kept.new ≡ Some fault }
    ensures answer { result ≡ Err fault }
{
    *kept = Some(fault);
    Err(fault)
}

/// Whether the bytes end with CR, or `was` where there are none.
fn ends_with_carriage_return(was: bool, bytes: &[u8]) -> bool
    ensures { result ≡ ends_with_cr was bytes.now }
{
    match bytes.last() {
        Some(last) => *last == CARRIAGE_RETURN,
        None => was,
    }
}
