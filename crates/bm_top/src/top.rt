ghost use Rattle.std.specs.Prelude.{◌≡◌, ℕ, List, None, IfSome, map};
ghost use Rattle.std.specs.String.{string_bytes};
ghost use Rattle.bm_world.specs.World.{NothingIsMade, Step};
ghost use Rattle.result_write.specs.declared.form.Form.{Form};
ghost use Rattle.bm_top.specs.Command.{names_read, request_of};
ghost use Rattle.bm_top.specs.Run.{Complains, HasCauses, IsComplete, IsHonest, KeepsPromises, LeavesFiles, OnlyComplains, OpensInTurn, Outputs, Prints};
ghost use Rattle.bm_top.specs.Standard.{Asks, AsksIndex, IsAnswer, IsIndexOfData, IsVerdict};
ghost use Rattle.bm_top.specs.Verdict.{Verdict};

use crate::command::parse_words;
use crate::complain::complain_ending;
use crate::steps::perform;
use bm_world::World;
use std::alloc::Global;
use std::hash::{BuildHasher, BuildHasherDefault, DefaultHasher};

/// Does everything that the program does. `words` are the words after the program's name. The result is
/// the status: 0 where all was printed, and written; 1 where the words are no command; 2 where the data has a
/// bad line; 3 where the query is refused; 4 where the index is damaged; 5 where a file was not read, and 6 where the
/// output or a file was not written; 7 where memory ran out; 8 where a file is too long, the data has too many triples,
/// or its index would be too long. No file may be in the making, and none is after it.
///
/// Each words and files have exactly one verdict (`each_command_has_one_verdict`). Clauses that speak of files or of
/// what was printed hold where the world tells its content when the call begins and when it ends.
pub fn run<W: World>(alloc: Global, words: &[String], world: &mut W) -> u8
    requires { IfSome (W.told world.old) NothingIsMade }

    // The headline: what is printed is the text, in the form that is asked for, of the solutions of the query that the
    // one file denotes, over the set of triples that the other spells.
    ensures answers { Step (W.told world.old) (W.told world.new) (λ m n. (form : Form) (bytes text printed : List ℕ) →
        Asks (map string_bytes words.now) m.files form bytes text → IsAnswer form bytes text printed →
        Prints printed (W.faults world.old) (W.faults world.new) result m n) }

    // Its second half: where the index is that of the data, as `load` leaves it, what `query` prints is that very text.
    ensures answers_of_index { Step (W.told world.old) (W.told world.new) (λ m n. (form : Form) (bytes index text printed : List ℕ) →
        AsksIndex (map string_bytes words.now) m.files form index text → IsIndexOfData bytes index → IsAnswer form bytes text printed →
        Prints printed (W.faults world.old) (W.faults world.new) result m n) }

    // Words that are no command: status 1, and nothing moves but standard error.
    ensures usage { request_of (map string_bytes words.now) ≡ None → result ≡ 1 }
    ensures usage_moves_nothing { Step (W.told world.old) (W.told world.new) (λ m n.
        request_of (map string_bytes words.now) ≡ None → OnlyComplains m n) }

    // With no failing call, the status is that of the verdict, or 7.
    ensures complete { Step (W.told world.old) (W.told world.new) (λ m n. (verdict : Verdict) →
        IsVerdict (map string_bytes words.now) m.files verdict →
        IsComplete verdict (W.faults world.old) (W.faults world.new) result) }

    // Also after a failing call: a status other than 5, 6 and 7 is that of the verdict.
    ensures honest { Step (W.told world.old) (W.told world.new) (λ m n. (verdict : Verdict) →
        IsVerdict (map string_bytes words.now) m.files verdict → IsHonest verdict result) }

    // What is printed is the text of the verdict at 0, and a front of it at 6 and 7.
    ensures output { Step (W.told world.old) (W.told world.new) (λ m n. (verdict : Verdict) →
        IsVerdict (map string_bytes words.now) m.files verdict → Outputs verdict result m n) }

    ensures files { Step (W.told world.old) (W.told world.new) (λ m n. (verdict : Verdict) →
        IsVerdict (map string_bytes words.now) m.files verdict → LeavesFiles verdict result m n) }

    // What shows that a call failed.
    ensures causes { HasCauses (map string_bytes words.now) (W.told world.old)
        (W.faults world.old) (W.faults world.new) result }

    // A front of one line is written to standard error, and all of it where no call of `complain` failed.
    ensures refusal_line { Step (W.told world.old) (W.told world.new) (λ m n. (verdict : Verdict) →
        IsVerdict (map string_bytes words.now) m.files verdict →
        Complains (names_read (request_of (map string_bytes words.now))) verdict
        (W.faults world.old) (W.faults world.new) result m n) }

    // Only the files that the command reads are opened, each once and in their order.
    ensures opens { Step (W.told world.old) (W.told world.new)
        (OpensInTurn (names_read (request_of (map string_bytes words.now)))) }

    ensures nothing_is_made { IfSome (W.told world.new) NothingIsMade }
{
    let hashers: BuildHasherDefault<DefaultHasher> = BuildHasherDefault::new();
    perform_words(alloc, hashers, words, world)
}

/// What `run` does, with all its promises as one. Texts are hashed as the caller says.
pub(crate) fn perform_words<W: World, S: BuildHasher + Copy + Drop>(
    alloc: Global,
    hashers: S,
    words: &[String],
    world: &mut W,
) -> u8
    requires { IfSome (W.told world.old) NothingIsMade }
    ensures { KeepsPromises (map string_bytes words.now) (W.told world.old) (W.told world.new)
        (W.faults world.old) (W.faults world.new) result }
{
    let ending = perform(alloc, hashers, parse_words(words), world);
    let _ = complain_ending(&ending, world);
    ending.status()
}
