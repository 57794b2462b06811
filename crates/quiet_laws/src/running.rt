//! A command over a world that counts no failure.
ghost use Rattle.std.specs.Prelude.{◌≡◌, ◌⊎◌, ℕ, List, IfSome, map, true};
ghost use Rattle.std.specs.String.{string_bytes};
ghost use Rattle.bm_world.specs.World.{NothingIsMade, no_faults};
ghost use Rattle.quiet_world.specs.Quiet.{told_by};
ghost use Rattle.result_write.specs.declared.form.Form.{Form};
ghost use Rattle.bm_top.specs.Run.{KeepsPromises};
ghost use Rattle.bm_top.specs.Standard.{Asks, IsAnswer, IsVerdict};
ghost use Rattle.bm_top.specs.Verdict.{Verdict};

use bm_top::run;
use quiet_world::Quiet;
use std::alloc::Global;

/// Does everything that the program does, over a world that counts no failure. No file may be in the making, and none is
/// after it.
pub fn run_quietly(alloc: Global, words: &[String], world: &mut Quiet) -> u8
    requires { IfSome (told_by world.old) NothingIsMade }

    // Where the world tells its content at both ends, the status is that of the verdict, or 7.
    ensures complete { world.old.tells ≡ true → world.new.tells ≡ true → (verdict : Verdict) →
        IsVerdict (map string_bytes words.now) world.old.meanings.files verdict →
        (result ≡ verdict.status) ⊎ (result ≡ 7) }

    // So the query is answered, or memory ran out.
    ensures answered { world.old.tells ≡ true → world.new.tells ≡ true → (form : Form) (bytes text printed : List ℕ) →
        Asks (map string_bytes words.now) world.old.meanings.files form bytes text → IsAnswer form bytes text printed →
        (result ≡ 0) ⊎ (result ≡ 7) }

    // All else is as the program promises it over any world.
    ensures promised { KeepsPromises (map string_bytes words.now) (told_by world.old) (told_by world.new) no_faults no_faults result }
{
    run(alloc, words, world)
}
