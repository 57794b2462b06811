//! The words of the program as the system gives them.
ghost use Rattle.std.specs.Prelude.{◌≡◌, ◌⊎◌, drop, map, IfOk, IfErr, IfSome};
ghost use Rattle.std.specs.String.{string_bytes};
ghost use Rattle.std.specs.Vec.Iter.{into_iter_items};
ghost use Rattle.std.specs.IoError.{error_kind};
ghost use Rattle.bm_world.specs.World.{NothingIsMade};
ghost use Rattle.bm_top.specs.Args.{no_words_status};
ghost use Rattle.bm_top.specs.Run.{KeepsPromises};

use crate::top::perform_words;
use bm_world::World;
use std::alloc::{AllocError, Global};
use std::hash::BuildHasher;
use std::{env, io};

const OUT_OF_MEMORY: u8 = 7;

const NO_WORDS: u8 = 9;

/// What the program does with what the system gives as its words, the first of which is its name: `run` of the others,
/// or status 7 where they find no room. Where the system gives none, the status is 7 for want of memory and 9 for any
/// other cause, and nothing moves. The texts of terms are hashed as `hashers` says: by keys that no stranger can choose,
/// where they are drawn at random.
pub fn run_args<W: World, S: BuildHasher + Copy + Drop>(
    alloc: Global,
    hashers: S,
    args: io::Result<env::Args>,
    world: &mut W,
) -> u8
    requires { IfSome (W.told world.old) NothingIsMade }
    ensures words { IfOk args (λ given.
        KeepsPromises (map string_bytes (drop 1 (into_iter_items given))) (W.told world.old) (W.told world.new)
        (W.faults world.old) (W.faults world.new) result ⊎ (result ≡ 7)) }
    ensures no_words { IfErr args (λ error. result ≡ no_words_status (error_kind error)) }
    ensures nothing_moves { IfErr args (λ error. W.told world.new ≡ W.told world.old) }
    ensures nothing_fails { IfErr args (λ error. W.faults world.new ≡ W.faults world.old) }
{
    match args {
        Ok(args) => match after_name(alloc, args) {
            Ok(words) => perform_words(alloc, hashers, &words, world),
            Err(AllocError) => OUT_OF_MEMORY,
        },
        Err(error) => status_without_words(error.kind()),
    }
}

/// The words after the program's name.
fn after_name(alloc: Global, args: env::Args) -> Result<Vec<String>, AllocError>
    ensures { IfOk result (λ words. words.items ≡ drop 1 (into_iter_items args)) }
{
    let mut rest = args;
    let _name = rest.next();
    let mut words = Vec::new(alloc);
    while let Some(word) = rest.next() {
        words.push(word)?;
    }
    Ok(words)
}

fn status_without_words(kind: io::ErrorKind) -> u8
    ensures { result ≡ no_words_status kind }
{
    match kind {
        io::ErrorKind::OutOfMemory => OUT_OF_MEMORY,
        _ => NO_WORDS,
    }
}
