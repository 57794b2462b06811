//! A command over a world in memory.
ghost use Rattle.std.specs.Prelude.{◌≡◌, IfOk, OnErr, map};
ghost use Rattle.std.specs.String.{string_bytes};
ghost use Rattle.bm_world.specs.World.{NothingIsMade};
ghost use Rattle.command_tests.specs.Asked.{Ran, world_with};

use bm_top::run;
use bm_world::MemWorld;
use std::alloc::{AllocError, Global};

/// The data of two triples, one after the other.
pub const DATA: &str = "<urn:a> <urn:p> <urn:b> .\n<urn:b> <urn:p> <urn:c> .\n";

/// A query of two patterns.
pub const QUERY: &str = "SELECT * { ?x <urn:p> ?y . ?y <urn:p> ?z }";

/// What answers it over the two triples.
pub const ANSWER: &str = "?x\t?y\t?z\n<urn:a>\t<urn:b>\t<urn:c>\n";

/// A world with the two files `d` and `q`.
pub fn files_of(alloc: Global, data: &str, query: &str) -> Result<MemWorld, AllocError>
    ensures { IfOk result (λ world. world ≡ world_with «data».now query.now) }
{
    let mut world = MemWorld::new(alloc);
    world.put_file("d", data.as_bytes())?;
    world.put_file("q", query.as_bytes())?;
    Ok(world)
}

/// The status of these words over a world in which no file is being made, as none is after it, with all that `run` promises.
/// `Err` where memory runs out before the program has begun.
pub fn status_of(alloc: Global, words: &[&str], world: &mut MemWorld) -> Result<u8, AllocError>
    requires { NothingIsMade world.old.meanings }
    ensures ran { IfOk result (Ran (map (λ word. word.now) words.now) world.old world.new) }
    ensures not_begun { OnErr result (world.new ≡ world.old) }
    ensures nothing_is_made { NothingIsMade world.new.meanings }
{
    let words = owned(alloc, words)?;
    Ok(run(alloc, words.as_slice(), world))
}

/// The words, as the program has them.
fn owned(alloc: Global, words: &[&str]) -> Result<Vec<String>, AllocError>
    ensures { IfOk result (λ owned. map string_bytes owned.items ≡ map (λ word. word.now) words.now) }
{
    let mut owned = Vec::new(alloc);
    for word in words {
        owned.push(String::from_str(alloc, word)?)?;
    }
    Ok(owned)
}
