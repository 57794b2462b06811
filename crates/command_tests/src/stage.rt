//! A world in memory for a test.
ghost use Rattle.std.specs.Prelude.{◌<◌};

use crate::asking::{files_of, status_of};
use bm_world::{MemWorld, WorldCall};
use std::alloc::{AllocError, Global};
use std::marker::Model;

/// A world in memory in which no file is being made. What it holds is seen by no contract: a test asks for it, and compares.
#[derive(Drop)]
pub struct Stage {
    world: MemWorld,
}

impl Model for Stage {
    ghost use Rattle.bm_world.specs.World.{NothingIsMade};

    ghost Value = { Unit {0} };

    ghost view = { λ s. tt };

    ghost invariant = { λ s. NothingIsMade s.world.meanings };
}

impl Stage {
    /// No files.
    pub fn new(alloc: Global) -> Stage {
        Stage {
            world: MemWorld::new(alloc),
        }
    }

    /// The two files `d` and `q`.
    pub fn with_files(alloc: Global, data: &str, query: &str) -> Result<Stage, AllocError> {
        Ok(Stage {
            world: files_of(alloc, data, query)?,
        })
    }

    /// Puts a file there.
    pub fn put_file(&mut self, name: &str, bytes: &[u8]) -> Result<(), AllocError> {
        self.world.put_file(name, bytes)
    }

    /// Schedules the k-th call of a kind to fail.
    pub fn fail_at(&mut self, call: WorldCall, k: u64) -> Result<(), AllocError> {
        self.world.fail_at(call, k)
    }

    /// From now on a call takes at most `n` bytes.
    pub fn piece_at_most(&mut self, n: usize)
        requires { 0 < n }
    {
        self.world.piece_at_most(n);
    }

    /// The status of these words. `Err` where memory runs out before the program has begun.
    pub fn ask(&mut self, alloc: Global, words: &[&str]) -> Result<u8, AllocError> {
        status_of(alloc, words, &mut self.world)
    }

    /// The bytes of a file, if it is there.
    pub fn file(&self, name: &str) -> Option<&[u8]> {
        self.world.file(name)
    }

    /// What was printed.
    pub fn printed(&self) -> &[u8] {
        self.world.printed()
    }

    /// What was written to standard error.
    pub fn complained(&self) -> &[u8] {
        self.world.complained()
    }

    /// How many calls for reading, for writing and for standard error have failed.
    pub fn faults(&self) -> (u64, u64, u64) {
        self.world.faults()
    }
}
