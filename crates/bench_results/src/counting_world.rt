//! A world that counts what is printed, and gives and takes nothing else.
ghost use Rattle.std.specs.Prelude.{None};

use bm_world::{Failed, Faults, World};

/// How often something was printed, and how many bytes.
#[derive(Drop)]
pub struct CountingWorld {
    pub calls: u64,
    pub bytes: u64,
    faults: Faults,
}

impl CountingWorld {
    /// Nothing was printed.
    pub fn new() -> CountingWorld {
        CountingWorld {
            calls: 0,
            bytes: 0,
            faults: Faults {
                reads: 0,
                writes: 0,
                says: 0,
            },
        }
    }
}

impl World for CountingWorld {
    ghost told = { λ w. None };

    ghost faults = { λ w. w.faults };

    fn open(&mut self, _name: &str) -> Result<(), Failed> {
        self.faults.reads = self.faults.reads.saturating_add(1);
        Err(Failed)
    }

    fn read(&mut self, _into: &mut [u8]) -> Result<usize, Failed> {
        self.faults.reads = self.faults.reads.saturating_add(1);
        Err(Failed)
    }

    fn create(&mut self, _name: &str) -> Result<(), Failed> {
        self.faults.writes = self.faults.writes.saturating_add(1);
        Err(Failed)
    }

    fn write(&mut self, _piece: &[u8]) -> Result<usize, Failed> {
        self.faults.writes = self.faults.writes.saturating_add(1);
        Err(Failed)
    }

    fn close(&mut self) -> Result<(), Failed> {
        self.faults.writes = self.faults.writes.saturating_add(1);
        Err(Failed)
    }

    fn print(&mut self, piece: &[u8]) -> Result<usize, Failed> {
        self.calls = self.calls.saturating_add(1);
        self.bytes = self.bytes.saturating_add(piece.len() as u64);
        Ok(piece.len())
    }

    fn complain(&mut self, _piece: &[u8]) -> Result<usize, Failed> {
        self.faults.says = self.faults.says.saturating_add(1);
        Err(Failed)
    }
}
