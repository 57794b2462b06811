//! The world as the system gives it. It tells nothing of content, and counts each failure.
ghost use Rattle.std.specs.Prelude.{None};

use bm_world::{Failed, Faults, World};
use std::fs;
use std::fs::File;
use std::io::{Read, Write};

/// Files, standard output and standard error.
#[derive(Drop)]
pub struct RealWorld {
    rt: HostRuntime,
    reading: Option<File>,
    making: Option<File>,
    faults: Faults,
}

impl RealWorld {
    /// Nothing is open, and nothing has failed.
    pub fn new(rt: HostRuntime) -> RealWorld {
        RealWorld {
            rt,
            reading: None,
            making: None,
            faults: Faults {
                reads: 0,
                writes: 0,
                says: 0,
            },
        }
    }
}

impl World for RealWorld {
    ghost told = { λ w. None };

    ghost faults = { λ w. w.faults };

    fn open(&mut self, name: &str) -> Result<(), Failed> {
        match fs::open(&self.rt, name) {
            Ok(file) => {
                self.reading = Some(file);
                Ok(())
            }
            Err(_) => {
                self.reading = None;
                self.faults.reads = self.faults.reads.saturating_add(1);
                Err(Failed)
            }
        }
    }

    fn read(&mut self, into: &mut [u8]) -> Result<usize, Failed> {
        if let Some(file) = &mut self.reading {
            if let Ok(count) = file.read(into) {
                return Ok(count);
            }
        }
        self.faults.reads = self.faults.reads.saturating_add(1);
        Err(Failed)
    }

    fn create(&mut self, name: &str) -> Result<(), Failed> {
        if self.making.is_none() {
            if let Ok(file) = fs::create(&self.rt, name) {
                self.making = Some(file);
                return Ok(());
            }
        }
        self.faults.writes = self.faults.writes.saturating_add(1);
        Err(Failed)
    }

    fn write(&mut self, piece: &[u8]) -> Result<usize, Failed> {
        if let Some(file) = &mut self.making {
            if let Ok(count) = file.write(piece) {
                if count > 0 || piece.is_empty() {
                    return Ok(count);
                }
            }
        }
        self.faults.writes = self.faults.writes.saturating_add(1);
        Err(Failed)
    }

    fn close(&mut self) -> Result<(), Failed> {
        if let Some(mut file) = self.making.take() {
            if file.flush().is_ok() {
                return Ok(());
            }
        }
        self.faults.writes = self.faults.writes.saturating_add(1);
        Err(Failed)
    }

    fn print(&mut self, piece: &[u8]) -> Result<usize, Failed> {
        if let Ok(count) = self.rt.write_some(piece) {
            if count > 0 || piece.is_empty() {
                return Ok(count);
            }
        }
        self.faults.writes = self.faults.writes.saturating_add(1);
        Err(Failed)
    }

    fn complain(&mut self, piece: &[u8]) -> Result<usize, Failed> {
        if let Ok(count) = self.rt.stderr().write_some(piece) {
            if count > 0 || piece.is_empty() {
                return Ok(count);
            }
        }
        self.faults.says = self.faults.says.saturating_add(1);
        Err(Failed)
    }
}

#[test]
fn a_file_is_written_and_read_again(rt: HostRuntime) -> Result<(), std::test::Fail> {
    let alloc = rt.alloc();
    let mut world = RealWorld::new(rt);
    bm_world::write_all_of(&mut world, "written", b"abc")
        .ok()
        .ok_or("not written")?;
    let bytes = bm_world::read_all(alloc, &mut world, "written", 3)
        .ok()
        .ok_or("not read")?;
    assert!(world.rt; bytes.as_slice() == b"abc".as_slice());
    assert!(world.rt; world.faults.reads == 0 && world.faults.writes == 0);
    // Opening a missing file raises the count.
    assert!(world.rt; world.open("missing").is_err());
    assert!(world.rt; world.faults.reads == 1);
    Ok(())
}
