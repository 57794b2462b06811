//! A world in memory.
ghost use Rattle.std.specs.Prelude.{◌≡◌, ◌<◌, ◌++◌, [], ◌∷◌, None, Some, IfOk, OnOk, OnErr, IsSome, IsOk, string_bytes, min, length, map, take, drop, is_some, is_none, is_ok, false, if◌then◌else◌};
ghost use Rattle.std.specs.Option.{option_copied, option_map};
ghost use Rattle.std.specs.Result.{result_unwrap_or};
ghost use Rattle.std.specs.FinMap as fin_map;
ghost use Rattle.bm_world.specs.Meanings.{nothing_yet, file_at, left_to_read, with_opened, with_begun, with_written, with_printed, with_complained};
ghost use Rattle.bm_world.specs.World.{no_faults};
ghost use Rattle.bm_world.specs.Schedule.{is_due, after_call};
ghost use Rattle.bm_world.specs.MemWorld.{with_file, raised, taken_of, Ends};

use crate::file_table::FileTable;
use crate::open_file::OpenFile;
use crate::schedule::Schedule;
use crate::{Failed, Faults, World, WorldCall};
use std::alloc::{AllocError, Global};
use std::marker::Model;

/// A world in memory, which tells all its meanings. A call answers `Failed` for three causes alone:
/// it is scheduled to fail, its case is a failure, or it wants memory for a growth of its own. The
/// first and the last raise its count.
#[derive(Drop)]
pub struct MemWorld {
    alloc: Global,
    files: FileTable,
    opened: Vec<String>,
    open_file: Option<OpenFile>,
    made: Option<String>,
    printed: Vec<u8>,
    complained: Vec<u8>,
    faults: Faults,
    schedule: Schedule,
    piece: Option<usize>,
}

impl Model for MemWorld {
    ghost use Rattle.std.specs.Prelude.{◌<◌, IfSome, map, string_bytes};
    ghost use Rattle.std.specs.Option.{option_map};
    ghost use Rattle.bm_world.specs.MemWorld.{MemState};
    ghost use Rattle.bm_world.specs.MemCode.{state_code};

    ghost Value = { MemState };

    ghost coded = { state_code };

    ghost view = { λ w. record {
      meanings = record {
        files = w.files;
        opened = map string_bytes w.opened.items;
        rest = w.open_file;
        made = option_map string_bytes w.made;
        printed = w.printed.items;
        complained = w.complained.items;
      };
      faults = w.faults;
      schedule = w.schedule;
      piece = w.piece;
    } };

    ghost invariant = { λ w. IfSome w.piece (λ piece. 0 < piece) };
}

impl MemWorld {
    /// A world with no files, nothing open, no file being made, nothing written and no faults. A call takes all bytes.
    pub fn new(alloc: Global) -> Self
        ensures { result ≡ record {
          meanings = nothing_yet;
          faults = no_faults;
          schedule = [];
          piece = None;
        } }
    {
        MemWorld {
            alloc,
            files: FileTable::new(alloc),
            opened: Vec::new(alloc),
            open_file: None,
            made: None,
            printed: Vec::new(alloc),
            complained: Vec::new(alloc),
            faults: Faults {
                reads: 0,
                writes: 0,
                says: 0,
            },
            schedule: Schedule::new(alloc),
            piece: None,
        }
    }

    /// Sets a file, whether it was there or not.
    pub fn put_file(&mut self, name: &str, bytes: &[u8]) -> Result<(), AllocError>
        ensures ok { OnOk result (self.new ≡ with_file self.old name.now bytes.now) }
        ensures err { OnErr result (self.new ≡ self.old) }
    {
        self.files.put(name, bytes)
    }

    /// From now on the `k`-th call of this kind fails, counted from 1: it takes no bytes and raises
    /// its count. 0 names no call. What was scheduled before stays so.
    pub fn fail_at(&mut self, call: WorldCall, k: u64) -> Result<(), AllocError>
        ensures ok { OnOk result (self.new ≡
            record self.old { schedule = self.old.schedule ++ (call, k) ∷ [] }) }
        ensures err { OnErr result (self.new ≡ self.old) }
    {
        self.schedule.add(call, k)
    }

    /// From now on a `read`, `write`, `print` or `complain` takes at most `n` bytes.
    pub fn piece_at_most(&mut self, n: usize)
        requires { 0 < n }
        ensures { self.new ≡ record self.old { piece = Some n } }
    {
        self.piece = Some(n);
    }

    /// The bytes of the named file, and `None` exactly where there is no file of this name.
    pub fn file(&self, name: &str) -> Option<&[u8]>
        ensures { option_copied result ≡ file_at self.now.meanings name.now }
    {
        self.files.get(name)
    }

    /// The names of the files that were opened, in order.
    pub fn opened(&self) -> &[String]
        ensures { map string_bytes result.now ≡ self.now.meanings.opened }
    {
        self.opened.as_slice()
    }

    /// All that was written to standard output.
    pub fn printed(&self) -> &[u8]
        ensures { result.now ≡ self.now.meanings.printed }
    {
        self.printed.as_slice()
    }

    /// All that was written to standard error.
    pub fn complained(&self) -> &[u8]
        ensures { result.now ≡ self.now.meanings.complained }
    {
        self.complained.as_slice()
    }

    /// The three counts: of `open` and `read`, of `create`, `write`, `close` and `print`, and of
    /// `complain`.
    pub fn faults(&self) -> (u64, u64, u64)
        ensures { let faults = self.now.faults in
            result ≡ (faults.reads, faults.writes, faults.says) }
    {
        (self.faults.reads, self.faults.writes, self.faults.says)
    }
}

/// How many of so many bytes one call takes.
fn taken(piece: Option<usize>, bytes: usize) -> usize
    ensures { result ≡ taken_of piece bytes }
{
    match piece {
        Some(piece) => piece.min(bytes),
        None => bytes,
    }
}

impl World for MemWorld {
    ghost told = { λ w. Some w.meanings };

    ghost faults = { λ w. w.faults };

    fn open(&mut self, name: &str) -> Result<(), Failed>
        ensures ends { Ends (is_due WorldCall.Open self.old.schedule)
            (is_none (file_at self.old.meanings name.now)) result
            self.old.faults.reads self.new.faults.reads }
        ensures exact { self.new ≡ record self.old {
          meanings = if is_ok result
              then with_opened self.old.meanings name.now (file_at self.old.meanings name.now)
              else record self.old.meanings { rest = None };
          faults = record self.old.faults { reads = self.new.faults.reads };
          schedule = after_call WorldCall.Open self.old.schedule;
        } }
    {
        self.open_file = None;
        if self.schedule.pass(WorldCall::Open) {
            return Err(raise(&mut self.faults.reads));
        }
        let Some(bytes) = self.files.get(name) else {
            return Err(Failed);
        };
        let Ok(copy) = Vec::from_slice(self.alloc, bytes) else {
            return Err(raise(&mut self.faults.reads));
        };
        if push_name(self.alloc, &mut self.opened, name).is_err() {
            return Err(raise(&mut self.faults.reads));
        }
        self.open_file = Some(OpenFile::new(copy));
        Ok(())
    }

    fn read(&mut self, into: &mut [u8]) -> Result<usize, Failed>
        ensures ends { Ends (is_due WorldCall.Read self.old.schedule)
            (is_none self.old.meanings.rest) result self.old.faults.reads self.new.faults.reads }
        ensures no_memory { is_due WorldCall.Read self.old.schedule ≡ false
            → IsSome self.old.meanings.rest → IsOk result }
        ensures count { IfOk result (λ count.
            count ≡ taken_of self.old.piece (min (length into.old) (length (left_to_read self.old.meanings)))) }
        ensures some { IfOk result (λ count. count ≡ 0 → min (length into.old) (length (left_to_read self.old.meanings)) ≡ 0) }
        ensures came { let count = result_unwrap_or result 0 in
            into.new ≡ take count (left_to_read self.old.meanings) ++ drop count into.old }
        ensures exact { self.new ≡ record self.old {
          meanings = record self.old.meanings {
            rest = option_map (drop (result_unwrap_or result 0)) self.old.meanings.rest;
          };
          faults = record self.old.faults { reads = self.new.faults.reads };
          schedule = after_call WorldCall.Read self.old.schedule;
        } }
    {
        if self.schedule.pass(WorldCall::Read) {
            return Err(raise(&mut self.faults.reads));
        }
        match &mut self.open_file {
            Some(file) => {
                let count = taken(self.piece, into.len());
                Ok(file.read(&mut into[..count]))
            }
            None => Err(Failed),
        }
    }

    fn create(&mut self, name: &str) -> Result<(), Failed>
        ensures ends { Ends (is_due WorldCall.Create self.old.schedule)
            (is_some self.old.meanings.made) result self.old.faults.writes self.new.faults.writes }
        ensures exact { self.new ≡ record self.old {
          meanings = if is_ok result
              then with_begun self.old.meanings name.now
              else self.old.meanings;
          faults = record self.old.faults { writes = self.new.faults.writes };
          schedule = after_call WorldCall.Create self.old.schedule;
        } }
    {
        if self.schedule.pass(WorldCall::Create) {
            return Err(raise(&mut self.faults.writes));
        }
        if self.made.is_some() {
            return Err(Failed);
        }
        let Ok(made) = begin(self.alloc, &mut self.files, name) else {
            return Err(raise(&mut self.faults.writes));
        };
        self.made = Some(made);
        Ok(())
    }

    fn write(&mut self, piece: &[u8]) -> Result<usize, Failed>
        ensures ends { Ends (is_due WorldCall.Write self.old.schedule)
            (is_none self.old.meanings.made) result self.old.faults.writes self.new.faults.writes }
        ensures count { IfOk result (λ count. count ≡ taken_of self.old.piece (length piece.now)) }
        ensures some { 0 < length piece.now → IfOk result (λ count. 0 < count) }
        ensures exact { self.new ≡ record self.old {
          meanings = if is_ok result
              then with_written self.old.meanings (take (taken_of self.old.piece (length piece.now)) piece.now)
              else self.old.meanings;
          faults = record self.old.faults { writes = self.new.faults.writes };
          schedule = after_call WorldCall.Write self.old.schedule;
        } }
    {
        if self.schedule.pass(WorldCall::Write) {
            return Err(raise(&mut self.faults.writes));
        }
        let Some(name) = &self.made else {
            return Err(Failed);
        };
        let count = taken(self.piece, piece.len());
        if self.files.append(name.as_str(), &piece[..count]).is_err() {
            return Err(raise(&mut self.faults.writes));
        }
        Ok(count)
    }

    fn close(&mut self) -> Result<(), Failed>
        ensures ends { Ends (is_due WorldCall.Close self.old.schedule)
            (is_none self.old.meanings.made) result self.old.faults.writes self.new.faults.writes }
        ensures no_memory { is_due WorldCall.Close self.old.schedule ≡ false
            → IsSome self.old.meanings.made → IsOk result }
        ensures exact { self.new ≡ record self.old {
          meanings = record self.old.meanings { made = None };
          faults = record self.old.faults { writes = self.new.faults.writes };
          schedule = after_call WorldCall.Close self.old.schedule;
        } }
    {
        let made = self.made.take();
        if self.schedule.pass(WorldCall::Close) {
            return Err(raise(&mut self.faults.writes));
        }
        if made.is_none() {
            return Err(Failed);
        }
        Ok(())
    }

    fn print(&mut self, piece: &[u8]) -> Result<usize, Failed>
        ensures ends { Ends (is_due WorldCall.Print self.old.schedule)
            false result self.old.faults.writes self.new.faults.writes }
        ensures count { IfOk result (λ count. count ≡ taken_of self.old.piece (length piece.now)) }
        ensures some { 0 < length piece.now → IfOk result (λ count. 0 < count) }
        ensures exact { self.new ≡ record self.old {
          meanings = if is_ok result
              then with_printed self.old.meanings (take (taken_of self.old.piece (length piece.now)) piece.now)
              else self.old.meanings;
          faults = record self.old.faults { writes = self.new.faults.writes };
          schedule = after_call WorldCall.Print self.old.schedule;
        } }
    {
        let count = taken(self.piece, piece.len());
        if self.schedule.pass(WorldCall::Print)
            || self.printed.extend_from_slice(&piece[..count]).is_err()
        {
            return Err(raise(&mut self.faults.writes));
        }
        Ok(count)
    }

    fn complain(&mut self, piece: &[u8]) -> Result<usize, Failed>
        ensures ends { Ends (is_due WorldCall.Complain self.old.schedule)
            false result self.old.faults.says self.new.faults.says }
        ensures count { IfOk result (λ count. count ≡ taken_of self.old.piece (length piece.now)) }
        ensures some { 0 < length piece.now → IfOk result (λ count. 0 < count) }
        ensures exact { self.new ≡ record self.old {
          meanings = if is_ok result
              then with_complained self.old.meanings (take (taken_of self.old.piece (length piece.now)) piece.now)
              else self.old.meanings;
          faults = record self.old.faults { says = self.new.faults.says };
          schedule = after_call WorldCall.Complain self.old.schedule;
        } }
    {
        let count = taken(self.piece, piece.len());
        if self.schedule.pass(WorldCall::Complain)
            || self.complained.extend_from_slice(&piece[..count]).is_err()
        {
            return Err(raise(&mut self.faults.says));
        }
        Ok(count)
    }
}

fn raise(count: &mut u64) -> Failed
    ensures { count.new ≡ raised count.old }
{
    *count = count.saturating_add(1);
    Failed
}

/// Puts a copy of the name after the others.
fn push_name(alloc: Global, names: &mut Vec<String>, name: &str) -> Result<(), AllocError>
    ensures ok { OnOk result (map string_bytes names.new.items
        ≡ map string_bytes names.old.items ++ name.now ∷ []) }
    ensures err { OnErr result (names.new.items ≡ names.old.items) }
{
    names.push(String::from_str(alloc, name)?)?;
    Ok(())
}

/// Makes the named file empty, and gives a copy of its name.
fn begin(alloc: Global, files: &mut FileTable, name: &str) -> Result<String, AllocError>
    ensures name { IfOk result (λ made. string_bytes made ≡ name.now) }
    ensures ok { OnOk result (files.new ≡ fin_map.insert files.old name.now []) }
    ensures err { OnErr result (files.new ≡ files.old) }
{
    let made = String::from_str(alloc, name)?;
    files.put(name, &[])?;
    Ok(made)
}
