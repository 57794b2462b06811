//! A world in memory that counts no failure.
ghost use Rattle.std.specs.Prelude.{◌≡◌, ◌<◌, ◌≤◌, Ok, OnOk, OnErr, IfOk, length, false};
ghost use Rattle.std.specs.Option.{option_copied};
ghost use Rattle.bm_world.specs.Meanings.{file_at, with_printed, with_complained};
ghost use Rattle.bm_world.specs.World.{Step, HasCause, RisesOnErr, IsMissing, NothingIsOpen, IsBeingMade, NothingIsMade, Opens, Reads, Creates, Writes, Closes, AppendsFront, no_faults};
ghost use Rattle.quiet_world.specs.Quiet.{told_by, quiet_at_first, with_quiet_file};

use bm_world::{Failed, MemWorld, World};
use std::alloc::{AllocError, Global};
use std::marker::Model;

/// A world in memory whose three counts stay 0. While it tells its content, a call answers `Failed` exactly where its case
/// is a failure. Want of memory for a growth of its own ends the telling: from then on each call answers `Ok`, with 0 for
/// `read` and the length of the piece for the others that count.
#[derive(Drop)]
pub struct Quiet {
    world: MemWorld,
    tells: bool,
}

impl Model for Quiet {
    ghost use Rattle.std.specs.Prelude.{◌≡◌, [], true};
    ghost use Rattle.bm_world.specs.World.{no_faults};
    ghost use Rattle.quiet_world.specs.Quiet.{QuietState};
    ghost use Rattle.quiet_world.specs.QuietCode.{quiet_code};

    ghost Value = { QuietState };

    ghost coded = { quiet_code };

    ghost view = { λ q. record { meanings = q.world.meanings; tells = q.tells } };

    ghost invariant = { λ q. (q.world.schedule ≡ []) × (q.tells ≡ true → q.world.faults ≡ no_faults) };
}

impl Quiet {
    /// A world with no files, nothing open, no file being made and nothing written. It tells its content.
    pub fn new(alloc: Global) -> Self
        ensures { result ≡ quiet_at_first }
    {
        Quiet {
            world: MemWorld::new(alloc),
            tells: true,
        }
    }

    /// Sets a file, whether it was there or not. Where memory runs out nothing has changed.
    pub fn put_file(&mut self, name: &str, bytes: &[u8]) -> Result<(), AllocError>
        ensures ok { OnOk result (self.new ≡ with_quiet_file self.old name.now bytes.now) }
        ensures err { OnErr result (self.new ≡ self.old) }
    {
        self.world.put_file(name, bytes)
    }

    /// The bytes of the named file, and `None` exactly where there is no file of this name.
    pub fn file(&self, name: &str) -> Option<&[u8]>
        ensures { option_copied result ≡ file_at self.now.meanings name.now }
    {
        self.world.file(name)
    }

    /// All that was written to standard output.
    pub fn printed(&self) -> &[u8]
        ensures { result.now ≡ self.now.meanings.printed }
    {
        self.world.printed()
    }

    /// All that was written to standard error.
    pub fn complained(&self) -> &[u8]
        ensures { result.now ≡ self.now.meanings.complained }
    {
        self.world.complained()
    }

    /// Whether it tells its content still.
    pub fn tells(&self) -> bool
        ensures { result ≡ self.now.tells }
    {
        self.tells
    }
}

impl World for Quiet {
    ghost told = { λ q. told_by q };

    ghost faults = { λ q. no_faults };

    fn open(&mut self, name: &str) -> Result<(), Failed>
        ensures step { Step (told_by self.old) (told_by self.new) (Opens name.now result) }
        ensures cause { HasCause 0 0 (told_by self.old) (IsMissing name.now) result }
        ensures tells_no_more { self.old.tells ≡ false → self.new ≡ self.old }
        ensures answers_still { self.new.tells ≡ false → result ≡ Ok tt }
    {
        if !self.tells {
            return Ok(());
        }
        let opened = self.world.open(name);
        self.tells = self.world.faults().0 == 0;
        if self.tells { opened } else { Ok(()) }
    }

    fn read(&mut self, into: &mut [u8]) -> Result<usize, Failed>
        ensures step { Step (told_by self.old) (told_by self.new) (Reads into.new result) }
        ensures within { IfOk result (λ count. count ≤ length into.old) }
        ensures cause { HasCause 0 0 (told_by self.old) NothingIsOpen result }
        ensures tells_on { self.new.tells ≡ self.old.tells }
        ensures tells_no_more { self.old.tells ≡ false → self.new ≡ self.old }
        ensures answers_still { self.new.tells ≡ false → result ≡ Ok 0 }
    {
        if !self.tells {
            return Ok(0);
        }
        self.world.read(into)
    }

    fn create(&mut self, name: &str) -> Result<(), Failed>
        ensures step { Step (told_by self.old) (told_by self.new) (Creates name.now result) }
        ensures cause { HasCause 0 0 (told_by self.old) IsBeingMade result }
        ensures tells_no_more { self.old.tells ≡ false → self.new ≡ self.old }
        ensures answers_still { self.new.tells ≡ false → result ≡ Ok tt }
    {
        if !self.tells {
            return Ok(());
        }
        let created = self.world.create(name);
        self.tells = self.world.faults().1 == 0;
        if self.tells { created } else { Ok(()) }
    }

    fn write(&mut self, piece: &[u8]) -> Result<usize, Failed>
        ensures step { Step (told_by self.old) (told_by self.new) (Writes piece.now result) }
        ensures within { IfOk result (λ count. count ≤ length piece.now) }
        ensures some { 0 < length piece.now → IfOk result (λ count. 0 < count) }
        ensures cause { HasCause 0 0 (told_by self.old) NothingIsMade result }
        ensures tells_no_more { self.old.tells ≡ false → self.new ≡ self.old }
        ensures answers_still { self.new.tells ≡ false → result ≡ Ok (length piece.now) }
    {
        if !self.tells {
            return Ok(piece.len());
        }
        let written = self.world.write(piece);
        self.tells = self.world.faults().1 == 0;
        if self.tells { written } else { Ok(piece.len()) }
    }

    fn close(&mut self) -> Result<(), Failed>
        ensures step { Step (told_by self.old) (told_by self.new) (Closes result) }
        ensures cause { HasCause 0 0 (told_by self.old) NothingIsMade result }
        ensures tells_on { self.new.tells ≡ self.old.tells }
        ensures tells_no_more { self.old.tells ≡ false → self.new ≡ self.old }
        ensures answers_still { self.new.tells ≡ false → result ≡ Ok tt }
    {
        if !self.tells {
            return Ok(());
        }
        self.world.close()
    }

    fn print(&mut self, piece: &[u8]) -> Result<usize, Failed>
        ensures step { Step (told_by self.old) (told_by self.new) (AppendsFront with_printed piece.now result) }
        ensures within { IfOk result (λ count. count ≤ length piece.now) }
        ensures some { 0 < length piece.now → IfOk result (λ count. 0 < count) }
        ensures cause { RisesOnErr 0 0 result }
        ensures tells_no_more { self.old.tells ≡ false → self.new ≡ self.old }
        ensures answers_still { self.new.tells ≡ false → result ≡ Ok (length piece.now) }
    {
        if !self.tells {
            return Ok(piece.len());
        }
        let printed = self.world.print(piece);
        self.tells = self.world.faults().1 == 0;
        if self.tells { printed } else { Ok(piece.len()) }
    }

    fn complain(&mut self, piece: &[u8]) -> Result<usize, Failed>
        ensures step { Step (told_by self.old) (told_by self.new) (AppendsFront with_complained piece.now result) }
        ensures within { IfOk result (λ count. count ≤ length piece.now) }
        ensures some { 0 < length piece.now → IfOk result (λ count. 0 < count) }
        ensures cause { RisesOnErr 0 0 result }
        ensures tells_no_more { self.old.tells ≡ false → self.new ≡ self.old }
        ensures answers_still { self.new.tells ≡ false → result ≡ Ok (length piece.now) }
    {
        if !self.tells {
            return Ok(piece.len());
        }
        let said = self.world.complain(piece);
        self.tells = self.world.faults().2 == 0;
        if self.tells { said } else { Ok(piece.len()) }
    }
}
