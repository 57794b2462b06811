//! The outside as a trait: what its calls move, and what shows that one failed.
ghost use Rattle.std.specs.Prelude.{◌≡◌, ◌<◌, ◌≤◌, Option, length, IfOk};
ghost use Rattle.bm_world.specs.declared.world.Faults.{Faults};
ghost use Rattle.bm_world.specs.Meanings.{Meanings, with_printed, with_complained};
ghost use Rattle.bm_world.specs.World.{Step, HasCause, RisesOnErr, IsMissing, NothingIsOpen, IsBeingMade, NothingIsMade, Opens, Reads, Creates, Writes, Closes, AppendsFront};

/// A call of the outside failed.
#[derive(Clone, Copy, Debug, PartialEq, Eq)]
pub struct Failed;

/// How many calls of a world failed. Each call has one of the three counts.
#[derive(Clone, Copy, Debug, PartialEq, Eq)]
pub struct Faults {
    /// Of `open` and `read`.
    pub reads: u64,
    /// Of `create`, `write`, `close` and `print`.
    pub writes: u64,
    /// Of `complain`.
    pub says: u64,
}

/// One opened file, one file that is being made, and two streams that grow. Each call has one of
/// three counts of failures as its own, and leaves the other two as they were. It answers `Failed`
/// only where it raises its count, or where its case is told and is a failure. A world may stop telling, and
/// none begins to: then no clause on its content is left, and the counts alone show a failure.
pub trait World {
    /// The meanings, if this world tells them. Clauses on them hold where they are told at the
    /// entry and at the exit of the call.
    ghost told: { Self → Option Meanings };

    /// How many calls failed. Every world tells it.
    ghost faults: { Self → Faults };

    /// Opens the named file as it is now, in place of the one that was open. A missing file is a
    /// failure. A failed call leaves nothing open.
    fn open(&mut self, name: &str) -> Result<(), Failed>
        ensures step { Step (told self.old) (told self.new) (Opens name.now result) }
        ensures cause { HasCause (faults self.old).reads (faults self.new).reads
            (told self.old) (IsMissing name.now) result }
        ensures writes_stay { (faults self.new).writes ≡ (faults self.old).writes }
        ensures says_stay { (faults self.new).says ≡ (faults self.old).says };

    /// Moves the next bytes of the opened file into the front of `into`, and answers how many: 0 at
    /// the end alone, unless `into` is empty. It is a failure where nothing is open.
    fn read(&mut self, into: &mut [u8]) -> Result<usize, Failed>
        ensures step { Step (told self.old) (told self.new) (Reads into.new result) }
        ensures within { IfOk result (λ count. count ≤ length into.old) }
        ensures cause { HasCause (faults self.old).reads (faults self.new).reads
            (told self.old) NothingIsOpen result }
        ensures writes_stay { (faults self.new).writes ≡ (faults self.old).writes }
        ensures says_stay { (faults self.new).says ≡ (faults self.old).says };

    /// Begins to make the named file, which is empty then, whether it was there or not. It is a
    /// failure where a file is being made. A failed call changes nothing.
    fn create(&mut self, name: &str) -> Result<(), Failed>
        ensures step { Step (told self.old) (told self.new) (Creates name.now result) }
        ensures cause { HasCause (faults self.old).writes (faults self.new).writes
            (told self.old) IsBeingMade result }
        ensures reads_stay { (faults self.new).reads ≡ (faults self.old).reads }
        ensures says_stay { (faults self.new).says ≡ (faults self.old).says };

    /// Appends the first bytes of `piece` to the file that is being made, and answers how many. It
    /// is a failure where no file is being made. A failed call appended some front of `piece`.
    fn write(&mut self, piece: &[u8]) -> Result<usize, Failed>
        ensures step { Step (told self.old) (told self.new) (Writes piece.now result) }
        ensures within { IfOk result (λ count. count ≤ length piece.now) }
        ensures some { 0 < length piece.now → IfOk result (λ count. 0 < count) }
        ensures cause { HasCause (faults self.old).writes (faults self.new).writes
            (told self.old) NothingIsMade result }
        ensures reads_stay { (faults self.new).reads ≡ (faults self.old).reads }
        ensures says_stay { (faults self.new).says ≡ (faults self.old).says };

    /// Ends the file that is being made, also where it fails. It is a failure where none is.
    fn close(&mut self) -> Result<(), Failed>
        ensures step { Step (told self.old) (told self.new) (Closes result) }
        ensures cause { HasCause (faults self.old).writes (faults self.new).writes
            (told self.old) NothingIsMade result }
        ensures reads_stay { (faults self.new).reads ≡ (faults self.old).reads }
        ensures says_stay { (faults self.new).says ≡ (faults self.old).says };

    /// Writes the first bytes of `piece` to standard output, and answers how many. A failed call
    /// wrote some front of `piece`.
    fn print(&mut self, piece: &[u8]) -> Result<usize, Failed>
        ensures step { Step (told self.old) (told self.new)
            (AppendsFront with_printed piece.now result) }
        ensures within { IfOk result (λ count. count ≤ length piece.now) }
        ensures some { 0 < length piece.now → IfOk result (λ count. 0 < count) }
        ensures cause { RisesOnErr (faults self.old).writes (faults self.new).writes result }
        ensures reads_stay { (faults self.new).reads ≡ (faults self.old).reads }
        ensures says_stay { (faults self.new).says ≡ (faults self.old).says };

    /// Writes the first bytes of `piece` to standard error, and answers how many. A failed call wrote
    /// some front of `piece`.
    fn complain(&mut self, piece: &[u8]) -> Result<usize, Failed>
        ensures step { Step (told self.old) (told self.new)
            (AppendsFront with_complained piece.now result) }
        ensures within { IfOk result (λ count. count ≤ length piece.now) }
        ensures some { 0 < length piece.now → IfOk result (λ count. 0 < count) }
        ensures cause { RisesOnErr (faults self.old).says (faults self.new).says result }
        ensures reads_stay { (faults self.new).reads ≡ (faults self.old).reads }
        ensures writes_stay { (faults self.new).writes ≡ (faults self.old).writes };
}
