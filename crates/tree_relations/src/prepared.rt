//! What is prepared for pruning and joining.

ghost use Rattle.std.specs.Prelude.{◌≡◌, ◌+◌, ◌-◌, ◌<◌, ◌≤◌, [], ◌∷◌, ◌++◌, ◌==◌, length, slice_get, Some, OnErr, OnOk};
ghost use Rattle.std.specs.Option.{option_map};

use alg_model::Var;
use mask_pool::{Mask, MaskPool};
use pattern_rel::PatRel;
use std::alloc::{AllocError, Global};
use std::marker::Model;

/// The kind of a place in a triple pattern. It tells which numbers stand there.
#[derive(Clone, Copy, Debug, PartialEq, Eq)]
pub enum PlaceKind {
    Subject,
    Object,
    Predicate,
}

/// The variable at a side of a relation, and the kind of the place where it stands in the pattern.
#[derive(Clone, Copy, Debug, PartialEq, Eq)]
pub struct SidePlace {
    pub kind: PlaceKind,
    pub var: Var,
}

/// The relation of a pattern, and which variable stands at each side: `None` where a side has none.
#[derive(Debug, Drop)]
pub struct Entry<'a> {
    pub rel: PatRel<'a>,
    pub first: Option<SidePlace>,
    pub second: Option<SidePlace>,
}

/// A list of entries.
#[derive(Debug, Drop)]
pub struct EntryList<'a> {
    entries: Vec<Entry<'a>>,
}

impl<'a> Model for EntryList<'a> {
    ghost use Rattle.std.specs.Prelude.{List};
    ghost use Rattle.tree_relations.specs.declared.prepared.Entry.{Entry};

    ghost Value = { List Entry };

    ghost view = { λ l. l.entries.items };
}

impl<'a> EntryList<'a> {
    /// The empty list.
    pub fn new(alloc: Global) -> EntryList<'a>
        ensures { result ≡ [] }
    {
        EntryList {
            entries: Vec::new(alloc),
        }
    }

    /// How many entries there are.
    pub fn len(&self) -> usize
        ensures { result ≡ length self.now }
    {
        self.entries.len()
    }

    /// Whether there is no entry.
    pub fn is_empty(&self) -> bool
        ensures { result ≡ (length self.now == 0) }
    {
        self.entries.is_empty()
    }

    /// The i-th entry from 0.
    pub fn get(&self, i: usize) -> &Entry<'a>
        requires { i < length self.now }
        ensures { slice_get self.now i ≡ Some result.now }
    {
        &self.entries[i]
    }

    /// Puts an entry at the end, or changes nothing.
    pub fn push(&mut self, entry: Entry<'a>) -> Result<(), AllocError>
        ensures ok { OnOk result (self.new ≡ self.old ++ entry.entry ∷ []) }
        ensures err { OnErr result (self.new ≡ self.old) }
    {
        self.entries.push(entry)?;
        Ok(())
    }
}

/// A list of masks.
#[derive(Debug, Drop)]
pub struct MaskList {
    masks: Vec<Mask>,
}

impl Model for MaskList {
    ghost use Rattle.std.specs.Prelude.{List};
    ghost use Rattle.mask_pool.specs.Mask.{Stretch};

    ghost Value = { List Stretch };

    ghost view = { λ l. l.masks.items };
}

impl MaskList {
    /// The empty list.
    pub fn new(alloc: Global) -> MaskList
        ensures { result ≡ [] }
    {
        MaskList {
            masks: Vec::new(alloc),
        }
    }

    /// How many masks there are.
    pub fn len(&self) -> usize
        ensures { result ≡ length self.now }
    {
        self.masks.len()
    }

    /// Whether there is no mask.
    pub fn is_empty(&self) -> bool
        ensures { result ≡ (length self.now == 0) }
    {
        self.masks.is_empty()
    }

    /// The i-th mask from 0.
    pub fn get(&self, i: usize) -> Mask
        requires { i < length self.now }
        ensures { slice_get self.now i ≡ Some result }
    {
        self.masks[i]
    }

    /// Puts a mask at the end, or changes nothing.
    pub fn push(&mut self, mask: Mask) -> Result<(), AllocError>
        ensures ok { OnOk result (self.new ≡ self.old ++ mask ∷ []) }
        ensures err { OnErr result (self.new ≡ self.old) }
    {
        self.masks.push(mask)?;
        Ok(())
    }
}

/// A relation for each pattern, with all masks in one pool. The entry of pattern number k stands at place k − 1. `work`
/// has a mask for each variable number from 0 to the greatest, and one more. The counts are those of the index: of the
/// terms that are subjects and objects, of those that are subjects alone, of those that are objects alone, and of predicates.
#[derive(Debug, Drop)]
pub struct Prepared<'a> {
    pub pool: MaskPool,
    pub entries: EntryList<'a>,
    pub work: MaskList,
    pub shared: u32,
    pub subjects: u32,
    pub objects: u32,
    pub predicates: u32,
}

impl<'a> Prepared<'a> {
    /// The relation of a pattern, by its number from 1.
    pub fn rel(&self, number: u16) -> &PatRel<'a>
        requires some { 1 ≤ number }
        requires there { number ≤ length self.now.entries }
        ensures { option_map (λ e. e.rel) (slice_get self.now.entries (number - 1)) ≡ Some result.now }
    {
        let entry = self.entries.get(number as usize - 1);
        &entry.rel
    }

    /// The pool that has all masks.
    pub fn pool(&self) -> &MaskPool
        ensures { result.now ≡ self.now.pool }
    {
        &self.pool
    }
}
