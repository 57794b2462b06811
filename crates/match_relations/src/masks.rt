//! The masks of relations, all from one pool.

ghost use Rattle.std.specs.Prelude.{◌≡◌, ◌+◌, ◌*◌, ◌≤◌, ◌^◌, List, [], ◌∷◌, ◌++◌, map, length, All, IfOk, OnOk};
ghost use Rattle.mask_pool.specs.Mask.{Stretch, words_for};
ghost use Rattle.pattern_rel.specs.Shapes.{KnowsColumns};
ghost use Rattle.match_relations.specs.steps.Masks.{AreFew, AreMasks, bare, bare_of, entry_words, masks_in, side_bits, widest, words_in};

use crate::borrowed::Borrowed;
use index_file::IndexCounts;
use mask_pool::MaskPool;
use pattern_rel::PatRel;
use std::alloc::{AllocError, Global};
use tree_relations::{Entry, EntryList, MaskList, PlaceKind, SidePlace};

/// How many words so many bits take.
pub(crate) fn words_for(bits: u32) -> u32
    ensures { result ≡ words_for bits }
{
    bits.div_ceil(64)
}

/// How many bits the mask of a side has: as many as its place has numbers. Without a variable it has one bit, and none
/// where the index has no triple.
fn side_bits(counts: &IndexCounts, side: Option<SidePlace>) -> u32
    requires few { AreFew counts.now }
    ensures bits { result ≡ side_bits counts.now side }
    ensures low { result ≤ 2 ^ 23 }
{
    match side {
        Some(place) => match place.kind {
            PlaceKind::Subject => counts.shared + counts.subjects,
            PlaceKind::Object => counts.shared + counts.objects,
            PlaceKind::Predicate => counts.predicates,
        },
        None => counts.predicates.min(1),
    }
}

/// How many bits a working mask has.
pub(crate) fn widest(counts: &IndexCounts) -> u32
    requires few { AreFew counts.now }
    ensures bits { result ≡ widest counts.now }
    ensures low { result ≤ 2 ^ 23 }
{
    (counts.shared + counts.subjects).max((counts.shared + counts.objects).max(counts.predicates))
}

/// How many words the masks of a relation take.
fn entry_words(counts: &IndexCounts, borrowed: &Borrowed<'_>) -> u32
    requires few { AreFew counts.now }
    ensures words { result ≡ entry_words counts.now borrowed.now }
    ensures low { result ≤ 2 ^ 19 }
{
    words_for(side_bits(counts, borrowed.first)) + words_for(side_bits(counts, borrowed.second))
}

/// How many words the masks of all relations take.
pub(crate) fn words_in(counts: &IndexCounts, borrowed: &[Borrowed<'_>]) -> u32
    requires few { AreFew counts.now }
    requires short { length borrowed.now ≤ 256 }
    ensures words { result ≡ words_in counts.now borrowed.now }
    ensures low { result ≤ 2 ^ 27 }
{
    let mut words = 0;
    for one in borrowed {
        words += entry_words(counts, one);
    }
    words
}

/// Takes the working masks from a pool.
pub(crate) fn take_work(
    alloc: Global,
    pool: &mut MaskPool,
    bits: u32,
    count: u32,
) -> Result<MaskList, AllocError>
    requires low { bits ≤ 2 ^ 23 }
    requires room { words_for bits * count ≤ pool.old.spare }
    ensures count { IfOk result (λ work. length work ≡ count) }
    ensures bits { IfOk result (All (λ m. m.bits ≡ bits)) }
    ensures masks { IfOk result (AreMasks pool.new) }
    ensures spare { OnOk result (pool.new.spare + words_for bits * count ≡ pool.old.spare) }
{
    let mut work = MaskList::new(alloc);
    for _ in 0..count {
        work.push(pool.take(bits))?;
    }
    Ok(work)
}

/// The relation of what is borrowed, with two masks from a pool.
fn with_masks<'a>(pool: &mut MaskPool, counts: &IndexCounts, borrowed: Borrowed<'a>) -> Entry<'a>
    requires few { AreFew counts.now }
    requires room { entry_words counts.now borrowed ≤ pool.old.spare }
    requires knows { KnowsColumns borrowed.shape }
    ensures entry { bare result ≡ bare_of counts.now borrowed.entry }
    ensures masks { (masks : List Stretch) → AreMasks pool.old masks →
        AreMasks pool.new (masks ++ result.rel.first ∷ result.rel.second ∷ []) }
    ensures spare { pool.new.spare + entry_words counts.now borrowed.entry ≡ pool.old.spare }
{
    let Borrowed {
        shape,
        first,
        second,
    } = borrowed;
    let first_mask = pool.take(side_bits(counts, first));
    let second_mask = pool.take(side_bits(counts, second));
    Entry {
        rel: PatRel::new(shape, first_mask, second_mask),
        first,
        second,
    }
}

/// The relations of all that is borrowed, with masks from a pool that has just room for them.
pub(crate) fn all_with_masks<'a>(
    alloc: Global,
    pool: &mut MaskPool,
    counts: &IndexCounts,
    borrowed: Vec<Borrowed<'a>>,
) -> Result<EntryList<'a>, AllocError>
    requires few { AreFew counts.now }
    requires room { words_in counts.now borrowed.items ≡ pool.old.spare }
    requires knows { All (λ b. KnowsColumns b.shape) borrowed.items }
    ensures entries { IfOk result (λ es. map bare es ≡ map (bare_of counts.now) borrowed.entry.items) }
    ensures masks { (work : List Stretch) → AreMasks pool.old work → IfOk result (λ es. AreMasks pool.new (work ++ masks_in es)) }
    ensures spare { OnOk result (pool.new.spare ≡ 0) }
{
    let mut entries = EntryList::new(alloc);
    for one in borrowed {
        entries.push(with_masks(pool, counts, one))?;
    }
    Ok(entries)
}
