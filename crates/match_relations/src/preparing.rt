//! Preparing the relations of a tree.

ghost use Rattle.std.specs.Prelude.{◌≡◌, All, IfOk};
ghost use Rattle.tree_relations.specs.Fits.{FitsTree};
ghost use Rattle.match_relations.specs.AcceptedTrees.{IsAcceptedTree};
ghost use Rattle.match_relations.specs.Matches.{HasMatches};
ghost use Rattle.match_relations.specs.steps.Made.{IsMade};

use crate::borrowed::borrow_all;
use crate::masks::{all_with_masks, take_work, widest, words_for, words_in};
use crate::numbered::extent_of;
use index_file::Index;
use mask_pool::MaskPool;
use pattern_tree::Tree;
use std::alloc::{AllocError, Global};
use tree_relations::Prepared;

/// The relations, with all masks from one pool that has just room for them.
fn made<'a>(alloc: Global, tree: &Tree<'_>, index: &Index<'a>) -> Result<Prepared<'a>, AllocError>
    requires { IsAcceptedTree tree.now }
    ensures made { IfOk result (IsMade index.now tree.now) }
    ensures spare { IfOk result (λ p. p.pool.spare ≡ 0) }
{
    tree.nodes();
    let counts = index.counts();
    let extent = extent_of(tree);
    let borrowed = borrow_all(alloc, tree, index, extent.patterns)?;
    let bits = widest(&counts);
    let masks = u32::from(extent.vars) + 1;
    let words = words_for(bits) * masks + words_in(&counts, &borrowed);
    let mut pool = MaskPool::with_room(alloc, words)?;
    let work = take_work(alloc, &mut pool, bits, masks)?;
    let entries = all_with_masks(alloc, &mut pool, &counts, borrowed)?;
    Ok(Prepared {
        pool,
        entries,
        work,
        shared: counts.shared,
        subjects: counts.subjects,
        objects: counts.objects,
        predicates: counts.predicates,
    })
}

/// The relations of the triple patterns of a tree over an index, each with all matches of its triple pattern, and a
/// working mask for each variable number from 0 to the greatest, and one more. They borrow from the bytes of the index.
/// `Err` only where memory runs out.
pub fn prepare<'a>(
    alloc: Global,
    tree: &Tree<'_>,
    index: &Index<'a>,
) -> Result<Prepared<'a>, AllocError>
    requires accepted { IsAcceptedTree tree.now }
    ensures fits { IfOk result (FitsTree tree.now) }
    ensures matches { IfOk result (HasMatches index.now.numbering tree.now) }
    ensures spare { IfOk result (λ p. p.pool.spare ≡ 0) }
{
    let prepared = made(alloc, tree, index)?;
    Ok(prepared)
}
