//! The steps on masks of a pool. Each changes one mask.

ghost use Rattle.std.specs.Prelude.{◌↔◌, ℕ, ◌<◌};
ghost use Rattle.row_lanes.specs.Words.{Has};
ghost use Rattle.mask_pool.specs.Mask.{DoNotOverlap};
ghost use Rattle.mask_pool.specs.Region.{words_of};
ghost use Rattle.pattern_rel.specs.Folds.{IsBelow, IsUsable, Keeps};

use mask_pool::{Mask, MaskPool};
use row_lanes::{and_into, clear_from};

/// Leaves in a mask the numbers that another has too.
#[tactic(auto, using(mask_pool::proofs::Loans::loans))]
fn meet_all(pool: &mut MaskPool, into: Mask, other: Mask)
    requires into { IsUsable pool.old into }
    requires other { IsUsable pool.old other }
    requires apart { DoNotOverlap into other }
    ensures both { (n : ℕ) → Has (words_of pool.new into) n ↔ (Has (words_of pool.old into) n × Has (words_of pool.old other) n) }
    ensures keeps { Keeps pool.old pool.new into }
{
    let (words, others) = pool.pair(into, other);
    and_into(words, others);
}

/// Leaves in a mask the numbers below `cut`.
#[tactic(auto, using(mask_pool::proofs::Loans::loans))]
pub fn cut_mask(pool: &mut MaskPool, into: Mask, cut: u32)
    requires { IsUsable pool.old into }
    ensures below { (n : ℕ) → Has (words_of pool.new into) n ↔ (Has (words_of pool.old into) n × (n < cut)) }
    ensures keeps { Keeps pool.old pool.new into }
{
    clear_from(pool.write(into), cut);
}

/// Leaves in a mask the numbers that another has too and that are below `cut`, where it is given.
#[tactic(auto, using(pattern_rel::proofs::MaskLaws::kept))]
pub fn meet(pool: &mut MaskPool, into: Mask, other: Mask, cut: Option<u32>)
    requires into { IsUsable pool.old into }
    requires other { IsUsable pool.old other }
    requires apart { DoNotOverlap into other }
    ensures both { (n : ℕ) → Has (words_of pool.new into) n ↔ (Has (words_of pool.old into) n × Has (words_of pool.old other) n × IsBelow cut n) }
    ensures keeps { Keeps pool.old pool.new into }
{
    meet_all(pool, into, other);
    if let Some(cut) = cut {
        cut_mask(pool, into, cut);
    }
}
