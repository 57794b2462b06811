ghost use Rattle.std.specs.Prelude.{◌≡◌, ◌<◌, ◌↔◌, ℕ, length, replicate, IfOk};
ghost use Rattle.mask_pool.specs.Mask.{Stretch, DoNotOverlap, words_for};
ghost use Rattle.mask_pool.specs.Region.{IsLive, IsIn, words_of};

use super::*;
use std::alloc::{AllocError, Global};
use std::test::Fail;

/// Makes the words the empty set.
fn clear(words: &mut [u64])
    ensures { words.new ≡ replicate (length words.old) 0 }
{
    words.fill(0);
}

/// Empties one mask. All that does not overlap it is as before.
#[tactic(auto, using(crate::proofs::Loans::loans))]
fn clear_mask(pool: &mut MaskPool, mask: Mask)
    requires { IsLive pool.old mask }
    ensures cleared { words_of pool.new mask ≡ replicate (words_for mask.bits) 0 }
    ensures others { (m : Stretch) → IsLive pool.old m → DoNotOverlap m mask → words_of pool.new m ≡ words_of pool.old m }
    ensures live { (m : Stretch) → IsLive pool.old m → IsLive pool.new m }
{
    clear(pool.write(mask));
}

/// Makes one mask the set that another is.
#[tactic(auto, using(crate::proofs::Loans::loans))]
fn copy_mask(pool: &mut MaskPool, into: Mask, other: Mask)
    requires into_live { IsLive pool.old into }
    requires other_live { IsLive pool.old other }
    requires apart { DoNotOverlap into other }
    requires alike { into.bits ≡ other.bits }
    ensures copied { words_of pool.new into ≡ words_of pool.old other }
    ensures other { words_of pool.new other ≡ words_of pool.old other }
    ensures live { (m : Stretch) → IsLive pool.old m → IsLive pool.new m }
{
    let (to, from) = pool.pair(into, other);
    to.copy_from_slice(from);
}

/// Of two masks of three words the second is emptied, and the first is full still.
#[tactic(auto, using(crate::proofs::Loans::loans))]
fn second_is_cleared(alloc: Global) -> Result<(MaskPool, Mask), AllocError>
    ensures full { IfOk result (λ r. (n : ℕ) → IsIn r.0 r.1 n ↔ (n < 65)) }
    ensures live { IfOk result (λ r. IsLive r.0 r.1) }
{
    let mut pool = MaskPool::with_room(alloc, 3)?;
    let first = pool.take(65);
    prove_eq!(pool.spare(), 1);
    let second = pool.take(64);
    prove_eq!(pool.spare(), 0);
    clear_mask(&mut pool, second);
    Ok((pool, first))
}

#[test]
fn clearing_one_mask_leaves_the_other(rt: HostRuntime) -> Result<(), Fail> {
    let (pool, first) = second_is_cleared(rt.alloc())?;
    assert_eq!(rt; pool.read(first), [u64::MAX, 1].as_slice());
    Ok(())
}

#[test]
fn masks_are_full_again(rt: HostRuntime) -> Result<(), Fail> {
    let mut pool = MaskPool::with_room(rt.alloc(), 2)?;
    let mask = pool.take(128);
    clear_mask(&mut pool, mask);
    assert_eq!(rt; pool.read(mask), [0, 0].as_slice());
    pool.give_up_all();
    assert_eq!(rt; pool.spare(), 2);
    let again = pool.take(100);
    assert_eq!(rt; pool.read(again), [u64::MAX, (1 << 36) - 1].as_slice());
    Ok(())
}

#[test]
#[tactic(auto, using(crate::proofs::Loans::loans))]
fn copies_one_mask_to_another(rt: HostRuntime) -> Result<(), Fail> {
    let mut pool = MaskPool::with_room(rt.alloc(), 2)?;
    let first = pool.take(3);
    let second = pool.take(3);
    clear_mask(&mut pool, second);
    copy_mask(&mut pool, first, second);
    assert_eq!(rt; pool.read(first), [0].as_slice());
    pool.write(first)[0] = 5;
    copy_mask(&mut pool, second, first);
    assert_eq!(rt; pool.read(second), [5].as_slice());
    Ok(())
}
