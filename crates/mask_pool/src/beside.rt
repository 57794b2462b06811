//! A part of the taken words to be written, and the words beside it to be read.
//!
//! Both are lent at once, and no word is copied. The check has no rule for such a loan, so these two methods
//! make their slices from a raw pointer, and are proved by hand.

ghost use Rattle.std.specs.Prelude.{◌≡◌, ◌≤◌, length, slice_range};
ghost use Rattle.std.specs.Borrow.{sem};
ghost use Rattle.mask_pool.specs.Loan.{LendsWords};

use crate::pool::MaskPool;
use std::slice;

impl MaskPool {
    /// Of the words from `start` to `end`, those before `mid`, to be written, and those from `mid` on, to be
    /// read.
    pub(crate) fn front_beside(
        &mut self,
        start: usize,
        mid: usize,
        end: usize,
    ) -> (&mut [u64], &[u64])
        requires { (start ≤ mid) × (mid ≤ end) × (end ≤ length self.old.words) }
        ensures* writes_back { sem 𝓛 (LendsWords self.entry start result.0) }
        ensures parts { (result.0.now ≡ slice_range self.old.words start mid)
            × (result.1.now ≡ slice_range self.old.words mid end) }
    {
        let words = self.words_between(start, end);
        let first = words.as_mut_ptr();
        unsafe {
            (
                slice::from_raw_parts_mut(first, mid - start),
                slice::from_raw_parts(first.add(mid - start), end - mid),
            )
        }
    }

    /// Of the words from `start` to `end`, those from `mid` on, to be written, and those before `mid`, to be
    /// read.
    pub(crate) fn back_beside(
        &mut self,
        start: usize,
        mid: usize,
        end: usize,
    ) -> (&mut [u64], &[u64])
        requires { (start ≤ mid) × (mid ≤ end) × (end ≤ length self.old.words) }
        ensures* writes_back { sem 𝓛 (LendsWords self.entry mid result.0) }
        ensures parts { (result.0.now ≡ slice_range self.old.words mid end)
            × (result.1.now ≡ slice_range self.old.words start mid) }
    {
        let words = self.words_between(start, end);
        let first = words.as_mut_ptr();
        unsafe {
            (
                slice::from_raw_parts_mut(first.add(mid - start), end - mid),
                slice::from_raw_parts(first, mid - start),
            )
        }
    }
}
