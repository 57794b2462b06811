//! One region of words that lends masks.
//!
//! A [`Mask`] is a set of the numbers below its number of bits, kept as one bit a number. A [`MaskPool`]
//! takes all its memory when it is made, and hands it out mask by mask. Masks are tokens: the pool lends
//! their words to be read or written, and what is written through one leaves every mask that does not
//! overlap it as it was.
//!
//! A function that writes through a pool needs no proof of its own for that. It names the law of loans, and its
//! clauses speak of the words of each mask:
//!
//! ```text
//! #[tactic(auto, using(mask_pool::proofs::Loans::loans))]
//! fn clear_mask(pool: &mut MaskPool, mask: Mask, other: Mask)
//!     requires live { IsLive pool.old mask }
//!     requires other_live { IsLive pool.old other }
//!     requires apart { DoNotOverlap mask other }
//!     ensures other { words_of pool.new other ≡ words_of pool.old other }
//! {
//!     clear(pool.write(mask));
//! }
//! ```
#![tactic(auto)]

mod beside;
mod laws;
mod masks;
mod pool;
mod words;

pub use laws::{one_ends_before_the_other, what_is_written_stays_in_its_mask};
pub use masks::Mask;
pub use pool::MaskPool;

#[cfg(test)]
mod tests;
