//! Well-designed patterns, after Pérez, Arenas and Gutierrez. `test` says whether a pattern is well designed, and
//! else which OPTIONAL fails first. `refusal_of` says why a pattern is not answered, whatever the data.
#![tactic(auto)]

mod design;
mod places;
mod refusals;
#[cfg(test)]
mod tests;
mod walk;

pub use design::{NotWellDesigned, test};
pub use places::{cross_place, three_places};
pub use refusals::{Refusal, refusal_of};
