//! The image of a graph: the bytes of the index file of its numbering.
//!
//! The length is known before anything is written. For each family the triples are spread over its slices (`spread`), and
//! the pairs of each slice are put in order (`order`) and written (`family_slices`), in room that is used again.
#![tactic(auto)]

mod family_slices;
mod fault;
mod measure;
mod order;
mod piece_writer;
mod spread;
#[cfg(test)]
mod tests;
mod writing;

pub use fault::ImageFault;
pub use writing::image;
