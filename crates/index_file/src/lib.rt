//! The index file: the numbering of a graph, and its triples four times over as slices.
//!
//! A graph has one image for each form of rows. Seven conditions, each named by the part of the file that it is on, hold
//! exactly where bytes are the image of a graph, and then of one graph only. [`Index::open`] tries them one after the other
//! and takes no memory: it answers the index, or the first part that is [`Damaged`]. An [`Index`] then gives its counts,
//! its terms and slices, and the number of a term.
#![tactic(auto)]

mod agreement;
mod counts;
mod damaged;
mod families;
mod family;
mod family_slices;
mod group;
mod index;
mod laws;
mod open;
mod parts;
mod rows;
mod search;
mod sections;
mod table;
mod terms;
mod text;

pub use counts::IndexCounts;
pub use damaged::{Damaged, Part};
pub use family::Family;
pub use index::Index;
pub use laws::{
    a_layout_and_its_bytes_determine_each_other, an_image_is_of_one_graph,
    an_index_has_the_numbering_of_its_graph, bytes_are_an_index_or_damaged,
    families_have_the_triples, no_front_of_an_image_is_one, the_conditions_hold_of_images_alone,
};

#[cfg(test)]
mod opening_tests;
