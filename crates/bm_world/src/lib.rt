//! The outside of the program as a trait: files that are read and made, standard output and standard
//! error. A contract over any `World` says which bytes came from a file and which went out, where the
//! world tells its content, and what shows that a call failed, where it doesn't.
#![tactic(auto)]

mod file_table;
mod mem_world;
mod open_file;
mod reading;
mod saying;
mod schedule;
mod world;
mod writing;

pub use mem_world::MemWorld;
pub use reading::{ReadEnd, read_all};
pub use saying::{complain_all, print_all};
pub use schedule::WorldCall;
pub use world::{Failed, Faults, World};
pub use writing::write_all_of;

#[cfg(test)]
mod tests;
