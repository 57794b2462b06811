//! The top of the program: what a command does, from the bytes that come in to the bytes that go out.
#![tactic(auto)]

mod args;
mod ask;
mod command;
mod complain;
mod ending;
mod index_steps;
mod laws;
mod load;
mod named;
mod over_index;
mod pieces;
mod reading;
mod refusal;
mod steps;
mod store;
mod texts;
mod top;
mod undecided;

pub use args::run_args;
pub use laws::{a_loaded_index_answers_as_its_data, each_command_has_one_verdict};
pub use reading::read_pieces;
pub use top::run;
