//! Tests of whole commands over a world in memory: queries and data, with the text that answers them in either form. What the
//! crates of tests share is public: a `Stage` on which a command is run, and texts.
#![tactic(auto)]

mod asking;
#[cfg(test)]
mod checking;
#[cfg(test)]
mod data;
#[cfg(test)]
mod json;
#[cfg(test)]
mod queries;
mod stage;
mod texts;

pub use asking::{ANSWER, DATA, QUERY, files_of, status_of};
pub use stage::Stage;
pub use texts::{long_query, push_often, push_variables};
