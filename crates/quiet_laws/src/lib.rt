//! What the program promises over a world in memory that counts no failure: where the world tells its content when the
//! call begins and when it ends, the status is that of the verdict, or 7. Nothing is said of failures: there are none to
//! speak of. Commands are tried over it in the tests, and it tells its content after each.
#![tactic(auto)]

mod running;

pub use running::run_quietly;

#[cfg(test)]
mod tests;
