//! Tests of whole commands over a world in memory, beside those of `command_tests`: words and files, each call of a run
//! failing in turn, refusals with their lines, and indexes that are loaded, asked and checked.
#![tactic(auto)]

#[cfg(test)]
mod checking;
#[cfg(test)]
mod failures;
#[cfg(test)]
mod indexes;
#[cfg(test)]
mod refusals;
#[cfg(test)]
mod words;
