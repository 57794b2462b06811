//! Tests of the engine's steps over small graphs: how many pairs each relation has before and after pruning, how many flat
//! rows are listed, and how many of them stay.
#![tactic(auto)]

#[cfg(test)]
mod brute;
#[cfg(test)]
mod counts;
