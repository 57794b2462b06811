//! Tests of whole commands over a world in memory that takes one byte a call: each call of each command fails in turn. They
//! fix the status, the line, what was printed and what the files hold; that a file that was not written whole is refused; and
//! that no call fails where none is scheduled to.
#![tactic(auto)]

#[cfg(test)]
mod checking;
#[cfg(test)]
mod table;
#[cfg(test)]
mod unwritten;
