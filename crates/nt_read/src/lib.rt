//! The reader of N-Triples. `read_line` reads what one line spells, which may be a triple, nothing, or bad.
//! `read_lines` reads the lines of a whole file and hands their triples to a `Taker`, one by one and in their
//! order; a `Reader` does so for a stream that comes in pieces. The grammar is in specs/: the terminals, the line, and the lines of a file.
#![tactic(auto)]

mod file_laws;
mod found;
mod laws;
mod line;
mod lines;
mod places;
mod reader;
mod statement;
mod terminals;
mod writing;

pub use file_laws::{
    a_bad_line_is_the_first_of_the_file, first_bad_is_the_first_bad_line,
    lines_spell_their_triples, lines_stand_between_line_ends, no_first_bad_is_no_bad_line,
    pieces_are_cut_as_one, pieces_have_the_lines_of_the_whole,
};
pub use laws::{
    a_line_spells_one_triple, a_triple_is_something, spelled_triples_are_triples_of_rdf,
    the_scan_is_what_is_spelled,
};
pub use line::{LineFault, read_line};
pub use lines::{FeedFault, read_lines};
pub use reader::Reader;

#[cfg(test)]
mod reader_tests;
#[cfg(test)]
mod tests;
