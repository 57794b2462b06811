//! Results as tab-separated values.
ghost use Rattle.std.specs.Prelude.{◌≡◌, ◌==◌, ◌∷◌, ◌++◌, if◌then◌else◌, map, string_bytes, OnOk};
ghost use Rattle.result_write.specs.Tsv.{tab, question_mark, cell_text, tsv_row};
ghost use Rattle.result_write.specs.held.TextPieces.{header_line, tsv_pieces};

use crate::pieces::Pieces;
use answer_rows::{Cell, TextRows};
use std::alloc::AllocError;

const QUESTION: u8 = b'?';

const TAB: u8 = b'\t';

const LINE_FEED: u8 = b'\n';

/// The lines of a result: the names of its columns, and its rows.
#[derive(Drop)]
pub(crate) struct TsvLines<'r, 'a> {
    pub(crate) names: &'r [String],
    pub(crate) rows: &'r TextRows<'a>,
}

impl Pieces for TsvLines<'_, '_> {
    ghost pieces = { λ lines. tsv_pieces (map string_bytes lines.names.now) lines.rows.now.rows };

    #[tactic(auto, using(crate::proofs::PieceLaws::tsv_places))]
    fn count(&self) -> usize {
        self.rows.len() + 1
    }

    #[tactic(auto, using(crate::proofs::PieceLaws::tsv_places))]
    fn push(&self, i: usize, text: &mut Vec<u8>) -> Result<(), AllocError> {
        if i == 0 {
            return push_header(self.names, text);
        }
        push_row(self.rows.row(i - 1), text)
    }
}

fn push_header(names: &[String], text: &mut Vec<u8>) -> Result<(), AllocError>
    ensures { OnOk result (text.new.items ≡ text.old.items ++ header_line (map string_bytes names.now)) }
{
    for (i, name) in names.iter().enumerate() {
        push_name(i == 0, name.as_str(), text)?;
    }
    text.push(LINE_FEED)?;
    Ok(())
}

fn push_name(is_first: bool, name: &str, text: &mut Vec<u8>) -> Result<(), AllocError>
    ensures { OnOk result (text.new.items ≡ text.old.items ++ (if is_first then question_mark ∷ name.now else tab ∷ question_mark ∷ name.now)) }
{
    push_part(is_first, &[QUESTION], text)?;
    text.extend_from_slice(name.as_bytes())
}

fn push_row(cells: &[Cell<'_>], text: &mut Vec<u8>) -> Result<(), AllocError>
    ensures { OnOk result (text.new.items ≡ text.old.items ++ tsv_row cells.now) }
{
    for (i, cell) in cells.iter().enumerate() {
        push_cell(i == 0, cell, text)?;
    }
    text.push(LINE_FEED)?;
    Ok(())
}

fn push_cell(is_first: bool, cell: &Cell<'_>, text: &mut Vec<u8>) -> Result<(), AllocError>
    ensures { OnOk result (text.new.items ≡ text.old.items ++ (if is_first then cell_text cell.now else tab ∷ cell_text cell.now)) }
{
    match cell.term() {
        Some(term) => push_part(is_first, term.bytes(), text),
        None => push_part(is_first, &[], text),
    }
}

// A part of a line, after a tab if it is not the first.
fn push_part(is_first: bool, part: &[u8], text: &mut Vec<u8>) -> Result<(), AllocError>
    ensures { OnOk result (text.new.items ≡ text.old.items ++ (if is_first then part.now else tab ∷ part.now)) }
{
    if !is_first {
        text.push(TAB)?;
    }
    text.extend_from_slice(part)
}
