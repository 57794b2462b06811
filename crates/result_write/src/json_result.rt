//! Results as JSON.
ghost use Rattle.std.specs.Prelude.{◌≡◌, ◌++◌, map, string_bytes, OnOk};
ghost use Rattle.result_write.specs.held.NamedColumns.{named};
ghost use Rattle.result_write.specs.held.TextPieces.{json_start, row_piece, json_pieces};

use crate::column::Column;
use crate::json_row::{names_text, row_text};
use crate::pieces::Pieces;
use answer_rows::TextRows;
use std::alloc::{AllocError, Global};

/// The parts of a result: what is before the rows, each row, and what is behind them.
#[derive(Drop)]
pub(crate) struct JsonParts<'r, 'a> {
    pub(crate) alloc: Global,
    pub(crate) names: &'r [String],
    /// In the order of their names.
    pub(crate) columns: &'r [Column],
    pub(crate) rows: &'r TextRows<'a>,
}

impl Pieces for JsonParts<'_, '_> {
    ghost pieces = { λ parts. json_pieces (map string_bytes parts.names.now) (map named parts.columns.now) parts.rows.now.rows };

    #[tactic(auto, using(crate::proofs::PieceLaws::json_places))]
    fn count(&self) -> usize {
        self.rows.len() + 2
    }

    #[tactic(auto, using(crate::proofs::PieceLaws::json_places))]
    fn push(&self, i: usize, text: &mut Vec<u8>) -> Result<(), AllocError> {
        if i == 0 {
            return push_start(self.alloc, self.names, text);
        }
        if i > self.rows.len() {
            return text.extend_from_slice(b"]}}\n");
        }
        let row = i - 1;
        let object = row_text(self.alloc, self.columns, self.rows.row(row))?;
        push_object(row > 0, &object, text)
    }
}

/// What is before the first row: the names in the head, and how the results begin.
fn push_start(alloc: Global, names: &[String], text: &mut Vec<u8>) -> Result<(), AllocError>
    ensures { OnOk result (text.new.items ≡ text.old.items ++ json_start (map string_bytes names.now)) }
{
    let list = names_text(alloc, names)?;
    text.extend_from_slice(b"{\"head\":{\"vars\":")?;
    text.extend_from_slice(&list)?;
    text.extend_from_slice(b"},\"results\":{\"bindings\":[")
}

/// The object of a row, after a comma if it is not the first.
fn push_object(is_later: bool, object: &[u8], text: &mut Vec<u8>) -> Result<(), AllocError>
    ensures { OnOk result (text.new.items ≡ text.old.items ++ row_piece is_later object.now) }
{
    if is_later {
        text.push(b',')?;
    }
    text.extend_from_slice(object)
}
