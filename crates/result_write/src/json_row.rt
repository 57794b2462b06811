//! The object of a row, and the list of names, as the writer of JSON writes them.
ghost use Rattle.std.specs.Prelude.{◌≡◌, None, map, is_some, count_by, slice_index_or, string_bytes, IfOk, OnOk};
ghost use Rattle.std.specs.Option.{option_map};
ghost use Rattle.std.specs.List.{filter_map};
ghost use Rattle.serde_json.specs.Data.{array};
ghost use Rattle.serde_json.specs.Events.{SendsValue};
ghost use Rattle.bm_term.specs.TermRef.{text_of};
ghost use Rattle.result_write.specs.Json.{json_string, json_object, json_array};
ghost use Rattle.result_write.specs.JsonResult.{bound_member};
ghost use Rattle.result_write.specs.held.NamedColumns.{named};
ghost use Rattle.result_write.specs.held.Written.{cell_data, names_data};
ghost use Rattle.result_write.specs.held.RowData.{row_data, SendsMember, SendsBound};

use crate::column::Column;
use crate::json_term::send_term;
use answer_rows::Cell;
use bm_term::TermRef;
use serde::{Described, Serialize, Serializer};
use std::alloc::{AllocError, Global};

/// The object of a row (SPARQL 1.1 Query Results JSON Format, section 3.2.1): a member for each column that is bound, in
/// the order of `columns`. `Err` only where memory runs out.
pub(crate) fn row_text(
    alloc: Global,
    columns: &[Column],
    cells: &[Cell<'_>],
) -> Result<Vec<u8>, AllocError>
    ensures { IfOk result (λ text. text.items ≡ json_object (filter_map (bound_member cells.now) (map named columns.now))) }
{
    let row = RowJson {
        alloc,
        columns,
        cells,
    };
    match serde_json::to_vec(alloc, &row) {
        Ok(text) => Ok(text),
        Err(_) => Err(AllocError),
    }
}

/// The names as an array of strings. `Err` only where memory runs out.
pub(crate) fn names_text(alloc: Global, names: &[String]) -> Result<Vec<u8>, AllocError>
    ensures { IfOk result (λ text. text.items ≡ json_array (map json_string (map string_bytes names.now))) }
{
    match serde_json::to_vec(alloc, &NamesJson { names }) {
        Ok(text) => Ok(text),
        Err(_) => Err(AllocError),
    }
}

/// A row that is written as its object.
#[derive(Drop)]
struct RowJson<'r, 'a> {
    alloc: Global,
    columns: &'r [Column],
    cells: &'r [Cell<'a>],
}

impl Described for RowJson<'_, '_> {
    ghost writes = { λ row. SendsValue (row_data row.cells.now (map named row.columns.now)) };
}

impl Serialize for RowJson<'_, '_> {
    fn serialize<S: Serializer>(&self, out: &mut S) -> Result<(), S::Error> {
        send_row(self.alloc, self.columns, self.cells, out)
    }
}

fn send_row<S: Serializer>(
    alloc: Global,
    columns: &[Column],
    cells: &[Cell<'_>],
    out: &mut S,
) -> Result<(), S::Error>
    ensures { OnOk result (SendsValue (row_data cells.now (map named columns.now)) (S.written out.old) (S.written out.new)) }
{
    out.begin_map(Some(count_bound(columns, cells)))?;
    for column in columns {
        send_column(alloc, column, cells, out)?;
    }
    out.end_map()
}

/// How many columns are bound.
fn count_bound(columns: &[Column], cells: &[Cell<'_>]) -> usize
    ensures { result ≡ count_by (λ column. is_some (slice_index_or cells.now column.place None)) columns.now }
{
    columns
        .iter()
        .filter(|column| is_bound(cells, column.place))
        .count()
}

fn is_bound(cells: &[Cell<'_>], place: usize) -> bool
    ensures { result ≡ is_some (slice_index_or cells.now place None) }
{
    term_at(cells, place).is_some()
}

/// The member of a column, where it is bound.
fn send_column<S: Serializer>(
    alloc: Global,
    column: &Column,
    cells: &[Cell<'_>],
    out: &mut S,
) -> Result<(), S::Error>
    ensures { OnOk result (SendsBound (string_bytes column.now.name) (slice_index_or cells.now column.now.place None) (S.written out.old) (S.written out.new)) }
{
    match term_at(cells, column.place) {
        Some(term) => send_member(alloc, column.name.as_str(), term, out),
        None => Ok(()),
    }
}

fn send_member<S: Serializer>(
    alloc: Global,
    name: &str,
    term: TermRef<'_>,
    out: &mut S,
) -> Result<(), S::Error>
    ensures { OnOk result (SendsMember name.now (cell_data (text_of term.entry)) (S.written out.old) (S.written out.new)) }
{
    out.key(name)?;
    send_term(alloc, term, out)
}

/// The term at a place, if there is such a place and it is bound.
fn term_at<'a>(cells: &[Cell<'a>], place: usize) -> Option<TermRef<'a>>
    ensures { option_map text_of result ≡ slice_index_or cells.now place None }
{
    match cells.get(place) {
        Some(cell) => cell.term(),
        None => None,
    }
}

/// Names that are written as an array of strings.
#[derive(Drop)]
struct NamesJson<'r> {
    names: &'r [String],
}

impl Described for NamesJson<'_> {
    ghost writes = { λ list. SendsValue (array (names_data (map string_bytes list.names.now))) };
}

impl Serialize for NamesJson<'_> {
    fn serialize<S: Serializer>(&self, out: &mut S) -> Result<(), S::Error> {
        send_names(self.names, out)
    }
}

fn send_names<S: Serializer>(names: &[String], out: &mut S) -> Result<(), S::Error>
    ensures { OnOk result (SendsValue (array (names_data (map string_bytes names.now))) (S.written out.old) (S.written out.new)) }
{
    out.begin_seq(Some(names.len()))?;
    for name in names {
        out.str(name.as_str())?;
    }
    out.end_seq()
}
