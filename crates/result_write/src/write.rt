//! Prints results.
ghost use Rattle.std.specs.Prelude.{◌≡◌, map, string_bytes, IfOk};
ghost use Rattle.alg_model.specs.Query.{abstract_of};
ghost use Rattle.bm_world.specs.World.{Step};
ghost use Rattle.result_write.specs.Columns.{name_of, column_names};
ghost use Rattle.result_write.specs.Printing.{Prints, HasWriteCause};
ghost use Rattle.result_write.specs.ResultText.{result_text};
ghost use Rattle.result_write.specs.Tsv.{tsv_text};
ghost use Rattle.result_write.specs.JsonResult.{json_text};

use crate::column::columns_by_name;
use crate::json_result::JsonParts;
use crate::pieces::print_pieces;
use crate::tsv::TsvLines;
use crate::{Form, WriteEnd};
use alg_model::{Names, Query, Var};
use answer_rows::TextRows;
use bm_world::World;
use std::alloc::{AllocError, Global};

// A text is handed to the world in pieces of so many bytes, or of a row more.
const BUFFER: usize = 65_536;

/// Prints the rows of a query's result. After an `Err` some front of the text was printed. `Failed` comes only where the
/// count of failed writes rose, and `Memory` only where memory runs out. A row's text is made when it is printed: no more
/// of the text stands in memory at once than 64 KiB and one row.
pub fn write_rows<W: World>(
    alloc: Global,
    form: Form,
    query: &Query,
    rows: &TextRows<'_>,
    world: &mut W,
) -> Result<(), WriteEnd>
    ensures step { Step (W.told world.old) (W.told world.new)
        (Prints (result_text form (abstract_of query.now) rows.now.rows) result) }
    ensures cause { HasWriteCause (W.faults world.old).writes (W.faults world.new).writes result }
    ensures reads_stay { (W.faults world.new).reads ≡ (W.faults world.old).reads }
    ensures says_stay { (W.faults world.new).says ≡ (W.faults world.old).says }
{
    write_by(alloc, BUFFER, form, query, rows, world)
}

/// The same, by a buffer that is printed where it holds so many bytes.
pub(crate) fn write_by<W: World>(
    alloc: Global,
    enough: usize,
    form: Form,
    query: &Query,
    rows: &TextRows<'_>,
    world: &mut W,
) -> Result<(), WriteEnd>
    ensures step { Step (W.told world.old) (W.told world.new)
        (Prints (result_text form (abstract_of query.now) rows.now.rows) result) }
    ensures cause { HasWriteCause (W.faults world.old).writes (W.faults world.new).writes result }
    ensures reads_stay { (W.faults world.new).reads ≡ (W.faults world.old).reads }
    ensures says_stay { (W.faults world.new).says ≡ (W.faults world.old).says }
{
    match form {
        Form::Tsv => write_tsv(alloc, enough, query, rows, world),
        Form::Json => write_json(alloc, enough, query, rows, world),
    }
}

fn write_tsv<W: World>(
    alloc: Global,
    enough: usize,
    query: &Query,
    rows: &TextRows<'_>,
    world: &mut W,
) -> Result<(), WriteEnd>
    ensures step { Step (W.told world.old) (W.told world.new)
        (Prints (tsv_text (abstract_of query.now) rows.now.rows) result) }
    ensures cause { HasWriteCause (W.faults world.old).writes (W.faults world.new).writes result }
    ensures reads_stay { (W.faults world.new).reads ≡ (W.faults world.old).reads }
    ensures says_stay { (W.faults world.new).says ≡ (W.faults world.old).says }
{
    let Ok(names) = column_names(alloc, query) else {
        return Err(WriteEnd::Memory);
    };
    let lines = TsvLines {
        names: &names,
        rows,
    };
    print_pieces(alloc, enough, &lines, world)
}

fn write_json<W: World>(
    alloc: Global,
    enough: usize,
    query: &Query,
    rows: &TextRows<'_>,
    world: &mut W,
) -> Result<(), WriteEnd>
    ensures step { Step (W.told world.old) (W.told world.new)
        (Prints (json_text (abstract_of query.now) rows.now.rows) result) }
    ensures cause { HasWriteCause (W.faults world.old).writes (W.faults world.new).writes result }
    ensures reads_stay { (W.faults world.new).reads ≡ (W.faults world.old).reads }
    ensures says_stay { (W.faults world.new).says ≡ (W.faults world.old).says }
{
    let Ok(names) = column_names(alloc, query) else {
        return Err(WriteEnd::Memory);
    };
    let Ok(columns) = columns_by_name(alloc, &names) else {
        return Err(WriteEnd::Memory);
    };
    let parts = JsonParts {
        alloc,
        names: &names,
        columns: &columns,
        rows,
    };
    print_pieces(alloc, enough, &parts, world)
}

/// The names of a query's columns.
fn column_names(alloc: Global, query: &Query) -> Result<Vec<String>, AllocError>
    ensures { IfOk result (λ names. map string_bytes names.items ≡ column_names (abstract_of query.now)) }
{
    let columns = &query.columns;
    let mut names = Vec::new(alloc);
    for i in 0..columns.len() {
        let name = name_of(&query.names, columns.get(i));
        names.push(String::from_str(alloc, name)?)?;
    }
    Ok(names)
}

/// The name of a variable. One that has none is given the empty name.
fn name_of(names: &Names, var: Var) -> &str
    ensures { result.now ≡ name_of names.now var }
{
    let number = var.0 as usize;
    if number < names.len() {
        names.get(number)
    } else {
        ""
    }
}
