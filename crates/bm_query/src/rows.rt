//! Rows of places in the term table of an index, as rows of its terms.

ghost use Rattle.std.specs.Prelude.{◌≡◌, ◌<◌, length, map, All, IfOk, IfSome, OnOk};
ghost use Rattle.std.specs.Option.{option_map};
ghost use Rattle.engine_laws.specs.Terms.{text_at, RowsHaveTexts};
ghost use Rattle.naming_laws.specs.Naming.{named_row};
ghost use Rattle.pattern_tree.specs.FlatTable.{cell_of, row_of};
ghost use Rattle.term_numbers.specs.Numbering.{term_table};
ghost use Rattle.bm_query.specs.steps.Named.{HasText};

use answer_rows::{Cell, TextRows};
use index_file::Index;
use pattern_tree::FlatRows;
use std::alloc::{AllocError, Global};

/// The cell with this number: 0 is unbound, and `v + 1` is the term at place v.
#[tactic(auto, using(crate::proofs::NamedRows::named_text))]
fn named_cell<'a>(index: &Index<'a>, number: u32) -> Cell<'a>
    requires { HasText index.now.numbering.terms (cell_of number) }
    ensures { result ≡ option_map (text_at index.now.numbering.terms) (cell_of number) }
{
    match number.checked_sub(1) {
        Some(value) => Cell::bound(index.term(value)),
        None => Cell::unbound(),
    }
}

/// Puts the cells of a row into a buffer, in the place of what was there.
fn read_row<'a>(
    cells: &mut Vec<Cell<'a>>,
    index: &Index<'a>,
    numbers: &[u32],
) -> Result<(), AllocError>
    requires { All (HasText index.now.numbering.terms) (row_of numbers.now) }
    ensures { OnOk result (cells.new.items ≡ named_row (text_at index.now.numbering.terms) (row_of numbers.now)) }
{
    cells.clear();
    for number in numbers.iter() {
        cells.push(named_cell(index, *number))?;
    }
    Ok(())
}

/// The rows of the terms at the places of rows. The terms are borrowed from the index.
pub(crate) fn named_rows<'a>(
    alloc: Global,
    index: &Index<'a>,
    rows: &FlatRows,
) -> Result<TextRows<'a>, AllocError>
    requires { RowsHaveTexts index.now.numbering.terms rows.now.rows }
    ensures width { IfOk result (λ named. named.width ≡ rows.now.vars) }
    ensures rows { IfOk result (λ named. named.rows ≡ map (named_row (text_at index.now.numbering.terms)) rows.now.rows) }
{
    let mut named = TextRows::new(alloc, rows.vars());
    let mut cells = Vec::new(alloc);
    for i in 0..rows.len() {
        read_row(&mut cells, index, rows.row(i))?;
        named.push_row(&cells)?;
    }
    Ok(named)
}
