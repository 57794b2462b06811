//! The columns of a result in the order of their names.
ghost use Rattle.std.specs.Prelude.{◌≡◌, map, string_bytes, IfOk};
ghost use Rattle.result_write.specs.JsonResult.{columns_of, columns_by_name};
ghost use Rattle.result_write.specs.held.NamedColumns.{named};

use std::alloc::{AllocError, Global};

/// A column: its name, and its place among the columns. Columns are ordered by the bytes of their names, and then by
/// their places.
#[derive(PartialEq, Eq, PartialOrd, Ord, Debug, Drop)]
pub(crate) struct Column {
    pub(crate) name: String,
    pub(crate) place: usize,
}

/// The columns of these names, in ascending order.
pub(crate) fn columns_by_name(alloc: Global, names: &[String]) -> Result<Vec<Column>, AllocError>
    ensures { IfOk result (λ columns. map named columns.items ≡ columns_by_name (map string_bytes names.now)) }
{
    let mut columns = columns_of(alloc, names)?;
    columns.sort_unstable();
    Ok(columns)
}

/// The columns of these names, in the order of the names.
fn columns_of(alloc: Global, names: &[String]) -> Result<Vec<Column>, AllocError>
    ensures { IfOk result (λ columns. map named columns.items ≡ columns_of (map string_bytes names.now)) }
{
    let mut columns = Vec::new(alloc);
    for (place, name) in names.iter().enumerate() {
        columns.push(column_at(alloc, name.as_str(), place)?)?;
    }
    Ok(columns)
}

fn column_at(alloc: Global, name: &str, place: usize) -> Result<Column, AllocError>
    ensures { IfOk result (λ column. named column ≡ (name.now, place)) }
{
    Ok(Column {
        name: String::from_str(alloc, name)?,
        place,
    })
}
