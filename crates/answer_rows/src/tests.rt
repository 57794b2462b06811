ghost use Rattle.std.specs.Prelude.{◌≡◌, ◌<◌, IfOk, length};
ghost use Rattle.alg_model.specs.Limits.{KeepsLimits};

use crate::{Cell, TextRows, project_sort};
use alg_model::{Columns, Names, PatList, Pattern, Query, Var, eval_plain};
use bm_term::TermRef;
use std::alloc::Global;
use std::process::Abort;
use std::test::Fail;

// Rows of two cells; an empty text is no term.
const ROWS: [[&str; 2]; 4] = [["<a>", "<c>"], ["<b>", ""], ["<b>", "<c>"], ["<a>", "<b>"]];

fn bind<'a>(rows: &mut TextRows<'a>, column: u8, text: &'a str)
    requires row_exists { 0 < length rows.old.rows }
    requires column_exists { column < rows.old.width }
    ensures rows { length rows.new.rows ≡ length rows.old.rows }
    ensures width { rows.new.width ≡ rows.old.width }
{
    if let Some(term) = TermRef::new(text.as_bytes()) {
        rows.bind(column, term);
    }
}

fn add<'a>(rows: &mut TextRows<'a>, texts: &[&'a str; 2]) -> Result<(), Fail>
    requires { rows.old.width ≡ 2 }
    ensures { rows.new.width ≡ 2 }
{
    rows.add_row()?;
    bind(rows, 0, texts[0]);
    bind(rows, 1, texts[1]);
    Ok(())
}

fn rows_of<'a>(alloc: Global, table: &[[&'a str; 2]]) -> Result<TextRows<'a>, Fail>
    ensures { IfOk result (λ rows. rows.width ≡ 2) }
{
    let mut rows = TextRows::new(alloc, 2);
    for texts in table {
        add(&mut rows, texts)?;
    }
    Ok(rows)
}

// A query of two names, of which the second is answered.
fn query_of(alloc: Global, distinct: bool) -> Result<Query, Fail>
    ensures limits { IfOk result KeepsLimits }
    ensures names { IfOk result (λ query. length query.names ≡ 2) }
{
    let mut names = Names::new(alloc);
    names.push("x")?;
    names.push("y")?;
    let mut columns = Columns::new(alloc);
    columns.push(Var(1))?;
    Ok(Query {
        names,
        pattern: Pattern::Bgp(PatList::new(alloc)),
        columns,
        distinct,
    })
}

// Whether the cell is there, and has this text.
fn shows(rows: &TextRows<'_>, row: usize, column: u8, text: &str) -> bool {
    if row >= rows.len() || column >= rows.width() {
        return false;
    }
    match rows.cell(row, column) {
        Some(term) => term.bytes() == text.as_bytes(),
        None => text.is_empty(),
    }
}

fn expect(rt: &impl Abort, alloc: Global, distinct: bool, wanted: &[&str]) -> Result<(), Fail> {
    let rows = rows_of(alloc, &ROWS)?;
    let query = query_of(alloc, distinct)?;
    let answers = project_sort(alloc, rows, &query)?;
    assert!(rt; answers.width() == 1);
    assert!(rt; answers.len() == wanted.len());
    for (i, text) in wanted.iter().enumerate() {
        assert!(rt; shows(&answers, i, 0, text));
    }
    Ok(())
}

#[test]
fn answers_are_in_order(rt: HostRuntime) -> Result<(), Fail> {
    expect(&rt, rt.alloc(), false, &["", "<b>", "<c>", "<c>"])
}

#[test]
fn distinct_answers_stand_once(rt: HostRuntime) -> Result<(), Fail> {
    expect(&rt, rt.alloc(), true, &["", "<b>", "<c>"])
}

#[test]
fn rows_keep_what_is_bound(rt: HostRuntime) -> Result<(), Fail> {
    let mut rows = TextRows::new(rt.alloc(), 2);
    assert!(rt; rows.is_empty());
    add(&mut rows, &["<a>", ""])?;
    rows.push_row(&[Cell::unbound(), Cell::of(TermRef::new(b"_:b"))])?;
    assert!(rt; rows.len() == 2);
    assert!(rt; shows(&rows, 0, 0, "<a>") && shows(&rows, 0, 1, ""));
    assert!(rt; shows(&rows, 1, 0, "") && shows(&rows, 1, 1, "_:b"));
    Ok(())
}

#[test]
fn rows_of_a_list(rt: HostRuntime) -> Result<(), Fail> {
    let pattern = Pattern::Bgp(PatList::new(rt.alloc()));
    let list = eval_plain(rt.alloc(), &pattern, 2, &[])?;
    let rows = TextRows::from_list(rt.alloc(), &list, 2)?;
    assert!(rt; rows.len() == 1 && rows.width() == 2);
    assert!(rt; shows(&rows, 0, 0, "") && shows(&rows, 0, 1, ""));
    Ok(())
}
