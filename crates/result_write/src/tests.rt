//! Rows, and what is printed for them in both forms. The texts were written by hand, from the recommendations of SPARQL
//! and from RFC 8259.
ghost use Rattle.std.specs.Prelude.{◌≡◌, IfOk};

use crate::{Form, write_rows};
use alg_model::{Columns, Names, PatList, Pattern, Query, Var};
use answer_rows::{Cell, TextRows};
use bm_term::TermRef;
use bm_world::MemWorld;
use std::alloc::Global;
use std::process::Abort;
use std::test::Fail;

/// A query that answers so many of two variables, from the first on.
fn query_of(alloc: Global, names: &[&str; 2], width: u8) -> Result<Query, Fail> {
    let mut all_names = Names::new(alloc);
    for name in names {
        all_names.push(name)?;
    }
    let mut columns = Columns::new(alloc);
    for i in 0..width {
        columns.push(Var(i))?;
    }
    Ok(Query {
        names: all_names,
        pattern: Pattern::Bgp(PatList::new(alloc)),
        columns,
        distinct: false,
    })
}

/// Rows of two cells. An empty text is no term, and its cell is unbound.
fn rows_of<'a>(alloc: Global, table: &[[&'a str; 2]]) -> Result<TextRows<'a>, Fail>
    ensures { IfOk result (λ rows. rows.width ≡ 2) }
{
    let mut rows = TextRows::new(alloc, 2);
    for texts in table {
        let first = Cell::of(TermRef::new(texts[0].as_bytes()));
        rows.push_row(&[first, Cell::of(TermRef::new(texts[1].as_bytes()))])?;
    }
    Ok(rows)
}

/// The rows are printed so, as tab-separated values and as JSON.
fn expect(
    rt: &impl Abort,
    alloc: Global,
    query: &Query,
    rows: &TextRows<'_>,
    texts: [&str; 2],
) -> Result<(), Fail> {
    for (form, text) in [(Form::Tsv, texts[0]), (Form::Json, texts[1])] {
        let mut world = MemWorld::new(alloc);
        write_rows(alloc, form, query, rows, &mut world)?;
        assert!(rt; world.printed() == text.as_bytes(), "{text}");
    }
    Ok(())
}

/// The same of rows of two cells.
fn expect_table(
    rt: &impl Abort,
    alloc: Global,
    names: &[&str; 2],
    table: &[[&str; 2]],
    texts: [&str; 2],
) -> Result<(), Fail> {
    let query = query_of(alloc, names, 2)?;
    let rows = rows_of(alloc, table)?;
    expect(rt, alloc, &query, &rows, texts)
}

#[test]
fn no_rows_of_no_columns(rt: HostRuntime) -> Result<(), Fail> {
    let query = query_of(rt.alloc(), &["x", "y"], 0)?;
    let rows = TextRows::new(rt.alloc(), 0);
    let json = "{\"head\":{\"vars\":[]},\"results\":{\"bindings\":[]}}\n";
    expect(&rt, rt.alloc(), &query, &rows, ["\n", json])
}

#[test]
fn an_unbound_cell_is_empty_or_no_member(rt: HostRuntime) -> Result<(), Fail> {
    let table = [["<urn:a>", ""], ["", "_:b"], ["", ""]];
    let tsv = "?x\t?y\n<urn:a>\t\n\t_:b\n\t\n";
    let json = "{\"head\":{\"vars\":[\"x\",\"y\"]},\"results\":{\"bindings\":[\
        {\"x\":{\"type\":\"uri\",\"value\":\"urn:a\"}},\
        {\"y\":{\"type\":\"bnode\",\"value\":\"b\"}},\
        {}]}}\n";
    expect_table(&rt, rt.alloc(), &["x", "y"], &table, [tsv, json])
}

#[test]
fn texts_are_escaped_in_json(rt: HostRuntime) -> Result<(), Fail> {
    let table = [["\"q\\\"b\\\\n\\n\u{1}\"@en", "\"\\t\u{7f}\""]];
    let tsv = "?y\t?a\"\\\n\"q\\\"b\\\\n\\n\u{1}\"@en\t\"\\t\u{7f}\"\n";
    let json = "{\"head\":{\"vars\":[\"y\",\"a\\\"\\\\\"]},\"results\":{\"bindings\":[\
        {\"a\\\"\\\\\":{\"type\":\"literal\",\"value\":\"\\t\u{7f}\"},\
        \"y\":{\"type\":\"literal\",\"value\":\"q\\\"b\\\\n\\n\\u0001\",\"xml:lang\":\"en\"}}]}}\n";
    expect_table(&rt, rt.alloc(), &["y", "a\"\\"], &table, [tsv, json])
}

#[test]
fn a_datatype_comes_before_the_type(rt: HostRuntime) -> Result<(), Fail> {
    let table = [["\"1\"^^<urn:d>", "<urn:\u{e9}>"]];
    let tsv = "?x\t?y\n\"1\"^^<urn:d>\t<urn:\u{e9}>\n";
    let json = "{\"head\":{\"vars\":[\"x\",\"y\"]},\"results\":{\"bindings\":[\
        {\"x\":{\"datatype\":\"urn:d\",\"type\":\"literal\",\"value\":\"1\"},\
        \"y\":{\"type\":\"uri\",\"value\":\"urn:\u{e9}\"}}]}}\n";
    expect_table(&rt, rt.alloc(), &["x", "y"], &table, [tsv, json])
}
