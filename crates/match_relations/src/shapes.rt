//! What each kind of triple pattern borrows from an index: a slice, a row, or a column.

ghost use Rattle.std.specs.Prelude.{◌≡◌, ◌≢◌, ◌↔◌, ◌<◌, [], ◌∷◌, length, Contains, IsTrue, if◌then◌else◌};
ghost use Rattle.alg_model.specs.declared.var.Var.{Var};
ghost use Rattle.pattern_rel.specs.Shapes.{lines_of_shape, row_lines, numbers_or_none, KnowsColumns};
ghost use Rattle.term_numbers.specs.Numbering.{all_objects, all_subjects};
ghost use Rattle.match_relations.specs.steps.Parts.{Lists};
ghost use Rattle.match_relations.specs.declared.part.Part.TheVariants.{Variable, Number};

use index_file::{Family, Index};
use pattern_rel::Shape;
use run_rows::RowRef;

/// Subjects and objects of a predicate.
pub(crate) fn both_nodes<'a>(index: &Index<'a>, p: u32) -> Shape<'a>
    requires { p < length index.now.numbering.terms.predicates }
    ensures lists { (s o : Var) → s.0 ≢ o.0 → Lists index.now.numbering.triples (length index.now.numbering.terms.shared)
        (Variable s) (Number p) (Variable o) (lines_of_shape result) }
    ensures knows { KnowsColumns result }
{
    let rows = index.slice(Family::So, p);
    let columns = index.slice(Family::Os, p);
    rows.rows();
    columns.rows();
    Shape::Pairs {
        rows,
        columns: Some(columns),
    }
}

/// Terms that a predicate has as subject and object at once.
pub(crate) fn one_node<'a>(index: &Index<'a>, p: u32) -> Shape<'a>
    requires { p < length index.now.numbering.terms.predicates }
    ensures lists { (s o : Var) → s.0 ≡ o.0 → Lists index.now.numbering.triples (length index.now.numbering.terms.shared)
        (Variable s) (Number p) (Variable o) (lines_of_shape result) }
    ensures knows { KnowsColumns result }
{
    let counts = index.counts();
    Shape::Diagonal {
        slice: index.slice(Family::So, p),
        shared: counts.shared,
    }
}

/// The row, or nothing.
fn one_row<'a>(row: Option<RowRef<'a>>) -> Shape<'a>
    ensures lines { lines_of_shape result ≡ row_lines (numbers_or_none row.entry) }
    ensures knows { KnowsColumns result }
{
    match row {
        Some(row) => Shape::OneRow(row),
        None => Shape::Nothing,
    }
}

/// Subjects of a predicate and an object.
pub(crate) fn subjects<'a>(index: &Index<'a>, p: u32, o: u32) -> Shape<'a>
    requires { p < length index.now.numbering.terms.predicates }
    ensures lists { (s : Var) → Lists index.now.numbering.triples (length index.now.numbering.terms.shared)
        (Variable s) (Number p) (Number o) (lines_of_shape result) }
    ensures knows { KnowsColumns result }
{
    one_row(index.slice(Family::Os, p).row(o))
}

/// Objects of a subject and a predicate.
pub(crate) fn objects<'a>(index: &Index<'a>, s: u32, p: u32) -> Shape<'a>
    requires { p < length index.now.numbering.terms.predicates }
    ensures lists { (o : Var) → Lists index.now.numbering.triples (length index.now.numbering.terms.shared)
        (Number s) (Number p) (Variable o) (lines_of_shape result) }
    ensures knows { KnowsColumns result }
{
    one_row(index.slice(Family::So, p).row(s))
}

/// Predicates and subjects of an object.
pub(crate) fn before_object<'a>(index: &Index<'a>, o: u32) -> Shape<'a>
    requires { o < length (all_objects index.now.numbering.terms) }
    ensures lists { (s p : Var) → Lists index.now.numbering.triples (length index.now.numbering.terms.shared)
        (Variable s) (Variable p) (Number o) (lines_of_shape result) }
    ensures knows { KnowsColumns result }
{
    Shape::Pairs {
        rows: index.slice(Family::Ps, o),
        columns: None,
    }
}

/// Predicates and objects of a subject.
pub(crate) fn after_subject<'a>(index: &Index<'a>, s: u32) -> Shape<'a>
    requires { s < length (all_subjects index.now.numbering.terms) }
    ensures lists { (p o : Var) → Lists index.now.numbering.triples (length index.now.numbering.terms.shared)
        (Number s) (Variable p) (Variable o) (lines_of_shape result) }
    ensures knows { KnowsColumns result }
{
    Shape::Pairs {
        rows: index.slice(Family::Po, s),
        columns: None,
    }
}

/// Predicates between a subject and an object.
pub(crate) fn between<'a>(index: &Index<'a>, s: u32, o: u32) -> Shape<'a>
    requires { o < length (all_objects index.now.numbering.terms) }
    ensures lists { (p : Var) → Lists index.now.numbering.triples (length index.now.numbering.terms.shared)
        (Number s) (Variable p) (Number o) (lines_of_shape result) }
    ensures knows { KnowsColumns result }
{
    Shape::Column {
        slice: index.slice(Family::Ps, o),
        column: s,
    }
}

/// Whether the row, if there is one, has the number.
fn row_has(row: Option<RowRef<'_>>, n: u32) -> bool
    ensures { IsTrue result ↔ Contains (numbers_or_none row.entry) n }
{
    match row {
        Some(row) => row.test(n),
        None => false,
    }
}

/// The one pair, or nothing.
fn ground_if<'a>(there: bool) -> Shape<'a>
    ensures lines { lines_of_shape result ≡ (if there then record { row = 0; columns = 0 ∷ [] } ∷ [] else []) }
    ensures knows { KnowsColumns result }
{
    if there { Shape::Ground } else { Shape::Nothing }
}

/// The triple of a subject, a predicate and an object, if it is there.
pub(crate) fn one_triple<'a>(index: &Index<'a>, s: u32, p: u32, o: u32) -> Shape<'a>
    requires { p < length index.now.numbering.terms.predicates }
    ensures lists { Lists index.now.numbering.triples (length index.now.numbering.terms.shared)
        (Number s) (Number p) (Number o) (lines_of_shape result) }
    ensures knows { KnowsColumns result }
{
    let slice = index.slice(Family::So, p);
    let there = row_has(slice.row(s), o);
    ground_if(there)
}
