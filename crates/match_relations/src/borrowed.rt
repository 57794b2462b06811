//! What a triple pattern borrows from an index.

ghost use Rattle.std.specs.Prelude.{◌≡◌, ◌≤◌, ℕ, List, length, IfOk, Some};
ghost use Rattle.pattern_rel.specs.Shapes.{lines_of_shape, KnowsColumns};
ghost use Rattle.term_numbers.specs.Numbering.{all_objects, all_subjects};
ghost use Rattle.well_designed.specs.Refusals.{HasThreeVariables};
ghost use Rattle.match_relations.specs.AcceptedTrees.{IsAcceptedTree};
ghost use Rattle.match_relations.specs.steps.Numbers.{patterns_in, with_number};
ghost use Rattle.match_relations.specs.steps.Parts.{AreBorrowed, IsBorrowedAt, IsBorrowed, IsWithin, Lists, HasNumber, first_side, second_side, part_of, subject_part, predicate_part, object_part};

use crate::numbered::numbered;
use crate::part::{Part, object_part, predicate_part, subject_part};
use crate::shapes::{
    after_subject, before_object, between, both_nodes, objects, one_node, one_triple, subjects,
};
use alg_model::{Place, TriplePat, Var};
use index_file::Index;
use pattern_rel::Shape;
use pattern_tree::Tree;
use std::alloc::{AllocError, Global};
use tree_relations::{PlaceKind, SidePlace};

/// What a triple pattern borrows from an index, and which variable stands at each side of it.
#[derive(Debug, Drop)]
pub(crate) struct Borrowed<'a> {
    pub shape: Shape<'a>,
    pub first: Option<SidePlace>,
    pub second: Option<SidePlace>,
}

/// The shape of a triple pattern whose terms are in the index.
fn shape_at<'a>(index: &Index<'a>, s: Part, p: Part, o: Part) -> Shape<'a>
    requires some { HasNumber s p o }
    requires subject { IsWithin (length (all_subjects index.now.numbering.terms)) s }
    requires predicate { IsWithin (length index.now.numbering.terms.predicates) p }
    requires object { IsWithin (length (all_objects index.now.numbering.terms)) o }
    ensures lists { Lists index.now.numbering.triples (length index.now.numbering.terms.shared) s p o (lines_of_shape result) }
    ensures knows { KnowsColumns result }
{
    match (s, p, o) {
        (Part::Variable(s), Part::Number(p), Part::Variable(o)) => {
            if s.0 == o.0 {
                one_node(index, p)
            } else {
                both_nodes(index, p)
            }
        }
        (Part::Variable(_), Part::Number(p), Part::Number(o)) => subjects(index, p, o),
        (Part::Number(s), Part::Number(p), Part::Variable(_)) => objects(index, s, p),
        (Part::Variable(_), Part::Variable(_), Part::Number(o)) => before_object(index, o),
        (Part::Number(s), Part::Variable(_), Part::Variable(_)) => after_subject(index, s),
        (Part::Number(s), Part::Variable(_), Part::Number(o)) => between(index, s, o),
        (Part::Number(s), Part::Number(p), Part::Number(o)) => one_triple(index, s, p, o),
        (Part::Variable(_), Part::Variable(_), Part::Variable(_)) => unreachable!(),
    }
}

/// A side with a variable.
fn side(kind: PlaceKind, var: Var) -> Option<SidePlace>
    ensures { result ≡ Some (record { kind = kind; var = var }) }
{
    Some(SidePlace { kind, var })
}

/// The variable at the first side.
fn first_side(pattern: &TriplePat) -> Option<SidePlace>
    ensures { (ss ps os : List (List ℕ)) → result ≡ first_side (part_of ss pattern.now.subject) (part_of ps pattern.now.predicate) (part_of os pattern.now.object) }
{
    match (&pattern.subject, &pattern.predicate, &pattern.object) {
        (_, Place::Var(p), _) => side(PlaceKind::Predicate, *p),
        (Place::Var(s), Place::Term(_), _) => side(PlaceKind::Subject, *s),
        (Place::Term(_), Place::Term(_), Place::Var(o)) => side(PlaceKind::Object, *o),
        (Place::Term(_), Place::Term(_), Place::Term(_)) => None,
    }
}

/// The variable at the second side.
fn second_side(pattern: &TriplePat) -> Option<SidePlace>
    ensures { (ss ps os : List (List ℕ)) → result ≡ second_side (part_of ss pattern.now.subject) (part_of ps pattern.now.predicate) (part_of os pattern.now.object) }
{
    match (&pattern.subject, &pattern.predicate, &pattern.object) {
        (Place::Var(s), Place::Var(_), _) => side(PlaceKind::Subject, *s),
        (Place::Term(_), Place::Var(_), Place::Var(o)) => side(PlaceKind::Object, *o),
        (Place::Term(_), Place::Var(_), Place::Term(_)) => None,
        (Place::Var(_), Place::Term(_), Place::Var(o)) => side(PlaceKind::Object, *o),
        (Place::Var(_), Place::Term(_), Place::Term(_)) => None,
        (Place::Term(_), Place::Term(_), _) => None,
    }
}

/// The shape of a triple pattern: nothing where one of its terms is not in the index.
fn shape_of<'a>(index: &Index<'a>, pattern: &TriplePat) -> Shape<'a>
    requires { ¬ HasThreeVariables pattern.now }
    ensures lists { Lists index.now.numbering.triples (length index.now.numbering.terms.shared)
        (subject_part index.now.numbering.terms pattern.now) (predicate_part index.now.numbering.terms pattern.now)
        (object_part index.now.numbering.terms pattern.now) (lines_of_shape result) }
    ensures knows { KnowsColumns result }
{
    index.counts();
    let s = match subject_part(index, &pattern.subject) {
        Some(s) => s,
        None => return Shape::Nothing,
    };
    let p = match predicate_part(index, &pattern.predicate) {
        Some(p) => p,
        None => return Shape::Nothing,
    };
    let o = match object_part(index, &pattern.object) {
        Some(o) => o,
        None => return Shape::Nothing,
    };
    shape_at(index, s, p, o)
}

/// What a triple pattern borrows. It has no three variables.
fn borrow_for<'a>(index: &Index<'a>, pattern: &TriplePat) -> Borrowed<'a>
    requires { ¬ HasThreeVariables pattern.now }
    ensures { IsBorrowed index.now.numbering pattern.now result }
{
    let shape = shape_of(index, pattern);
    shape.lines_ascend();
    Borrowed {
        shape,
        first: first_side(pattern),
        second: second_side(pattern),
    }
}

/// What the triple pattern with a number borrows.
fn borrow_numbered<'a>(tree: &Tree<'_>, index: &Index<'a>, number: u16) -> Borrowed<'a>
    requires { IsAcceptedTree tree.now }
    ensures { IsBorrowedAt index.now.numbering (with_number number (patterns_in tree.now)) result }
{
    match numbered(tree, number) {
        Some(pattern) => borrow_for(index, pattern),
        None => Borrowed {
            shape: Shape::Nothing,
            first: None,
            second: None,
        },
    }
}

/// What the triple patterns of a tree borrow, by their numbers from 1 on.
pub(crate) fn borrow_all<'a>(
    alloc: Global,
    tree: &Tree<'_>,
    index: &Index<'a>,
    count: u16,
) -> Result<Vec<Borrowed<'a>>, AllocError>
    requires accepted { IsAcceptedTree tree.now }
    requires low { count ≤ 256 }
    ensures count { IfOk result (λ all. length all.items ≡ count) }
    ensures borrowed { IfOk result (λ all. AreBorrowed index.now.numbering (patterns_in tree.now) all.items) }
{
    let mut all = Vec::new(alloc);
    for place in 0..count {
        all.push(borrow_numbered(tree, index, place + 1))?;
    }
    Ok(all)
}
