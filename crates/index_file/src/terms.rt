//! Whether the texts of the term table are canonical and in order.

ghost use Rattle.std.specs.Prelude.{◌≡◌, ◌↔◌, ◌<◌, ◌≤◌, [], length, All, IsTrue};
ghost use Rattle.std.specs.List.Sorted.{IsStrictlySortedBy};
ghost use Rattle.term_numbers.specs.Order.{text_cmp};
ghost use Rattle.index_file.specs.Conditions.{AreCanonical, AreOrdered};
ghost use Rattle.index_file.specs.steps.Groups.{AreApart, AreGroups, AreNodesApart, Follows, HasKind, IsGroupOf, MayBe, terms_of_groups};

use crate::group::{Group, Groups};
use crate::text::is_before;
use bm_term::{TermKind, parts};
use std::cmp::Ordering;

/// What the texts of a group are.
#[derive(Clone, Copy, PartialEq, Eq, Debug)]
pub(crate) enum TextKind {
    /// IRIs and blank nodes.
    Node,
    /// IRIs.
    Predicate,
    /// Any terms.
    Term,
}

/// Whether a text is canonical, and of a kind.
fn has_kind(kind: TextKind, text: &[u8]) -> bool
    ensures { IsTrue result ↔ HasKind kind text.now }
{
    match parts(text) {
        Some(found) => may_be(kind, found.kind),
        None => false,
    }
}

/// Whether terms of a kind are among those of a group.
fn may_be(kind: TextKind, found: TermKind) -> bool
    ensures { IsTrue result ↔ MayBe kind found }
{
    match kind {
        TextKind::Node => found == TermKind::Iri || found == TermKind::Blank,
        TextKind::Predicate => found == TermKind::Iri,
        TextKind::Term => true,
    }
}

/// Whether a text is after another, and is canonical and of a kind.
fn follows(kind: TextKind, before: &[u8], text: &[u8]) -> bool
    ensures { IsTrue result ↔ Follows kind before.now text.now }
{
    is_before(before, text) && has_kind(kind, text)
}

/// Whether the texts of a group are of its kind, and ascend.
fn is_group(kind: TextKind, texts: &Group<'_>) -> bool
    ensures { IsTrue result ↔ IsGroupOf kind texts.now }
{
    let mut before: &[u8] = &[];
    for i in 0..texts.len() {
        let text = texts.get(i);
        if !follows(kind, before, text) {
            return false;
        }
        before = text;
    }
    true
}

/// Whether no text is in both groups.
fn are_apart(one: &Group<'_>, other: &Group<'_>) -> bool
    requires one_ascends { IsStrictlySortedBy text_cmp one.now }
    requires other_ascends { IsStrictlySortedBy text_cmp other.now }
    ensures { IsTrue result ↔ AreApart one.now other.now }
{
    let mut i = 0;
    let mut j = 0;
    while i < one.len() && j < other.len() {
        match one.get(i).cmp(other.get(j)) {
            Ordering::Less => i += 1,
            Ordering::Greater => j += 1,
            Ordering::Equal => return false,
        }
    }
    true
}

/// Whether the texts of each group are of its kind, and ascend.
fn are_groups(groups: &Groups<'_>) -> bool
    ensures { IsTrue result ↔ AreGroups (terms_of_groups groups.now) }
{
    is_group(TextKind::Node, &groups.shared)
        && is_group(TextKind::Node, &groups.subjects)
        && is_group(TextKind::Term, &groups.objects)
        && is_group(TextKind::Predicate, &groups.predicates)
}

/// Whether no text is in two of the groups of nodes.
fn are_nodes_apart(groups: &Groups<'_>) -> bool
    requires { AreGroups (terms_of_groups groups.now) }
    ensures { IsTrue result ↔ AreNodesApart (terms_of_groups groups.now) }
{
    if !are_apart(&groups.shared, &groups.subjects) {
        return false;
    }
    if !are_apart(&groups.shared, &groups.objects) {
        return false;
    }
    are_apart(&groups.subjects, &groups.objects)
}

/// Whether all texts have their kinds and are in order.
pub(crate) fn are_terms(groups: &Groups<'_>) -> bool
    ensures { IsTrue result ↔ (AreCanonical (terms_of_groups groups.now) × AreOrdered (terms_of_groups groups.now)) }
{
    if !are_groups(groups) {
        return false;
    }
    are_nodes_apart(groups)
}
