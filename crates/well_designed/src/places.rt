//! What stands at the places of a pattern's triple patterns.
ghost use Rattle.std.specs.Prelude.{◌≡◌, ◌↔◌, ℕ, IsNone, Some, All};
ghost use Rattle.alg_model.specs.Limits.{max_variables};
ghost use Rattle.alg_model.specs.Pattern.{algebra_of, HasVarsBelow};
ghost use Rattle.alg_model.specs.VarSet.{TripleFits, PatternFits};
ghost use Rattle.well_designed.specs.Places.{is_variable, has_three_variables, lesser, own_number, list_number, pattern_number, predicate_set, node_set, list_set_by, set_by};
ghost use Rattle.well_designed.specs.Refusals.{IsThreePlaces, HasNoThreePlaces, IsCrossPlace, HasNoCrossPlace};

use alg_model::{Pattern, Place, TriplePat, Var};

/// The least number of a triple pattern with three variables, if there is one. It takes no memory.
pub fn three_places(pattern: &Pattern) -> Option<u16>
    ensures none { IsNone result ↔ HasNoThreePlaces (algebra_of pattern.now) }
    ensures least { (number : ℕ) → (result ≡ Some number) ↔ IsThreePlaces (algebra_of pattern.now) number }
{
    least_number(pattern)
}

/// The least variable that stands at a predicate place and at a node place, if there is one. It takes no
/// memory.
pub fn cross_place(pattern: &Pattern) -> Option<Var>
    requires { HasVarsBelow max_variables (algebra_of pattern.now) }
    ensures none { IsNone result ↔ HasNoCrossPlace (algebra_of pattern.now) }
    ensures least { (var : Var) → (result ≡ Some var) ↔ IsCrossPlace (algebra_of pattern.now) var.0 }
{
    let places = places_of(pattern);
    let both = places.predicates & places.nodes;
    if both == 0 {
        None
    } else {
        Some(Var(both.trailing_zeros() as u8))
    }
}

fn least_number(pattern: &Pattern) -> Option<u16>
    ensures { result ≡ pattern_number (algebra_of pattern.now) }
{
    match pattern {
        Pattern::Bgp(list) => least_in_list(list.as_slice()),
        Pattern::Join(left, right) | Pattern::LeftJoin(left, right) => {
            lesser(least_number(left), least_number(right))
        }
    }
}

fn least_in_list(list: &[TriplePat]) -> Option<u16>
    ensures { result ≡ list_number list.now }
{
    let mut least = None;
    for triple in list {
        least = lesser(least, own_number(triple));
    }
    least
}

fn own_number(triple: &TriplePat) -> Option<u16>
    ensures { result ≡ own_number triple.now }
{
    if has_three_variables(triple) {
        Some(triple.number)
    } else {
        None
    }
}

fn has_three_variables(triple: &TriplePat) -> bool
    ensures { result ≡ has_three_variables triple.now }
{
    is_variable(&triple.subject) && is_variable(&triple.predicate) && is_variable(&triple.object)
}

fn is_variable(place: &Place) -> bool
    ensures { result ≡ is_variable place.now }
{
    match place {
        Place::Var(_) => true,
        Place::Term(_) => false,
    }
}

fn lesser(number: Option<u16>, other: Option<u16>) -> Option<u16>
    ensures { result ≡ lesser number other }
{
    match (number, other) {
        (Some(number), Some(other)) => Some(number.min(other)),
        (Some(number), None) => Some(number),
        (None, other) => other,
    }
}

// The variables at predicate places and at node places.
#[derive(Clone, Copy, Debug)]
struct Places {
    predicates: u64,
    nodes: u64,
}

fn places_of(pattern: &Pattern) -> Places
    requires { PatternFits (algebra_of pattern.now) }
    ensures predicates { result.predicates ≡ set_by predicate_set (algebra_of pattern.now) }
    ensures nodes { result.nodes ≡ set_by node_set (algebra_of pattern.now) }
{
    match pattern {
        Pattern::Bgp(list) => places_in_list(list.as_slice()),
        Pattern::Join(left, right) | Pattern::LeftJoin(left, right) => {
            let left = places_of(left);
            let right = places_of(right);
            Places {
                predicates: left.predicates | right.predicates,
                nodes: left.nodes | right.nodes,
            }
        }
    }
}

fn places_in_list(list: &[TriplePat]) -> Places
    requires { All TripleFits list.now }
    ensures predicates { result.predicates ≡ list_set_by predicate_set list.now }
    ensures nodes { result.nodes ≡ list_set_by node_set list.now }
{
    let mut predicates = 0;
    let mut nodes = 0;
    for triple in list {
        predicates |= triple.predicate.vars();
        nodes |= triple.subject.vars() | triple.object.vars();
    }
    Places { predicates, nodes }
}
