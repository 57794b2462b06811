//! At which side a variable stands, and which numbers two kinds of places have in common.

ghost use Rattle.std.specs.Prelude.{◌≡◌, ◌⊎◌};
ghost use Rattle.tree_relations.specs.declared.prepared.PlaceKind.{PlaceKind};
ghost use Rattle.tree_relations.specs.Fits.{IsSide};
ghost use Rattle.mask_steps.specs.steps.Cuts.{cut_of};
ghost use Rattle.mask_steps.specs.steps.Sides.{IsTaken};

use alg_model::Var;
use pattern_rel::Side;
use tree_relations::{Entry, PlaceKind};

/// The side at which a variable of an entry is taken, the first one where it stands at both, and the kind of its place.
pub fn side_of(entry: &Entry<'_>, var: Var) -> (Side, PlaceKind)
    requires { (kind : PlaceKind) × (IsSide entry.now.first kind var.0 ⊎ IsSide entry.now.second kind var.0) }
    ensures { IsTaken entry.now var.0 result.0 result.1 }
{
    match entry.first {
        Some(place) if place.var == var => (Side::First, place.kind),
        _ => match entry.second {
            Some(place) => (Side::Second, place.kind),
            None => (Side::First, PlaceKind::Subject),
        },
    }
}

/// Below which number places of two kinds have the same values, where that is not so for all their numbers.
pub fn cut_between(a: PlaceKind, b: PlaceKind, shared: u32) -> Option<u32>
    ensures { result ≡ cut_of shared a b }
{
    match (a, b) {
        (PlaceKind::Subject, PlaceKind::Object) => Some(shared),
        (PlaceKind::Object, PlaceKind::Subject) => Some(shared),
        (PlaceKind::Predicate, PlaceKind::Predicate) => None,
        (PlaceKind::Predicate, _) => Some(0),
        (_, PlaceKind::Predicate) => Some(0),
        _ => None,
    }
}
