//! Sets of variables as words: bit v of a word says whether variable v is in the set.
ghost use Rattle.std.specs.Prelude.{◌≡◌, All};
ghost use Rattle.alg_model.specs.VarSet.{place_set, list_set, PlaceFits, TripleFits};

use crate::{Place, TriplePat};

/// The variable of a place, if it is one.
pub(crate) fn place_vars(place: &Place) -> u64
    requires { PlaceFits place.now }
    ensures { result ≡ place_set place.now }
{
    match place {
        Place::Var(var) => 1 << var.0,
        Place::Term(_) => 0,
    }
}

/// The variables of a list of triple patterns.
pub(crate) fn list_vars(patterns: &[TriplePat]) -> u64
    requires { All TripleFits patterns.now }
    ensures { result ≡ list_set patterns.now }
{
    let mut vars = 0;
    for pattern in patterns {
        vars |= pattern.vars();
    }
    vars
}
