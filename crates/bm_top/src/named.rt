//! The refusal of a query, with the name of its variable.
ghost use Rattle.std.specs.Prelude.{◌≡◌, ◌<◌, [], length, slice_index_or, string_bytes, IfOk};
ghost use Rattle.bm_top.specs.Lines.{pattern_line, query_line};
ghost use Rattle.well_designed.specs.Computed.{NamesBelow};

use crate::refusal::QueryRefusal;
use alg_model::{Names, Var};
use std::alloc::{AllocError, Global};
use well_designed::Refusal;

/// A refusal with the name of its variable.
pub(crate) fn named(
    alloc: Global,
    names: &Names,
    refusal: Refusal,
) -> Result<QueryRefusal, AllocError>
    requires { NamesBelow (length names.now) refusal }
    ensures { IfOk result (λ named. query_line named ≡ pattern_line names.now refusal) }
{
    match refusal {
        Refusal::NotWellDesigned { optional, var } => Ok(QueryRefusal::NotWellDesigned {
            optional,
            name: name_of(alloc, names, var)?,
        }),
        Refusal::ThreePlaces { pattern } => Ok(QueryRefusal::ThreePlaces { pattern }),
        Refusal::CrossPlace { var } => Ok(QueryRefusal::CrossPlace {
            name: name_of(alloc, names, var)?,
        }),
    }
}

fn name_of(alloc: Global, names: &Names, var: Var) -> Result<String, AllocError>
    requires { var.0 < length names.now }
    ensures { IfOk result (λ name. string_bytes name ≡ slice_index_or names.now var.0 []) }
{
    String::from_str(alloc, names.get(var.0 as usize))
}
