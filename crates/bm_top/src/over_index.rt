//! The answers of the text of a query over an open index, or why there are none.
ghost use Rattle.std.specs.Prelude.{◌≡◌, length, None, IfSome};
ghost use Rattle.bm_query.specs.Faults.{fault_of};
ghost use Rattle.bm_query.specs.declared.fault.AnswerFault.TheVariants.{Memory};
ghost use Rattle.well_designed.specs.Computed.{NamesBelow};
ghost use Rattle.well_designed.specs.declared.refusals.Refusal.{Refusal};
ghost use Rattle.bm_top.specs.steps.Over.{IsAnswered, NamesFault};

use crate::named::named;
use crate::undecided::Undecided;
use alg_model::{Names, Query};
use answer_rows::TextRows;
use bm_query::{AnswerFault, answer};
use index_file::Index;
use sparql_parse::parse_query;
use std::alloc::{AllocError, Global};
use well_designed::Refusal;

/// An accepted query, and its answers. They borrow their terms from the index.
#[derive(Drop)]
pub(crate) struct Answered<'a> {
    pub(crate) query: Query,
    pub(crate) rows: TextRows<'a>,
}

/// The query of the text and its answers over the index, or why there are none: the refusal of the query.
pub(crate) fn answer_text<'a>(
    alloc: Global,
    index: &Index<'a>,
    text: &[u8],
) -> Result<Answered<'a>, Undecided>
    ensures { IsAnswered index.now.numbering text.now result }
{
    let query = parse_query(alloc, text)?;
    match answer(alloc, index, &query) {
        Ok(rows) => Ok(Answered { query, rows }),
        Err(fault) => Err(unanswered(alloc, &query.names, fault)),
    }
}

/// Why a query is not answered, with the name of the variable.
fn unanswered(alloc: Global, names: &Names, fault: AnswerFault) -> Undecided
    requires { (cause : Refusal) → fault ≡ fault_of cause → NamesBelow (length names.now) cause }
    ensures { NamesFault names.now fault result }
{
    match refusal_of_fault(fault) {
        Some(refusal) => match named(alloc, names, refusal) {
            Ok(refusal) => Undecided::Query { refusal },
            Err(AllocError) => Undecided::Memory,
        },
        None => Undecided::Memory,
    }
}

/// The refusal that a fault is, if it is not one of memory.
fn refusal_of_fault(fault: AnswerFault) -> Option<Refusal>
    ensures refusal { IfSome result (λ refusal. fault ≡ fault_of refusal) }
    ensures memory { result ≡ None → fault ≡ Memory }
{
    match fault {
        AnswerFault::NotWellDesigned { optional, var } => {
            Some(Refusal::NotWellDesigned { optional, var })
        }
        AnswerFault::ThreePlaces { pattern } => Some(Refusal::ThreePlaces { pattern }),
        AnswerFault::CrossPlace { var } => Some(Refusal::CrossPlace { var }),
        AnswerFault::Memory => None,
    }
}
