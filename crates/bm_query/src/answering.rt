//! The answers of a query over an index.

ghost use Rattle.std.specs.Prelude.{◌≡◌, ◌↔◌, Err, List, length, IfOk};
ghost use Rattle.alg_model.specs.Answers.{answers_of};
ghost use Rattle.alg_model.specs.Limits.{KeepsLimits};
ghost use Rattle.alg_model.specs.Pattern.{algebra_of};
ghost use Rattle.bm_term.specs.declared.triple.Triple.{Triple};
ghost use Rattle.index_file.specs.Version.{NumbersGraph};
ghost use Rattle.well_designed.specs.Refusals.{IsAccepted, IsRefused};
ghost use Rattle.well_designed.specs.declared.refusals.Refusal.{Refusal};
ghost use Rattle.bm_query.specs.Faults.{fault_of};
ghost use Rattle.bm_query.specs.declared.fault.AnswerFault.TheVariants.{Memory};

use crate::engine::best_rows;
use crate::fault::AnswerFault;
use crate::rows::named_rows;
use alg_model::Query;
use answer_rows::{TextRows, project_sort};
use index_file::Index;
use pattern_tree::tree_of;
use std::alloc::{AllocError, Global};
use well_designed::refusal_of;

/// The answers of a query over the graph of an index: the rows of its pattern (SPARQL 1.1 Query, section 18.5), cut to
/// its columns and in order (section 18.2.5). They borrow their terms from the bytes of the index, which is always that
/// of one graph ([`Index::counts`]). The query keeps the limits. A query whose pattern is refused is not answered, and no
/// memory is taken then.
pub fn answer<'a>(
    alloc: Global,
    index: &Index<'a>,
    query: &Query,
) -> Result<TextRows<'a>, AnswerFault>
    requires { KeepsLimits query.now }
    ensures rows { (graph : List Triple) → NumbersGraph graph index.now.numbering →
        IfOk result (λ answers. answers.rows ≡ answers_of query.now graph) }
    ensures width { IfOk result (λ answers. answers.width ≡ length query.now.columns) }
    ensures accepted { IfOk result (λ _. IsAccepted (algebra_of query.now.pattern)) }
    ensures refused { (refusal : Refusal) →
        (result ≡ Err (fault_of refusal)) ↔ IsRefused (algebra_of query.now.pattern) refusal }
    ensures memory { result ≡ Err Memory → IsAccepted (algebra_of query.now.pattern) }
{
    if let Some(refusal) = refusal_of(&query.pattern) {
        return Err(AnswerFault::from(refusal));
    }
    match rows_of(alloc, index, query) {
        Ok(rows) => Ok(rows),
        Err(AllocError) => Err(AnswerFault::Memory),
    }
}

/// The answers of a query whose pattern is accepted.
fn rows_of<'a>(alloc: Global, index: &Index<'a>, query: &Query) -> Result<TextRows<'a>, AllocError>
    requires limits { KeepsLimits query.now }
    requires accepted { IsAccepted (algebra_of query.now.pattern) }
    ensures rows { (graph : List Triple) → NumbersGraph graph index.now.numbering →
        IfOk result (λ answers. answers.rows ≡ answers_of query.now graph) }
    ensures width { IfOk result (λ answers. answers.width ≡ length query.now.columns) }
{
    index.counts();
    let width = query.names.len() as u8;
    let tree = tree_of(alloc, &query.pattern)?;
    let rows = best_rows(alloc, index, &tree, width)?;
    let named = named_rows(alloc, index, &rows)?;
    drop(rows);
    project_sort(alloc, named, query)
}
