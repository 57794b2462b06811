//! The engine: the best rows of a tree over an index.

ghost use Rattle.std.specs.Prelude.{◌≡◌, ℕ, ◌<◌, ◌≤◌, List, map, IfOk, IsPermutation};
ghost use Rattle.alg_model.specs.Eval.{as_terms, eval};
ghost use Rattle.alg_model.specs.Limits.{max_variables, PatternKeepsLimits};
ghost use Rattle.alg_model.specs.Pattern.{Algebra};
ghost use Rattle.alg_model.specs.WellDesigned.{IsWellDesigned};
ghost use Rattle.bm_term.specs.declared.triple.Triple.{Triple};
ghost use Rattle.engine_laws.specs.Terms.{text_at, RowsHaveTexts};
ghost use Rattle.index_file.specs.Version.{NumbersGraph};
ghost use Rattle.match_relations.specs.AcceptedTrees.{IsAcceptedTree};
ghost use Rattle.naming_laws.specs.Naming.{named_row};
ghost use Rattle.pattern_tree.specs.Standing.{OccursAt};
ghost use Rattle.pattern_tree.specs.Tree.{tree_of};
ghost use Rattle.bm_query.specs.steps.Named.{IsBestOf};

use index_file::Index;
use match_relations::prepare;
use multiway_join::flat_rows;
use null_best::best_match;
use pattern_tree::{FlatRows, Tree};
use prune_plan::prune;
use simple_trees::is_simple_tree;
use std::alloc::{AllocError, Global};

/// The rows of a tree over an index, as rows of places in its term table. Its relations are borrowed, and pruned; then one
/// join lists the flat rows, and best-match drops those that others extend. On a simple tree there are none.
pub(crate) fn best_rows(
    alloc: Global,
    index: &Index<'_>,
    tree: &Tree<'_>,
    vars: u8,
) -> Result<FlatRows, AllocError>
    requires accepted { IsAcceptedTree tree.now }
    requires few { vars ≤ max_variables }
    requires below { (k var : ℕ) → OccursAt tree.now k var → var < vars }
    ensures vars { IfOk result (λ rows. rows.vars ≡ vars) }
    ensures best { (graph : List Triple) (pattern : Algebra) → NumbersGraph graph index.now.numbering → tree.now ≡ tree_of pattern →
        IsWellDesigned pattern → PatternKeepsLimits vars pattern → IfOk result (IsBestOf index.now.numbering.terms graph vars pattern) }
{
    let mut prepared = prepare(alloc, tree, index)?;
    prune(&mut prepared, tree);
    let rows = flat_rows(alloc, &prepared, tree, vars)?;
    if is_simple_tree(alloc, tree)? {
        return Ok(rows);
    }
    best_match(alloc, rows)
}
