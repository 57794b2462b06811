//! The law of accepted patterns. The call does nothing: its contract is the law.

ghost use Rattle.alg_model.specs.Pattern.{Algebra};
ghost use Rattle.pattern_tree.specs.Tree.{tree_of};
ghost use Rattle.well_designed.specs.Refusals.{IsAccepted};
ghost use Rattle.match_relations.specs.AcceptedTrees.{IsAcceptedTree};

/// The tree of an accepted pattern is one for which relations are prepared.
pub fn an_accepted_pattern_has_an_accepted_tree()
    ensures { (pattern : Algebra) → IsAccepted pattern → IsAcceptedTree (tree_of pattern) }
{}
