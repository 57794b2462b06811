// The law of names. The call does nothing: its contract is the law.
ghost use Rattle.std.specs.Prelude.{◌≡◌, ◌↔◌, ℕ, List};
ghost use Rattle.alg_model.specs.Eval.{Interpretation};
ghost use Rattle.alg_model.specs.Row.{Row};
ghost use Rattle.pattern_tree.specs.Solution.{Family, IsPartialRow, IsMaximalRow};
ghost use Rattle.pattern_tree.specs.Tree.{TreeNode};
ghost use Rattle.naming_laws.specs.Naming.{IsNaming, TellsApart, named_row, named_family};

/// Over the family that a family of names names, the rows of partial solutions are exactly the named rows of those over
/// the names, and so are the maximal ones, where no variable takes two names of one value. Two such rows of names that
/// name one row are one. It is a law of every tree.
pub fn naming_law<W, Y, V, X>()
    ensures partial { (names : Interpretation W Y) (interpretation : Interpretation V X) (value : W → V) (triple : Y → X) (n : ℕ) (tree : List TreeNode) (family : Family Y) →
        IsNaming names interpretation value triple → TellsApart names value tree family →
        (row : Row V) → IsPartialRow interpretation n tree (named_family triple family) row
        ↔ ((name : Row W) × IsPartialRow names n tree family name × (named_row value name ≡ row)) }
    ensures maximal { (names : Interpretation W Y) (interpretation : Interpretation V X) (value : W → V) (triple : Y → X) (n : ℕ) (tree : List TreeNode) (family : Family Y) →
        IsNaming names interpretation value triple → TellsApart names value tree family →
        (row : Row V) → IsMaximalRow interpretation n tree (named_family triple family) row
        ↔ ((name : Row W) × IsMaximalRow names n tree family name × (named_row value name ≡ row)) }
    ensures one { (names : Interpretation W Y) (value : W → V) (n : ℕ) (tree : List TreeNode) (family : Family Y) → TellsApart names value tree family →
        (name other : Row W) → IsPartialRow names n tree family name → IsPartialRow names n tree family other →
        named_row value name ≡ named_row value other → name ≡ other }
{}
