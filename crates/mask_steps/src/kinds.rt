//! What the working masks have.

ghost use Rattle.std.specs.Prelude.{◌≡◌, ◌≢◌, ◌<◌, ℕ, Some, None};
ghost use Rattle.mask_steps.specs.Held.{kind_in};

use alg_model::Var;
use std::marker::Model;
use tree_relations::PlaceKind;

/// For each variable below 64 the kind of the numbers in its working mask, or `None` where it holds all values.
#[derive(Debug, Drop)]
pub struct VarKinds {
    kinds: [Option<PlaceKind>; 64],
}

impl Model for VarKinds {
    ghost use Rattle.std.specs.Prelude.{List, Option};
    ghost use Rattle.tree_relations.specs.declared.prepared.PlaceKind.{PlaceKind};

    ghost Value = { List (Option PlaceKind) };

    ghost view = { λ k. k.kinds };
}

impl VarKinds {
    /// Each variable holds all values.
    pub fn new() -> VarKinds
        ensures { (v : ℕ) → kind_in result v ≡ None }
    {
        VarKinds { kinds: [None; 64] }
    }

    /// The kind of the numbers in the working mask of a variable.
    pub fn kind(&self, var: Var) -> Option<PlaceKind>
        requires { var.0 < 64 }
        ensures { result ≡ kind_in self.now var.0 }
    {
        self.kinds[var.0 as usize]
    }

    /// The variable's working mask has numbers of this kind from now on.
    pub fn set(&mut self, var: Var, kind: PlaceKind)
        requires { var.0 < 64 }
        ensures kind { kind_in self.new var.0 ≡ Some kind }
        ensures others { (v : ℕ) → v ≢ var.0 → kind_in self.new v ≡ kind_in self.old v }
    {
        self.kinds[var.0 as usize] = Some(kind);
    }
}
