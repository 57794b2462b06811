//! Sets of variables, each a number whose bit v says whether variable v is in it.

ghost use Rattle.std.specs.Prelude.{ℕ, ◌<◌, ◌↔◌, IsTrue};
ghost use Rattle.join_graph.specs.Members.{HasVariable, OccursIn};
ghost use Rattle.join_graph.specs.Sets.{Meets, without};

/// Whether the variable is in the set.
pub(crate) fn has(set: u64, variable: u8) -> bool
    requires { variable < 64 }
    ensures { IsTrue result ↔ HasVariable set variable }
{
    (set >> variable) & 1 == 1
}

/// Whether some variable is in both sets.
pub(crate) fn meet(first: u64, second: u64) -> bool
    ensures { IsTrue result ↔ Meets (HasVariable first) (HasVariable second) }
{
    first & second != 0
}

/// The set without one of its variables.
pub(crate) fn remove(set: u64, variable: u8) -> u64
    requires { HasVariable set variable }
    ensures { (v : ℕ) → HasVariable result v ↔ without (HasVariable set) variable v }
{
    set & !(1 << variable)
}

/// The variables that occur in some pattern.
pub(crate) fn variables_of(sets: &[u64]) -> u64
    ensures { (v : ℕ) → HasVariable result v ↔ OccursIn sets.now v }
{
    let mut all = 0;
    for set in sets {
        all |= *set;
    }
    all
}
