//! The steps.

ghost use Rattle.std.specs.Prelude.{◌≡◌, ◌≢◌, ◌↔◌, ◌<◌, ℕ, [], length, filter, Bool, Contains, IsTrue};
ghost use Rattle.tree_relations.specs.Prepared.{FitsTogether};
ghost use Rattle.tree_relations.specs.Readings.{lists_left};
ghost use Rattle.mask_steps.specs.Held.{HasValue, GivesAt, OccursAt, IsVarAt, HasLayoutOf};
ghost use Rattle.mask_steps.specs.Measure.{mask_bits, Narrows};

use crate::kinds::VarKinds;
use crate::masks::{cut_mask, meet};
use crate::sides::{cut_between, side_of};
use alg_model::Var;
use pattern_rel::{Bound, Side};
use row_lanes::count;
use tree_relations::Prepared;

/// Reduces a variable by the triple pattern in place `i`: it holds afterwards those of its values that a pair left of the
/// pattern gives it.
pub fn gather(prepared: &mut Prepared<'_>, kinds: &mut VarKinds, i: u16, var: Var)
    requires fits { FitsTogether prepared.old }
    requires there { IsVarAt prepared.old i var.0 }
    requires few { var.0 < 64 }
    ensures values { (x : ℕ) → HasValue prepared.new kinds.new var.0 x ↔ (HasValue prepared.old kinds.old var.0 x × OccursAt prepared.old i var.0 x) }
    ensures others { (v x : ℕ) → v ≢ var.0 → HasValue prepared.new kinds.new v x ↔ HasValue prepared.old kinds.old v x }
    ensures lists { (j : ℕ) → lists_left prepared.new j ≡ lists_left prepared.old j }
    ensures bits { mask_bits prepared.new ≡ mask_bits prepared.old }
    ensures layout { HasLayoutOf prepared.old prepared.new }
{
    let entry = prepared.entries.get(i as usize);
    let (side, kind) = side_of(entry, var);
    let into = prepared.work.get(var.0 as usize);
    match kinds.kind(var) {
        None => {
            entry.rel.fold(&mut prepared.pool, side, into);
            kinds.set(var, kind);
        }
        Some(held) => {
            let spare = prepared.work.get(prepared.work.len() - 1);
            entry.rel.fold(&mut prepared.pool, side, spare);
            meet(
                &mut prepared.pool,
                into,
                spare,
                cut_between(kind, held, prepared.shared),
            );
        }
    }
}

/// Reduces the triple pattern in place `i` by a variable: those of its pairs are left that give the variable a value that
/// it holds.
pub fn spread(prepared: &mut Prepared<'_>, kinds: &VarKinds, i: u16, var: Var)
    requires fits { FitsTogether prepared.old }
    requires there { IsVarAt prepared.old i var.0 }
    requires few { var.0 < 64 }
    ensures left { (pair : ℕ × ℕ) → Contains (lists_left prepared.new i) pair ↔
        (Contains (lists_left prepared.old i) pair × ((x : ℕ) × HasValue prepared.old kinds.now var.0 x × GivesAt prepared.old i pair var.0 x)) }
    ensures in_order { (test : ℕ × ℕ → Bool) × (lists_left prepared.new i ≡ filter test (lists_left prepared.old i)) }
    ensures others { (j : ℕ) → j ≢ i → lists_left prepared.new j ≡ lists_left prepared.old j }
    ensures values { (v x : ℕ) → HasValue prepared.new kinds.now v x ↔ HasValue prepared.old kinds.now v x }
    ensures narrows { Narrows prepared.old prepared.new }
    ensures layout { HasLayoutOf prepared.old prepared.new }
{
    let entry = prepared.entries.get(i as usize);
    let (side, kind) = side_of(entry, var);
    if let Some(held) = kinds.kind(var) {
        let by = prepared.work.get(var.0 as usize);
        let cut = cut_between(kind, held, prepared.shared);
        entry.rel.unfold(&mut prepared.pool, side, by, cut);
    }
}

/// Drops all pairs of the triple pattern in place `i`.
pub fn clear(prepared: &mut Prepared<'_>, i: u16)
    requires fits { FitsTogether prepared.old }
    requires there { i < length prepared.old.entries }
    ensures none { lists_left prepared.new i ≡ [] }
    ensures others { (j : ℕ) → j ≢ i → lists_left prepared.new j ≡ lists_left prepared.old j }
    ensures narrows { Narrows prepared.old prepared.new }
    ensures layout { HasLayoutOf prepared.old prepared.new }
{
    let own = prepared.entries.get(i as usize).rel.mask(Side::First);
    cut_mask(&mut prepared.pool, own, 0);
}

/// Whether a pair is left of the triple pattern in place `i`.
pub fn is_left(prepared: &Prepared<'_>, i: u16) -> bool
    requires fits { FitsTogether prepared.now }
    requires there { i < length prepared.now.entries }
    ensures { IsTrue result ↔ ((pair : ℕ × ℕ) × Contains (lists_left prepared.now i) pair) }
{
    let any = Bound {
        first: None,
        second: None,
    };
    let rel = &prepared.entries.get(i as usize).rel;
    rel.next(&prepared.pool, any, None).is_some()
}

/// How many numbers the masks of all relations have. It falls with each step that drops a pair, and rises with none.
pub fn bits(prepared: &Prepared<'_>) -> u128
    requires { FitsTogether prepared.now }
    ensures { result ≡ mask_bits prepared.now }
{
    let mut total = 0;
    for i in 0..prepared.entries.len() {
        let rel = &prepared.entries.get(i).rel;
        let first = count(prepared.pool.read(rel.mask(Side::First)));
        let second = count(prepared.pool.read(rel.mask(Side::Second)));
        total += first as u128 + second as u128;
    }
    total
}
