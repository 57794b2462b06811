//! Rows as what is sorted: the cells of each, lent, with the set of the variables that they bind.
ghost use Rattle.std.specs.Prelude.{◌≡◌, ◌==◌, ◌≤◌, length, slice_index};
ghost use Rattle.std.proofs.Common.{rules};
ghost use Rattle.std.specs.Cmp.{partial_order_from_own_ties, partial_order_from_total};
ghost use Rattle.std.specs.Cmp.Lexicographic.{pointwise};
ghost use Rattle.std.specs.Cmp.Rules.{comparing};
ghost use Rattle.std.specs.Ordering.{as_partial_cmp};
ghost use Rattle.bm_term.specs.SetOf.{set_of};
ghost use Rattle.null_best.specs.steps.Keys.{bit_of, bound_set, head_of, key_cmp, keys_tie, key_cmp-total};

use std::cmp::Ordering;
use std::marker::Model;

/// The cells of a row, lent: numbers, of which 0 is unbound. It is seen as the list of them. Rows are ordered by the
/// sets of variables that they bind, as words, and then cell by cell. The first two cells stand here as a word, so
/// that most rows are told apart without a look at the cells.
#[derive(Drop)]
pub(crate) struct RowKey<'r> {
    vars: u64,
    head: u64,
    cells: &'r [u32],
}

impl<'r> Model for RowKey<'r> {
    ghost use Rattle.std.specs.Prelude.{ℕ, List};
    ghost use Rattle.null_best.specs.steps.Keys.{IsKey};

    ghost Value = { List ℕ };

    ghost view = { λ k. k.cells.now };

    ghost invariant = { λ k. IsKey k.vars k.head k.cells.now };
}

impl<'r> RowKey<'r> {
    /// The key of a row.
    pub(crate) fn new(cells: &'r [u32]) -> RowKey<'r>
        requires { length cells.now ≤ 64 }
        ensures { result ≡ cells.now }
    {
        RowKey {
            vars: vars_of(cells),
            head: head_of(cells),
            cells,
        }
    }

    /// The set of the variables that the row binds.
    pub(crate) fn vars(&self) -> u64
        ensures { result ≡ bound_set self.now }
    {
        self.vars
    }

    /// Which of two rows comes first.
    pub(crate) fn compare(&self, other: &RowKey<'_>) -> Ordering
        ensures { result ≡ key_cmp self.now other.now }
    {
        match self.vars.cmp(&other.vars) {
            Ordering::Equal => match self.head.cmp(&other.head) {
                Ordering::Equal => self.cells.cmp(other.cells),
                order => order,
            },
            order => order,
        }
    }

    /// The cells.
    pub(crate) fn cells(&self) -> &'r [u32]
        ensures { result.now ≡ self.now }
    {
        self.cells
    }
}

impl<'r> PartialEq for RowKey<'r> {
    ghost eq = { pointwise ◌==◌ };

    ghost laws = { Prim.search (comparing, rules) };

    fn eq(&self, other: &RowKey<'r>) -> bool {
        self.vars == other.vars && self.head == other.head && self.cells == other.cells
    }
}

impl<'r> Eq for RowKey<'r> {
    ghost laws = { Prim.search (comparing, rules) };
}

impl<'r> PartialOrd for RowKey<'r> {
    ghost partial_cmp = { as_partial_cmp key_cmp };

    ghost laws = { partial_order_from_own_ties (partial_order_from_total key_cmp-total) keys_tie };

    fn partial_cmp(&self, other: &RowKey<'r>) -> Option<Ordering> {
        Some(self.cmp(other))
    }
}

impl<'r> Ord for RowKey<'r> {
    ghost cmp = { key_cmp };

    ghost total = { key_cmp-total };

    ghost matches_partial_cmp = { Prim.search (comparing, rules) };

    ghost matches_eq = { keys_tie };

    fn cmp(&self, other: &RowKey<'r>) -> Ordering {
        self.compare(other)
    }
}

/// The set of the variables that a row binds.
fn vars_of(cells: &[u32]) -> u64
    requires { length cells.now ≤ 64 }
    ensures { result ≡ bound_set cells.now }
{
    let mut vars = 0;
    let mut k = cells.len();
    while k > 0 {
        k -= 1;
        vars = vars * 2 + bit_of(cells[k]);
    }
    vars
}

/// Whether a cell is bound, as a bit.
fn bit_of(cell: u32) -> u64
    ensures { result ≡ bit_of cell }
{
    if cell == 0 { 0 } else { 1 }
}

/// The first two cells of a row, as a word.
fn head_of(cells: &[u32]) -> u64
    ensures { result ≡ head_of cells.now }
{
    u64::from(cell_at(cells, 0)) * 0x1_0000_0000 + u64::from(cell_at(cells, 1))
}

/// The cell at a place, and unbound past the last.
fn cell_at(cells: &[u32], k: usize) -> u32
    ensures { result ≡ slice_index cells.now k }
{
    cells.get(k).copied().unwrap_or(0)
}

/// Puts rows in order, and keeps each different one once.
pub(crate) fn arrange(keys: &mut Vec<RowKey<'_>>)
    ensures { keys.new.items ≡ set_of key_cmp keys.old.items }
{
    keys.sort_unstable();
    keys.dedup();
}
