//! The pairs of a relation that agree with a row, one after the other.
ghost use Rattle.std.specs.Prelude.{◌≡◌, ℕ, ◌<◌, [], ◌∷◌, map, filter, Contains, MatchOption, Some, None, length};
ghost use Rattle.std.specs.List.{filter_map};
ghost use Rattle.pattern_rel.specs.Bounds.{is_wanted, seconds_beside};
ghost use Rattle.pattern_rel.specs.Folds.{IsUsable};
ghost use Rattle.pattern_rel.specs.Left.{pairs_left};
ghost use Rattle.tree_relations.specs.Prepared.{FitsTogether, FitsEntry};
ghost use Rattle.multiway_join.specs.steps.Binding.{bind_pair, HasCell};
ghost use Rattle.multiway_join.specs.steps.Cursor.{HasAsked, at_second, coming};
ghost use Rattle.multiway_join.specs.declared.binding.Asked.TheVariants.{This};

use crate::binding::{Asked, asked_at};
use mask_pool::MaskPool;
use pattern_rel::{Bound, Pair, PairsLeft, PatRel, RowLeft};
use std::marker::Model;
use tree_relations::{Entry, Prepared};

/// The pairs left that have one first number. It is seen as those that are still to come.
#[derive(Drop)]
pub(crate) struct RowPairs<'s, 'a> {
    first: u32,
    seconds: RowLeft<'s, 'a>,
}

impl<'s, 'a> Model for RowPairs<'s, 'a> {
    ghost use Rattle.std.specs.Prelude.{ℕ, List, map};

    ghost Value = { List (ℕ × ℕ) };

    ghost view = { λ s. map {B = ℕ × ℕ} (λ c. (s.first, c)) s.seconds };
}

impl<'s, 'a> RowPairs<'s, 'a> {
    /// All of them.
    fn of(rel: &PatRel<'a>, pool: &'s MaskPool, first: u32) -> Self
        requires firsts { IsUsable pool.now rel.now.first }
        requires seconds { IsUsable pool.now rel.now.second }
        ensures { result ≡ map {B = ℕ × ℕ} (λ c. (first, c)) (seconds_beside first (pairs_left pool.now rel.now)) }
    {
        RowPairs {
            first,
            seconds: rel.beside(pool, first),
        }
    }

    /// The next of them.
    fn next(&mut self) -> Option<(u32, u32)>
        ensures { MatchOption result (self.old ≡ []) (λ pair. self.old ≡ pair ∷ self.new) }
    {
        let second = self.seconds.next()?;
        Some((self.first, second))
    }
}

/// The pairs left that have one second number. It is seen as those that are still to come.
#[derive(Drop)]
pub(crate) struct ColumnLeft<'s, 'a> {
    rel: &'s PatRel<'a>,
    pool: &'s MaskPool,
    second: u32,
    last: Option<Pair>,
}

impl<'s, 'a> Model for ColumnLeft<'s, 'a> {
    ghost use Rattle.std.specs.Prelude.{ℕ, List, filter, Some, None};
    ghost use Rattle.pattern_rel.specs.Bounds.{is_wanted};
    ghost use Rattle.pattern_rel.specs.Folds.{IsUsable};
    ghost use Rattle.pattern_rel.specs.Left.{pairs_left};

    ghost Value = { List (ℕ × ℕ) };

    ghost view = { λ s. filter (is_wanted (record { first = None; second = Some s.second }) s.last) (pairs_left s.pool.now s.rel.now) };

    ghost invariant = { λ s. IsUsable s.pool.now s.rel.now.first × IsUsable s.pool.now s.rel.now.second };
}

impl<'s, 'a> ColumnLeft<'s, 'a> {
    /// All of them.
    fn of(rel: &'s PatRel<'a>, pool: &'s MaskPool, second: u32) -> Self
        requires firsts { IsUsable pool.now rel.now.first }
        requires seconds { IsUsable pool.now rel.now.second }
        ensures { result ≡ filter (is_wanted (at_second second) None) (pairs_left pool.now rel.now) }
    {
        ColumnLeft {
            rel,
            pool,
            second,
            last: None,
        }
    }

    /// The next of them.
    fn next(&mut self) -> Option<(u32, u32)>
        ensures { MatchOption result (self.old ≡ []) (λ pair. self.old ≡ pair ∷ self.new) }
    {
        self.rel.pairs_ascend(self.pool);
        let bound = Bound {
            first: None,
            second: Some(self.second),
        };
        let pair = self.rel.next(self.pool, bound, self.last)?;
        self.last = Some(pair);
        Some((pair.first, pair.second))
    }
}

/// The pairs left that agree with what is asked for, in order.
#[derive(Drop)]
pub(crate) enum Agreeing<'s, 'a> {
    Nobody,
    One(u32, u32),
    All(PairsLeft<'s, 'a>),
    Row(RowPairs<'s, 'a>),
    Column(ColumnLeft<'s, 'a>),
}

/// The pair, if it is left.
fn one<'s, 'a>(rel: &'s PatRel<'a>, pool: &'s MaskPool, first: u32, second: u32) -> Agreeing<'s, 'a>
    requires firsts { IsUsable pool.now rel.now.first }
    requires seconds { IsUsable pool.now rel.now.second }
    ensures { HasAsked (pairs_left pool.now rel.now) (This first) (This second) (coming result) }
{
    rel.pairs_ascend(pool);
    let bound = Bound {
        first: Some(first),
        second: Some(second),
    };
    match rel.next(pool, bound, None) {
        Some(pair) => Agreeing::One(pair.first, pair.second),
        None => Agreeing::Nobody,
    }
}

/// The pairs left that have what is asked for at both sides.
#[tactic(auto, using(crate::proofs::Wanted::asked_pairs))]
fn asked_for<'s, 'a>(
    rel: &'s PatRel<'a>,
    pool: &'s MaskPool,
    first: Asked,
    second: Asked,
) -> Agreeing<'s, 'a>
    requires firsts { IsUsable pool.now rel.now.first }
    requires seconds { IsUsable pool.now rel.now.second }
    ensures { HasAsked (pairs_left pool.now rel.now) first second (coming result) }
{
    match (first, second) {
        (Asked::Nothing, _) => Agreeing::Nobody,
        (_, Asked::Nothing) => Agreeing::Nobody,
        (Asked::Anything, Asked::Anything) => Agreeing::All(rel.pairs(pool)),
        (Asked::This(n), Asked::Anything) => Agreeing::Row(RowPairs::of(rel, pool, n)),
        (Asked::Anything, Asked::This(c)) => Agreeing::Column(ColumnLeft::of(rel, pool, c)),
        (Asked::This(n), Asked::This(c)) => one(rel, pool, n, c),
    }
}

/// The pairs left of an entry that can agree with a row.
pub(crate) fn agreeing_with<'s, 'a>(
    prepared: &'s Prepared<'a>,
    entry: &'s Entry<'a>,
    row: &[u32],
) -> Agreeing<'s, 'a>
    requires together { FitsTogether prepared.now }
    requires firsts { IsUsable prepared.now.pool entry.now.rel.first }
    requires seconds { IsUsable prepared.now.pool entry.now.rel.second }
    requires first { HasCell (length row.now) entry.now.first }
    requires second { HasCell (length row.now) entry.now.second }
    ensures left { (pair : ℕ × ℕ) → Contains (coming result) pair → Contains (pairs_left prepared.now.pool entry.now.rel) pair }
    ensures same { filter_map (bind_pair prepared.now entry.now row.now) (coming result) ≡ filter_map (bind_pair prepared.now entry.now row.now) (pairs_left prepared.now.pool entry.now.rel) }
{
    let first = asked_at(prepared, entry.first, row);
    let second = asked_at(prepared, entry.second, row);
    asked_for(&entry.rel, &prepared.pool, first, second)
}

impl<'s, 'a> Agreeing<'s, 'a> {
    /// The next of them.
    pub(crate) fn next(&mut self) -> Option<(u32, u32)>
        ensures { MatchOption result (coming self.old ≡ []) (λ pair. coming self.old ≡ pair ∷ coming self.new) }
    {
        match self {
            Agreeing::Nobody => None,
            Agreeing::One(first, second) => {
                let pair = (*first, *second);
                *self = Agreeing::Nobody;
                Some(pair)
            }
            Agreeing::All(pairs) => pairs.next(),
            Agreeing::Row(pairs) => pairs.next(),
            Agreeing::Column(pairs) => pairs.next(),
        }
    }
}
