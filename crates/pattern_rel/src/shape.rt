//! The shapes of relations.

ghost use Rattle.std.specs.Prelude.{◌≡◌, ◌↔◌, ℕ, ◌-◌, ◌*◌, ◌<◌, ◌≤◌, ◌^◌, List, [], ◌∷◌, length, if◌then◌else◌, Contains, IsTrue, IfSome, MatchOption, Some, None};
ghost use Rattle.run_rows.specs.Row.{AscendsWithin};
ghost use Rattle.cube_slices.specs.Lines.{LinesAscend, line_of};
ghost use Rattle.pattern_rel.specs.Shapes.{lines_of_shape, row_of, numbers_or_none, AreTransposed, KnowsColumns};
ghost use Rattle.pattern_rel.specs.steps.Sets.{IsCandidate, partner_numbers};
ghost use Rattle.pattern_rel.specs.steps.Places.{walked, KnowsPlace};

use crate::partners::Partners;
use crate::sets::{first_in_row, next_in, one_from};
use cube_slices::SliceRef;
use run_rows::RowRef;

/// What a relation borrows. It stands for a list of pairs of numbers.
#[derive(Debug, Drop)]
pub enum Shape<'a> {
    /// No pair.
    Nothing,
    /// The one pair `(0, 0)`.
    Ground,
    /// `(n, 0)` for each number `n` of the row.
    OneRow(RowRef<'a>),
    /// `(n, 0)` for each row `n` of the slice that has the column.
    Column {
        slice: SliceRef<'a>,
        column: u32,
    },
    /// The pairs of `rows`. `columns`, where it is given, is the transpose.
    Pairs {
        rows: SliceRef<'a>,
        columns: Option<SliceRef<'a>>,
    },
    /// The pairs `(n, n)` of the slice with `n` below `shared`.
    Diagonal {
        slice: SliceRef<'a>,
        shared: u32,
    },
}

/// One number, or nobody.
fn one_if<'a>(test: bool, number: u32) -> Partners<'a>
    ensures { partner_numbers result ≡ (if test then number ∷ [] else []) }
{
    if test {
        Partners::One(number)
    } else {
        Partners::Nobody
    }
}

/// The row, or nobody.
fn all_of<'a>(row: Option<RowRef<'a>>) -> Partners<'a>
    ensures { partner_numbers result ≡ numbers_or_none row.entry }
{
    match row {
        Some(row) => Partners::Row(row),
        None => Partners::Nobody,
    }
}

/// Whether the row, if there is one, has the number.
fn row_has(row: &Option<RowRef<'_>>, n: u32) -> bool
    ensures { IsTrue result ↔ Contains (numbers_or_none row.now) n }
{
    match row {
        Some(row) => row.test(n),
        None => false,
    }
}

/// Whether the row, if there is one, has the number, and this is below another.
fn row_has_below(row: &Option<RowRef<'_>>, n: u32, end: u32) -> bool
    ensures { IsTrue result ↔ ((n < end) × Contains (numbers_or_none row.now) n) }
{
    let there = row_has(row, n);
    there && n < end
}

/// A number from `from` on that is in the set and can be a row of the slice: none is before it that is a row, or there
/// is none at all.
fn row_candidate(slice: &SliceRef<'_>, firsts: &[u64], place: u32, from: u32) -> Option<u32>
    requires few { length firsts.now ≤ 2 ^ 25 }
    requires known { KnowsPlace from place slice.now }
    ensures candidate { IsCandidate from firsts.now slice.now result }
    ensures within { IfSome result (λ x. x < 64 * length firsts.now) }
{
    let n = next_in(firsts, from)?;
    if place >= slice.rows() {
        return None;
    }
    let (row, _) = slice.row_at(place);
    if row <= n {
        Some(n)
    } else {
        next_in(firsts, row)
    }
}

impl<'a> Shape<'a> {
    /// The lines ascend, and no number is above 2^32 − 2.
    pub fn lines_ascend(&self)
        ensures { LinesAscend 0 (2 ^ 32 - 1) (2 ^ 32 - 1) (lines_of_shape self.now) }
    {
        match self {
            Shape::Nothing => {}
            Shape::Ground => {}
            Shape::OneRow(row) => {
                row.iter();
            }
            Shape::Column { slice, .. } => {
                slice.rows();
            }
            Shape::Pairs { rows, .. } => {
                rows.rows();
            }
            Shape::Diagonal { slice, .. } => {
                slice.rows();
            }
        }
    }

    /// The slice that is walked, if one is.
    fn slice(&self) -> Option<&SliceRef<'a>>
        ensures { MatchOption result (walked self.now ≡ []) (λ slice. slice.now ≡ walked self.now) }
    {
        match self {
            Shape::Nothing => None,
            Shape::Ground => None,
            Shape::OneRow(_) => None,
            Shape::Column { slice, .. } => Some(slice),
            Shape::Pairs { rows, .. } => Some(rows),
            Shape::Diagonal { slice, .. } => Some(slice),
        }
    }

    /// The rows of the slice that is walked ascend.
    fn rows_ascend(&self)
        ensures { LinesAscend 0 (2 ^ 32 - 1) (2 ^ 32 - 1) (walked self.now) }
    {
        if let Some(slice) = self.slice() {
            slice.rows();
        }
    }

    /// What stands beside `n`, by row `n` of the slice that is walked.
    fn partners_by(&self, n: u32, row: Option<RowRef<'a>>) -> Partners<'a>
        requires { row ≡ line_of n (walked self.now) }
        ensures { partner_numbers result ≡ row_of n (lines_of_shape self.now) }
    {
        self.rows_ascend();
        match self {
            Shape::Nothing => Partners::Nobody,
            Shape::Ground => one_if(n == 0, 0),
            Shape::OneRow(numbers) => one_if(numbers.test(n), 0),
            Shape::Column { column, .. } => one_if(row_has(&row, *column), 0),
            Shape::Pairs { .. } => all_of(row),
            Shape::Diagonal { shared, .. } => one_if(row_has_below(&row, n, *shared), n),
        }
    }

    /// What stands beside `n`.
    pub fn partners(&self, n: u32) -> Partners<'a>
        ensures { partner_numbers result ≡ row_of n (lines_of_shape self.now) }
    {
        match self.slice() {
            Some(slice) => self.partners_by(n, slice.row(n)),
            None => self.partners_by(n, None),
        }
    }

    /// What stands beside `n`, sought from a place among the rows on, with the place that it was sought at.
    pub fn partners_from(&self, place: u32, n: u32) -> (u32, Partners<'a>)
        requires { KnowsPlace n place (walked self.now) }
        ensures partners { partner_numbers result.1 ≡ row_of n (lines_of_shape self.now) }
        ensures known { KnowsPlace n result.0 (walked self.now) }
    {
        match self.slice() {
            Some(slice) => {
                let (found, row) = slice.row_from(place, n);
                (found, self.partners_by(n, row))
            }
            None => (place, self.partners_by(n, None)),
        }
    }

    /// A number from `from` on that is in the set and can have a partner: none is before it that has one, or there is
    /// none at all.
    pub fn candidate(&self, firsts: &[u64], place: u32, from: u32) -> Option<u32>
        requires few { length firsts.now ≤ 2 ^ 25 }
        requires known { KnowsPlace from place (walked self.now) }
        ensures candidate { IsCandidate from firsts.now (lines_of_shape self.now) result }
        ensures within { IfSome result (λ x. x < 64 * length firsts.now) }
    {
        self.rows_ascend();
        match self {
            Shape::Nothing => None,
            Shape::Ground => one_from(firsts, 0, from),
            Shape::OneRow(row) => first_in_row(firsts, row, from),
            Shape::Column { slice, .. } => row_candidate(slice, firsts, place, from),
            Shape::Pairs { rows, .. } => row_candidate(rows, firsts, place, from),
            Shape::Diagonal { slice, .. } => row_candidate(slice, firsts, place, from),
        }
    }

    /// The shape with its sides exchanged, where it is known.
    pub fn mirror(&self) -> Option<Shape<'a>>
        requires { KnowsColumns self.now }
        ensures { IfSome result (λ turned. AreTransposed (lines_of_shape self.now) (lines_of_shape turned)) }
    {
        match self {
            Shape::Pairs { columns, .. } => all_pairs(columns),
            Shape::Diagonal { slice, shared } => Some(Shape::Diagonal {
                slice: slice.again(),
                shared: *shared,
            }),
            Shape::Nothing => None,
            Shape::Ground => None,
            Shape::OneRow(_) => None,
            Shape::Column { .. } => None,
        }
    }
}

/// All pairs of a slice, if there is one.
fn all_pairs<'a>(slice: &Option<SliceRef<'a>>) -> Option<Shape<'a>>
    ensures { MatchOption result (slice.now ≡ None) (λ shape. slice.now ≡ Some (lines_of_shape shape)) }
{
    let rows = slice.as_ref()?.again();
    Some(Shape::Pairs {
        rows,
        columns: None,
    })
}
