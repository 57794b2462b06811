//! Where the slices of each family are, and how many rows and columns they have.

ghost use Rattle.std.specs.Prelude.{◌≡◌, All};
ghost use Rattle.byte_tables.specs.Numbers.{IsBytes};
ghost use Rattle.index_file.specs.Conditions.{columns_for, rows_for};
ghost use Rattle.index_file.specs.Image.{group_in};

use crate::family::Family;
use crate::group::Group;
use crate::parts::Parts;

/// How many rows the slices of a family have.
pub(crate) fn rows_for(parts: &Parts<'_>, family: Family) -> u32
    ensures { result ≡ rows_for parts.now family }
{
    let counts = parts.counts();
    match family {
        Family::So => counts.shared + counts.subjects,
        Family::Os => counts.shared + counts.objects,
        Family::Ps | Family::Po => counts.predicates,
    }
}

/// How many columns the slices of a family have.
pub(crate) fn columns_for(parts: &Parts<'_>, family: Family) -> u32
    ensures { result ≡ columns_for parts.now family }
{
    let counts = parts.counts();
    match family {
        Family::So | Family::Po => counts.shared + counts.objects,
        Family::Os | Family::Ps => counts.shared + counts.subjects,
    }
}

/// The slices of a family, as bytes.
pub(crate) fn group_of<'a>(parts: &Parts<'a>, family: Family) -> Group<'a>
    ensures group { result ≡ group_in parts.now family }
    ensures bytes { All IsBytes parts.now.slices }
{
    let counts = parts.counts();
    let slices = parts.slices();
    let by_object = 2 * counts.predicates;
    let objects = counts.shared + counts.objects;
    let subjects = counts.shared + counts.subjects;
    match family {
        Family::So => Group::of(&slices, 0, counts.predicates),
        Family::Os => Group::of(&slices, counts.predicates, counts.predicates),
        Family::Ps => Group::of(&slices, by_object, objects),
        Family::Po => Group::of(&slices, by_object + objects, subjects),
    }
}
