//! How long an image is, before it is made.

ghost use Rattle.std.specs.Prelude.{◌≡◌, ◌+◌, ◌*◌, ◌^◌, ◌<◌, ◌≤◌, length, map};
ghost use Rattle.byte_tables.specs.Pieces.{joined};
ghost use Rattle.term_numbers.specs.Numbering.{term_table};
ghost use Rattle.term_numbers.specs.Limits.{max_triples};
ghost use Rattle.index_file.specs.Image.{slices_for, family_pairs, all_pairs, pair_slice};
ghost use Rattle.index_image.specs.steps.Measuring.{IsEnd, IsMeasured, IsMost, slice_part_of};

use crate::family_slices::Room;
use crate::fault::ImageFault;
use crate::order::{order_part, part};
use crate::piece_writer::append_pairs;
use crate::spread::spread;
use index_file::Family;
use run_rows::RowForm;
use term_numbers::Numbers;

/// The lengths of the parts of an image, before it is made.
#[derive(Clone, Copy, Debug)]
pub(crate) struct Lengths {
    /// How many bytes the texts have.
    pub(crate) texts: u32,
    /// Where the slices begin.
    pub(crate) slices_at: u32,
    /// No more bytes than this have room in it.
    pub(crate) most: u32,
}

/// How many texts the table of terms has.
pub(crate) fn text_count(numbers: &Numbers) -> usize
    ensures count { result ≡ length (term_table numbers.now.terms) }
    ensures small { result < 2 ^ 34 }
{
    numbers.shared() as usize
        + numbers.subjects() as usize
        + numbers.objects() as usize
        + numbers.predicates() as usize
}

/// How many slices a family has.
pub(crate) fn slices_in(family: Family, numbers: &Numbers) -> usize
    ensures count { result ≡ slices_for family numbers.now.terms }
    ensures small { result < 2 ^ 33 }
{
    match family {
        Family::So | Family::Os => numbers.predicates() as usize,
        Family::Ps => numbers.shared() as usize + numbers.objects() as usize,
        Family::Po => numbers.shared() as usize + numbers.subjects() as usize,
    }
}

/// How many slices there are.
pub(crate) fn slice_count(numbers: &Numbers) -> usize
    ensures count { result ≡ length (all_pairs numbers.now) }
    ensures small { result < 2 ^ 35 }
{
    slices_in(Family::So, numbers)
        + slices_in(Family::Os, numbers)
        + slices_in(Family::Ps, numbers)
        + slices_in(Family::Po, numbers)
}

/// A length with more bytes.
fn add(from: u32, more: usize) -> Result<u32, ImageFault>
    ensures { IsEnd (from + more) result }
{
    let sum = match u32::try_from(more) {
        Ok(more) => from.checked_add(more),
        Err(_) => None,
    };
    sum.ok_or(ImageFault::TooLong)
}

/// A length with the bytes of all texts.
fn add_texts(numbers: &Numbers, from: u32) -> Result<u32, ImageFault>
    requires { length (term_table numbers.now.terms) < 2 ^ 32 }
    ensures { IsEnd (from + length (joined (term_table numbers.now.terms))) result }
{
    let mut end = from;
    for place in 0..text_count(numbers) as u32 {
        end = add(end, numbers.term(place).bytes().len())?;
    }
    Ok(end)
}

/// A length with the bytes of the slices of a family.
fn add_family(
    form: RowForm,
    family: Family,
    numbers: &Numbers,
    room: &mut Room,
    from: u32,
) -> Result<u32, ImageFault>
    requires { length numbers.now.triples ≤ max_triples }
    ensures { IsEnd (from + length (joined (map (pair_slice form) (family_pairs numbers.now family)))) result }
{
    spread(family, numbers, &mut room.pairs, &mut room.ends)?;
    let mut start = 0;
    let mut size = from;
    for n in 0..room.ends.len() {
        let end = room.ends[n] as usize;
        order_part(&mut room.pairs, start, end)?;
        room.slice.clear();
        append_pairs(
            form,
            part(&room.pairs, start, end),
            &mut room.columns,
            &mut room.slice,
        )?;
        size = add(size, room.slice.len())?;
        start = end;
    }
    Ok(size)
}

/// A length with the bytes of all slices.
fn add_families(
    form: RowForm,
    numbers: &Numbers,
    room: &mut Room,
    from: u32,
) -> Result<u32, ImageFault>
    requires { length numbers.now.triples ≤ max_triples }
    ensures { IsEnd (from + length (slice_part_of form numbers.now)) result }
{
    let end = add_family(form, Family::So, numbers, room, from)?;
    let end = add_family(form, Family::Os, numbers, room, end)?;
    let end = add_family(form, Family::Ps, numbers, room, end)?;
    add_family(form, Family::Po, numbers, room, end)
}

/// No less than a length with the bytes of all slices. A slice has at most four bytes and sixteen a triple: only where
/// these could be too many is each slice measured.
fn most_len(form: RowForm, numbers: &Numbers, room: &mut Room, from: u32) -> Result<u32, ImageFault>
    requires { length numbers.now.triples ≤ max_triples }
    ensures { IsMost (from + length (slice_part_of form numbers.now)) result }
{
    let more = 4 * slice_count(numbers) + 64 * numbers.triples() as usize;
    match add(from, more) {
        Ok(most) => Ok(most),
        Err(_) => add_families(form, numbers, room, from),
    }
}

/// Measures the image, before anything of it is written.
pub(crate) fn measure(
    form: RowForm,
    numbers: &Numbers,
    room: &mut Room,
) -> Result<Lengths, ImageFault>
    requires { length numbers.now.triples ≤ max_triples }
    ensures { IsMeasured form numbers.now result }
{
    let start = add(
        0,
        44 + 4 * (text_count(numbers) + 1) + 4 * (slice_count(numbers) + 1),
    )?;
    let slices_at = add_texts(numbers, start)?;
    let most = most_len(form, numbers, room, slices_at)?;
    Ok(Lengths {
        texts: slices_at - start,
        slices_at,
        most,
    })
}
