//! The image of a numbering.

ghost use Rattle.std.specs.Prelude.{◌≡◌, ◌+◌, ◌-◌, ◌^◌, ◌<◌, ◌≤◌, ◌++◌, List, length, vec_len, IfOk, IfErr, OnOk};
ghost use Rattle.bm_term.specs.declared.triple.Triple.{Triple};
ghost use Rattle.byte_tables.specs.Numbers.{number_bytes};
ghost use Rattle.byte_tables.specs.Pieces.{joined};
ghost use Rattle.term_numbers.specs.Numbering.{term_table};
ghost use Rattle.term_numbers.specs.Limits.{max_triples};
ghost use Rattle.index_file.specs.Conditions.{IsImageOf, IsIndex};
ghost use Rattle.index_file.specs.Image.{layout_of};
ghost use Rattle.index_file.specs.Layout.{name, head_numbers, file_size};
ghost use Rattle.index_file.specs.Version.{version_of, numbering_bytes, NumbersGraph};
ghost use Rattle.index_image.specs.declared.fault.ImageFault.TheVariants.{TooLong};
ghost use Rattle.index_image.specs.steps.Measuring.{AreLengths, tables_of};
ghost use Rattle.index_image.specs.steps.Writing.{PutsPieces};

use crate::family_slices::{Room, push_families};
use crate::fault::ImageFault;
use crate::measure::{Lengths, measure, slice_count, text_count};
use crate::piece_writer::{PieceWriter, overwrite};
use byte_tables::push_numbers;
use run_rows::RowForm;
use std::alloc::{AllocError, Global};
use term_numbers::Numbers;

/// The bytes that each file begins with.
const NAME: &[u8; 8] = b"BITMATLB";

/// How many bytes the head has: the name and nine numbers.
const HEAD_LEN: usize = 44;

/// The version of the file whose rows have this form.
fn version_of(form: RowForm) -> u32
    ensures { result ≡ version_of form }
{
    match form {
        RowForm::V1 => 1,
    }
}

/// The head of an image whose length is known.
fn head(
    alloc: Global,
    form: RowForm,
    numbers: &Numbers,
    lengths: Lengths,
    size: u32,
) -> Result<Vec<u8>, AllocError>
    requires lengths { AreLengths form numbers.now lengths }
    requires size { size ≡ file_size (layout_of (version_of form) form numbers.now) }
    ensures head { IfOk result (λ head. head.items ≡ name ++ number_bytes (head_numbers (layout_of (version_of form) form numbers.now))) }
    ensures len { IfOk result (λ head. vec_len head ≡ 44) }
{
    let mut head = Vec::with_capacity(alloc, HEAD_LEN)?;
    head.extend_from_slice(NAME)?;
    push_numbers(
        &mut head,
        &[
            version_of(form),
            numbers.shared(),
            numbers.subjects(),
            numbers.objects(),
            numbers.predicates(),
            numbers.triples(),
            lengths.texts,
            size - lengths.slices_at,
            size,
        ],
    )?;
    Ok(head)
}

/// Writes the texts of all terms.
fn push_texts(numbers: &Numbers, into: &mut PieceWriter) -> Result<(), AllocError>
    requires few { length (term_table numbers.now.terms) < 2 ^ 32 }
    requires left { length (term_table numbers.now.terms) ≤ into.old.left }
    requires short { length into.old.pieces + length (joined (term_table numbers.now.terms)) < 2 ^ 32 }
    ensures { OnOk result (PutsPieces into.old into.new (term_table numbers.now.terms)) }
{
    for place in 0..text_count(numbers) as u32 {
        into.push(numbers.term(place).bytes())?;
    }
    Ok(())
}

/// The bytes of a head that is not yet known, with the tables of texts and slices after them.
fn push_tables(
    form: RowForm,
    numbers: &Numbers,
    room: &mut Room,
    bytes: Vec<u8>,
) -> Result<Vec<u8>, AllocError>
    requires few { length numbers.now.triples ≤ max_triples }
    requires short { length (numbering_bytes form numbers.now) < 2 ^ 32 }
    requires head { vec_len bytes ≡ 44 }
    ensures { IfOk result (λ image. image.items ≡ bytes.items ++ tables_of (layout_of (version_of form) form numbers.now)) }
{
    let mut texts = PieceWriter::begin(bytes, text_count(numbers))?;
    push_texts(numbers, &mut texts)?;
    let mut slices = PieceWriter::begin(texts.finish(), slice_count(numbers))?;
    push_families(form, numbers, room, &mut slices)?;
    Ok(slices.finish())
}

/// The image that was measured.
fn measured_image(
    alloc: Global,
    form: RowForm,
    numbers: &Numbers,
    room: &mut Room,
    lengths: Lengths,
) -> Result<Vec<u8>, AllocError>
    requires few { length numbers.now.triples ≤ max_triples }
    requires lengths { AreLengths form numbers.now lengths }
    ensures { IfOk result (λ image. image.items ≡ numbering_bytes form numbers.now) }
{
    let mut bytes = Vec::with_capacity(alloc, lengths.most as usize)?;
    bytes.resize(HEAD_LEN, 0)?;
    let mut image = push_tables(form, numbers, room, bytes)?;
    let head = head(alloc, form, numbers, lengths, image.len() as u32)?;
    overwrite(&mut image, 0, &head);
    image.shrink_to_fit();
    Ok(image)
}

/// The image of the graph that was numbered, in a form of rows. `TooLong` comes exactly where it would have more than
/// 4,294,967,295 bytes, unless memory runs out before, and it comes before anything is written.
pub fn image(alloc: Global, form: RowForm, numbers: &Numbers) -> Result<Vec<u8>, ImageFault>
    requires { length numbers.now.triples ≤ max_triples }
    ensures bytes { IfOk result (λ image. image.items ≡ numbering_bytes form numbers.now) }
    ensures short { IfOk result (λ image. vec_len image < 2 ^ 32) }
    ensures long { IfErr result (λ fault. fault ≡ TooLong → 2 ^ 32 ≤ length (numbering_bytes form numbers.now)) }
    ensures image { IfOk result (λ image. (graph : List Triple) → NumbersGraph graph numbers.now → IsImageOf (version_of form) form graph image.items) }
    ensures index { IfOk result (λ image. (graph : List Triple) → NumbersGraph graph numbers.now → IsIndex (version_of form) form image.items) }
{
    let mut room = Room::new(alloc, numbers.triples())?;
    let lengths = measure(form, numbers, &mut room)?;
    let image = measured_image(alloc, form, numbers, &mut room, lengths)?;
    Ok(image)
}
