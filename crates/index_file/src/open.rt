//! Whether bytes are an index: the seven conditions, one after the other. It takes no memory.

ghost use Rattle.std.specs.Prelude.{◌≡◌, ◌↔◌, IfNone, IfSome, IsTrue};
ghost use Rattle.run_rows.specs.declared.form.RowForm.TheVariants.{V1};
ghost use Rattle.index_file.specs.Conditions.{DirectoryIsOrdered, HeaderIsKnown, IsIndex, LengthsAgree, TermsAreOrdered};
ghost use Rattle.index_file.specs.Damage.{IsFirstFailing};
ghost use Rattle.index_file.specs.LaidOut.{IsLaidOut};
ghost use Rattle.index_file.specs.Layout.{layout_in};

use crate::agreement::families_agree;
use crate::damaged::Part;
use crate::group::Groups;
use crate::parts::Parts;
use crate::rows::counts_agree;
use crate::sections::{header_is_known, lengths_agree, sections_of};
use crate::table::PieceTable;
use crate::terms::are_terms;
use run_rows::RowForm;

/// The version of the file that is read.
const VERSION: u32 = 1;

/// Whether the texts are cut whole, have their kinds and are in order.
fn terms_are_ordered(bytes: &[u8]) -> bool
    requires { LengthsAgree bytes.now }
    ensures { IsTrue result ↔ TermsAreOrdered bytes.now }
{
    let sections = sections_of(bytes);
    match PieceTable::cut(sections.text_starts, sections.texts) {
        Some(texts) => are_terms(&Groups::of(&sections.counts, &texts)),
        None => false,
    }
}

/// Whether the slices are cut whole.
fn directory_is_ordered(bytes: &[u8]) -> bool
    requires { LengthsAgree bytes.now }
    ensures { IsTrue result ↔ DirectoryIsOrdered bytes.now }
{
    let sections = sections_of(bytes);
    PieceTable::cut(sections.slice_starts, sections.slices).is_some()
}

/// The parts of bytes whose head is known and both of whose tables are cut whole.
pub(crate) fn parts_of(bytes: &[u8]) -> Parts<'_>
    requires { IsLaidOut 1 bytes.now }
    ensures { result ≡ layout_in bytes.now }
{
    let sections = sections_of(bytes);
    Parts::of(
        sections.counts,
        PieceTable::view(sections.text_starts, sections.texts),
        PieceTable::view(sections.slice_starts, sections.slices),
    )
}

/// The first part whose condition does not hold. `None` exactly where all seven hold.
pub(crate) fn first_failing(bytes: &[u8]) -> Option<Part>
    ensures none { IfNone result (IsIndex 1 V1 bytes.now) }
    ensures some { IfSome result (IsFirstFailing 1 V1 bytes.now) }
{
    if !header_is_known(VERSION, bytes) {
        return Some(Part::Header);
    }
    if !lengths_agree(bytes) {
        return Some(Part::Length);
    }
    if !terms_are_ordered(bytes) {
        return Some(Part::Terms);
    }
    if !directory_is_ordered(bytes) {
        return Some(Part::Directory);
    }
    failing_family(bytes)
}

/// The same where the conditions before those of the families hold.
fn failing_family(bytes: &[u8]) -> Option<Part>
    requires header { HeaderIsKnown 1 bytes.now }
    requires lengths { LengthsAgree bytes.now }
    requires terms { TermsAreOrdered bytes.now }
    requires directory { DirectoryIsOrdered bytes.now }
    ensures none { IfNone result (IsIndex 1 V1 bytes.now) }
    ensures some { IfSome result (IsFirstFailing 1 V1 bytes.now) }
{
    let parts = parts_of(bytes);
    let Some(agree) = counts_agree(RowForm::V1, &parts) else {
        return Some(Part::Rows);
    };
    if !agree {
        return Some(Part::Counts);
    }
    if !families_agree(RowForm::V1, &parts) {
        return Some(Part::Agreement);
    }
    None
}
