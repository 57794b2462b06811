//! The slices of a family.

ghost use Rattle.std.specs.Prelude.{◌≡◌, ◌+◌, ◌<◌, [], ◌∷◌, All, length, drop, slice_index_or};
ghost use Rattle.byte_tables.specs.Numbers.{IsBytes};
ghost use Rattle.index_file.specs.Conditions.{columns_for, rows_for, AreSlices};
ghost use Rattle.index_file.specs.Image.{group_in};
ghost use Rattle.index_file.specs.steps.Rows.{lines_in};

use crate::families::{columns_for, group_of, rows_for};
use crate::family::Family;
use crate::group::Group;
use crate::parts::Parts;
use cube_slices::{SliceRef, view_slice};
use run_rows::RowForm;
use std::marker::Model;

/// The slices of a family, which are known to be slices. It is seen as the list of them, each as the list of its lines.
#[derive(Debug, Drop)]
pub(crate) struct FamilySlices<'a> {
    form: RowForm,
    rows: u32,
    columns: u32,
    slices: Group<'a>,
}

impl<'a> Model for FamilySlices<'a> {
    ghost use Rattle.std.specs.Prelude.{List, map};
    ghost use Rattle.cube_slices.specs.Lines.{Line};
    ghost use Rattle.cube_slices.specs.Slices.{slice_lines};
    ghost use Rattle.index_file.specs.Conditions.{AreSlices};

    ghost Value = { List (List Line) };

    ghost view = { λ s. map (slice_lines s.form) s.slices };

    ghost invariant = { λ s. AreSlices s.form s.rows s.columns s.slices };
}

impl<'a> FamilySlices<'a> {
    /// The slices of a family of a file.
    pub(crate) fn of(form: RowForm, parts: &Parts<'a>, family: Family) -> FamilySlices<'a>
        requires { AreSlices form (rows_for parts.now family) (columns_for parts.now family) (group_in parts.now family) }
        ensures lines { result ≡ lines_in form parts.now family }
        ensures bytes { All IsBytes parts.now.slices }
    {
        FamilySlices {
            form,
            rows: rows_for(parts, family),
            columns: columns_for(parts, family),
            slices: group_of(parts, family),
        }
    }

    /// How many slices there are.
    pub(crate) fn len(&self) -> u32
        ensures { result ≡ length self.now }
    {
        self.slices.len()
    }

    /// The slice in place `i`.
    pub(crate) fn get(&self, i: u32) -> SliceRef<'a>
        requires { i < length self.now }
        ensures slice { slice_index_or self.now i [] ≡ result }
        ensures at { drop i self.now ≡ result ∷ drop (i + 1) self.now }
    {
        view_slice(self.form, self.slices.get(i), self.rows, self.columns)
    }
}
