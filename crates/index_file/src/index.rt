//! An index, borrowed from its bytes.

ghost use Rattle.std.specs.Prelude.{◌≡◌, ◌↔◌, ◌^◌, ◌<◌, List, length, Contains, IfErr, IfNone, IfOk, IfSome, IsOk, Ok, Some};
ghost use Rattle.std.specs.List.{slice_get};
ghost use Rattle.bm_term.specs.TermRef.{text_of};
ghost use Rattle.bm_term.specs.declared.triple.Triple.{Triple};
ghost use Rattle.cube_slices.specs.Pairs.{lines_of};
ghost use Rattle.run_rows.specs.declared.form.RowForm.TheVariants.{V1};
ghost use Rattle.term_numbers.specs.Numbering.{all_objects, all_subjects, term_table};
ghost use Rattle.index_file.specs.Conditions.{IsImageOf, IsIndex};
ghost use Rattle.index_file.specs.Damage.{IsFirstFailing};
ghost use Rattle.index_file.specs.Families.{pairs_in};
ghost use Rattle.index_file.specs.Image.{graph_in, slices_for};
ghost use Rattle.index_file.specs.Stored.{counts_of, stored_of};
ghost use Rattle.index_file.specs.Version.{NumbersSomeGraph};

use crate::counts::IndexCounts;
use crate::damaged::Damaged;
use crate::family::Family;
use crate::family_slices::FamilySlices;
use crate::open::{first_failing, parts_of};
use crate::parts::Parts;
use crate::search::{place_in_both, place_of};
use bm_term::TermRef;
use cube_slices::SliceRef;
use run_rows::RowForm;
use std::marker::Model;

/// An index that borrows its bytes. It is seen as its version and the numbering of its graph.
#[derive(Debug, Drop)]
pub struct Index<'a> {
    parts: Parts<'a>,
}

impl<'a> Model for Index<'a> {
    ghost use Rattle.index_file.specs.Stored.{Stored};
    ghost use Rattle.index_file.specs.steps.Stores.{IsStored, stored_in};

    ghost Value = { Stored };

    ghost view = { λ i. stored_in i.parts };

    ghost invariant = { λ i. IsStored i.parts };
}

impl<'a> Index<'a> {
    /// The index that the bytes are. `Err` exactly where they are none, with the first part whose condition does not
    /// hold. It takes no memory, whatever the bytes are.
    pub fn open(bytes: &'a [u8]) -> Result<Index<'a>, Damaged>
        ensures opened { IsOk result ↔ IsIndex 1 V1 bytes.now }
        ensures stands_for { IfOk result (λ index. index ≡ stored_of 1 (graph_in V1 bytes.now)) }
        ensures image { (graph : List Triple) → IsImageOf 1 V1 graph bytes.now → result ≡ Ok (stored_of 1 graph) }
        ensures damaged { IfErr result (λ damage. IsFirstFailing 1 V1 bytes.now damage.part) }
    {
        match first_failing(bytes) {
            Some(part) => Err(Damaged { part }),
            None => Ok(Index::view(bytes)),
        }
    }

    /// The index that the bytes are, where they are known to be one: where [`open`](Index::open) would answer `Ok`. Only
    /// the head is read.
    pub fn view(bytes: &'a [u8]) -> Index<'a>
        requires { IsIndex 1 V1 bytes.now }
        ensures stands_for { result ≡ stored_of 1 (graph_in V1 bytes.now) }
        ensures image { (graph : List Triple) → IsImageOf 1 V1 graph bytes.now → result ≡ stored_of 1 graph }
    {
        Index {
            parts: parts_of(bytes),
        }
    }

    /// Its version, and how many terms of each group and how many triples it has. An index is always that of a graph
    /// within the limit.
    pub fn counts(&self) -> IndexCounts
        ensures counts { result ≡ counts_of self.now }
        ensures of_a_graph { NumbersSomeGraph self.now.numbering }
        ensures few_terms { length (term_table self.now.numbering.terms) < 2 ^ 32 }
    {
        self.parts.counts()
    }

    /// The term at a place of the term table.
    pub fn term(&self, value: u32) -> TermRef<'a>
        requires { value < length (term_table self.now.numbering.terms) }
        ensures { slice_get (term_table self.now.numbering.terms) value ≡ Some (text_of result) }
    {
        TermRef::from_canonical(self.parts.texts().get(value as usize))
    }

    /// Slice `n` of a family: its lines are those of the triples whose slice it is.
    pub fn slice(&self, family: Family, n: u32) -> SliceRef<'a>
        requires { n < slices_for family self.now.numbering.terms }
        ensures { result ≡ lines_of (pairs_in family n self.now.numbering.triples) }
    {
        FamilySlices::of(RowForm::V1, &self.parts, family).get(n)
    }

    /// The number of the subject with a text. `None` exactly where no subject has it.
    pub fn find_subject(&self, text: &[u8]) -> Option<u32>
        ensures found { IfSome result (λ n. slice_get (all_subjects self.now.numbering.terms) n ≡ Some text.now) }
        ensures none { IfNone result (Contains (all_subjects self.now.numbering.terms) text.now → ⊥) }
    {
        let groups = self.parts.groups();
        place_in_both(&groups.shared, &groups.subjects, text)
    }

    /// The number of the object with a text: the terms that are subject and object come first, and then the objects alone.
    /// `None` exactly where no object has the text.
    pub fn find_object(&self, text: &[u8]) -> Option<u32>
        ensures found { IfSome result (λ n. slice_get (all_objects self.now.numbering.terms) n ≡ Some text.now) }
        ensures none { IfNone result (Contains (all_objects self.now.numbering.terms) text.now → ⊥) }
    {
        let groups = self.parts.groups();
        place_in_both(&groups.shared, &groups.objects, text)
    }

    /// The number of the predicate with a text. `None` exactly where no predicate has it.
    pub fn find_predicate(&self, text: &[u8]) -> Option<u32>
        ensures found { IfSome result (λ n. slice_get self.now.numbering.terms.predicates n ≡ Some text.now) }
        ensures none { IfNone result (Contains self.now.numbering.terms.predicates text.now → ⊥) }
    {
        let groups = self.parts.groups();
        place_of(&groups.predicates, text)
    }
}
