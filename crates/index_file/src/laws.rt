//! Laws of the definitions. The calls do nothing: their contracts are the laws. Version and form are variables in all
//! of them, so they hold of each version of the file.

ghost use Rattle.std.specs.Prelude.{◌≡◌, ◌↔◌, ◌++◌, ◌^◌, ◌<◌, ◌≤◌, ◌+◌, ◌⊎◌, [], ℕ, List, Contains, length};
ghost use Rattle.bm_term.specs.SetOf.{set_of};
ghost use Rattle.bm_term.specs.declared.triple.Triple.{Triple};
ghost use Rattle.byte_tables.specs.Numbers.{IsBytes};
ghost use Rattle.run_rows.specs.declared.form.RowForm.{RowForm};
ghost use Rattle.term_numbers.specs.Numbering.{numbering_of};
ghost use Rattle.term_numbers.specs.Order.{Numbered, number_cmp};
ghost use Rattle.index_file.specs.declared.damaged.Part.{Part};
ghost use Rattle.index_file.specs.declared.family.Family.{Family};
ghost use Rattle.index_file.specs.declared.family.Family.TheVariants.{So};
ghost use Rattle.index_file.specs.Conditions.{IsImageOf, IsIndex, IsStorable};
ghost use Rattle.index_file.specs.Damage.{IsFirstFailing};
ghost use Rattle.index_file.specs.Families.{pairs_in, slice_number, slices_of, triple_at, triples_from};
ghost use Rattle.index_file.specs.Image.{graph_in, image_of, terms_in, triples_in};
ghost use Rattle.index_file.specs.LaidOut.{CanBeLaidOut, IsLaidOut};
ghost use Rattle.index_file.specs.Layout.{Layout, file_size, layout_bytes, layout_in};

/// The seven conditions hold exactly where the bytes are the image of a graph within the limits. That is the graph that
/// the bytes stand for.
pub fn the_conditions_hold_of_images_alone()
    ensures exactly { (version : ℕ) (form : RowForm) (bytes : List ℕ) → version < 2 ^ 32 → IsBytes bytes →
        IsIndex version form bytes ↔ ((graph : List Triple) × IsImageOf version form graph bytes) }
    ensures stands_for { (version : ℕ) (form : RowForm) (graph : List Triple) (bytes : List ℕ) → version < 2 ^ 32 →
        IsImageOf version form graph bytes → graph_in form bytes ≡ graph }
{}

/// Bytes are the image of one graph only.
pub fn an_image_is_of_one_graph()
    ensures { (version : ℕ) (form : RowForm) (graph other : List Triple) (bytes : List ℕ) → version < 2 ^ 32 →
        IsImageOf version form graph bytes → IsImageOf version form other bytes → graph ≡ other }
{}

/// No proper front of an image is an image, also of another version, form or graph.
pub fn no_front_of_an_image_is_one()
    ensures { (version of : ℕ) (form within : RowForm) (graph other : List Triple) (bytes more : List ℕ) →
        version < 2 ^ 32 → of < 2 ^ 32 →
        IsImageOf version form graph bytes → IsImageOf of within other (bytes ++ more) → more ≡ [] }
{}

/// Terms and numbered triples of the bytes are those of the graph's numbering.
pub fn an_index_has_the_numbering_of_its_graph()
    ensures { (version : ℕ) (form : RowForm) (bytes : List ℕ) → version < 2 ^ 32 → IsBytes bytes → IsIndex version form bytes →
        numbering_of (graph_in form bytes)
        ≡ record { terms = terms_in (layout_in bytes); triples = set_of number_cmp (triples_in form (layout_in bytes) So) } }
{}

/// A slice has just the pairs of its triples, and the slices of a family have just the triples whose slice there is.
pub fn families_have_the_triples()
    ensures pairs { (family : Family) (n : ℕ) (triples : List Numbered) (pair : ℕ × ℕ) →
        Contains (pairs_in family n triples) pair ↔ Contains triples (triple_at family n pair) }
    ensures triples { (family : Family) (count : ℕ) (triples : List Numbered) (triple : Numbered) →
        Contains (triples_from family 0 (slices_of family 0 count triples)) triple
        ↔ (Contains triples triple × (slice_number family triple < count)) }
{}

/// What was laid out is read again, and bytes that a layout is read from are those in which it is laid out.
pub fn a_layout_and_its_bytes_determine_each_other()
    ensures read { (l : Layout) → CanBeLaidOut l → layout_in (layout_bytes l) ≡ l }
    ensures laid_out { (l : Layout) → CanBeLaidOut l → IsLaidOut l.version (layout_bytes l) }
    ensures written { (version : ℕ) (bytes : List ℕ) → version < 2 ^ 32 → IsBytes bytes → IsLaidOut version bytes → layout_bytes (layout_in bytes) ≡ bytes }
    ensures can { (version : ℕ) (bytes : List ℕ) → version < 2 ^ 32 → IsBytes bytes → IsLaidOut version bytes → CanBeLaidOut (layout_in bytes) }
    ensures size { (l : Layout) → length (layout_bytes l) ≡ file_size l }
{}

/// Bytes are an index, or there is a first part whose condition does not hold, and no other.
pub fn bytes_are_an_index_or_damaged()
    ensures either { (version : ℕ) (form : RowForm) (bytes : List ℕ) →
        IsIndex version form bytes ⊎ ((part : Part) × IsFirstFailing version form bytes part) }
    ensures not_both { (version : ℕ) (form : RowForm) (bytes : List ℕ) (part : Part) →
        IsIndex version form bytes → IsFirstFailing version form bytes part → ⊥ }
    ensures one_part { (version : ℕ) (form : RowForm) (bytes : List ℕ) (part other : Part) →
        IsFirstFailing version form bytes part → IsFirstFailing version form bytes other → part ≡ other }
{}
