//! Laws of the lines of a file, and of the pieces of a stream.
ghost use Rattle.std.specs.Prelude.{◌≡◌, ◌↔◌, ℕ, ◌<◌, ◌^◌, List, [], ◌∷◌, ◌++◌, length, Err, Some, None, All};
ghost use Rattle.std.specs.List.{concat};
ghost use Rattle.bm_term.specs.declared.triple.Triple.{Triple};
ghost use Rattle.nt_read.specs.Line.{IsBadLine};
ghost use Rattle.nt_read.specs.scanning.Lines.{lines_of, first_bad, triples_of};
ghost use Rattle.nt_read.specs.Lines.{AreLines, IsFirstBadLine, SpellTriples};
ghost use Rattle.bm_term.specs.Kept.{Kept};
ghost use Rattle.nt_read.specs.Pieces.{new_stream, cut, cut_all, ended_in_all};
ghost use Rattle.nt_read.specs.Feeding.{HasRead};
ghost use Rattle.nt_read.specs.declared.lines.FeedFault.TheVariants.{NotNTriples};

/// The lines of bytes are the parts of them between line ends, and no other list is.
pub fn lines_stand_between_line_ends()
    ensures { (bytes : List ℕ) (lines : List (List ℕ)) → AreLines bytes lines ↔ (lines ≡ lines_of bytes) }
{}

/// The first bad line is bad, and no line before it is.
pub fn first_bad_is_the_first_bad_line()
    ensures { (bytes : List ℕ) (n : ℕ) → (first_bad bytes ≡ Some n) ↔ IsFirstBadLine bytes n }
{}

/// Where there is no first bad line, no line is bad.
pub fn no_first_bad_is_no_bad_line()
    ensures { (bytes : List ℕ) → (first_bad bytes ≡ None) ↔ All (λ line. ¬ IsBadLine line) (lines_of bytes) }
{}

/// The lines that end in pieces, and the unfinished line after them, are those of the pieces joined.
pub fn pieces_have_the_lines_of_the_whole()
    ensures { (pieces : List (List ℕ)) →
        ended_in_all new_stream pieces ++ (cut_all new_stream pieces).text ∷ [] ≡ lines_of (concat pieces) }
{}

/// Pieces one after another leave a stream as they do joined.
pub fn pieces_are_cut_as_one()
    ensures { (pieces : List (List ℕ)) → cut_all new_stream pieces ≡ cut new_stream (concat pieces) }
{}

/// A bad line that a reader has found is the first one of the file, whatever bytes follow.
pub fn a_bad_line_is_the_first_of_the_file()
    ensures { (bytes more : List ℕ) (line : ℕ) (old new : Kept) → HasRead bytes (Err (NotNTriples line)) old new →
        length (bytes ++ more) < 2 ^ 64 → first_bad (bytes ++ more) ≡ Some line }
{}

/// Lines spell triples, one after another, exactly where none of them is bad and these are their triples.
pub fn lines_spell_their_triples()
    ensures { (lines : List (List ℕ)) (triples : List Triple) →
        SpellTriples lines triples ↔ (All (λ line. ¬ IsBadLine line) lines × (triples ≡ triples_of lines)) }
{}
