//! The places of a triple pattern by number.

ghost use Rattle.std.specs.Prelude.{length};
ghost use Rattle.term_numbers.specs.Numbering.{all_objects, all_subjects};
ghost use Rattle.match_relations.specs.steps.Parts.{IsFound};

use alg_model::{Place, Var};
use index_file::Index;

/// A place of a triple pattern: a variable, or the number of the term that has to stand there.
#[derive(Clone, Copy, Debug, PartialEq, Eq)]
pub(crate) enum Part {
    Variable(Var),
    Number(u32),
}

/// The subject by number. `None` where it is a term that no triple has as subject.
pub(crate) fn subject_part(index: &Index<'_>, place: &Place) -> Option<Part>
    ensures { IsFound (all_subjects index.now.numbering.terms) place.now result }
{
    index.counts();
    match place {
        Place::Var(var) => Some(Part::Variable(*var)),
        Place::Term(term) => match index.find_subject(term.as_ref().bytes()) {
            Some(n) => Some(Part::Number(n)),
            None => None,
        },
    }
}

/// The predicate by number. `None` where it is a term that no triple has as predicate.
pub(crate) fn predicate_part(index: &Index<'_>, place: &Place) -> Option<Part>
    ensures { IsFound index.now.numbering.terms.predicates place.now result }
{
    index.counts();
    match place {
        Place::Var(var) => Some(Part::Variable(*var)),
        Place::Term(term) => match index.find_predicate(term.as_ref().bytes()) {
            Some(n) => Some(Part::Number(n)),
            None => None,
        },
    }
}

/// The object by number. `None` where it is a term that no triple has as object.
pub(crate) fn object_part(index: &Index<'_>, place: &Place) -> Option<Part>
    ensures { IsFound (all_objects index.now.numbering.terms) place.now result }
{
    index.counts();
    match place {
        Place::Var(var) => Some(Part::Variable(*var)),
        Place::Term(term) => match index.find_object(term.as_ref().bytes()) {
            Some(n) => Some(Part::Number(n)),
            None => None,
        },
    }
}
