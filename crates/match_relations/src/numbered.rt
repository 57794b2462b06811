//! The triple patterns of a tree by their numbers in the text.

ghost use Rattle.std.specs.Prelude.{◌≡◌, ◌==◌, fold};
ghost use Rattle.std.specs.Option.{option_map};
ghost use Rattle.match_relations.specs.steps.Numbers.{end_of, extent_of, patterns_in, widened, with_number};

use alg_model::{Place, TriplePat};
use pattern_tree::{PatRefs, Tree};

/// The triple pattern with a number among those of a node, if there is one.
fn numbered_in<'q>(patterns: &PatRefs<'_, 'q>, number: u16) -> Option<&'q TriplePat>
    ensures { option_map (λ p. p.now) result ≡ with_number number patterns.now }
{
    for i in 0..patterns.len() {
        let pattern = patterns.get(i);
        if pattern.number == number {
            return Some(pattern);
        }
    }
    None
}

/// The triple pattern of a tree with a number, if there is one.
pub(crate) fn numbered<'q>(tree: &Tree<'q>, number: u16) -> Option<&'q TriplePat>
    ensures { option_map (λ p. p.now) result ≡ with_number number (patterns_in tree.now) }
{
    for node in 0..tree.nodes() {
        match numbered_in(&tree.patterns(node), number) {
            Some(pattern) => return Some(pattern),
            None => {}
        }
    }
    None
}

/// How far the numbers of a tree's triple patterns and of their variables go.
#[derive(Clone, Copy, Debug, PartialEq, Eq)]
pub(crate) struct Extent {
    /// The greatest number of a triple pattern.
    pub patterns: u16,
    /// One more than the greatest number of a variable.
    pub vars: u16,
}

/// One more than the number of a place's variable, and 0 where there is none.
fn end_of(place: &Place) -> u16
    ensures { result ≡ end_of place.now }
{
    match place {
        Place::Var(var) => u16::from(var.0) + 1,
        Place::Term(_) => 0,
    }
}

/// An extent, as wide as a triple pattern needs.
fn widened(extent: Extent, pattern: &TriplePat) -> Extent
    ensures { result ≡ widened extent pattern.now }
{
    Extent {
        patterns: extent.patterns.max(pattern.number),
        vars: extent
            .vars
            .max(end_of(&pattern.subject))
            .max(end_of(&pattern.predicate))
            .max(end_of(&pattern.object)),
    }
}

/// An extent, as wide as the triple patterns of a node need.
fn widened_by(extent: Extent, patterns: &PatRefs<'_, '_>) -> Extent
    ensures { result ≡ fold widened extent patterns.now }
{
    let mut wide = extent;
    for i in 0..patterns.len() {
        wide = widened(wide, patterns.get(i));
    }
    wide
}

/// The extent of a tree.
pub(crate) fn extent_of(tree: &Tree<'_>) -> Extent
    ensures { result ≡ extent_of (patterns_in tree.now) }
{
    let mut wide = Extent {
        patterns: 0,
        vars: 0,
    };
    for node in 0..tree.nodes() {
        wide = widened_by(wide, &tree.patterns(node));
    }
    wide
}
