//! A text sought among texts that ascend.

ghost use Rattle.std.specs.Prelude.{◌≡◌, ◌+◌, ◌^◌, ◌<◌, ◌++◌, length, Contains, IfNone, IfSome, Some};
ghost use Rattle.std.specs.List.{slice_get};
ghost use Rattle.std.specs.List.Sorted.{IsStrictlySortedBy};
ghost use Rattle.term_numbers.specs.Order.{text_cmp};
ghost use Rattle.index_file.specs.steps.Halving.{IsBetween};

use crate::group::Group;
use crate::text::{is_before, is_same};

/// The place of the first text that is not before this one, by halving.
fn halve(texts: &Group<'_>, text: &[u8]) -> u32
    requires { IsStrictlySortedBy text_cmp texts.now }
    ensures { IsBetween text.now texts.now result result }
{
    let mut low = 0;
    let mut high = texts.len();
    while low < high {
        let middle = low + (high - low) / 2;
        if is_before(texts.get(middle), text) {
            low = middle + 1;
        } else {
            high = middle;
        }
    }
    low
}

/// The place of a text. `None` exactly where it is not there.
pub(crate) fn place_of(texts: &Group<'_>, text: &[u8]) -> Option<u32>
    requires { IsStrictlySortedBy text_cmp texts.now }
    ensures found { IfSome result (λ n. slice_get texts.now n ≡ Some text.now) }
    ensures none { IfNone result (Contains texts.now text.now → ⊥) }
{
    let place = halve(texts, text);
    if place < texts.len() && is_same(texts.get(place), text) {
        Some(place)
    } else {
        None
    }
}

/// The place of a text in two groups, one after the other. `None` exactly where it is in neither.
pub(crate) fn place_in_both(first: &Group<'_>, second: &Group<'_>, text: &[u8]) -> Option<u32>
    requires first_ascends { IsStrictlySortedBy text_cmp first.now }
    requires second_ascends { IsStrictlySortedBy text_cmp second.now }
    requires few { length first.now + length second.now < 2 ^ 32 }
    ensures found { IfSome result (λ n. slice_get (first.now ++ second.now) n ≡ Some text.now) }
    ensures none { IfNone result (Contains (first.now ++ second.now) text.now → ⊥) }
{
    if let Some(place) = place_of(first, text) {
        return Some(place);
    }
    match place_of(second, text) {
        Some(place) => Some(first.len() + place),
        None => None,
    }
}
