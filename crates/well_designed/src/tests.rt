ghost use Rattle.std.specs.Prelude.{◌≡◌, ◌+◌, ◌<◌, All, IfSome, IsTrue, flat_map};
ghost use Rattle.alg_model.specs.Pattern.{HasVarsBelow, algebra_of, optional_parts, place_vars, triple_vars};

use crate::{NotWellDesigned, Refusal, cross_place, refusal_of, test, three_places};
use alg_model::{PatList, Pattern, Place, TriplePat, Var};
use bm_term::{Term, TermRef};
use std::alloc::Global;
use std::process::Abort;
use std::test::Fail;

// Patterns, and the first OPTIONAL that fails with its least variable. A pattern is written with its sides before the sign:
// J for Join, O for LeftJoin. `u` to `z` are the variables from 0, and any other letter is a term; a comma stands between
// the triple patterns of a basic graph pattern, and a point for one without any.
const PATTERNS: [(&str, Option<(u8, u8)>); 43] = [
    (".", None),
    ("xpy", None),
    ("xpy ypz O", None),
    (". xpy O", None),
    ("xpy . O", None),
    (". xpy O ypz O", Some((1, 4))),
    (". xpy J ypz O", None),
    (". xpy J ypz O zpw O", Some((1, 5))),
    ("xpy ypz O ypz O", Some((1, 5))),
    ("xpy ypz O xpz O", Some((1, 5))),
    ("xpy ypz O zpw J", Some((1, 5))),
    ("xpy zpw ypz O J", Some((1, 4))),
    ("zpw xpy ypz O J", Some((1, 5))),
    ("xpy ypz zpw O O", None),
    ("xpy ypz xpw O O", Some((2, 3))),
    ("xpy ypz O zpw O", Some((1, 5))),
    ("xpy wpz zpu O O", None),
    ("xpy ypz zpx O O", Some((2, 3))),
    ("ypz xpy ypz O O", Some((2, 5))),
    ("xpy upz zpw O J upv J", None),
    ("xpy upz J upw wpv O O", None),
    ("xpy . upz O J", None),
    (". xpy O . xpz O J", Some((1, 3))),
    (". xpy O . ypz O J", Some((1, 4))),
    ("xpu . upz O J", Some((1, 0))),
    ("xpu upv O upw O vpw J", Some((1, 1))),
    ("upv upw O upx O wpx O", Some((1, 2))),
    ("upv vpw O vpx O wpx J", Some((1, 2))),
    ("upv wpx vpx O J", Some((1, 1))),
    ("xpy ypz,zpw O wpy J", Some((1, 2))),
    (". upv O upw O", Some((1, 0))),
    ("upv . vpw wpx O O O", Some((2, 1))),
    ("upv . vpw xpu O O O upx J", Some((1, 3))),
    ("upx . vpw wpx O O O", Some((2, 3))),
    ("xpy zpw O zpw O", Some((1, 2))),
    ("upv wpx xpy O zpw O O", None),
    ("upv wpx xpy O zpw O O ypz J", Some((1, 4))),
    ("upv vpw wpx O O upw,xpu O", Some((1, 2))),
    ("xyz ypw O zpw O", Some((1, 2))),
    (". zpw,upv O zpu J", Some((1, 0))),
    ("xpy ypz O ypu J", None),
    ("xpy . J zpw O zpw O", Some((1, 2))),
    ("upv . O vpw O wpx,vpx O xpu J", Some((2, 2))),
];

// Patterns, with the least triple pattern with three variables and the least variable at both kinds of place.
const PLACES: [(&str, Option<u16>, Option<u8>); 9] = [
    ("xpy ypz O", None, None),
    ("xpy xyz O", Some(2), Some(4)),
    ("xyp zpy J", None, Some(4)),
    ("zwp xpp,pzp O", None, Some(5)),
    ("pvp pvp J", None, None),
    ("xyz zwx J", Some(1), None),
    ("xpy zpw,uvw O uvz J", Some(3), None),
    ("pvp upp,ppv,pup O", None, Some(0)),
    (". xxp J", None, Some(3)),
];

// A place: the variable or the term that a letter stands for.
fn place(alloc: Global, letter: u8) -> Result<Place, Fail> {
    match letter {
        b'u'..=b'z' => Ok(Place::Var(Var(letter - b'u'))),
        _ => {
            let term = TermRef::new(b"<p>").ok_or("no term")?;
            Ok(Place::Term(Term::copy_of(alloc, term)?))
        }
    }
}

fn triple_pat(alloc: Global, word: &[u8], number: u16) -> Result<TriplePat, Fail> {
    let subject = *word.first().ok_or("no subject")?;
    let predicate = *word.get(1).ok_or("no predicate")?;
    let object = *word.get(2).ok_or("no object")?;
    Ok(TriplePat {
        subject: place(alloc, subject)?,
        predicate: place(alloc, predicate)?,
        object: place(alloc, object)?,
        number,
    })
}

// The triple patterns with commas between them, of which the first has this number.
fn triple_pats(alloc: Global, word: &str, first: u16) -> Result<PatList, Fail> {
    let mut list = PatList::new(alloc);
    let mut number = first;
    for text in word.split(',') {
        if text != "." {
            list.push(triple_pat(alloc, text.as_bytes(), number)?)?;
            number = number.wrapping_add(1);
        }
    }
    Ok(list)
}

// The two sides that were written last.
fn sides(stack: &mut Vec<Pattern>) -> Result<(Pattern, Pattern), Fail> {
    let right = stack.pop().ok_or("no right side")?;
    let left = stack.pop().ok_or("no left side")?;
    Ok((left, right))
}

fn pattern(alloc: Global, text: &str) -> Result<Pattern, Fail> {
    let mut stack: Vec<Pattern> = Vec::new(alloc);
    let mut number: u16 = 1;
    for word in text.split(' ') {
        let next = if word == "J" {
            let (left, right) = sides(&mut stack)?;
            Pattern::join(alloc, left, right)?
        } else if word == "O" {
            let (left, right) = sides(&mut stack)?;
            Pattern::left_join(alloc, left, right)?
        } else {
            let list = triple_pats(alloc, word, number)?;
            number = number.wrapping_add((list.len() % 256) as u16);
            Pattern::Bgp(list)
        };
        stack.push(next)?;
    }
    Ok(stack.pop().ok_or("no pattern")?)
}

fn place_is_below(place: &Place) -> bool
    ensures { IsTrue result → All (λ var. var < 64) (place_vars place.now) }
{
    match place {
        Place::Var(var) => var.0 < 64,
        Place::Term(_) => true,
    }
}

fn triple_is_below(pattern: &TriplePat) -> bool
    ensures { IsTrue result → All (λ var. var < 64) (triple_vars pattern.now) }
{
    if !place_is_below(&pattern.subject) {
        return false;
    }
    if !place_is_below(&pattern.predicate) {
        return false;
    }
    place_is_below(&pattern.object)
}

// Whether all variables are below 64.
fn are_below(patterns: &[TriplePat]) -> bool
    ensures { IsTrue result → All (λ var. var < 64) (flat_map triple_vars patterns.now) }
{
    for pattern in patterns {
        if !triple_is_below(pattern) {
            return false;
        }
    }
    true
}

// Whether all variables of a pattern are below 64.
fn is_below(pattern: &Pattern) -> bool
    ensures { IsTrue result → HasVarsBelow 64 (algebra_of pattern.now) }
{
    match pattern {
        Pattern::Bgp(patterns) => are_below(patterns.as_slice()),
        Pattern::Join(left, right) | Pattern::LeftJoin(left, right) => {
            if !is_below(left) {
                return false;
            }
            is_below(right)
        }
    }
}

// How many OPTIONALs there may still be after those of a pattern.
fn room_after(pattern: &Pattern, room: u8) -> Option<u8>
    ensures { IfSome result (λ left. left + optional_parts (algebra_of pattern.now) ≡ room) }
{
    match pattern {
        Pattern::Bgp(_) => Some(room),
        Pattern::Join(left, right) => room_after(right, room_after(left, room)?),
        Pattern::LeftJoin(left, right) => {
            let room = room_after(right, room_after(left, room)?)?;
            room.checked_sub(1)
        }
    }
}

fn fault_of(rt: &impl Abort, pattern: &Pattern) -> Option<(u8, u8)> {
    assert!(rt; is_below(pattern));
    assert!(rt; room_after(pattern, 63).is_some());
    match test(pattern) {
        Ok(()) => None,
        Err(NotWellDesigned { optional, var }) => Some((optional, var.0)),
    }
}

#[test]
fn the_first_optional_that_fails_is_told(rt: HostRuntime) -> Result<(), Fail> {
    let alloc = rt.alloc();
    for (text, fault) in PATTERNS {
        let pattern = pattern(alloc, text)?;
        assert_eq!(rt; fault_of(&rt, &pattern), fault);
    }
    Ok(())
}

#[test]
fn places_are_told(rt: HostRuntime) -> Result<(), Fail> {
    let alloc = rt.alloc();
    for (text, three, cross) in PLACES {
        let pattern = pattern(alloc, text)?;
        assert!(rt; is_below(&pattern));
        assert_eq!(rt; three_places(&pattern), three);
        assert_eq!(rt; cross_place(&pattern).map(|var| var.0), cross);
    }
    Ok(())
}

fn refusal_in(rt: &impl Abort, alloc: Global, text: &str) -> Result<Option<Refusal>, Fail> {
    let pattern = pattern(alloc, text)?;
    assert!(rt; is_below(&pattern));
    assert!(rt; room_after(&pattern, 63).is_some());
    Ok(refusal_of(&pattern))
}

#[test]
fn the_causes_are_looked_at_in_order(rt: HostRuntime) -> Result<(), Fail> {
    let alloc = rt.alloc();
    let var = Var(5);
    let optional = Some(Refusal::NotWellDesigned { optional: 1, var });
    assert_eq!(rt; refusal_in(&rt, alloc, "xyu yyy,upz O zpw O")?, optional);
    let three = Some(Refusal::ThreePlaces { pattern: 2 });
    assert_eq!(rt; refusal_in(&rt, alloc, "xyp yyy,upz O")?, three);
    let cross = Some(Refusal::CrossPlace { var: Var(4) });
    assert_eq!(rt; refusal_in(&rt, alloc, "xyp ypz O")?, cross);
    assert_eq!(rt; refusal_in(&rt, alloc, "xpy ypz O")?, None);
    Ok(())
}
