//! The relations of one triple pattern over the index of two triples.

ghost use Rattle.std.specs.Prelude.{◌<◌, All, IfOk};
ghost use Rattle.alg_model.specs.Limits.{PatternKeepsLimits, max_variables};
ghost use Rattle.alg_model.specs.Pattern.{algebra_of, place_vars};
ghost use Rattle.tree_relations.specs.Prepared.{FitsTogether};

use crate::prepare;
use alg_model::{PatList, Pattern, Place, TriplePat, Var};
use bm_term::{Term, TermRef};
use index_file::Index;
use pattern_tree::tree_of;
use std::alloc::Global;
use std::test::Fail;
use tree_relations::Prepared;
use well_designed::refusal_of;

/// The image of two triples: `<urn:a> <urn:p> <urn:b>` and `<urn:b> <urn:p> <urn:c>`.
const IMAGE: [u8; 272] = [
    66, 73, 84, 77, 65, 84, 76, 66, 1, 0, 0, 0, 1, 0, 0, 0, 1, 0, 0, 0, 1, 0, 0, 0, 1, 0, 0, 0, 2,
    0, 0, 0, 28, 0, 0, 0, 152, 0, 0, 0, 16, 1, 0, 0, 0, 0, 0, 0, 7, 0, 0, 0, 14, 0, 0, 0, 21, 0, 0,
    0, 28, 0, 0, 0, 60, 117, 114, 110, 58, 98, 62, 60, 117, 114, 110, 58, 97, 62, 60, 117, 114,
    110, 58, 99, 62, 60, 117, 114, 110, 58, 112, 62, 0, 0, 0, 0, 36, 0, 0, 0, 72, 0, 0, 0, 92, 0,
    0, 0, 112, 0, 0, 0, 132, 0, 0, 0, 152, 0, 0, 0, 2, 0, 0, 0, 0, 0, 0, 0, 8, 0, 0, 0, 1, 0, 0, 0,
    16, 0, 0, 0, 1, 0, 0, 0, 1, 0, 0, 0, 0, 0, 0, 0, 1, 0, 0, 0, 2, 0, 0, 0, 0, 0, 0, 0, 8, 0, 0,
    0, 1, 0, 0, 0, 16, 0, 0, 0, 1, 0, 0, 0, 1, 0, 0, 0, 0, 0, 0, 0, 1, 0, 0, 0, 1, 0, 0, 0, 0, 0,
    0, 0, 8, 0, 0, 0, 1, 0, 0, 0, 1, 0, 0, 0, 1, 0, 0, 0, 0, 0, 0, 0, 8, 0, 0, 0, 0, 0, 0, 0, 1, 0,
    0, 0, 1, 0, 0, 0, 0, 0, 0, 0, 8, 0, 0, 0, 1, 0, 0, 0, 1, 0, 0, 0, 1, 0, 0, 0, 0, 0, 0, 0, 8, 0,
    0, 0, 0, 0, 0, 0, 1, 0, 0, 0,
];

/// How many pairs the relation of a triple pattern has.
const COUNTS: [(&str, &str, &str, u32); 9] = [
    ("?0", "<urn:p>", "?1", 2),
    ("?0", "<urn:p>", "?0", 0),
    ("?0", "<urn:p>", "<urn:b>", 1),
    ("<urn:b>", "<urn:p>", "?0", 1),
    ("?0", "?1", "<urn:c>", 1),
    ("<urn:a>", "?0", "?1", 1),
    ("<urn:a>", "?0", "<urn:b>", 1),
    ("<urn:a>", "<urn:p>", "<urn:b>", 1),
    ("<urn:c>", "<urn:p>", "?0", 0),
];

/// A place: `?` and the digit of a variable, or a term.
fn place(alloc: Global, text: &str) -> Result<Place, Fail>
    ensures { IfOk result (λ place. All (λ var. var < max_variables) (place_vars place)) }
{
    match text.as_bytes() {
        [b'?', digit] => Ok(Place::Var(Var(digit % 2))),
        bytes => {
            let term = TermRef::new(bytes).ok_or("no term")?;
            Ok(Place::Term(Term::copy_of(alloc, term)?))
        }
    }
}

/// A pattern of one triple pattern.
fn pattern(alloc: Global, subject: &str, predicate: &str, object: &str) -> Result<Pattern, Fail>
    ensures { IfOk result (λ pattern. PatternKeepsLimits max_variables (algebra_of pattern)) }
{
    let triple = TriplePat {
        subject: place(alloc, subject)?,
        predicate: place(alloc, predicate)?,
        object: place(alloc, object)?,
        number: 1,
    };
    let mut list = PatList::new(alloc);
    list.push(triple)?;
    Ok(Pattern::Bgp(list))
}

/// How many pairs the first relation has.
fn count(prepared: &Prepared<'_>) -> Result<u32, Fail>
    requires { FitsTogether prepared.now }
{
    if prepared.entries.is_empty() {
        return Err(Fail::from("no relation"));
    }
    let entry = prepared.entries.get(0);
    Ok(entry.rel.count(prepared.pool()))
}

#[test]
fn each_kind_of_triple_pattern_has_its_matches(rt: HostRuntime) -> Result<(), Fail> {
    let alloc = rt.alloc();
    let index = Index::open(&IMAGE).map_err(|_| "an index")?;
    for (subject, predicate, object, wanted) in COUNTS {
        let pattern = pattern(alloc, subject, predicate, object)?;
        match refusal_of(&pattern) {
            Some(_) => return Err(Fail::from("a refusal")),
            None => {}
        }
        let tree = tree_of(alloc, &pattern)?;
        let prepared = prepare(alloc, &tree, &index)?;
        assert_eq!(rt; count(&prepared)?, wanted);
    }
    Ok(())
}
