//! The index of two triples, byte by byte, and what is told of its damages.

use crate::{Index, Part};
use std::test::Fail;

/// The image of two triples: `<urn:a> <urn:p> <urn:b>` and `<urn:b> <urn:p> <urn:c>`.
const IMAGE: [u8; 272] = [
    66, 73, 84, 77, 65, 84, 76, 66, 1, 0, 0, 0, 1, 0, 0, 0, 1, 0, 0, 0, 1, 0, 0, 0, 1, 0, 0, 0, 2,
    0, 0, 0, 28, 0, 0, 0, 152, 0, 0, 0, 16, 1, 0, 0, 0, 0, 0, 0, 7, 0, 0, 0, 14, 0, 0, 0, 21, 0, 0,
    0, 28, 0, 0, 0, 60, 117, 114, 110, 58, 98, 62, 60, 117, 114, 110, 58, 97, 62, 60, 117, 114,
    110, 58, 99, 62, 60, 117, 114, 110, 58, 112, 62, 0, 0, 0, 0, 36, 0, 0, 0, 72, 0, 0, 0, 92, 0,
    0, 0, 112, 0, 0, 0, 132, 0, 0, 0, 152, 0, 0, 0, 2, 0, 0, 0, 0, 0, 0, 0, 8, 0, 0, 0, 1, 0, 0, 0,
    16, 0, 0, 0, 1, 0, 0, 0, 1, 0, 0, 0, 0, 0, 0, 0, 1, 0, 0, 0, 2, 0, 0, 0, 0, 0, 0, 0, 8, 0, 0,
    0, 1, 0, 0, 0, 16, 0, 0, 0, 1, 0, 0, 0, 1, 0, 0, 0, 0, 0, 0, 0, 1, 0, 0, 0, 1, 0, 0, 0, 0, 0,
    0, 0, 8, 0, 0, 0, 1, 0, 0, 0, 1, 0, 0, 0, 1, 0, 0, 0, 0, 0, 0, 0, 8, 0, 0, 0, 0, 0, 0, 0, 1, 0,
    0, 0, 1, 0, 0, 0, 0, 0, 0, 0, 8, 0, 0, 0, 1, 0, 0, 0, 1, 0, 0, 0, 1, 0, 0, 0, 0, 0, 0, 0, 8, 0,
    0, 0, 0, 0, 0, 0, 1, 0, 0, 0,
];

/// A byte that is another one, by its place, and the part that is told then.
const DAMAGES: [(usize, u8, Part); 20] = [
    (0, 98, Part::Header),
    (7, 0, Part::Header),
    (8, 0, Part::Header),
    (8, 2, Part::Header),
    (11, 1, Part::Header),
    (12, 2, Part::Length),
    (16, 0, Part::Length),
    (24, 2, Part::Length),
    (31, 1, Part::Length),
    (32, 27, Part::Length),
    (36, 153, Part::Length),
    (40, 17, Part::Length),
    (44, 1, Part::Terms),
    (48, 14, Part::Terms),
    (60, 29, Part::Terms),
    (64, 61, Part::Terms),
    (69, 97, Part::Terms),
    (96, 72, Part::Directory),
    (120, 1, Part::Rows),
    (28, 3, Part::Counts),
];

/// The part that is told of bytes, if they are no index.
fn damaged_part(bytes: &[u8]) -> Option<Part> {
    match Index::open(bytes) {
        Ok(_) => None,
        Err(damage) => Some(damage.part),
    }
}

#[test]
fn tells_the_first_damaged_part(rt: HostRuntime) {
    for (place, byte, part) in DAMAGES.iter() {
        let mut bytes = IMAGE;
        bytes[*place] = *byte;
        assert_eq!(rt; damaged_part(&bytes), Some(*part), "byte {place}");
    }
}

#[test]
fn tells_other_lengths(rt: HostRuntime) -> Result<(), Fail> {
    assert_eq!(rt; damaged_part(&[]), Some(Part::Header));
    assert_eq!(rt; damaged_part(&IMAGE[..43]), Some(Part::Header));
    assert_eq!(rt; damaged_part(&IMAGE[..44]), Some(Part::Length));
    assert_eq!(rt; damaged_part(&IMAGE[..271]), Some(Part::Length));
    let mut longer = IMAGE.to_vec(rt.alloc())?;
    longer.push(0)?;
    assert_eq!(rt; damaged_part(&longer), Some(Part::Length));
    Ok(())
}

#[test]
fn reads_counts_and_terms(rt: HostRuntime) -> Result<(), Fail> {
    let index = Index::open(&IMAGE).map_err(|_| "an index")?;
    let counts = index.counts();
    assert_eq!(rt; counts.version, 1);
    assert_eq!(rt; (counts.shared, counts.subjects, counts.objects), (1, 1, 1));
    assert_eq!(rt; (counts.predicates, counts.triples), (1, 2));
    Ok(())
}

#[test]
fn finds_terms(rt: HostRuntime) -> Result<(), Fail> {
    let index = Index::open(&IMAGE).map_err(|_| "an index")?;
    assert_eq!(rt; index.find_subject(b"<urn:b>"), Some(0));
    assert_eq!(rt; index.find_subject(b"<urn:a>"), Some(1));
    assert_eq!(rt; index.find_subject(b"<urn:c>"), None);
    assert_eq!(rt; index.find_object(b"<urn:c>"), Some(1));
    assert_eq!(rt; index.find_object(b"<urn:a>"), None);
    assert_eq!(rt; index.find_predicate(b"<urn:p>"), Some(0));
    assert_eq!(rt; index.find_predicate(b""), None);
    Ok(())
}
