use crate::{FeedFault, Reader};
use bm_term::TripleList;
use std::test::Fail;

/// The bytes of a file, the number of triples that are taken from it, and its first bad line, or 0.
const FILES: [(&[u8], usize, u64); 24] = [
    (b"", 0, 0),
    (b"\n", 0, 0),
    (b"\r\n\r\n\n\r\r\n\n", 0, 0),
    (b"<urn:s> <urn:p> <urn:o> .", 1, 0),
    (b"<urn:s> <urn:p> <urn:o> .\n", 1, 0),
    (b"<urn:s> <urn:p> <urn:o> .\r", 1, 0),
    (b"<urn:s> <urn:p> <urn:o> .\r\n", 1, 0),
    (
        b"<urn:s> <urn:p> <urn:o> .\n<urn:s> <urn:p> <urn:o> .",
        2,
        0,
    ),
    (
        b"<urn:s> <urn:p> <urn:o> .\r<urn:s> <urn:p> <urn:o> .\r",
        2,
        0,
    ),
    (
        b"\r\n<urn:s> <urn:p> <urn:o> .\r\n\r\n<urn:s> <urn:p> <urn:o> .",
        2,
        0,
    ),
    (
        b"\n\n\n\n\n\n\n\n\n\n<urn:s> <urn:p> <urn:o> .\n\n\n\n\n",
        1,
        0,
    ),
    (b"x", 0, 1),
    (b"x\n", 0, 1),
    (b"\nx", 0, 2),
    (b"\rx\n", 0, 2),
    (b"\r\nx\r\n", 0, 2),
    (b"\n\rx", 0, 3),
    (b"\r\rx", 0, 3),
    (b"\r\n\nx", 0, 3),
    (b"\r\n\rx", 0, 3),
    (
        b"<urn:s> <urn:p> <urn:o> .\nx\n<urn:s> <urn:p> <urn:o> .\n",
        1,
        2,
    ),
    (
        b"<urn:s> <urn:p> <urn:o> .\n<urn:s> <urn:p>\n<urn:o> .\n",
        1,
        2,
    ),
    (b"<urn:s> <urn:p> <urn:o> .\r\n\xFF\r\n", 1, 2),
    (b"<urn:s> <urn:p> <urn:o> .\n\n\nx\ny\n", 1, 4),
];

/// Ends the stream, and answers how many triples were taken, and the first bad line or 0.
fn found(mut reader: Reader, mut triples: TripleList) -> Result<(usize, u64), FeedFault> {
    match reader.finish(&mut triples) {
        Ok(()) => Ok((triples.as_slice().len(), 0)),
        Err(FeedFault::NotNTriples { line }) => Ok((triples.as_slice().len(), line)),
        Err(FeedFault::Memory) => Err(FeedFault::Memory),
    }
}

#[test]
fn files_are_read_however_they_are_cut(rt: HostRuntime) -> Result<(), Fail> {
    for (bytes, triples, line) in FILES {
        for at in 0..bytes.len() {
            let (first, second) = bytes.split_at(at);
            let mut reader = Reader::new(rt.alloc());
            let mut taken = TripleList::new(rt.alloc());
            let _ = reader.feed(first, &mut taken);
            let _ = reader.feed(second, &mut taken);
            assert!(rt;
                found(reader, taken)? == (triples, line),
                "{bytes:?} cut at {at}"
            );
        }
    }
    Ok(())
}

#[test]
fn files_are_read_byte_by_byte(rt: HostRuntime) -> Result<(), Fail> {
    for (bytes, triples, line) in FILES {
        let mut reader = Reader::new(rt.alloc());
        let mut taken = TripleList::new(rt.alloc());
        for piece in bytes.chunks(1) {
            let _ = reader.feed(piece, &mut taken);
        }
        assert!(rt; found(reader, taken)? == (triples, line), "{bytes:?}");
    }
    Ok(())
}

/// Three pieces, and how many triples are taken once each of them is fed, and at the end.
const PIECES: [([&[u8]; 3], [usize; 4]); 6] = [
    ([b"<urn:s> <urn:p> ", b"<urn:o> .", b"\n"], [0, 0, 1, 1]),
    ([b"<urn:s> <urn:p> <urn:o> .\r", b"\n", b""], [1, 1, 1, 1]),
    ([b"<urn:s> <urn:p> <urn:o> .\r", b"", b"\n"], [1, 1, 1, 1]),
    (
        [
            b"<urn:s> <urn:p> <urn:o> .\n<urn:s> ",
            b"<urn:p> ",
            b"<urn:o> .",
        ],
        [1, 1, 1, 2],
    ),
    (
        [
            b"#",
            b"\r<urn:s> <urn:p> <urn:o> .\n#",
            b"\r\n<urn:s> <urn:p> <urn:o> .\r",
        ],
        [0, 1, 2, 2],
    ),
    ([b"", b"", b""], [0, 0, 0, 0]),
];

#[test]
fn lines_are_handed_on_as_they_end(rt: HostRuntime) -> Result<(), Fail> {
    for (pieces, counts) in PIECES {
        let mut reader = Reader::new(rt.alloc());
        let mut taken = TripleList::new(rt.alloc());
        for (piece, count) in pieces.iter().zip(counts.iter()) {
            reader.feed(piece, &mut taken)?;
            assert!(rt; taken.as_slice().len() == *count, "{pieces:?}");
        }
        reader.finish(&mut taken)?;
        assert!(rt; taken.as_slice().len() == counts[3], "{pieces:?}");
    }
    Ok(())
}

#[test]
fn triples_come_in_the_order_of_their_lines(rt: HostRuntime) -> Result<(), Fail> {
    let mut reader = Reader::new(rt.alloc());
    let mut triples = TripleList::new(rt.alloc());
    let file = b"<urn:2> <urn:p> <urn:o> .\n<urn:1> <urn:p> <urn:o> .";
    reader.feed(file.as_slice(), &mut triples)?;
    reader.finish(&mut triples)?;
    match triples.as_slice() {
        [first, second] => {
            assert!(rt; first.subject.as_ref().bytes() == b"<urn:2>".as_slice());
            assert!(rt; second.subject.as_ref().bytes() == b"<urn:1>".as_slice());
        }
        _ => assert!(rt; false, "two triples"),
    }
    Ok(())
}

#[test]
fn a_reader_is_new_after_ok_and_fails_on_after_a_bad_line(rt: HostRuntime) -> Result<(), Fail> {
    let mut reader = Reader::new(rt.alloc());
    let mut triples = TripleList::new(rt.alloc());
    for _ in 0..2 {
        reader.feed(b"<urn:s> <urn:p> <urn:o> .".as_slice(), &mut triples)?;
        reader.finish(&mut triples)?;
    }
    assert!(rt; triples.as_slice().len() == 2);
    reader.feed(b"\nx".as_slice(), &mut triples)?;
    let fault = Err(FeedFault::NotNTriples { line: 2 });
    assert!(rt; reader.finish(&mut triples) == fault);
    assert!(rt; reader.feed(b"\n".as_slice(), &mut triples) == fault);
    assert!(rt; reader.finish(&mut triples) == fault);
    assert!(rt; triples.as_slice().len() == 2);
    Ok(())
}
