use super::*;
use std::test::Fail;

/// Lines, each with the three terms that it spells.
#[test]
fn lines_that_spell_a_triple(rt: HostRuntime) -> Result<(), Fail> {
    for (line, subject, predicate, object) in [
        ("<urn:a> <urn:p> <urn:b> .", "<urn:a>", "<urn:p>", "<urn:b>"),
        ("<urn:a><urn:p><urn:b>.#x", "<urn:a>", "<urn:p>", "<urn:b>"),
        (
            "\t<urn:a>\t \t<urn:p>\t<urn:b>\t.\t",
            "<urn:a>",
            "<urn:p>",
            "<urn:b>",
        ),
        (" <> <> <> . # <> <> <> .", "<>", "<>", "<>"),
        ("_:a.b <urn:p> _:c.", "_:a.b", "<urn:p>", "_:c"),
        ("_:a <urn:p> _:b .", "_:a", "<urn:p>", "_:b"),
        ("_:a..b <urn:p> _:c.", "_:a..b", "<urn:p>", "_:c"),
        ("_:0-é<urn:p>_::.", "_:0-é", "<urn:p>", "_::"),
        (
            "_:a\u{b7}\u{feff}<urn:p>_:b.#",
            "_:a\u{b7}\u{feff}",
            "<urn:p>",
            "_:b",
        ),
        (
            "<urn:s><urn:p>\"x\"@EN-us.",
            "<urn:s>",
            "<urn:p>",
            "\"x\"@en-us",
        ),
        (
            "<urn:s> <urn:p> \"x\" @en .",
            "<urn:s>",
            "<urn:p>",
            "\"x\"@en",
        ),
        (
            "<urn:s> <urn:p> \"x\"\t@en-1X2-zz.",
            "<urn:s>",
            "<urn:p>",
            "\"x\"@en-1x2-zz",
        ),
        (
            "<urn:s> <urn:p> \"x\" ^^ <urn:d> .",
            "<urn:s>",
            "<urn:p>",
            "\"x\"^^<urn:d>",
        ),
        (
            "<urn:s> <urn:p> \"x\"^^<urn:\\u0064>.",
            "<urn:s>",
            "<urn:p>",
            "\"x\"^^<urn:d>",
        ),
        ("<urn:s> <urn:p> \"\".", "<urn:s>", "<urn:p>", "\"\""),
        (
            "<urn:s> <urn:p> \"# <a> .\" .",
            "<urn:s>",
            "<urn:p>",
            "\"# <a> .\"",
        ),
        (
            "<urn:s> <urn:p> \"x\"^^<http://www.w3.org/2001/XMLSchema#string> .",
            "<urn:s>",
            "<urn:p>",
            "\"x\"",
        ),
        (
            "<urn:s> <urn:p> \"x\\u0079\"^^<http://www.w3.org/2001/XMLSchema#strin\\u0067> .",
            "<urn:s>",
            "<urn:p>",
            "\"xy\"",
        ),
        (
            "<urn:s> <urn:p> \"x\"^^<http://www.w3.org/2001/XMLSchema#String> .",
            "<urn:s>",
            "<urn:p>",
            "\"x\"^^<http://www.w3.org/2001/XMLSchema#String>",
        ),
        (
            "<a\\u0041> <\\U0001F600> <\\u00e9\\u00E9> .",
            "<aA>",
            "<\u{1f600}>",
            "<éé>",
        ),
        (
            "<é> <urn:p> \"é\u{10ffff}\" .",
            "<é>",
            "<urn:p>",
            "\"é\u{10ffff}\"",
        ),
        ("<urn:s> <urn:p> \"\\t\" .", "<urn:s>", "<urn:p>", "\"\\t\""),
        ("<urn:s> <urn:p> \"\t\" .", "<urn:s>", "<urn:p>", "\"\\t\""),
        (
            "<urn:s> <urn:p> \"\\u0009\\U00000009\" .",
            "<urn:s>",
            "<urn:p>",
            "\"\\t\\t\"",
        ),
        (
            "<urn:s> <urn:p> \"\\b\\n\\r\\f\\\"\\'\\\\\" .",
            "<urn:s>",
            "<urn:p>",
            "\"\u{8}\\n\\r\u{c}\\\"'\\\\\"",
        ),
        (
            "<urn:s> <urn:p> \"\\u000A\\u0022\\u005Cn\" .",
            "<urn:s>",
            "<urn:p>",
            "\"\\n\\\"\\\\n\"",
        ),
        (
            "<urn:s> <urn:p> \"\u{0}\u{8}\u{7f}\" .",
            "<urn:s>",
            "<urn:p>",
            "\"\u{0}\u{8}\u{7f}\"",
        ),
        (
            "<urn:s> <urn:p> \"\\uD7FF\\uE000\\U0010FFFF\" .",
            "<urn:s>",
            "<urn:p>",
            "\"\u{d7ff}\u{e000}\u{10ffff}\"",
        ),
    ] {
        let triple = read_line(rt.alloc(), line.as_bytes())
            .ok()
            .ok_or("not read")?
            .ok_or("nothing")?;
        assert_eq!(rt;
            triple.subject.as_ref().bytes(),
            subject.as_bytes(),
            "{line}"
        );
        assert_eq!(rt;
            triple.predicate.as_ref().bytes(),
            predicate.as_bytes(),
            "{line}"
        );
        assert_eq!(rt; triple.object.as_ref().bytes(), object.as_bytes(), "{line}");
    }
    Ok(())
}

#[test]
fn lines_that_spell_nothing(rt: HostRuntime) {
    for line in [
        "",
        " ",
        "\t \t",
        "#",
        "# note",
        " \t# <a> <b> <c> .",
        "#\u{0}é",
        "##",
    ] {
        assert!(rt;
            matches!(read_line(rt.alloc(), line.as_bytes()), Ok(None)),
            "{line}"
        );
    }
}

/// Whether `read_line` answers that the line is bad.
fn is_bad(rt: &HostRuntime, line: &[u8]) -> bool {
    matches!(read_line(rt.alloc(), line), Err(LineFault::Bad))
}

#[test]
fn bad_lines(rt: HostRuntime) {
    for line in [
        ".",
        "<a>",
        "<a> <b>",
        "<a> <b> <c>",
        "<a> <b> .",
        "<a> <b> <c> <d> .",
        "<a> <b> <c> . .",
        "<a> <b> <c> . <d>",
        "<a> <b> <c> .\n",
        "# a\n<bad",
        "# a\r<bad",
        "#\n",
        "<a> <b> <c> .# a\r\n",
        "\u{feff}<a> <b> <c> .",
        "\u{a0}<a> <b> <c> .",
        "\r",
        "a",
        "\"s\" <b> <c> .",
        "<a> _:b <c> .",
        "<a> \"b\" <c> .",
        "<a> <b> \"a\"\"b\" .",
        "<a> <b> \"a .",
        "<a> <b> \"a\nb\" .",
        "<a> <b> \"a\rb\" .",
        "<a> <b> 'a' .",
        "<a> <b> \"\\a\" .",
        "<a> <b> \"\\\" .",
        "<a> <b> \"\\u004\" .",
        "<a> <b> \"\\u004g\" .",
        "<a> <b> \"\\uD800\" .",
        "<a> <b> \"\\uDFFF\" .",
        "<a> <b> \"\\uD83D\\uDE00\" .",
        "<a> <b> \"\\U00110000\" .",
        "<a> <b> \"\\U0001F60\" .",
        "<a> <b> \"\\UFFFFFFFF\" .",
        "<a> <b> \"x\"@ .",
        "<a> <b> \"x\"@ en .",
        "<a> <b> \"x\"@1 .",
        "<a> <b> \"x\"@en--us .",
        "<a> <b> \"x\"@en- .",
        "<a> <b> \"x\"@en@us .",
        "<a> <b> \"x\"@en^^<d> .",
        "<a> <b> \"x\"^<d> .",
        "<a> <b> \"x\"^ ^<d> .",
        "<a> <b> \"x\"^^ .",
        "<a> <b> \"x\"^^_:d .",
        "<a> <b> \"x\"^^\"d\" .",
    ] {
        assert!(rt; is_bad(&rt, line.as_bytes()), "{line}");
    }
}

#[test]
fn bad_iris_and_labels(rt: HostRuntime) {
    for line in [
        "<a b> <b> <c> .",
        "<a<b> <b> <c> .",
        "<a\tb> <b> <c> .",
        "<a",
        "<a\"> <b> <c> .",
        "<a{> <b> <c> .",
        "<a^> <b> <c> .",
        "<a`> <b> <c> .",
        "<a\\b> <b> <c> .",
        "<\\n> <b> <c> .",
        "<\\u003E> <b> <c> .",
        "<\\u0020> <b> <c> .",
        "<\\u005C> <b> <c> .",
        "<\\u0000> <b> <c> .",
        "<\\uDC00> <b> <c> .",
        "<\\u00> <b> <c> .",
        "<\\U0000004> <b> <c> .",
        "_:-a <b> <c> .",
        "_:.a <b> <c> .",
        "_:a. <b> <c> .",
        "_: a <b> <c> .",
        "_ :a <b> <c> .",
        "_:",
        "<a> <b> _:c..",
        "_:\u{b7} <b> <c> .",
        "_:a\u{d7} <b> <c> .",
    ] {
        assert!(rt; is_bad(&rt, line.as_bytes()), "{line}");
    }
}

/// Bytes that are not UTF-8, in the triple and in a comment.
#[test]
fn other_bytes_are_bad(rt: HostRuntime) {
    for line in [
        b"\xff".as_slice(),
        b"# \xff",
        b"<a> <b> <c> . # \xff",
        b"<a> <b> <c> . # \xc3",
        b"<\xc0\xaf> <b> <c> .",
        b"<\xed\xa0\x80> <b> <c> .",
        b"<a> <b> \"\xf4\x90\x80\x80\" .",
    ] {
        assert!(rt; is_bad(&rt, line), "{line:?}");
    }
}
