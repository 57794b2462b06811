use super::*;
use rdf_text::push_spelling;
use std::test::Fail;

/// Canonical texts with their parts.
#[test]
fn canonical_texts_have_their_parts(rt: HostRuntime) -> Result<(), Fail> {
    for (text, kind, body, tail) in [
        ("<>", TermKind::Iri, "", ""),
        ("<urn:a>", TermKind::Iri, "urn:a", ""),
        ("<!~>", TermKind::Iri, "!~", ""),
        ("<a'b#c/d?e=f%20>", TermKind::Iri, "a'b#c/d?e=f%20", ""),
        (
            "<é\u{7f}\u{80}\u{10ffff}>",
            TermKind::Iri,
            "é\u{7f}\u{80}\u{10ffff}",
            "",
        ),
        ("_:a", TermKind::Blank, "a", ""),
        ("_:0", TermKind::Blank, "0", ""),
        ("_::", TermKind::Blank, ":", ""),
        ("_:a..b-c", TermKind::Blank, "a..b-c", ""),
        ("_:é\u{b7}", TermKind::Blank, "é\u{b7}", ""),
        ("\"\"", TermKind::Plain, "", ""),
        (
            "\"a'é\u{0}\u{8}\u{c}\u{7f}\"",
            TermKind::Plain,
            "a'é\u{0}\u{8}\u{c}\u{7f}",
            "",
        ),
        (
            "\"\\\"\\\\\\n\\r\\t\"",
            TermKind::Plain,
            "\\\"\\\\\\n\\r\\t",
            "",
        ),
        ("\"a\"@en", TermKind::Tagged, "a", "en"),
        ("\"a\"@en-gb-1x9", TermKind::Tagged, "a", "en-gb-1x9"),
        ("\"a\"^^<>", TermKind::Typed, "a", ""),
        ("\"41\"^^<urn:é>", TermKind::Typed, "41", "urn:é"),
        (
            "\"a\"^^<http://www.w3.org/2001/XMLSchema#strings>",
            TermKind::Typed,
            "a",
            "http://www.w3.org/2001/XMLSchema#strings",
        ),
    ] {
        let found = parts(text.as_bytes()).ok_or("no parts")?;
        assert!(rt; found.kind == kind, "{text}");
        assert_eq!(rt; found.body, body.as_bytes(), "{text}");
        assert_eq!(rt; found.tail, tail.as_bytes(), "{text}");
    }
    Ok(())
}

/// Texts that are not canonical.
#[test]
fn other_texts_have_no_parts(rt: HostRuntime) {
    for text in [
        "",
        "<",
        ">",
        "urn:a",
        "<urn:a",
        "urn:a>",
        "<a>b",
        "<a>>",
        "<a b>",
        "<a<b>",
        "<a\"b>",
        "<a{b>",
        "<a}b>",
        "<a|b>",
        "<a^b>",
        "<a`b>",
        "<a\\b>",
        "<\u{1f}>",
        " <a>",
        "<a> ",
        "_",
        "_:",
        "a:b",
        "_:-a",
        "_:.a",
        "_:a.",
        "_:a b",
        "_:\u{b7}",
        "_:\u{d7}",
        "\"",
        "\"a",
        "a\"",
        "\"a\"b\"",
        "\"a\tb\"",
        "\"a\nb\"",
        "\"a\rb\"",
        "\"\\b\"",
        "\"\\f\"",
        "\"\\'\"",
        "\"\\u0041\"",
        "\"\\",
        "\"\\\"",
        "\"a\" ",
        "\"a\"@",
        "\"a\"@EN",
        "\"a\"@en-GB",
        "\"a\"@1n",
        "\"a\"@en-",
        "\"a\"@en--x",
        "\"a\"@-en",
        "\"a\"@en ",
        "\"a\"^",
        "\"a\"^^",
        "\"a\"^<urn:a>",
        "\"a\"^^urn:a",
        "\"a\"^^<urn:a",
        "\"a\"^^<urn:a>x",
        "\"a\"^^<a b>",
        "\"a\"^^<http://www.w3.org/2001/XMLSchema#string>",
    ] {
        assert!(rt; parts(text.as_bytes()).is_none(), "{text}");
    }
}

/// Bytes that are not UTF-8: a byte of no character, a cut one, an overlong one, a surrogate, and a
/// number past 10FFFF.
#[test]
fn other_bytes_have_no_parts(rt: HostRuntime) {
    for bytes in [
        b"<\xff>".as_slice(),
        b"<\xc3>",
        b"<\xc0\xaf>",
        b"<\xed\xa0\x80>",
        b"<\xf4\x90\x80\x80>",
        b"\"\xed\xb0\x80\"",
        b"_:\xf4\x90\x80\x80",
    ] {
        assert!(rt; parts(bytes).is_none(), "{bytes:?}");
    }
}

/// A lexical form is spelled in one way, and the spelling is read back.
#[test]
fn lexical_forms_there_and_back(rt: HostRuntime) -> Result<(), Fail> {
    for (form, text) in [
        ("", "\"\""),
        ("Bob \"B\" Müller", "\"Bob \\\"B\\\" Müller\""),
        ("\\n\n", "\"\\\\n\\n\""),
        ("\t\r\u{8}\u{10ffff}", "\"\\t\\r\u{8}\u{10ffff}\""),
    ] {
        let mut spelled = String::new(rt.alloc());
        for c in form.chars() {
            push_spelling(&mut spelled, c)?;
        }
        let term = TermRef::new(text.as_bytes()).ok_or("not canonical")?;
        let found = term.parts();
        assert_eq!(rt; found.body, spelled.as_bytes(), "{text}");
        let TermKind::Plain = found.kind else {
            return Err("not plain")?;
        };
        let lexical = unescape(rt.alloc(), found.body)?;
        assert_eq!(rt; lexical.as_slice(), form.as_bytes(), "{text}");
    }
    Ok(())
}

#[test]
fn xsd_string_is_known(rt: HostRuntime) {
    assert!(rt; is_xsd_string("http://www.w3.org/2001/XMLSchema#string"));
    assert!(rt; !is_xsd_string("http://www.w3.org/2001/XMLSchema#String"));
}

#[test]
fn terms_are_copied_and_compared(rt: HostRuntime) -> Result<(), Fail> {
    let a = TermRef::new(b"<urn:a>").ok_or("a")?;
    let b = TermRef::new(b"\"b\"@en").ok_or("b")?;
    let owned = Term::copy_of(rt.alloc(), a)?;
    assert!(rt; TermRef::new(b"urn:a").is_none());
    assert_eq!(rt; owned.as_ref().bytes(), b"<urn:a>".as_slice());
    assert!(rt; Term::copy_of(rt.alloc(), b)? < owned);
    assert!(rt; owned == owned.clone()?);
    Ok(())
}

#[test]
fn a_list_takes_triples(rt: HostRuntime) -> Result<(), Fail> {
    let a = TermRef::new(b"<urn:a>").ok_or("a")?;
    let node = Term::copy_of(rt.alloc(), a)?;
    let mut list = TripleList::new(rt.alloc());
    assert!(rt; list.as_slice().is_empty());
    if let TermKind::Iri = node.as_ref().parts().kind {
        let triple = Triple {
            subject: node.clone()?,
            predicate: node.clone()?,
            object: node.clone()?,
        };
        list.take(triple)?;
    }
    assert_eq!(rt; list.as_slice().len(), 1);
    Ok(())
}
