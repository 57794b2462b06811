use super::*;
use std::test::Fail;

/// The edges of each class: a code point, and the classes that have it. b is PN_CHARS_BASE, N and n
/// are PN_CHARS_U and PN_CHARS of N-Triples, S and s those of SPARQL, i is IRICHAR, h is HEX, and c is
/// a character.
const EDGES: &str = "\
0 c
20 c
21 ic
22 c
23 ic
2c ic
2d nsic
2e ic
2f ic
30 nsihc
39 nsihc
3a Nnic
3b ic
3c c
3d ic
3e c
3f ic
40 ic
41 bNnSsihc
46 bNnSsihc
47 bNnSsic
5a bNnSsic
5b ic
5c c
5d ic
5e c
5f NnSsic
60 c
61 bNnSsihc
66 bNnSsihc
67 bNnSsic
7a bNnSsic
7b c
7c c
7d c
7e ic
b6 ic
b7 nsic
b8 ic
bf ic
c0 bNnSsic
d6 bNnSsic
d7 ic
d8 bNnSsic
f6 bNnSsic
f7 ic
f8 bNnSsic
2ff bNnSsic
300 nsic
36f nsic
370 bNnSsic
37d bNnSsic
37e ic
37f bNnSsic
1fff bNnSsic
2000 ic
200b ic
200c bNnSsic
200d bNnSsic
200e ic
203e ic
203f nsic
2040 nsic
2041 ic
206f ic
2070 bNnSsic
218f bNnSsic
2190 ic
2bff ic
2c00 bNnSsic
2fef bNnSsic
2ff0 ic
3000 ic
3001 bNnSsic
d7ff bNnSsic
D800 -
DFFF -
e000 ic
f8ff ic
f900 bNnSsic
fdcf bNnSsic
fdd0 ic
fdef ic
fdf0 bNnSsic
fffd bNnSsic
fffe ic
ffff ic
10000 bNnSsic
effff bNnSsic
f0000 ic
10ffff ic
110000 -
110001 -
FFFFFFFF -
";

#[test]
fn classes_at_their_edges(rt: HostRuntime) -> Result<(), Fail> {
    for line in EDGES.lines() {
        let (code, classes) = line.split_once(' ').ok_or("no classes")?;
        let c = u32::from_str_radix(code, 16)?;
        assert_eq!(rt; is_pn_chars_base(c), classes.contains('b'), "{line}");
        assert_eq!(rt; is_nt_pn_chars_u(c), classes.contains('N'), "{line}");
        assert_eq!(rt; is_nt_pn_chars(c), classes.contains('n'), "{line}");
        assert_eq!(rt; is_sparql_pn_chars_u(c), classes.contains('S'), "{line}");
        assert_eq!(rt; is_sparql_pn_chars(c), classes.contains('s'), "{line}");
        assert_eq!(rt; is_irichar(c), classes.contains('i'), "{line}");
        assert_eq!(rt; is_hex(c), classes.contains('h'), "{line}");
        assert_eq!(rt; is_scalar(c), classes.contains('c'), "{line}");
    }
    Ok(())
}

/// Each escape, and its letter.
#[test]
fn escapes_and_their_letters(rt: HostRuntime) {
    for (letter, value) in [
        ('t', Some('\t')),
        ('b', Some('\u{8}')),
        ('n', Some('\n')),
        ('r', Some('\r')),
        ('f', Some('\u{c}')),
        ('"', Some('"')),
        ('\'', Some('\'')),
        ('\\', Some('\\')),
        ('a', None),
        ('u', None),
        ('T', None),
    ] {
        assert!(rt; echar_value(letter) == value, "{letter}");
    }
    for (c, letter) in [
        ('\t', Some('t')),
        ('\n', Some('n')),
        ('\r', Some('r')),
        ('"', Some('"')),
        ('\\', Some('\\')),
        ('\u{8}', None),
        ('\u{c}', None),
        ('\'', None),
        ('n', None),
    ] {
        assert!(rt; escape_letter(c) == letter, "{c}");
    }
}

/// A run ends at the first character that is none of it, in a block of bytes, at its end and after it.
#[test]
fn runs_end_where_they_do(rt: HostRuntime) {
    for (text, after_iri, after_raw) in [
        ("", "", ""),
        ("é \"", " \"", "\""),
        ("01234 \"789abcdefgh", " \"789abcdefgh", "\"789abcdefgh"),
        ("0123456789abcde>\\g", ">\\g", "\\g"),
        ("0123456789abcdef>\n", ">\n", "\n"),
        ("0123456789文字\u{7f}\u{10ffff}|\t", "|\t", "\t"),
    ] {
        assert!(rt; after_irichars(text) == after_iri);
        assert!(rt; after_raw_chars(text) == after_raw);
    }
}

#[test]
fn letters_of_ascii_are_put_in_lower_case(rt: HostRuntime) -> Result<(), Fail> {
    let mut out = String::from_str(rt.alloc(), "X")?;
    push_lower(&mut out, "en-GB É[Z")?;
    assert_eq!(rt; out.as_str(), "Xen-gb É[z");
    Ok(())
}

/// A name and a tag end where the longest does.
#[test]
#[tactic(auto, using(crate::proofs::LanguageTags::hyphens))]
fn names_end_where_the_longest_does(rt: HostRuntime) {
    for (text, after_label, after_prefix, after_tag) in [
        ("", None, None, None),
        ("a", Some(""), Some(""), Some("")),
        ("a..b.. c", Some(".. c"), Some(".. c"), Some("..b.. c")),
        ("a:b", Some(""), Some(":b"), Some(":b")),
        ("0a", Some(""), None, None),
        (".a", None, None, None),
        ("en-GB-1 .", Some(" ."), Some(" ."), Some(" .")),
        ("en--x", Some(""), Some(""), Some("--x")),
        ("en-", Some(""), Some(""), Some("-")),
    ] {
        let label = after_dotted_name(text, NtLabelFirst, NtPnChars);
        let prefix = after_dotted_name(text, PnCharsBase, SparqlPnChars);
        let tag = after_language_tag(text, Letter, Alphanumeric);
        assert!(rt; label == after_label, "{text}");
        assert!(rt; prefix == after_prefix, "{text}");
        assert!(rt; tag == after_tag, "{text}");
    }
}
