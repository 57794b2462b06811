use super::*;
use std::alloc::Global;
use std::process::Abort;
use std::test::Fail;

/// Texts, each with its tokens in order: a token as its kind and its text.
const NUMBERS: &str = r#"1 => Integer(1)
007 => Integer(007)
+5 => Integer(+5)
1. => Integer(1) Sign(.)
1.5 => Decimal(1.5)
.5 => Decimal(.5)
-1.5 => Decimal(-1.5)
+.5 => Decimal(+.5)
.5e => Decimal(.5) Word(e)
1.5.5 => Decimal(1.5) Decimal(.5)
1e5 => Double(1e5)
1.e5 => Double(1.e5)
1E-05 => Double(1E-05)
-.5e+1 => Double(-.5e+1)
1.5e3. => Double(1.5e3) Sign(.)
1e => Integer(1) Word(e)
1e+ => Integer(1) Word(e) Sign(+)
1.e => Integer(1) Sign(.) Word(e)
.e5 => Sign(.) Word(e) Integer(5)
1-1 => Integer(1) Integer(-1)
+-5 => Sign(+) Integer(-5)
+. => Sign(+) Sign(.)
- => Bad(-)
-. => Bad(-.)
--5 => Bad(--5)
5a => Integer(5) Word(a)
"#;

const PREFIXES_AND_WORDS: &str = r#"a => Word(a)
a1 => Word(a) Integer(1)
a-b => Word(a) Bad(-b)
aé => Word(a) Bad(é)
a: => Prefix(a:)
: => Prefix(:)
a-b.c:d => Prefixed(a-b.c:d)
a.b:c => Prefixed(a.b:c)
a.:b => Word(a) Sign(.) Prefixed(:b)
1:b => Integer(1) Prefixed(:b)
é:é => Prefixed(é:é)
é => Bad(é)
_a:b => Bad(_a:b)
_:a.b. => Blank(_:a.b) Sign(.)
_:0- => Blank(_:0-)
_:a:b => Blank(_:a) Prefixed(:b)
_: => Bad(_:)
_:- => Bad(_:-)
"#;

const LOCAL_NAMES: &str = r#"ex:a. => Prefixed(ex:a) Sign(.)
ex:a.b => Prefixed(ex:a.b)
ex:a..b.. => Prefixed(ex:a..b) Sign(.) Sign(.)
ex:.a => Prefix(ex:) Sign(.) Word(a)
ex:1 => Prefixed(ex:1)
ex:-1 => Prefix(ex:) Integer(-1)
ex:a- => Prefixed(ex:a-)
ex:_ => Prefixed(ex:_)
:: => Prefixed(::)
:a:b: => Prefixed(:a:b:)
ex:%41 => Prefixed(ex:%41)
ex:%aF.%30 => Prefixed(ex:%aF.%30)
ex:%4 => Prefix(ex:) Bad(%4)
ex:a%4g => Prefixed(ex:a) Bad(%4g)
ex:a\,b => Prefixed(ex:a\,b)
ex:a.\. => Prefixed(ex:a.\.)
ex:\#\% => Prefixed(ex:\#\%)
ex:\a => Prefix(ex:) Bad(\a)
ex:a\ => Prefixed(ex:a) Bad(\)
"#;

const VARIABLES_AND_SIGNS: &str = r#"?x:y => Variable(?x) Prefixed(:y)
?x.y => Variable(?x) Sign(.) Word(y)
?x?y$z => Variable(?x) Variable(?y) Variable($z)
$1 => Variable($1)
?a-b => Variable(?a) Bad(-b)
? => Sign(?)
?? => Sign(?) Sign(?)
$ => Bad($)
^ => Sign(^)
^^ => Sign(^^)
^^^ => Sign(^^) Sign(^)
^ ^ => Sign(^) Sign(^)
{}.;,* => Sign({) Sign(}) Sign(.) Sign(;) Sign(,) Sign(*)
/|+!()[] => Sign(/) Sign(|) Sign(+) Sign(!) Sign(() Sign()) Sign([) Sign(])
|| => Sign(|) Sign(|)
&& => Bad(&&)
!= => Sign(!) Bad(=)
~ a => Bad(~ a)
"#;

const STRINGS_AND_TAGS: &str = r#""a" => Quoted("a")
'a"b' => Quoted('a"b')
"" => Quoted("")
""a => Quoted("") Word(a)
""" => Quotes(""")
''' => Quotes(''')
"""" => Quotes(""") Bad(")
'' '' => Quoted('') Quoted('')
"\t\b\n\r\f\"\'\\" => Quoted("\t\b\n\r\f\"\'\\")
"\u0041\U0010FFFF" => Quoted("\u0041\U0010FFFF")
"\u000A" => Quoted("\u000A")
"\uD800" => Bad("\uD800")
"\U00110000" => Bad("\U00110000")
"\u004" => Bad("\u004")
"\x" => Bad("\x")
'a => Bad('a)
"a"@en. => Quoted("a") Tag(@en) Sign(.)
@en-us-1x => Tag(@en-us-1x)
@en- => Tag(@en) Bad(-)
@en1 => Tag(@en) Integer(1)
@1 => Bad(@1)
"#;

const IRIS_AND_BLANKS: &str = r#"<a><> => Iri(<a>) Iri(<>)
<#é>#b => Iri(<#é>)
<\u0041\U0001F600> => Iri(<\u0041\U0001F600>)
<\u0020> => Bad(<\u0020>)
<\u003E> => Bad(<\u003E>)
<\n> => Bad(<\n>)
<a b> => Bad(<a b>)
< => Bad(<)
1<2 => Integer(1) Bad(<2)
SELECT#c => Word(SELECT)
"#;

/// The same of texts with characters that do not show.
const HIDDEN: [(&str, &str); 18] = [
    ("\u{feff}", "Bad(\u{feff})"),
    ("\u{feff}a b", "Bad(\u{feff}a b)"),
    ("\u{feff}a:b", "Prefixed(\u{feff}a:b)"),
    ("ex:a\u{b7}", "Prefixed(ex:a\u{b7})"),
    ("ex:\u{b7}", "Prefix(ex:) Bad(\u{b7})"),
    ("?_é\u{b7}", "Variable(?_é\u{b7})"),
    ("?\u{b7}", "Sign(?) Bad(\u{b7})"),
    ("\"a\tb\"", "Quoted(\"a\tb\")"),
    ("\"a\nb\"", "Bad(\"a\nb\")"),
    ("", ""),
    (" \t\r\n#", ""),
    ("#c\nSELECT", "Word(SELECT)"),
    ("#c\rSELECT", "Word(SELECT)"),
    ("a#b\nc", "Word(a) Word(c)"),
    ("##\n #\r\n a ", "Word(a)"),
    ("'#'#'\n'", "Quoted('#') Bad(')"),
    ("a\u{b}b", "Word(a) Bad(\u{b}b)"),
    ("a\u{a0}b", "Word(a) Bad(\u{a0}b)"),
];

fn listed(alloc: Global, text: &str) -> Result<String, Fail> {
    let list = tokens(alloc, text.as_bytes())?;
    let mut out = String::new(alloc);
    for token in list.as_slice() {
        let kind = token.kind;
        let slice = str::from_utf8(token.text)?;
        if !out.is_empty() {
            out.push(' ')?;
        }
        write!(out, "{kind:?}({slice})")?;
    }
    Ok(out)
}

fn check(rt: &impl Abort, alloc: Global, table: &str) -> Result<(), Fail> {
    for line in table.lines() {
        let (text, expected) = line.split_once(" => ").ok_or("no tokens")?;
        assert_eq!(rt; listed(alloc, text)?.as_str(), expected, "{text}");
    }
    Ok(())
}

#[test]
fn numbers(rt: HostRuntime) -> Result<(), Fail> {
    check(&rt, rt.alloc(), NUMBERS)
}

#[test]
fn prefixes_and_words(rt: HostRuntime) -> Result<(), Fail> {
    check(&rt, rt.alloc(), PREFIXES_AND_WORDS)
}

#[test]
fn local_names(rt: HostRuntime) -> Result<(), Fail> {
    check(&rt, rt.alloc(), LOCAL_NAMES)
}

#[test]
fn variables_and_signs(rt: HostRuntime) -> Result<(), Fail> {
    check(&rt, rt.alloc(), VARIABLES_AND_SIGNS)
}

#[test]
fn strings_and_tags(rt: HostRuntime) -> Result<(), Fail> {
    check(&rt, rt.alloc(), STRINGS_AND_TAGS)
}

#[test]
fn iris_and_blanks(rt: HostRuntime) -> Result<(), Fail> {
    check(&rt, rt.alloc(), IRIS_AND_BLANKS)
}

#[test]
fn hidden_characters(rt: HostRuntime) -> Result<(), Fail> {
    for (text, expected) in HIDDEN {
        assert_eq!(rt; listed(rt.alloc(), text)?.as_str(), expected, "{text}");
    }
    Ok(())
}

#[test]
fn tokens_stand_at_their_places(rt: HostRuntime) -> Result<(), Fail> {
    let list = tokens(rt.alloc(), "é: #é\n ?x\t<é>.~".as_bytes())?;
    assert_eq!(rt; list.len(), 5);
    assert!(rt; !list.is_empty());
    assert_eq!(rt; list.get(0).at, 0);
    assert_eq!(rt; list.get(1).at, 9);
    assert_eq!(rt; list.get(2).at, 12);
    assert_eq!(rt; list.get(3).at, 16);
    assert_eq!(rt; list.get(4).at, 17);
    Ok(())
}
