ghost use Rattle.std.specs.Prelude.{◌≡◌, IfOk};
ghost use Rattle.query_tokens.specs.Token.{shown};
ghost use Rattle.query_values.specs.reading.Values.{IsSpelled};

use super::*;
use bm_term::Term;
use query_tokens::{Token, TokenKind, tokens};
use std::alloc::Global;
use std::test::Fail;

/// The first token of a text.
fn first_token<'a>(alloc: Global, text: &'a str) -> Result<Token<'a>, Fail>
    ensures { IfOk result (λ token. IsSpelled (shown token)) }
{
    let list = tokens(alloc, text.as_bytes())?;
    tokens_are_spelled();
    if list.is_empty() {
        return Err(Fail::from("no token"));
    }
    let token = *list.get(0);
    match token.kind {
        TokenKind::Bad => Err(Fail::from("a bad token")),
        _ => Ok(token),
    }
}

/// The text of a term.
fn text_is(term: &Term, expected: &str) -> bool {
    term.as_ref().bytes() == expected.as_bytes()
}

#[test]
fn iris_and_prefixes(rt: HostRuntime) -> Result<(), Fail> {
    for (text, expected) in [
        ("<urn:a>", "urn:a"),
        ("<>", ""),
        ("<a\\u0062\\U0000E9E9>", "ab\u{e9e9}"),
    ] {
        let token = first_token(rt.alloc(), text)?;
        assert_eq!(rt; iri(rt.alloc(), token)?.as_str(), expected);
    }
    for (text, expected) in [("ex:a:b", "ex"), (":", ""), ("é.f:", "é.f")] {
        assert_eq!(rt; prefix(first_token(rt.alloc(), text)?), expected);
    }
    Ok(())
}

#[test]
fn local_names(rt: HostRuntime) -> Result<(), Fail> {
    for (text, expected) in [
        ("ex:a", "urn:a"),
        (":a\\-b\\~", "urn:a-b~"),
        ("ex:%41:1.2", "urn:%41:1.2"),
        ("ex:", "urn:"),
    ] {
        let token = first_token(rt.alloc(), text)?;
        assert_eq!(rt; prefixed_iri(rt.alloc(), "urn:", token)?.as_str(), expected);
    }
    Ok(())
}

#[test]
fn names_of_variables(rt: HostRuntime) -> Result<(), Fail> {
    assert_eq!(rt;
        variable_name(first_token(rt.alloc(), "?x1")?),
        b"x1".as_slice()
    );
    assert_eq!(rt;
        variable_name(first_token(rt.alloc(), "$x1")?),
        b"x1".as_slice()
    );
    Ok(())
}

#[test]
fn literals(rt: HostRuntime) -> Result<(), Fail> {
    for (text, expected) in [
        ("'a\"b\\n'", "\"a\\\"b\\n\""),
        ("\"it's\\u0041\"", "\"it'sA\""),
        ("''", "\"\""),
    ] {
        let token = first_token(rt.alloc(), text)?;
        assert!(rt;
            text_is(&plain_term(rt.alloc(), token)?, expected),
            "{text}"
        );
    }
    for (text, expected) in [
        (
            "+007",
            "\"+007\"^^<http://www.w3.org/2001/XMLSchema#integer>",
        ),
        (".50", "\".50\"^^<http://www.w3.org/2001/XMLSchema#decimal>"),
        ("1E0", "\"1E0\"^^<http://www.w3.org/2001/XMLSchema#double>"),
    ] {
        let token = first_token(rt.alloc(), text)?;
        assert!(rt;
            text_is(&number_term(rt.alloc(), token)?, expected),
            "{text}"
        );
    }
    Ok(())
}

#[test]
fn words(rt: HostRuntime) -> Result<(), Fail> {
    let truth = boolean_term(rt.alloc(), first_token(rt.alloc(), "True")?)?;
    assert!(rt;
        text_is(
            &truth,
            "\"true\"^^<http://www.w3.org/2001/XMLSchema#boolean>"
        )
    );
    let verb = type_term(rt.alloc())?;
    assert!(rt; text_is(&verb, "<http://www.w3.org/1999/02/22-rdf-syntax-ns#type>"));
    Ok(())
}

/// The literal of a string and the tag or the datatype after it.
fn literal(alloc: Global, string: &str, tail: &str) -> Result<Term, Fail> {
    let string = first_token(alloc, string)?;
    let tail = first_token(alloc, tail)?;
    match tail.kind {
        TokenKind::Tag => Ok(tagged_term(alloc, string, tail)?),
        _ => {
            iris_stand_for_what_they_spell();
            let datatype = iri(alloc, tail)?;
            Ok(typed_term(alloc, string, datatype.as_str())?)
        }
    }
}

#[test]
fn tails_of_literals(rt: HostRuntime) -> Result<(), Fail> {
    for (string, tail, expected) in [
        ("'a'", "@EN-gb", "\"a\"@en-gb"),
        ("'a'", "<urn:t>", "\"a\"^^<urn:t>"),
        ("'a'", "<http://www.w3.org/2001/XMLSchema#string>", "\"a\""),
    ] {
        let term = literal(rt.alloc(), string, tail)?;
        assert!(rt; text_is(&term, expected), "{string} {tail}");
    }
    Ok(())
}
