use crate::{State, next, terminal_of, unsupported_word};
use query_tokens::tokens;
use std::alloc::Global;
use std::test::Fail;

// The byte of the text at which the grammar has a fault, if it has one.
fn fault_of(alloc: Global, text: &str) -> Result<Option<usize>, Fail> {
    let list = tokens(alloc, text.as_bytes())?;
    let mut state = State::start();
    for token in list.as_slice() {
        if state.groups > 1000 {
            return Ok(Some(token.at));
        }
        match next(state, terminal_of(token)) {
            None => return Ok(Some(token.at)),
            Some(step) => state = step.state,
        }
    }
    if state.is_end() {
        Ok(None)
    } else {
        Ok(Some(text.len()))
    }
}

#[test]
fn queries(rt: HostRuntime) -> Result<(), Fail> {
    for text in [
        "SELECT * { }",
        "select ?x where { ?x a ?y }",
        "SELECT DISTINCT ?x ?y WHERE { ?x <urn:p> ?y . }",
        "SELECT * { ?x ?p ?y ;; ?q ?z , 1 , 'a'@en ; }",
        "SELECT * { { } . OPTIONAL { ?x ?p true . } { OPTIONAL { } } ?x ?p ?y }",
        "PREFIX ex: <urn:e> PREFIX : <urn:d> SELECT ?s { ex:a : 'x'^^ex:t . 'y'^^: ?p -1e3 }",
    ] {
        assert_eq!(rt; fault_of(rt.alloc(), text)?, None, "{text}");
    }
    Ok(())
}

#[test]
fn faults(rt: HostRuntime) -> Result<(), Fail> {
    for (text, at) in [
        ("", 0),
        ("SELECT { }", 7),
        ("SELECT DISTINCT DISTINCT * { }", 16),
        ("SELECT ?x, ?y { }", 9),
        ("SELECT * ?x { }", 9),
        ("SELECT * WHERE", 14),
        ("PREFIX ex:a <urn:e> SELECT * { }", 7),
        ("SELECT * { ?x A ?y }", 14),
        ("SELECT * { ?x 1 ?y }", 14),
        ("SELECT * { ?x ?p ex:a@en }", 21),
        ("SELECT * { ?x ?p 'b'^^ }", 23),
        ("SELECT * { ?x ?p ?y . . }", 22),
        ("SELECT * { { } . . }", 17),
        ("SELECT * { ?x ?p ?y , ; }", 22),
        ("SELECT * { OPTIONAL ?x ?p ?y }", 20),
        ("SELECT * { } }", 13),
        ("SELECT * { ?x ?p ?y", 19),
    ] {
        assert_eq!(rt; fault_of(rt.alloc(), text)?, Some(at), "{text}");
    }
    Ok(())
}

// The text of the word that the first token of a text is, and nothing if it is none.
fn word_of(alloc: Global, text: &str) -> Result<&'static str, Fail> {
    let list = tokens(alloc, text.as_bytes())?;
    match list.as_slice() {
        [token, ..] => match unsupported_word(token) {
            Some(word) => Ok(word.text()),
            None => Ok(""),
        },
        [] => Ok(""),
    }
}

#[test]
fn words(rt: HostRuntime) -> Result<(), Fail> {
    for (text, word) in [
        ("Filter", "FILTER"),
        ("WITH", "WITH"),
        ("select", "SELECT"),
        ("where", ""),
        ("[ ]", "["),
        ("]", ""),
        ("^", "^"),
        ("^^", ""),
        ("*", "*"),
        ("\"\"\"a", "\"\"\""),
        ("'''", "'''"),
        ("_:b", "_:"),
        ("?x", ""),
    ] {
        assert_eq!(rt; word_of(rt.alloc(), text)?, word, "{text}");
    }
    Ok(())
}
