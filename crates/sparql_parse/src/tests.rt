use crate::{QueryFault, parse_query};
use query_grammar::Word;
use std::test::Fail;

/// Faults, and their texts.
#[test]
fn faults_have_texts(rt: HostRuntime) -> Result<(), Fail> {
    let word = Word::Filter;
    for (fault, text) in [
        (QueryFault::Syntax { at: 7 }, "syntax at byte 7"),
        (
            QueryFault::Unsupported { at: 11, word },
            "unsupported FILTER at byte 11",
        ),
        (
            QueryFault::UnknownPrefix { at: 0 },
            "unknown prefix at byte 0",
        ),
        (
            QueryFault::TooManyVariables { at: 1 },
            "too many variables at byte 1",
        ),
        (
            QueryFault::TooManyPatterns { at: 2 },
            "too many patterns at byte 2",
        ),
        (
            QueryFault::TooManyOptionals { at: 3 },
            "too many optionals at byte 3",
        ),
        (
            QueryFault::TooManyGroups { at: 4 },
            "too many groups at byte 4",
        ),
        (QueryFault::TooDeep { at: 10 }, "too deep at byte 10"),
        (QueryFault::Memory, "out of memory"),
    ] {
        let said = fault.to_string(rt.alloc())?;
        assert_eq!(rt; said.as_str(), text);
    }
    Ok(())
}

/// A query, and a text that is none.
#[test]
fn texts_are_queries_or_have_a_fault(rt: HostRuntime) {
    assert!(rt; parse_query(rt.alloc(), b"SELECT ?x { ?x a ?y }").is_ok());
    match parse_query(rt.alloc(), b"SELECT ?x { FILTER }") {
        Ok(_) => assert!(rt; false),
        Err(fault) => assert!(rt;
            fault
                == QueryFault::Unsupported {
                    at: 12,
                    word: Word::Filter
                }
        ),
    }
}
