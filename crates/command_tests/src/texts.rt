//! Long texts, made of parts.
use std::alloc::{AllocError, Global};

/// Puts a part at the end of a text, so many times.
pub fn push_often(text: &mut String, part: &str, times: u32) -> Result<(), AllocError> {
    for _ in 0..times {
        text.push_str(part)?;
    }
    Ok(())
}

/// A query of a front, a part so many times, another part as often, and an end.
pub fn long_query(
    alloc: Global,
    front: &str,
    part: &str,
    other: &str,
    times: u32,
    end: &str,
) -> Result<String, AllocError> {
    let mut query = String::from_str(alloc, front)?;
    push_often(&mut query, part, times)?;
    push_often(&mut query, other, times)?;
    query.push_str(end)?;
    Ok(query)
}

/// So many variables from `?v1` on, each after a text, but the first after another.
pub fn push_variables(
    text: &mut String,
    first: &str,
    other: &str,
    count: u32,
) -> Result<(), AllocError> {
    for i in 0..count {
        text.push_str(if i == 0 { first } else { other })?;
        let number = i.wrapping_add(1);
        write!(text, "?v{number}")?;
    }
    Ok(())
}
