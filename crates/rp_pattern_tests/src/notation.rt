//! Patterns as texts in postfix notation, so that a table can hold them. `A B then A or` is the pattern `A B | A`.
//!
//! | word | pattern |
//! |---|---|
//! | `A` to `H` | a row of the variable 0 to 7 |
//! | `()` `^` `$` | no row, the start and the end of the partition |
//! | `then` `or` | one behind the other, or one of them: the last two |
//! | `*` `{2,3}` `{2,}` | the last one any number of times, or as often as that; `*?` and `{2,3}?` are reluctant |
//! | `{-}` | the last one, excluded |
//! | `&3` | the last three, in any order |
use crate::support::holds;
use rp_words::{Form, Pattern};
use std::alloc::{AllocError, Global};
use std::process::Abort;
use std::test::Fail;

/// The pattern of a text, which is allowed.
pub fn pattern_of(rt: &impl Abort, alloc: Global, text: &str) -> Result<Pattern, Fail> {
    let form = form_of(alloc, text)?;
    holds(rt, form.is_allowed());
    Ok(Pattern::new(form))
}

/// The tree of a text.
pub fn form_of(alloc: Global, text: &str) -> Result<Form, Fail> {
    let mut parts = Vec::new(alloc);
    for word in text.split_whitespace() {
        let part = part_of(alloc, word, &mut parts)?;
        parts.push(part)?;
    }
    last_of(&mut parts)
}

/// What a word makes of the parts before it.
fn part_of(alloc: Global, word: &str, parts: &mut Vec<Form>) -> Result<Form, Fail> {
    match word.as_bytes() {
        [letter @ b'A'..=b'H'] => Ok(Form::variable(usize::from(*letter - b'A'))),
        b"()" => Ok(Form::Empty),
        b"^" => Ok(Form::PartitionStart),
        b"$" => Ok(Form::PartitionEnd),
        b"then" | b"or" => joined(alloc, word == "or", parts),
        b"{-}" => Ok(Form::exclusion(alloc, last_of(parts)?)?),
        [b'&', count @ b'0'..=b'9'] => permuted(alloc, usize::from(*count - b'0'), parts),
        _ => quantified(alloc, word, last_of(parts)?),
    }
}

fn last_of(parts: &mut Vec<Form>) -> Result<Form, Fail> {
    match parts.pop() {
        Some(part) => Ok(part),
        None => Err(Fail::from("a part is missing")),
    }
}

/// The last two parts, one of them or one behind the other.
fn joined(alloc: Global, is_choice: bool, parts: &mut Vec<Form>) -> Result<Form, Fail> {
    let second = last_of(parts)?;
    let first = last_of(parts)?;
    Ok(both(alloc, is_choice, first, second)?)
}

fn both(alloc: Global, is_choice: bool, first: Form, second: Form) -> Result<Form, AllocError> {
    if is_choice {
        Form::alternation(alloc, first, second)
    } else {
        Form::concatenation(alloc, first, second)
    }
}

/// The last so many parts, in any order.
fn permuted(alloc: Global, count: usize, parts: &mut Vec<Form>) -> Result<Form, Fail> {
    let mut last = Vec::new(alloc);
    for _part in 0..count {
        last.push(last_of(parts)?)?;
    }
    last.reverse();
    Ok(Form::permute(alloc, last)?)
}

/// A part as often as the word says.
fn quantified(alloc: Global, word: &str, body: Form) -> Result<Form, Fail> {
    let greedy = word.strip_suffix('?').unwrap_or(word);
    let (lower, upper) = bounds_of(greedy)?;
    let is_reluctant = greedy.len() < word.len();
    Ok(Form::quantified(alloc, body, lower, upper, is_reluctant)?)
}

/// `*` is from 0 on, and `{2,}` from 2.
fn bounds_of(word: &str) -> Result<(u32, Option<u32>), Fail> {
    let inner = word.strip_prefix('{').unwrap_or(word);
    let inner = inner.strip_suffix('}').unwrap_or(inner);
    match inner.split_once(',') {
        Some((lower, "")) => Ok((lower.parse()?, None)),
        Some((lower, upper)) => Ok((lower.parse()?, Some(upper.parse()?))),
        None if word == "*" => Ok((0, None)),
        None => Err(Fail::from("no such word")),
    }
}
