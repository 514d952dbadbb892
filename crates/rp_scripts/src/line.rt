//! A line of a script, and the words of an event.
use crate::fault::EventFault;
use rp_value::{Text, Value};
use std::alloc::{AllocError, Global};

/// A line: the event, what follows its name, and what is to be told of it, empty where there is no arrow.
#[derive(Clone, Copy)]
pub struct Line<'a> {
    pub event: &'a str,
    pub rest: &'a str,
    pub told: &'a str,
}

/// The parts of a line.
pub fn line_of<'a>(text: &'a str) -> Result<Line<'a>, EventFault> {
    let text = text.trim();
    if text.ends_with(" ->") {
        return Err(EventFault::NothingBehindArrow);
    }
    let (front, told) = split_at_mark(text, " -> ");
    let (event, rest) = first_word(front);
    Ok(Line { event, rest, told })
}

/// The first word, and what follows it.
pub fn first_word<'a>(text: &'a str) -> (&'a str, &'a str) {
    split_at_mark(text, " ")
}

/// What stands before the first such mark, and what stands behind it.
pub fn split_at_mark<'a>(text: &'a str, mark: &str) -> (&'a str, &'a str) {
    match text.split_once(mark) {
        Some((front, rest)) => (front.trim(), rest.trim()),
        None => (text.trim(), ""),
    }
}

/// Nothing more stands in the line.
pub fn no_words(text: &str) -> Result<(), EventFault> {
    if text.is_empty() {
        return Ok(());
    }
    Err(EventFault::TooManyWords)
}

/// A number, and what follows it.
pub fn number<'a>(text: &'a str) -> Result<(u64, &'a str), EventFault> {
    let (word, rest) = first_word(text);
    match word.parse::<u64>() {
        Ok(number) => Ok((number, rest)),
        Err(_) => Err(EventFault::NoNumber),
    }
}

/// The last word, a number that may pass 64 bits.
pub fn large_number(text: &str) -> Result<u128, EventFault> {
    match text.parse::<u128>() {
        Ok(number) => Ok(number),
        Err(_) => Err(EventFault::NoNumber),
    }
}

/// A budget of turns, and what follows it.
pub fn budget<'a>(text: &'a str) -> Result<(u32, &'a str), EventFault> {
    let (word, rest) = first_word(text);
    match word.parse::<u32>() {
        Ok(budget) => Ok((budget, rest)),
        Err(_) => Err(EventFault::NoNumber),
    }
}

/// The words as cells.
pub fn cells(alloc: Global, text: &str) -> Result<Vec<Value>, AllocError> {
    let mut cells = Vec::new(alloc);
    for word in text.split(' ') {
        if !word.is_empty() {
            cells.push(cell(alloc, word)?)?;
        }
    }
    Ok(cells)
}

/// A word as a cell: `null`, a whole number, or a text, `''` an empty one.
pub fn cell(alloc: Global, word: &str) -> Result<Value, AllocError> {
    if word == "null" {
        return Ok(Value::Null);
    }
    if word == "''" {
        return text_cell(alloc, "");
    }
    match word.parse::<i64>() {
        Ok(number) => Ok(Value::Int(number)),
        Err(_) => text_cell(alloc, word),
    }
}

pub fn text_cell(alloc: Global, letters: &str) -> Result<Value, AllocError> {
    let letters = String::from_str(alloc, letters)?;
    Ok(Value::Text(Text::new(alloc, letters)?))
}
