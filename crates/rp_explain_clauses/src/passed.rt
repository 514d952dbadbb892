//! A text as far as it has tokens: what no token begins with is passed over.

use rp_lexer::{LexFault, lex};
use rp_place::Span;
use rp_wording::Pieces;
use std::alloc::{AllocError, Global};

/// A text whose faults are passed over, and those faults.
#[derive(Drop)]
pub(crate) struct Passed {
    /// The text, with a blank for each byte that is passed over.
    pub(crate) read: String,
    /// What was passed over, by place.
    pub(crate) faults: Vec<LexFault>,
}

/// What begins with the first of these goes on to the second behind it, if that comes. Signs of two characters are one fault, and
/// go on to nothing.
const PAIRS: [(&str, &str); 12] = [
    ("!=", ""),
    ("&&", ""),
    ("::", ""),
    (":=", ""),
    ("\"\"", ""),
    ("/*", "*/"),
    ("//", "\n"),
    ("#", "\n"),
    ("`", "`"),
    ("[", "]"),
    ("\u{2018}", "\u{2019}"),
    ("\u{201c}", "\u{201d}"),
];

/// The text with so many of its faults passed over, at most.
pub(crate) fn pass_over(alloc: Global, text: &str, most: u32) -> Result<Passed, AllocError> {
    let mut passed = Passed {
        read: String::from_str(alloc, text)?,
        faults: Vec::new(alloc),
    };
    for _ in 0..most {
        if !passed.pass_first(alloc)? {
            break;
        }
    }
    Ok(passed)
}

impl Passed {
    /// Passes over one more fault; whether there was one.
    fn pass_first(&mut self, alloc: Global) -> Result<bool, AllocError> {
        let Some(fault) = first_fault(alloc, self.read.as_str())? else {
            return Ok(false);
        };
        self.faults.push(fault)?;
        self.read = without(alloc, self.read.as_str(), fault)?;
        Ok(true)
    }
}

/// The first fault of a text that has one.
fn first_fault(alloc: Global, text: &str) -> Result<Option<LexFault>, AllocError> {
    match lex(alloc, text) {
        Ok(_) => Ok(None),
        Err(LexFault::OutOfMemory) => Err(AllocError),
        Err(fault) => Ok(Some(fault)),
    }
}

/// Where a fault stands in its text.
pub(crate) fn place_of(fault: LexFault) -> usize {
    match fault {
        LexFault::BadChar(at) => at,
        LexFault::OpenText(at) => at,
        LexFault::OpenName(at) => at,
        LexFault::NumberRange(at) => at,
        LexFault::OutOfMemory => 0,
    }
}

/// The text with blanks for what is wrong by a fault.
fn without(alloc: Global, text: &str, fault: LexFault) -> Result<String, AllocError> {
    let start = place_of(fault);
    let rest = text.get(start..).unwrap_or("");
    let length = match fault {
        LexFault::BadChar(_) => extent(rest),
        LexFault::NumberRange(_) => digits(rest),
        _ => rest.len(),
    };
    let end = start.saturating_add(length);
    let mut read = Pieces::of(alloc, text.get(..start).unwrap_or(""));
    push_blanks(&mut read, text, Span { start, end });
    read.push(text.get(end..).unwrap_or(""));
    read.finish()
}

/// Writes a blank for each byte of a part of a text, but its line ends.
pub(crate) fn push_blanks(out: &mut Pieces, text: &str, part: Span) {
    let part = text.get(part.start..part.end).unwrap_or("");
    for byte in part.bytes() {
        out.push(if byte == b'\n' { "\n" } else { " " });
    }
}

/// How many bytes a bad character has, with what belongs to it.
fn extent(rest: &str) -> usize {
    for (front, end) in &PAIRS {
        if let Some(inside) = rest.strip_prefix(*front) {
            return pair_extent(inside, end).saturating_add(front.len());
        }
    }
    match rest.chars().next() {
        Some(character) => character.len_utf8(),
        None => 0,
    }
}

/// How many bytes stand up to the end of a pair, with that; none where it doesn't come.
fn pair_extent(inside: &str, end: &str) -> usize {
    match inside.find(end) {
        Some(at) => at.saturating_add(end.len()),
        None => 0,
    }
}

/// How many digits stand in front.
fn digits(rest: &str) -> usize {
    let mut count = 0usize;
    for byte in rest.bytes() {
        if !byte.is_ascii_digit() {
            return count;
        }
        count = count.saturating_add(1);
    }
    count
}
