//! Characters of a clause with which no token begins, by the part in which they stand.

use crate::advice::{Advice, is_one_of};
use crate::operands::{is_name, is_short};
use crate::pieces::Pieces;
use crate::reading::{Part, Reading, tokens_of};
use std::alloc::{AllocError, Global};

/// What is told of a NOT in a pattern.
pub const NO_NOT: &str = "a pattern has no not";

/// What to write in place of it.
pub const OPPOSITE: &str =
    "give the opposite a variable of its own: X in the pattern, and in DEFINE X AS NOT (..)";

/// What is wrong with a character of a clause where the part tells it: `!` in a pattern, and a colon behind a variable.
pub(crate) fn by_part(
    alloc: Global,
    before: &str,
    rest: &str,
) -> Result<Option<Advice>, AllocError> {
    if !rest.starts_with('!') && !rest.starts_with(':') {
        return Ok(None);
    }
    let tokens = tokens_of(alloc, before)?;
    let reading = Reading::new(before, tokens.as_slice(), before.len());
    if rest.starts_with('!') {
        return Ok(of_not(alloc, &reading));
    }
    Ok(of_colon(alloc, &reading, rest))
}

/// A `!` in a pattern.
fn of_not(alloc: Global, reading: &Reading<'_>) -> Option<Advice> {
    if reading.part() != Part::Pattern {
        return None;
    }
    Some(Advice::new(alloc, NO_NOT, OPPOSITE))
}

/// A colon behind the variable of a definition.
fn of_colon(alloc: Global, reading: &Reading<'_>, rest: &str) -> Option<Advice> {
    let begins = is_one_of(reading.back(2), ", DEFINE");
    if reading.part() != Part::Define || !begins || !is_name(reading.kind_back(1)) {
        return None;
    }
    let variable = reading.back(1);
    let condition = rest.trim_start_matches(':').trim_start_matches('=').trim();
    let condition = if is_short(condition) {
        condition
    } else {
        "and the condition"
    };
    Some(Advice::with_help(
        alloc,
        "AS comes between a variable and its condition",
        Pieces::filled(alloc, "write {} AS {}", &[variable, condition]),
    ))
}
