//! Literals that are compared with columns of whole numbers and aren't whole numbers, as dates and fractions.

use rp_compile::CompileFault;
use rp_grammar::ParseFault;
use rp_lexer::TokenKind;
use rp_resolution::{CheckKind, Fault};
use rp_value::{Kind, Table};
use rp_wording::{
    Reading, begins_condition, ends_condition, is_comparison, is_name, is_one_of, meant, text_of,
    tokens_of, value_start, whole_operand,
};
use std::alloc::{AllocError, Global};

/// What an operand begins with that may not be in the unit of a column in it.
const OTHER_UNITS: &str = "( - COUNT RUNNING FINAL";

/// A column of whole numbers, and a literal with which it is compared.
#[derive(Drop)]
pub struct Compared {
    /// The number of the column, from 1.
    pub column: usize,
    /// What is inside the quotes of the literal, or a fraction as it is written.
    pub literal: String,
}

/// The column and the literal at the place for which `compile` refuses a text over a table, where that is a comparison of a column of whole
/// numbers with a text, or with a fraction behind the sign.
///
/// The only error is being out of memory.
pub fn compared_literal(
    alloc: Global,
    table: &Table,
    text: &str,
    fault: &CompileFault,
) -> Result<Option<Compared>, AllocError> {
    let tokens = tokens_of(alloc, text)?;
    match fault {
        CompileFault::Check(
            Fault {
                kind: CheckKind::KindMismatch,
                offset,
            },
        ) => with_text(
            alloc,
            table,
            &Reading::new(text, tokens.as_slice(), *offset),
        ),
        CompileFault::Parse(ParseFault::Expected(at)) => {
            with_fraction(alloc, table, &Reading::new(text, tokens.as_slice(), *at))
        }
        _ => Ok(None),
    }
}

/// The comparison of a column with a text, whose sign is at the place.
pub(crate) fn with_text(
    alloc: Global,
    table: &Table,
    reading: &Reading<'_>,
) -> Result<Option<Compared>, AllocError> {
    let (at, behind) = (reading.at, reading.at.saturating_add(1));
    if !is_comparison(reading.here()) {
        return Ok(None);
    }
    if let Some(inside) = inside_text(reading.next(1)) {
        return compared_with(alloc, column_before(alloc, table, reading, at)?, inside);
    }
    match (inside_text(reading.back(1)), whole_operand(reading, behind)) {
        (Some(inside), Some(end)) if ends_condition(reading, end) => {
            let column = column_between(alloc, table, reading, behind, end)?;
            compared_with(alloc, column, inside)
        }
        _ => Ok(None),
    }
}

/// The comparison of a column with a fraction, whose point is at the place.
fn with_fraction(
    alloc: Global,
    table: &Table,
    reading: &Reading<'_>,
) -> Result<Option<Compared>, AllocError> {
    let Some(start) = fraction_start(reading) else {
        return Ok(None);
    };
    let end = reading.at.saturating_add(2);
    let column = column_beside(alloc, table, reading, start, end)?;
    compared_with(alloc, column, text_of(reading, start, end))
}

/// The index of the token with which the fraction begins whose point is at the place: its digits, or a minus before them.
fn fraction_start(reading: &Reading<'_>) -> Option<usize> {
    let number = Some(TokenKind::Number);
    let behind = reading.kind(reading.at.saturating_add(1));
    if reading.here() != "." || reading.kind_back(1) != number || behind != number {
        return None;
    }
    let first = reading.at.checked_sub(1)?;
    let minus = first.saturating_sub(1);
    let is_negative = reading.back(2) == "-"
        && (is_comparison(reading.back(3)) || begins_condition(reading, minus));
    Some(first.saturating_sub(usize::from(is_negative)))
}

/// The number of the column of whole numbers with which the literal from a token on to before another is compared, on either side.
pub(crate) fn column_beside(
    alloc: Global,
    table: &Table,
    reading: &Reading<'_>,
    start: usize,
    end: usize,
) -> Result<Option<usize>, AllocError> {
    if is_comparison(reading.written(end)) && begins_condition(reading, start) {
        return column_behind(alloc, table, reading, end.saturating_add(1));
    }
    match start.checked_sub(1) {
        Some(sign) if is_comparison(reading.written(sign)) && ends_condition(reading, end) => {
            column_before(alloc, table, reading, sign)
        }
        _ => Ok(None),
    }
}

/// The number of the column of whole numbers whose value begins with a token, where the condition ends behind it.
fn column_behind(
    alloc: Global,
    table: &Table,
    reading: &Reading<'_>,
    start: usize,
) -> Result<Option<usize>, AllocError> {
    match whole_operand(reading, start) {
        Some(end) if ends_condition(reading, end) => {
            column_between(alloc, table, reading, start, end)
        }
        _ => Ok(None),
    }
}

/// The number of the column of whole numbers whose value stands before a sign.
fn column_before(
    alloc: Global,
    table: &Table,
    reading: &Reading<'_>,
    sign: usize,
) -> Result<Option<usize>, AllocError> {
    match value_start(reading, sign) {
        Some(start) if whole_operand(reading, start) == Some(sign) => {
            column_between(alloc, table, reading, start, sign)
        }
        _ => Ok(None),
    }
}

/// A column, if there is one, and a literal.
fn compared_with(
    alloc: Global,
    column: Option<usize>,
    literal: &str,
) -> Result<Option<Compared>, AllocError> {
    let Some(column) = column else {
        return Ok(None);
    };
    let literal = String::from_str(alloc, literal)?;
    Ok(Some(Compared { column, literal }))
}

/// What is inside the quotes of a text.
fn inside_text(written: &str) -> Option<&str> {
    let behind = written.strip_prefix('\'')?;
    behind.strip_suffix('\'')
}

/// The number of the column of whole numbers that is the operand from a token on to before another, or in whose unit that is: a count is in
/// none, and what is in brackets may be in another.
fn column_between(
    alloc: Global,
    table: &Table,
    reading: &Reading<'_>,
    start: usize,
    end: usize,
) -> Result<Option<usize>, AllocError> {
    if is_one_of(reading.written(start), OTHER_UNITS) {
        return Ok(None);
    }
    for index in start..end {
        if is_name(reading.kind(index)) {
            let name = meant(alloc, reading.written(index))?;
            let column = column_named(table, name.as_str());
            if column.is_some() && reading.written(index.saturating_add(1)) != "." {
                return Ok(column);
            }
        }
    }
    Ok(None)
}

/// The number of the column of whole numbers of this name.
fn column_named(table: &Table, name: &str) -> Option<usize> {
    for (index, column) in table.columns().iter().enumerate() {
        if column.kind == Kind::Int && column.name.as_str() == name {
            return Some(index.saturating_add(1));
        }
    }
    None
}
