//! Whole values round a place: operands with signs between, where their tokens leave no doubt.

use crate::advice::is_one_of;
use crate::operands::{closing, is_arithmetic, is_comparison, is_name, is_short, text_of};
use crate::reading::{Reading, open_at, part_of};
use rp_lexer::TokenKind;

/// The functions that there are.
const FUNCTIONS: &str = "PREV NEXT FIRST LAST COUNT SUM MIN MAX CLASSIFIER MATCH_NUMBER";

/// The functions before which RUNNING and FINAL may be written.
const OVER_ROWS: &str = "FIRST LAST COUNT SUM MIN MAX";

/// What may stand in brackets besides names and literals.
const INSIDE: &str =
    "( ) . , + - * RUNNING FINAL PREV NEXT FIRST LAST COUNT SUM MIN MAX CLASSIFIER MATCH_NUMBER";

/// The words and signs behind which a value may begin, comparisons and brackets aside.
const BEFORE_VALUES: &str = "AND OR NOT AS , MEASURES DEFINE";

/// The words and signs behind which a condition may begin, brackets aside.
const BEFORE_CONDITIONS: &str = "AND OR NOT AS";

/// The index behind the value that begins with a token: operands with signs between. Nothing where something else stands there.
pub fn value_end(reading: &Reading<'_>, start: usize) -> Option<usize> {
    let mut end = whole_operand(reading, start)?;
    for _ in start..reading.tokens.len() {
        if !is_arithmetic(reading.written(end)) {
            return Some(end);
        }
        end = whole_operand(reading, end.saturating_add(1))?;
    }
    None
}

/// The index of the token with which the value begins that ends before a token: behind the last word, comma, comparison or open
/// bracket before which no value goes on. Nothing where what stands between is no value.
pub fn value_start(reading: &Reading<'_>, end: usize) -> Option<usize> {
    let start = behind_bound(reading, end);
    if value_end(reading, start)? == end {
        return Some(start);
    }
    None
}

/// The index behind the last token before another that ends what is before it.
fn behind_bound(reading: &Reading<'_>, end: usize) -> usize {
    let mut closed = 0usize;
    for (index, token) in reading.tokens.iter().enumerate().take(end).rev() {
        let (is_open, left) = open_at(token.kind, closed);
        if is_open || closed == 0 && is_bound(reading.written(index)) {
            return index.saturating_add(1);
        }
        closed = left;
    }
    0
}

/// Whether a value may begin behind it, and none goes on there.
fn is_bound(word: &str) -> bool {
    is_comparison(word) || is_one_of(word, BEFORE_VALUES)
}

/// The index behind the operand that begins with a token: a literal, a column, perhaps of a variable, a call of a function that there
/// is, or a bracket, each perhaps behind minus signs. Nothing where something else stands there.
pub fn whole_operand(reading: &Reading<'_>, start: usize) -> Option<usize> {
    for index in start..reading.tokens.len() {
        if reading.written(index) != "-" {
            return without_sign(reading, index);
        }
    }
    None
}

/// The same of an operand without a sign.
fn without_sign(reading: &Reading<'_>, start: usize) -> Option<usize> {
    let next = start.saturating_add(1);
    match reading.kind(start) {
        Some(TokenKind::Number | TokenKind::Text) => Some(next),
        Some(TokenKind::Name | TokenKind::Quoted) => column_end(reading, start),
        _ => behind_call(reading, start),
    }
}

/// The index behind the column, perhaps of a variable, that begins with a token. Nothing where something else stands there.
pub fn column_end(reading: &Reading<'_>, start: usize) -> Option<usize> {
    let next = start.saturating_add(1);
    let column = start.saturating_add(2);
    if !is_name(reading.kind(start)) {
        return None;
    }
    match reading.written(next) {
        "(" => None,
        "." if is_name(reading.kind(column)) => Some(column.saturating_add(1)),
        "." => None,
        _ => Some(next),
    }
}

/// The index behind the call or the bracket that begins with a token.
fn behind_call(reading: &Reading<'_>, start: usize) -> Option<usize> {
    let open = opening(reading, start)?;
    let close = closing(reading, open)?;
    if reading.written(open) != "(" || !is_plain_inside(reading, open, close) {
        return None;
    }
    Some(close.saturating_add(1))
}

/// The index of the bracket of a call, or the bracket itself.
fn opening(reading: &Reading<'_>, start: usize) -> Option<usize> {
    let next = start.saturating_add(1);
    let word = reading.written(start);
    if word == "(" {
        return Some(start);
    }
    if is_one_of(word, FUNCTIONS) {
        return Some(next);
    }
    if is_one_of(word, "RUNNING FINAL") && is_one_of(reading.written(next), OVER_ROWS) {
        return Some(next.saturating_add(1));
    }
    None
}

/// Whether what stands between two brackets is made of values alone.
fn is_plain_inside(reading: &Reading<'_>, open: usize, close: usize) -> bool {
    for at in open.saturating_add(1)..close {
        if !may_stand(&Reading { at, ..*reading }) {
            return false;
        }
    }
    true
}

/// Whether the token at the place may stand inside of a value.
fn may_stand(reading: &Reading<'_>) -> bool {
    if is_one_of(reading.here(), INSIDE) {
        return true;
    }
    match reading.kind_here() {
        Some(TokenKind::Number | TokenKind::Text) => !is_behind_operand(reading),
        Some(TokenKind::Name | TokenKind::Quoted) => {
            !is_behind_operand(reading) && reading.next(1) != "("
        }
        _ => false,
    }
}

/// Whether an operand ends before the place.
fn is_behind_operand(reading: &Reading<'_>) -> bool {
    match reading.kind_back(1) {
        Some(TokenKind::Number | TokenKind::Text | TokenKind::Name | TokenKind::Quoted) => true,
        _ => reading.back(1) == ")",
    }
}

/// Whether a condition of DEFINE may begin with a token, by what stands before it.
pub fn begins_condition(reading: &Reading<'_>, start: usize) -> bool {
    let Some(before) = start.checked_sub(1) else {
        return true;
    };
    if reading.written(before) == "(" {
        return !is_call(reading, before);
    }
    is_one_of(reading.written(before), BEFORE_CONDITIONS)
}

/// Whether a bracket is that of a call.
fn is_call(reading: &Reading<'_>, open: usize) -> bool {
    let Some(before) = open.checked_sub(1) else {
        return false;
    };
    reading.kind(before) == Some(TokenKind::Name) || is_one_of(reading.written(before), FUNCTIONS)
}

/// Whether a condition of DEFINE may end before a token.
pub fn ends_condition(reading: &Reading<'_>, end: usize) -> bool {
    match reading.kind(end) {
        None => true,
        Some(kind) => part_of(kind).is_some() || is_one_of(reading.written(end), "AND OR ) ,"),
    }
}

/// Whether NOT stands right before a token.
pub fn is_behind_not(reading: &Reading<'_>, start: usize) -> bool {
    match start.checked_sub(1) {
        Some(before) => is_one_of(reading.written(before), "NOT"),
        None => false,
    }
}

/// The text from a token on to before another, where it stands in a line, and isn't long.
pub fn short_text<'a>(reading: &Reading<'a>, start: usize, end: usize) -> Option<&'a str> {
    let text = text_of(reading, start, end);
    if is_short(text) {
        return Some(text);
    }
    None
}
