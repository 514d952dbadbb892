//! Operands round a place, by their tokens, and how they are written.

use crate::advice::is_one_of;
use crate::reading::Reading;
use rp_lexer::{Mark, TokenKind};

/// The most bytes of a part of a clause that is written again in a help.
const SHORT: usize = 60;

/// The index of the token with which the operand begins that ends before a token: a literal, a column, perhaps of a
/// variable, a call or a bracket.
pub fn operand_start(reading: &Reading<'_>, end: usize) -> usize {
    let last = end.saturating_sub(1);
    if reading.written(last) == ")" {
        return call_start(reading, last);
    }
    if reading.written(last.saturating_sub(1)) == "." {
        return last.saturating_sub(2);
    }
    last
}

/// The index of the token with which the call or the bracket begins that ends with a token.
fn call_start(reading: &Reading<'_>, close: usize) -> usize {
    let inside = Reading {
        at: close,
        ..*reading
    };
    let Some(open) = inside.open_bracket() else {
        return close;
    };
    match open.checked_sub(1) {
        Some(name) if is_function(reading, name) => name,
        _ => open,
    }
}

/// Whether the word before a bracket belongs to it.
fn is_function(reading: &Reading<'_>, index: usize) -> bool {
    let known = "PREV NEXT FIRST LAST COUNT SUM MIN MAX CLASSIFIER MATCH_NUMBER";
    reading.kind(index) == Some(TokenKind::Name) || is_one_of(reading.written(index), known)
}

/// The index behind the operand that begins with a token.
pub fn operand_end(reading: &Reading<'_>, start: usize) -> usize {
    let next = start.saturating_add(1);
    if reading.written(start) == "(" {
        return behind_bracket(reading, start);
    }
    match reading.written(next) {
        "(" => behind_bracket(reading, next),
        "." => start.saturating_add(3),
        _ => next,
    }
}

/// The index behind the bracket that closes this one.
fn behind_bracket(reading: &Reading<'_>, open: usize) -> usize {
    match closing(reading, open) {
        Some(close) => close.saturating_add(1),
        None => reading.tokens.len(),
    }
}

/// The index of the bracket that closes the one at this index.
pub fn closing(reading: &Reading<'_>, open: usize) -> Option<usize> {
    let mut depth = 0usize;
    for (index, token) in reading.tokens.iter().enumerate().skip(open) {
        depth = depth_behind(token.kind, depth);
        if depth == 0 {
            return Some(index);
        }
    }
    None
}

/// How many brackets are open behind a token, by how many are before it.
pub fn depth_behind(kind: TokenKind, depth: usize) -> usize {
    match kind {
        TokenKind::Mark(Mark::LeftParenthesis) => depth.saturating_add(1),
        TokenKind::Mark(Mark::RightParenthesis) => depth.saturating_sub(1),
        _ => depth,
    }
}

/// The text from a token on to before another.
pub fn text_of<'a>(reading: &Reading<'a>, start: usize, end: usize) -> &'a str {
    let last = end.saturating_sub(1);
    match (reading.tokens.get(start), reading.tokens.get(last)) {
        (Some(one), Some(other)) => reading.text.get(one.start..other.end).unwrap_or(""),
        _ => "",
    }
}

/// Whether a part of a clause is written again in a help: it stands in a line, and isn't long.
pub fn is_short(text: &str) -> bool {
    !text.is_empty() && text.len() <= SHORT && !text.contains('\n')
}

/// Whether it is a sign of a comparison.
pub fn is_comparison(sign: &str) -> bool {
    matches!(sign, "=" | "<>" | "<" | "<=" | ">" | ">=")
}

/// Whether it is a sign between whole numbers.
pub fn is_arithmetic(sign: &str) -> bool {
    matches!(sign, "+" | "-" | "*")
}

/// Whether it is a name, in quotes or not.
pub fn is_name(kind: Option<TokenKind>) -> bool {
    matches!(kind, Some(TokenKind::Name) | Some(TokenKind::Quoted))
}
