//! What can't stand in PATTERN.

use crate::pairs::{Pair, look_up_pair};
use rp_lexer::{Keyword, TokenKind};
use rp_wording::{Hint, NO_NOT, OPPOSITE, Part, Reading, is_one_of, said};

/// The signs that are a quantifier, or the first one of it.
const QUANTIFIERS: &str = "* + ? {";

/// What can't stand inside of the pattern's brackets: the sign before, the one here, what is wrong and what to write.
const SIGNS: [Pair; 9] = [
    (
        "* + ? { }",
        QUANTIFIERS,
        "a part has one quantifier, and perhaps a ? after it",
        "write brackets for two: (A+)*; there are no possessive quantifiers",
    ),
    (
        "",
        QUANTIFIERS,
        "a quantifier comes after the part that it repeats",
        "write A+ or (A B)+",
    ),
    (
        "",
        ",",
        "parts of a pattern have no comma between",
        "write A B for an A and then a B",
    ),
    (
        "",
        "- >",
        "parts of a pattern have no sign between",
        "write A B for an A and then a B",
    ),
    (
        "",
        ".",
        "variables are alone in a pattern",
        "write A in place of A.p",
    ),
    (
        "(",
        ")",
        "the pattern is empty",
        "a pattern without variables can't stand alone: write (() | A) for one that takes no row",
    ),
    (
        "|",
        ")",
        "a part is missing after |",
        "write (A | B), or A? for an A or nothing",
    ),
    ("|", "|", "one | comes between alternatives", "write A | B"),
    (
        "",
        "|",
        "a part is missing before |",
        "write (A | B), or (() | A) for nothing or an A",
    ),
];

/// What is wrong in PATTERN.
pub(crate) fn of_pattern(reading: &Reading<'_>) -> Option<Hint> {
    if reading.part() != Part::Pattern {
        return None;
    }
    if is_one_of(reading.back(1), "PATTERN") {
        return said("a pattern is written in brackets", "write PATTERN (A B+)");
    }
    if in_braces(reading) {
        return of_braces(reading);
    }
    if is_one_of(reading.here(), QUANTIFIERS) && !reading.is_in_brackets() {
        return said(
            "a quantifier can't follow the pattern's brackets",
            "write it inside: PATTERN ((A B)+)",
        );
    }
    look_up_pair(&SIGNS, reading.back(1), reading.here()).or(of_kinds(reading))
}

/// What is wrong in the bounds of a quantifier.
fn of_braces(reading: &Reading<'_>) -> Option<Hint> {
    if reading.here() == "}" && reading.back(1) == "," {
        return said(
            "a bound is missing",
            "write *, or a bound: {2,}, {,5} or {2,5}",
        );
    }
    said(
        "the bounds of a quantifier are one or two numbers",
        "write {3}, {3,}, {,5} or {3,5}",
    )
}

/// Whether a `{` is open: it stands up to four tokens before.
fn in_braces(reading: &Reading<'_>) -> bool {
    match reading.back(1) {
        "{" => true,
        "}" => false,
        _ => is_bound(reading),
    }
}

/// Whether a bound, or the comma behind one, stands before the place.
fn is_bound(reading: &Reading<'_>) -> bool {
    match reading.back(2) {
        "{" => true,
        "}" => false,
        "," => reading.back(3) == "{" || reading.back(4) == "{",
        _ => reading.back(3) == "{",
    }
}

/// Texts and numbers in a pattern.
fn of_kinds(reading: &Reading<'_>) -> Option<Hint> {
    match reading.kind_here() {
        Some(TokenKind::Text) => said(
            "variables are written without quotes in a pattern",
            "write A, and say in DEFINE which rows are an A",
        ),
        Some(TokenKind::Keyword(Keyword::Not)) => said(NO_NOT, OPPOSITE),
        Some(TokenKind::Keyword(Keyword::Or)) if !is_part_due(reading) => said(
            "in a pattern alternatives have a | between",
            "write A | B for an A or else a B",
        ),
        Some(TokenKind::Keyword(Keyword::And)) if !is_part_due(reading) => said(
            "parts of a pattern follow one another without a word between",
            "write A B for an A and then a B; for a row that is both join the conditions in DEFINE",
        ),
        Some(TokenKind::Number) => said(
            "a number of times is written in braces",
            "write A{3} for three As",
        ),
        _ => None,
    }
}

/// Whether no part of a pattern ends before the place.
fn is_part_due(reading: &Reading<'_>) -> bool {
    is_one_of(reading.back(1), "( | , {-")
}
