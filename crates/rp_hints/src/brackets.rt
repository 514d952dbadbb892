//! Brackets that are never closed.

use crate::parts::begins_part;
use rp_place::{Place, Span};
use rp_wording::{Advice, Part, Pieces, Reading, is_one_of};
use std::alloc::Global;

/// The bracket, or the `{-`, that is open where a part or a name begins, or where the clause ends.
pub(crate) fn unclosed(alloc: Global, reading: &Reading<'_>) -> Option<Advice> {
    if let Some(index) = open_exclusion(reading) {
        return Some(never_closed(alloc, reading, index, "-}"));
    }
    if let Some(index) = left_open(reading) {
        return Some(never_closed(alloc, reading, index, ")"));
    }
    None
}

/// The index of a bracket that is open where a part or a name begins.
fn left_open(reading: &Reading<'_>) -> Option<usize> {
    if !may_begin(reading) || !reading.is_in_brackets() || is_awaited(reading) {
        return None;
    }
    reading.open_bracket()
}

/// Whether a part or a name may begin at the place.
fn may_begin(reading: &Reading<'_>) -> bool {
    is_one_of(reading.here(), "AS PATTERN SUBSET DEFINE MEASURES") || begins_part(reading)
}

/// Whether more has to come behind the token before the place; in a pattern `+` and `*` end a part.
fn is_awaited(reading: &Reading<'_>) -> bool {
    let back = reading.back(1);
    is_one_of(back, "( , . | = < > <= >= <> -")
        || is_one_of(back, "+ *") && reading.part() != Part::Pattern
}

/// The index of a `{-` that is open where a bracket closes, a part begins or the clause ends.
fn open_exclusion(reading: &Reading<'_>) -> Option<usize> {
    if reading.part() != Part::Pattern {
        return None;
    }
    if reading.here() == ")" || reading.is_end() || begins_part(reading) {
        return innermost_exclusion(reading);
    }
    None
}

/// The index of the `{-` before the place that isn't closed there, and in which no other bracket is open.
fn innermost_exclusion(reading: &Reading<'_>) -> Option<usize> {
    let mut closed = 0usize;
    for back in 1..reading.at.saturating_add(1) {
        let sign = reading.back(back);
        if closed == 0 && is_one_of(sign, "{- (") {
            return exclusion_at(reading, reading.at.saturating_sub(back));
        }
        closed = closed_before(sign, closed);
    }
    None
}

/// The index of a token, where that is a `{-`.
fn exclusion_at(reading: &Reading<'_>, index: usize) -> Option<usize> {
    if reading.written(index) == "{-" {
        return Some(index);
    }
    None
}

/// How many brackets are closed behind a sign, by how many are behind the next one.
fn closed_before(sign: &str, closed: usize) -> usize {
    match sign {
        "-}" | ")" => closed.saturating_add(1),
        "{-" | "(" => closed.saturating_sub(1),
        _ => closed,
    }
}

/// A bracket that is open at the place, with where it stands, and what closes it.
pub(crate) fn never_closed(
    alloc: Global,
    reading: &Reading<'_>,
    index: usize,
    close: &str,
) -> Advice {
    let Some(token) = reading.tokens.get(index) else {
        return Advice::new(alloc, "a bracket is never closed", "");
    };
    let span = Span {
        start: token.start,
        end: token.end,
    };
    let place = Place::of(reading.text, span);
    let name = if close == ")" { "bracket" } else { "{-" };
    let mut what = Pieces::filled(alloc, "the {} of ", &[name]);
    what.push_place(place.line, place.column());
    what.push(" is never closed");
    Advice::of_pieces(what, closing_help(alloc, reading, close))
}

/// Where to close a bracket.
fn closing_help(alloc: Global, reading: &Reading<'_>, close: &str) -> Pieces {
    if reading.is_end() {
        return Pieces::filled(alloc, "write {} at the end", &[close]);
    }
    let mut help = Pieces::filled(alloc, "write {} before ", &[close]);
    help.push_upper(reading.here());
    help
}
