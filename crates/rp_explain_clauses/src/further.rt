//! What can't stand in a clause, behind its first fault.

use crate::passed::{Passed, place_of};
use rp_compile::CompileFault;
use rp_grammar::ParseFault;
use rp_hints::{ends_value, is_missing_function};
use rp_lexer::{Keyword, LexFault, Token, TokenKind};
use rp_wording::{Part, Reading, depth_behind, is_one_of, part_of, tokens_of};
use std::alloc::{AllocError, Global};

/// Words that no condition goes on with behind a value.
const BEHIND_VALUES: &str = "BETWEEN IN LIKE ILIKE RLIKE WITHIN";

/// Where a walk over the tokens of a clause stands.
#[derive(Clone, Copy)]
struct Walk {
    /// In which part.
    part: Part,
    /// So many brackets are open.
    depth: usize,
    /// So many were open where the pattern began.
    outside: usize,
}

/// Faults by place that are still to be put in order.
#[derive(Clone, Copy)]
struct Ahead<'a> {
    /// Of characters.
    bad: &'a [LexFault],
    /// Of tokens, by the offset of each.
    tokens: &'a [usize],
}

/// The faults of a clause besides its first one, which are certain wherever they stand: so many at most, by place.
pub(crate) fn further(
    alloc: Global,
    clause: &Passed,
    first: &CompileFault,
    most: u32,
) -> Result<Vec<CompileFault>, AllocError> {
    let bad = clause.faults.as_slice();
    let (bad, from) = match first {
        CompileFault::Lex(_) => (bad.get(1..).unwrap_or(&[]), 0),
        CompileFault::Parse(ParseFault::Expected(at)) => (bad, at.saturating_add(1)),
        _ => return Ok(Vec::new(alloc)),
    };
    let places = certain_places(alloc, clause.read.as_str(), from, most)?;
    let tokens = places.as_slice();
    in_order(alloc, Ahead { bad, tokens }, most)
}

/// So many of the faults, at most, by place.
fn in_order(alloc: Global, faults: Ahead<'_>, most: u32) -> Result<Vec<CompileFault>, AllocError> {
    let mut found = Vec::new(alloc);
    let mut ahead = faults;
    for _ in 0..most {
        let Some((fault, rest)) = next(ahead) else {
            return Ok(found);
        };
        found.push(fault)?;
        ahead = rest;
    }
    Ok(found)
}

/// The fault that stands first, and the others.
fn next(ahead: Ahead<'_>) -> Option<(CompileFault, Ahead<'_>)> {
    let Some((bad, later)) = ahead.bad.split_first() else {
        return next_token(ahead);
    };
    match ahead.tokens.first() {
        Some(at) if *at < place_of(*bad) => next_token(ahead),
        _ => Some((
            CompileFault::Lex(*bad),
            Ahead {
                bad: later,
                ..ahead
            },
        )),
    }
}

/// The first fault of a token, and the others.
fn next_token(ahead: Ahead<'_>) -> Option<(CompileFault, Ahead<'_>)> {
    let (at, later) = ahead.tokens.split_first()?;
    let fault = CompileFault::Parse(ParseFault::Expected(*at));
    Some((
        fault,
        Ahead {
            tokens: later,
            ..ahead
        },
    ))
}

/// The offsets from one on of tokens that can't stand in any clause where they stand: so many at most.
fn certain_places(
    alloc: Global,
    text: &str,
    from: usize,
    most: u32,
) -> Result<Vec<usize>, AllocError> {
    let tokens = tokens_of(alloc, text)?;
    certain_among(alloc, text, tokens.as_slice(), from, most)
}

/// The same of the text's tokens.
fn certain_among(
    alloc: Global,
    text: &str,
    tokens: &[Token],
    from: usize,
    most: u32,
) -> Result<Vec<usize>, AllocError> {
    let mut places = Vec::new(alloc);
    let mut walk = Walk {
        part: Part::Front,
        depth: 0,
        outside: 0,
    };
    for (at, token) in tokens.iter().enumerate() {
        let reading = Reading { text, tokens, at };
        let meant = token.start >= from && places.len() < most as usize;
        push_if(
            &mut places,
            meant && is_certain(&reading, walk),
            token.start,
        )?;
        walk = walk.behind(token.kind);
    }
    Ok(places)
}

/// Adds an offset, if so.
fn push_if(places: &mut Vec<usize>, is_meant: bool, place: usize) -> Result<(), AllocError> {
    if !is_meant {
        return Ok(());
    }
    places.push(place)?;
    Ok(())
}

impl Walk {
    /// The walk behind a token.
    fn behind(self, kind: TokenKind) -> Walk {
        let outside = if kind == TokenKind::Keyword(Keyword::Pattern) {
            self.depth
        } else {
            self.outside
        };
        Walk {
            part: part_of(kind).unwrap_or(self.part),
            depth: depth_behind(kind, self.depth),
            outside,
        }
    }

    /// Whether a bracket that stood round the whole clause is closed.
    fn is_behind(self, reading: &Reading<'_>) -> bool {
        self.depth == 0 && reading.kind(0) == Some(TokenKind::Keyword(Keyword::MatchRecognize))
    }
}

/// Whether the token at the place can't stand there in any clause.
fn is_certain(reading: &Reading<'_>, walk: Walk) -> bool {
    if walk.is_behind(reading) {
        return false;
    }
    if is_part_again(reading, walk) {
        return true;
    }
    match walk.part {
        Part::Measures | Part::Define => is_certain_value(reading),
        Part::Pattern => is_within(reading, walk) || is_fraction(reading),
        _ => false,
    }
}

/// Whether PATTERN or DEFINE begins again in that part, outside of its brackets.
fn is_part_again(reading: &Reading<'_>, walk: Walk) -> bool {
    let Some(kind) = reading.kind_here() else {
        return false;
    };
    walk.depth == walk.outside
        && matches!(walk.part, Part::Pattern | Part::Define)
        && part_of(kind) == Some(walk.part)
}

/// The same in MEASURES and DEFINE.
fn is_certain_value(reading: &Reading<'_>) -> bool {
    match reading.here() {
        "(" => is_function(reading),
        "." => is_fraction(reading),
        "=" => reading.back(1) == "=" && reading.touches() && reading.back(2) != "=",
        _ => is_word(reading) || is_case(reading),
    }
}

/// Whether a function is called that isn't one, and that wasn't reported before: behind a fraction it was.
fn is_function(reading: &Reading<'_>) -> bool {
    reading.kind_back(1) == Some(TokenKind::Name)
        && is_missing_function(reading.back(1))
        && !is_behind_fraction(reading)
}

/// Whether the function's value is multiplied by a fraction.
fn is_behind_fraction(reading: &Reading<'_>) -> bool {
    reading.back(2) == "*" && reading.back(4) == "."
}

/// Whether a point stands behind a number.
fn is_fraction(reading: &Reading<'_>) -> bool {
    reading.here() == "." && reading.kind_back(1) == Some(TokenKind::Number) && reading.touches()
}

/// Whether a word, perhaps behind a NOT, stands behind a value with which no condition goes on.
fn is_word(reading: &Reading<'_>) -> bool {
    if !ends_value(reading) {
        return false;
    }
    if is_one_of(reading.here(), "NOT") {
        return is_one_of(reading.next(1), BEHIND_VALUES);
    }
    reading.is_name() && is_one_of(reading.here(), BEHIND_VALUES)
}

/// Whether a CASE stands before the place.
fn is_case(reading: &Reading<'_>) -> bool {
    reading.kind_back(1) == Some(TokenKind::Name)
        && is_one_of(reading.back(1), "CASE")
        && (is_one_of(reading.here(), "WHEN") || is_one_of(reading.next(1), "WHEN"))
}

/// Whether WITHIN stands behind the pattern's brackets.
fn is_within(reading: &Reading<'_>, walk: Walk) -> bool {
    walk.depth == walk.outside
        && reading.back(1) == ")"
        && reading.is_name()
        && is_one_of(reading.here(), "WITHIN")
}
