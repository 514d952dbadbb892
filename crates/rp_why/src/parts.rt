//! The parts of a pattern, its anchors, and the lower bounds of its quantifiers.

use crate::list::List;
use crate::tokens::{Range, Tokens};
use rp_lexer::{Keyword, Mark, TokenKind};
use std::alloc::{AllocError, Global};

/// A lower bound of a quantifier.
#[derive(Clone, Copy)]
pub(crate) struct LowerBound {
    /// The quantifier.
    pub(crate) quantifier: Range,
    /// The part that it repeats.
    pub(crate) part: Range,
    /// The bound.
    pub(crate) lower: u64,
    /// Where its number is alone in the braces: it is the upper bound too.
    pub(crate) is_exact: bool,
}

/// The inside of PATTERN's brackets.
pub(crate) fn pattern_of(tokens: &Tokens<'_>) -> Range {
    let none = Range { from: 0, to: 0 };
    let Some(word) = tokens.word(Keyword::Pattern) else {
        return none;
    };
    let open = word.saturating_add(1);
    match tokens.closing(open) {
        Some(close) => Range {
            from: open.saturating_add(1),
            to: close,
        },
        None => none,
    }
}

/// The parts of a pattern that follow one another: one where it is an alternation.
pub(crate) fn parts_of(alloc: Global, tokens: &Tokens<'_>) -> Result<Vec<Range>, AllocError> {
    let mut parts = List::new(alloc);
    let pattern = tokens.without_brackets(pattern_of(tokens));
    let is_one = tokens.has(pattern, TokenKind::Mark(Mark::VerticalBar));
    let mut from = pattern.from;
    for _ in pattern.from..pattern.to {
        if from >= pattern.to {
            break;
        }
        let to = if is_one {
            pattern.to
        } else {
            part_end(tokens, from).min(pattern.to)
        };
        parts.push(Range { from, to });
        from = to.max(from.saturating_add(1));
    }
    parts.finish()
}

/// The token behind the part that begins at a token, with its quantifier.
fn part_end(tokens: &Tokens<'_>, from: usize) -> usize {
    let after = behind_one(tokens, from);
    let Some(last) = quantifier_end(tokens, after) else {
        return after;
    };
    if tokens.is(last, Mark::QuestionMark) {
        last.saturating_add(1)
    } else {
        last
    }
}

/// The token behind a variable, an anchor or a bracket. PERMUTE is before one.
fn behind_one(tokens: &Tokens<'_>, from: usize) -> usize {
    let open = if tokens.kind(from) == Some(TokenKind::Keyword(Keyword::Permute)) {
        from.saturating_add(1)
    } else {
        from
    };
    tokens.closing(open).unwrap_or(open).saturating_add(1)
}

/// The token behind the quantifier that begins at a token, without the `?` of a reluctant one.
fn quantifier_end(tokens: &Tokens<'_>, at: usize) -> Option<usize> {
    match tokens.kind(at) {
        Some(TokenKind::Mark(Mark::Asterisk | Mark::Plus | Mark::QuestionMark)) => {
            Some(at.saturating_add(1))
        }
        Some(TokenKind::Mark(Mark::LeftBrace)) => Some(tokens.closing(at)?.saturating_add(1)),
        _ => None,
    }
}

/// Whether a token is an anchor.
pub(crate) fn is_anchor(tokens: &Tokens<'_>, at: usize) -> bool {
    tokens.is(at, Mark::Circumflex) || tokens.is(at, Mark::DollarSign)
}

/// The lower bound of the quantifier at a token, where it is above 0.
pub(crate) fn bound_at(tokens: &Tokens<'_>, pattern: Range, at: usize) -> Option<LowerBound> {
    let to = quantifier_end(tokens, at)?;
    let lower = lower_of(tokens, at)?;
    if lower == 0 {
        return None;
    }
    let part = Range {
        from: part_before(tokens, pattern, at),
        to: at,
    };
    Some(LowerBound {
        quantifier: Range { from: at, to },
        part,
        lower,
        is_exact: tokens.is(at, Mark::LeftBrace)
            && tokens.is(at.saturating_add(2), Mark::RightBrace),
    })
}

/// The lower bound of the quantifier at a token, where it has one.
fn lower_of(tokens: &Tokens<'_>, at: usize) -> Option<u64> {
    if tokens.is(at, Mark::Plus) {
        return Some(1);
    }
    if !tokens.is(at, Mark::LeftBrace) {
        return None;
    }
    let number = tokens.list.get(at.saturating_add(1))?;
    if number.kind != TokenKind::Number {
        return None;
    }
    let digits = tokens.text.get(number.start..number.end)?;
    digits.parse::<u64>().ok()
}

/// The first token of the part that ends before a token.
fn part_before(tokens: &Tokens<'_>, pattern: Range, at: usize) -> usize {
    let last = at.saturating_sub(1);
    for from in pattern.from..at {
        if behind_one(tokens, from) == at {
            return from;
        }
    }
    last
}
