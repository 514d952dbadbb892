//! Quantifiers: how often a part of a pattern may come.

ghost use Rattle.std.specs.Prelude.{◌≡◌, All};
ghost use Rattle.rp_lexer.specs.Lexes.{IsToken};
ghost use Rattle.rp_grammar.specs.Reading.{starts};
ghost use Rattle.rp_grammar.specs.Grammar.{gives};
ghost use Rattle.rp_grammar.specs.Readers.{Reads, ReadsSome, itself};
ghost use Rattle.rp_patterns.specs.PatternGrammar.{above, bound, bounds, from_bound, from_lower, lazily, quantifier, quantifier_kinds, repeated, repetition, unwritten, upper_alone};

use rp_grammar::{Parsed, begins, number, place, word};
use rp_lexer::{Mark, Token, TokenKind};
use rp_tree::{Bound, Quantifier};

/// Whether the tokens begin with a quantifier.
pub(crate) fn begins_quantifier(tokens: &[Token]) -> bool
    ensures { result ≡ starts quantifier_kinds tokens.now }
{
    begins(tokens, TokenKind::Mark(Mark::Asterisk))
        || begins(tokens, TokenKind::Mark(Mark::Plus))
        || begins(tokens, TokenKind::Mark(Mark::QuestionMark))
        || begins(tokens, TokenKind::Mark(Mark::LeftBrace))
}

/// A quantifier, perhaps with `?`, and what follows.
#[tactic(auto, unfolding(crate::specs::PatternGrammar::quantifier))]
pub(crate) fn repetition<'a>(text: &str, tokens: &'a [Token]) -> Parsed<'a, Quantifier>
    requires stands { All (IsToken text.now) tokens.now }
    ensures { Reads repetition itself text.now tokens.now result }
{
    let (greedy, rest) = quantifier(text, tokens)?;
    if !begins(rest, TokenKind::Mark(Mark::QuestionMark)) {
        return Ok((greedy, rest));
    }
    let (_, rest) = word(text, rest, TokenKind::Mark(Mark::QuestionMark))?;
    Ok((lazily(greedy), rest))
}

/// A quantifier, greedy as yet, and what follows it.
#[tactic(auto, unfolding(crate::specs::PatternGrammar::quantifier))]
fn quantifier<'a>(text: &str, tokens: &'a [Token]) -> Parsed<'a, Quantifier>
    requires stands { All (IsToken text.now) tokens.now }
    ensures { Reads quantifier itself text.now tokens.now result }
{
    if begins(tokens, TokenKind::Mark(Mark::Asterisk)) {
        let (at, rest) = word(text, tokens, TokenKind::Mark(Mark::Asterisk))?;
        return Ok((repeated(at, unwritten(at, 0), None), rest));
    }
    if begins(tokens, TokenKind::Mark(Mark::Plus)) {
        let (at, rest) = word(text, tokens, TokenKind::Mark(Mark::Plus))?;
        return Ok((repeated(at, unwritten(at, 1), None), rest));
    }
    if begins(tokens, TokenKind::Mark(Mark::QuestionMark)) {
        let (at, rest) = word(text, tokens, TokenKind::Mark(Mark::QuestionMark))?;
        return Ok((repeated(at, unwritten(at, 0), Some(unwritten(at, 1))), rest));
    }
    let (at, rest) = word(text, tokens, TokenKind::Mark(Mark::LeftBrace))?;
    bounds(text, rest, at)
}

/// A bound that isn't written stands at the quantifier.
fn unwritten(at: usize, count: u64) -> Bound
    ensures { result ≡ unwritten at count }
{
    Bound { at, count }
}

/// A bound, and what follows it.
#[tactic(auto, unfolding(crate::specs::PatternGrammar::bound))]
fn bound<'a>(text: &str, tokens: &'a [Token]) -> Parsed<'a, Bound>
    requires stands { All (IsToken text.now) tokens.now }
    ensures { Reads bound itself text.now tokens.now result }
{
    let at = place(text, tokens);
    let (count, rest) = number(text, tokens)?;
    Ok((Bound { at, count }, rest))
}

/// A greedy quantifier.
fn repeated(at: usize, lower: Bound, upper: Option<Bound>) -> Quantifier
    ensures { result ≡ repeated at lower upper }
{
    Quantifier {
        at,
        lower,
        upper,
        reluctant: false,
    }
}

/// A comma, perhaps with a bound behind it, or nothing, and what follows.
#[tactic(auto, unfolding(crate::specs::PatternGrammar::bound))]
fn above<'a>(text: &str, tokens: &'a [Token]) -> Parsed<'a, Option<(usize, Option<Bound>)>>
    requires stands { All (IsToken text.now) tokens.now }
    ensures { ReadsSome above itself text.now tokens.now result }
{
    if !begins(tokens, TokenKind::Mark(Mark::Comma)) {
        return Ok((None, tokens));
    }
    let (comma, rest) = word(text, tokens, TokenKind::Mark(Mark::Comma))?;
    if !begins(rest, TokenKind::Number) {
        return Ok((Some((comma, None)), rest));
    }
    let (upper, rest) = bound(text, rest)?;
    Ok((Some((comma, Some(upper))), rest))
}

/// The quantifier at the offset from a lower bound, and what stands between it and the `}`.
fn from_lower(at: usize, lower: Bound, above: Option<(usize, Option<Bound>)>) -> Quantifier
    ensures { result ≡ from_lower lower above at }
{
    match above {
        None => repeated(at, lower, Some(lower)),
        Some((_comma, upper)) => repeated(at, lower, upper),
    }
}

/// A lower bound, perhaps an upper one, `}`, and what follows it.
fn from_bound<'a>(text: &str, tokens: &'a [Token], at: usize) -> Parsed<'a, Quantifier>
    requires stands { All (IsToken text.now) tokens.now }
    ensures { Reads (gives (λ f. f at) from_bound) itself text.now tokens.now result }
{
    let (lower, rest) = bound(text, tokens)?;
    let (above, rest) = above(text, rest)?;
    let (_, rest) = word(text, rest, TokenKind::Mark(Mark::RightBrace))?;
    Ok((from_lower(at, lower, above), rest))
}

/// An upper bound behind a comma, `}`, and what follows it.
fn upper_alone<'a>(text: &str, tokens: &'a [Token], at: usize) -> Parsed<'a, Quantifier>
    requires stands { All (IsToken text.now) tokens.now }
    ensures { Reads (gives (λ f. f at) upper_alone) itself text.now tokens.now result }
{
    let (_, rest) = word(text, tokens, TokenKind::Mark(Mark::Comma))?;
    let (upper, rest) = bound(text, rest)?;
    let (_, rest) = word(text, rest, TokenKind::Mark(Mark::RightBrace))?;
    Ok((repeated(at, unwritten(at, 0), Some(upper)), rest))
}

/// The bounds of a quantifier whose `{` stands at the offset, its `}`, and what follows it.
#[tactic(auto, unfolding(crate::specs::PatternGrammar::bounds, crate::specs::PatternGrammar::bound))]
fn bounds<'a>(text: &str, tokens: &'a [Token], at: usize) -> Parsed<'a, Quantifier>
    requires stands { All (IsToken text.now) tokens.now }
    ensures { Reads (gives (λ f. f at) bounds) itself text.now tokens.now result }
{
    if begins(tokens, TokenKind::Number) {
        return from_bound(text, tokens, at);
    }
    upper_alone(text, tokens, at)
}

/// The quantifier with a `?` behind it.
fn lazily(greedy: Quantifier) -> Quantifier
    ensures { result ≡ lazily greedy }
{
    Quantifier {
        reluctant: true,
        ..greedy
    }
}
