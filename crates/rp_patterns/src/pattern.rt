//! Row patterns.

ghost use Rattle.std.specs.Prelude.{◌≡◌, ◌≤◌, map, All, IfOk};
ghost use Rattle.rp_lexer.specs.Lexes.{IsToken};
ghost use Rattle.rp_grammar.specs.Reading.{starts};
ghost use Rattle.rp_tree.specs.Tree.{tree_of, joined_all, Concatenation, Alternation, Permute, Beside, Quantified, Exclusion};
ghost use Rattle.rp_grammar.specs.Grammar.{listed};
ghost use Rattle.rp_grammar.specs.Readers.{Reads};
ghost use Rattle.rp_patterns.specs.PatternGrammar.{group, permute, exclusion, primary, factor, sequence, alternatives, inside, deeper, pattern_kinds};

use crate::quantifier::{begins_quantifier, repetition};
use rp_grammar::{Parsed, begins, begins_name, name, opening, word};
use rp_lexer::{Keyword, Mark, Token, TokenKind};
use rp_tree::{Pattern, Quantifier};
use std::alloc::{AllocError, Global};

/// Whether the tokens begin with a primary, and so with a pattern.
fn begins_pattern(tokens: &[Token]) -> bool
    ensures { result ≡ starts pattern_kinds tokens.now }
{
    begins_name(tokens)
        || begins(tokens, TokenKind::Mark(Mark::Circumflex))
        || begins(tokens, TokenKind::Mark(Mark::DollarSign))
        || begins(tokens, TokenKind::Mark(Mark::LeftParenthesis))
        || begins(tokens, TokenKind::Keyword(Keyword::Permute))
        || begins(tokens, TokenKind::Mark(Mark::LeftBraceMinus))
}

/// A pattern inside a bracket for which there was room, and what follows.
#[cycle(grammar)]
#[tactic(auto, using(crate::proofs::Patterns::deeper_is))]
pub fn inner<'a>(alloc: Global, text: &str, tokens: &'a [Token], room: usize) -> Parsed<'a, Pattern>
    requires room { 1 ≤ room }
    requires stands { All (IsToken text.now) tokens.now }
    ensures { Reads (deeper room) tree_of text.now tokens.now result }
{
    alternatives(alloc, text, tokens, room - 1)
}

/// Sequences with `|` between them, and what follows.
#[cycle(grammar)]
#[tactic(auto, unfolding(crate::specs::PatternGrammar::alternatives))]
fn alternatives<'a>(
    alloc: Global,
    text: &str,
    tokens: &'a [Token],
    room: usize,
) -> Parsed<'a, Pattern>
    requires stands { All (IsToken text.now) tokens.now }
    ensures { Reads (alternatives room (inside room)) tree_of text.now tokens.now result }
{
    let (first, mut rest) = sequence(alloc, text, tokens, room)?;
    if !begins(rest, TokenKind::Mark(Mark::VerticalBar)) {
        return Ok((first, rest));
    }
    let mut parts = Vec::new(alloc);
    parts.push(first)?;
    while begins(rest, TokenKind::Mark(Mark::VerticalBar)) {
        let (_, behind) = word(text, rest, TokenKind::Mark(Mark::VerticalBar))?;
        let (part, behind) = sequence(alloc, text, behind, room)?;
        parts.push(part)?;
        rest = behind;
    }
    Ok((alternation(parts), rest))
}

/// One or more factors, and what follows.
#[cycle(grammar)]
#[tactic(auto, unfolding(crate::specs::PatternGrammar::sequence))]
fn sequence<'a>(alloc: Global, text: &str, tokens: &'a [Token], room: usize) -> Parsed<'a, Pattern>
    requires stands { All (IsToken text.now) tokens.now }
    ensures { Reads (sequence room (inside room)) tree_of text.now tokens.now result }
{
    let (first, mut rest) = factor(alloc, text, tokens, room)?;
    if !begins_pattern(rest) {
        return Ok((first, rest));
    }
    let mut parts = Vec::new(alloc);
    parts.push(first)?;
    while begins_pattern(rest) {
        let (part, behind) = factor(alloc, text, rest, room)?;
        parts.push(part)?;
        rest = behind;
    }
    Ok((concatenation(parts), rest))
}

/// A primary, perhaps with a quantifier, and what follows.
#[cycle(grammar)]
#[tactic(auto, unfolding(crate::specs::PatternGrammar::factor, crate::specs::PatternGrammar::quantifier))]
fn factor<'a>(alloc: Global, text: &str, tokens: &'a [Token], room: usize) -> Parsed<'a, Pattern>
    requires stands { All (IsToken text.now) tokens.now }
    ensures { Reads (factor room (inside room)) tree_of text.now tokens.now result }
{
    let (body, rest) = primary(alloc, text, tokens, room)?;
    if !begins_quantifier(rest) {
        return Ok((body, rest));
    }
    let body = Box::new(alloc, body)?;
    let (quantifier, rest) = repetition(text, rest)?;
    Ok((quantified(body, quantifier), rest))
}

fn quantified(body: Box<Pattern>, quantifier: Quantifier) -> Pattern
    ensures { tree_of result ≡ Quantified quantifier (tree_of body.value) }
{
    Pattern::Quantified { body, quantifier }
}

/// A variable, an anchor or a bracket, and what follows.
#[cycle(grammar)]
#[tactic(auto, unfolding(crate::specs::PatternGrammar::primary, crate::specs::PatternGrammar::group, crate::specs::PatternGrammar::permute, crate::specs::PatternGrammar::exclusion))]
fn primary<'a>(alloc: Global, text: &str, tokens: &'a [Token], room: usize) -> Parsed<'a, Pattern>
    requires stands { All (IsToken text.now) tokens.now }
    ensures { Reads (primary room (inside room)) tree_of text.now tokens.now result }
{
    if begins_name(tokens) {
        let (name, rest) = name(alloc, text, tokens)?;
        return Ok((Pattern::Variable(name), rest));
    }
    if begins(tokens, TokenKind::Mark(Mark::Circumflex)) {
        let (_, rest) = word(text, tokens, TokenKind::Mark(Mark::Circumflex))?;
        return Ok((Pattern::PartitionStart, rest));
    }
    if begins(tokens, TokenKind::Mark(Mark::DollarSign)) {
        let (_, rest) = word(text, tokens, TokenKind::Mark(Mark::DollarSign))?;
        return Ok((Pattern::PartitionEnd, rest));
    }
    if begins(tokens, TokenKind::Mark(Mark::LeftParenthesis)) {
        return group(alloc, text, tokens, room);
    }
    if begins(tokens, TokenKind::Keyword(Keyword::Permute)) {
        return permute(alloc, text, tokens, room);
    }
    exclusion(alloc, text, tokens, room)
}

/// `(`, perhaps a pattern, `)`, and what follows.
#[cycle(grammar)]
#[tactic(auto, unfolding(crate::specs::PatternGrammar::group))]
fn group<'a>(alloc: Global, text: &str, tokens: &'a [Token], room: usize) -> Parsed<'a, Pattern>
    requires stands { All (IsToken text.now) tokens.now }
    ensures { Reads (group room (inside room)) tree_of text.now tokens.now result }
{
    let (_, rest) = opening(text, tokens, TokenKind::Mark(Mark::LeftParenthesis), room)?;
    if !begins_pattern(rest) {
        let (_, rest) = word(text, rest, TokenKind::Mark(Mark::RightParenthesis))?;
        return Ok((Pattern::Empty, rest));
    }
    let (form, rest) = inner(alloc, text, rest, room)?;
    let (_, rest) = word(text, rest, TokenKind::Mark(Mark::RightParenthesis))?;
    Ok((form, rest))
}

/// PERMUTE with its parts, and what follows.
#[cycle(grammar)]
#[tactic(auto, unfolding(crate::specs::PatternGrammar::permute))]
fn permute<'a>(alloc: Global, text: &str, tokens: &'a [Token], room: usize) -> Parsed<'a, Pattern>
    requires stands { All (IsToken text.now) tokens.now }
    ensures { Reads (permute room (inside room)) tree_of text.now tokens.now result }
{
    let (at, rest) = word(text, tokens, TokenKind::Keyword(Keyword::Permute))?;
    let (_, rest) = opening(text, rest, TokenKind::Mark(Mark::LeftParenthesis), room)?;
    let (parts, rest) = patterns(alloc, text, rest, room)?;
    let (_, rest) = word(text, rest, TokenKind::Mark(Mark::RightParenthesis))?;
    Ok((permuted(at, parts), rest))
}

/// Patterns inside a bracket for which there was room, with commas between, and what follows.
#[cycle(grammar)]
fn patterns<'a>(
    alloc: Global,
    text: &str,
    tokens: &'a [Token],
    room: usize,
) -> Parsed<'a, Vec<Pattern>>
    requires room { 1 ≤ room }
    requires stands { All (IsToken text.now) tokens.now }
    ensures { Reads (listed (inside room)) (λ x. map tree_of x.items) text.now tokens.now result }
{
    let (first, mut rest) = inner(alloc, text, tokens, room)?;
    let mut parts = Vec::new(alloc);
    parts.push(first)?;
    while begins(rest, TokenKind::Mark(Mark::Comma)) {
        let (_, behind) = word(text, rest, TokenKind::Mark(Mark::Comma))?;
        let (part, behind) = inner(alloc, text, behind, room)?;
        parts.push(part)?;
        rest = behind;
    }
    Ok((parts, rest))
}

/// `{-`, a pattern, `-}`, and what follows.
#[cycle(grammar)]
#[tactic(auto, unfolding(crate::specs::PatternGrammar::exclusion))]
fn exclusion<'a>(alloc: Global, text: &str, tokens: &'a [Token], room: usize) -> Parsed<'a, Pattern>
    requires stands { All (IsToken text.now) tokens.now }
    ensures { Reads (exclusion room (inside room)) tree_of text.now tokens.now result }
{
    let (at, rest) = opening(text, tokens, TokenKind::Mark(Mark::LeftBraceMinus), room)?;
    let (body, rest) = inner(alloc, text, rest, room)?;
    let (_, rest) = word(text, rest, TokenKind::Mark(Mark::RightBraceMinus))?;
    Ok((excluded(alloc, at, body)?, rest))
}

fn excluded(alloc: Global, at: usize, body: Pattern) -> Result<Pattern, AllocError>
    ensures { IfOk result (λ pattern. tree_of pattern ≡ Exclusion at (tree_of body)) }
{
    Ok(Pattern::Exclusion {
        at,
        body: Box::new(alloc, body)?,
    })
}

fn concatenation(parts: Vec<Pattern>) -> Pattern
    ensures { tree_of result ≡ joined_all Concatenation (map tree_of parts.items) }
{
    Pattern::Concatenation(parts)
}

fn alternation(parts: Vec<Pattern>) -> Pattern
    ensures { tree_of result ≡ joined_all Alternation (map tree_of parts.items) }
{
    Pattern::Alternation(parts)
}

fn permuted(at: usize, parts: Vec<Pattern>) -> Pattern
    ensures { tree_of result ≡ Permute at (joined_all Beside (map tree_of parts.items)) }
{
    Pattern::Permute { at, parts }
}
