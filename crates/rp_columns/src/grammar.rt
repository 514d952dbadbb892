//! The columns that tokens derive.

ghost use Rattle.std.specs.Prelude.{◌≡◌, ◌<◌, ◌∷◌, length, map, All, IfSome, Ok, [], is_some};
ghost use Rattle.rp_lexer.specs.Lexes.{IsToken};
ghost use Rattle.rp_grammar.specs.Grammar.{word as spec_word};
ghost use Rattle.rp_grammar.specs.Reading.{place as spec_place, starts};
ghost use Rattle.rp_grammar.specs.Readers.{Reads, ReadsSome, itself};
ghost use Rattle.rp_columns.specs.ColumnsGrammar.{argument, arguments, called, called_tree, called_with, column, columns, number_argument, operands, plain_name, text_argument, written_tree};

use crate::written::{Argument, Called, Source, Written};
use rp_grammar::{Name, ParseFault, Parsed, begins, name, number, place, text_at, token, word};
use rp_lexer::{Mark, Token, TokenKind};
use std::alloc::Global;

/// A plain name, and what follows it.
fn plain_name<'a>(alloc: Global, text: &str, tokens: &'a [Token]) -> Parsed<'a, Name>
    requires stands { All (IsToken text.now) tokens.now }
    ensures { Reads plain_name itself text.now tokens.now result }
{
    if begins(tokens, TokenKind::Name) {
        return name(alloc, text, tokens);
    }
    Err(ParseFault::Expected(place(text, tokens)))
}

/// What a reading takes, and what follows.
#[tactic(auto, unfolding(crate::specs::ColumnsGrammar::argument))]
fn argument<'a>(alloc: Global, text: &str, tokens: &'a [Token]) -> Parsed<'a, Argument>
    requires stands { All (IsToken text.now) tokens.now }
    ensures { Reads argument itself text.now tokens.now result }
{
    if begins(tokens, TokenKind::Number) {
        return number_argument(text, tokens);
    }
    text_argument(alloc, text, tokens)
}

/// A number that a reading takes, and what follows.
fn number_argument<'a>(text: &str, tokens: &'a [Token]) -> Parsed<'a, Argument>
    requires stands { All (IsToken text.now) tokens.now }
    ensures { Reads number_argument itself text.now tokens.now result }
{
    let (number, rest) = number(text, tokens)?;
    Ok((Argument::Number(number), rest))
}

/// A text that a reading takes, and what follows.
fn text_argument<'a>(alloc: Global, text: &str, tokens: &'a [Token]) -> Parsed<'a, Argument>
    requires stands { All (IsToken text.now) tokens.now }
    ensures { Reads text_argument itself text.now tokens.now result }
{
    let (token, rest) = token(text, tokens, TokenKind::Text)?;
    let literal = text_at(alloc, text, token)?;
    Ok((Argument::Text(literal), rest))
}

/// What a reading takes, each behind a comma, and what follows.
fn arguments<'a>(alloc: Global, text: &str, tokens: &'a [Token]) -> Parsed<'a, Vec<Argument>>
    requires stands { All (IsToken text.now) tokens.now }
    ensures { ReadsSome arguments (λ x. x.items) text.now tokens.now result }
{
    let mut items = Vec::new(alloc);
    let mut rest = tokens;
    'items: while let Some(next) = behind(text, rest, TokenKind::Mark(Mark::Comma)) {
        let (item, left) = argument(alloc, text, next)?;
        items.push(item)?;
        rest = left;
    }
    Ok((items, rest))
}

/// A reading behind `=`, and what follows.
#[tactic(auto, unfolding(crate::specs::ColumnsGrammar::called_with))]
fn called_with<'a>(alloc: Global, text: &str, tokens: &'a [Token]) -> Parsed<'a, Called>
    requires stands { All (IsToken text.now) tokens.now }
    ensures { Reads called_with called_tree text.now tokens.now result }
{
    let (_, rest) = word(text, tokens, TokenKind::Mark(Mark::Equals))?;
    let (reading, rest) = plain_name(alloc, text, rest)?;
    let (_, rest) = word(text, rest, TokenKind::Mark(Mark::LeftParenthesis))?;
    let ((source, arguments), rest) = operands(alloc, text, rest)?;
    let called = Called {
        reading,
        source,
        arguments,
    };
    Ok((called, rest))
}

/// What stands behind a reading's opening bracket, and what follows its closing one.
#[tactic(auto, unfolding(crate::specs::ColumnsGrammar::operands, crate::specs::ColumnsGrammar::field_operands))]
fn operands<'a>(
    alloc: Global,
    text: &str,
    tokens: &'a [Token],
) -> Parsed<'a, (Source, Vec<Argument>)>
    requires stands { All (IsToken text.now) tokens.now }
    ensures { Reads operands (λ x. (x.0, x.1.items)) text.now tokens.now result }
{
    if let Some(rest) = behind(text, tokens, TokenKind::Mark(Mark::RightParenthesis)) {
        return Ok(((Source::Nothing, Vec::new(alloc)), rest));
    }
    let (source, rest) = name(alloc, text, tokens)?;
    let (arguments, rest) = arguments(alloc, text, rest)?;
    let (_, rest) = word(text, rest, TokenKind::Mark(Mark::RightParenthesis))?;
    Ok(((Source::Field(source), arguments), rest))
}

/// A reading alone or behind `=`, and what follows.
#[tactic(auto, unfolding(crate::specs::ColumnsGrammar::called))]
fn called<'a>(alloc: Global, text: &str, tokens: &'a [Token]) -> Parsed<'a, Called>
    requires stands { All (IsToken text.now) tokens.now }
    ensures { Reads called called_tree text.now tokens.now result }
{
    if !begins(tokens, TokenKind::Name) {
        return called_with(alloc, text, tokens);
    }
    let (reading, rest) = plain_name(alloc, text, tokens)?;
    let called = Called {
        reading,
        source: Source::Own,
        arguments: Vec::new(alloc),
    };
    Ok((called, rest))
}

/// A column, and what follows.
#[tactic(auto, unfolding(crate::specs::ColumnsGrammar::column))]
fn column<'a>(alloc: Global, text: &str, tokens: &'a [Token]) -> Parsed<'a, Written>
    requires stands { All (IsToken text.now) tokens.now }
    ensures { Reads column written_tree text.now tokens.now result }
{
    let (name, rest) = name(alloc, text, tokens)?;
    let (called, rest) = called(alloc, text, rest)?;
    Ok((Written { name, called }, rest))
}

/// Columns with commas between, and what follows.
pub(crate) fn columns<'a>(
    alloc: Global,
    text: &str,
    tokens: &'a [Token],
) -> Parsed<'a, Vec<Written>>
    requires stands { All (IsToken text.now) tokens.now }
    ensures { Reads columns (λ x. map written_tree x.items) text.now tokens.now result }
{
    let mut items = Vec::new(alloc);
    let mut rest = tokens;
    'items: loop {
        let (item, left) = column(alloc, text, rest)?;
        items.push(item)?;
        match behind(text, left, TokenKind::Mark(Mark::Comma)) {
            Some(next) => rest = next,
            None => return Ok((items, left)),
        }
    }
}

/// What follows a token of this kind, where one comes first.
fn behind<'a>(text: &str, tokens: &'a [Token], kind: TokenKind) -> Option<&'a [Token]>
    requires stands { All (IsToken text.now) tokens.now }
    ensures starts { is_some result ≡ starts (kind ∷ []) tokens.now }
    ensures exact { IfSome result (λ rest. (spec_word kind).read text.now tokens.now ≡ Ok (spec_place text.now tokens.now, rest.now)) }
    ensures stands { IfSome result (λ rest. All (IsToken text.now) rest.now) }
    ensures shorter { IfSome result (λ rest. length rest.now < length tokens.now) }
{
    match tokens.split_first() {
        Some((first, rest)) if first.kind == kind => Some(rest),
        _ => None,
    }
}
