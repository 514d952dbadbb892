//! Aggregates in expressions: COUNT, SUM, MIN and MAX.

ghost use Rattle.std.specs.Prelude.{◌≡◌, All};
ghost use Rattle.rp_lexer.specs.Lexes.{IsToken};
ghost use Rattle.rp_grammar.specs.Grammar.{gives};
ghost use Rattle.rp_grammar.specs.Readers.{Reads, itself};
ghost use Rattle.rp_expressions.specs.ExprGrammar.{aggregate, aggregated, counted, counting, over_column};

use crate::navigation::column;
use rp_grammar::{Parsed, begins, name, opening, word};
use rp_lexer::{Keyword, Mark, Token, TokenKind};
use rp_tree::{Aggregate, AggregateFunction, Column, Counted, Scope};
use std::alloc::Global;

/// What COUNT goes over, and what follows.
#[tactic(auto, unfolding(crate::specs::ExprGrammar::counted))]
fn counted<'a>(alloc: Global, text: &str, tokens: &'a [Token]) -> Parsed<'a, Counted>
    requires stands { All (IsToken text.now) tokens.now }
    ensures { Reads counted itself text.now tokens.now result }
{
    if begins(tokens, TokenKind::Mark(Mark::Asterisk)) {
        let (_, rest) = word(text, tokens, TokenKind::Mark(Mark::Asterisk))?;
        return Ok((Counted::Rows, rest));
    }
    let (first, rest) = name(alloc, text, tokens)?;
    if !begins(rest, TokenKind::Mark(Mark::Period)) {
        let column = Column {
            qualifier: None,
            name: first,
        };
        return Ok((Counted::Column(column), rest));
    }
    let (_, rest) = word(text, rest, TokenKind::Mark(Mark::Period))?;
    if begins(rest, TokenKind::Mark(Mark::Asterisk)) {
        let (_, rest) = word(text, rest, TokenKind::Mark(Mark::Asterisk))?;
        return Ok((Counted::RowsOf(first), rest));
    }
    let (second, rest) = name(alloc, text, rest)?;
    let column = Column {
        qualifier: Some(first),
        name: second,
    };
    Ok((Counted::Column(column), rest))
}

/// A word of this kind and a column in brackets, and what follows.
fn over_column<'a>(
    alloc: Global,
    text: &str,
    tokens: &'a [Token],
    room: usize,
    kind: TokenKind,
) -> Parsed<'a, (usize, Column)>
    requires stands { All (IsToken text.now) tokens.now }
    ensures { Reads (over_column room kind) itself text.now tokens.now result }
{
    let (at, rest) = word(text, tokens, kind)?;
    let (_, rest) = opening(text, rest, TokenKind::Mark(Mark::LeftParenthesis), room)?;
    let (column, rest) = column(alloc, text, rest)?;
    let (_, rest) = word(text, rest, TokenKind::Mark(Mark::RightParenthesis))?;
    Ok(((at, column), rest))
}

/// The aggregate of this function, whose word stands at the offset.
fn under(scope: Option<Scope>, at: usize, function: AggregateFunction) -> Aggregate
    ensures { result ≡ aggregated function at scope }
{
    Aggregate {
        scope,
        at,
        function,
    }
}

/// COUNT under this scope, and what follows.
fn counting<'a>(
    alloc: Global,
    text: &str,
    tokens: &'a [Token],
    room: usize,
    scope: Option<Scope>,
) -> Parsed<'a, Aggregate>
    requires stands { All (IsToken text.now) tokens.now }
    ensures { Reads (gives (λ f. f scope) (counting room)) itself text.now tokens.now result }
{
    let (at, rest) = word(text, tokens, TokenKind::Keyword(Keyword::Count))?;
    let (_, rest) = opening(text, rest, TokenKind::Mark(Mark::LeftParenthesis), room)?;
    let (argument, rest) = counted(alloc, text, rest)?;
    let (_, rest) = word(text, rest, TokenKind::Mark(Mark::RightParenthesis))?;
    Ok((under(scope, at, AggregateFunction::Count(argument)), rest))
}

/// An aggregate under this scope, and what follows.
#[tactic(auto, unfolding(crate::specs::ExprGrammar::aggregate, crate::specs::ExprGrammar::counted))]
pub(crate) fn aggregate<'a>(
    alloc: Global,
    text: &str,
    tokens: &'a [Token],
    room: usize,
    scope: Option<Scope>,
) -> Parsed<'a, Aggregate>
    requires stands { All (IsToken text.now) tokens.now }
    ensures { Reads (gives (λ f. f scope) (aggregate room)) itself text.now tokens.now result }
{
    if begins(tokens, TokenKind::Keyword(Keyword::Count)) {
        return counting(alloc, text, tokens, room, scope);
    }
    if begins(tokens, TokenKind::Keyword(Keyword::Sum)) {
        let kind = TokenKind::Keyword(Keyword::Sum);
        let ((at, column), rest) = over_column(alloc, text, tokens, room, kind)?;
        return Ok((under(scope, at, AggregateFunction::Sum(column)), rest));
    }
    if begins(tokens, TokenKind::Keyword(Keyword::Min)) {
        let kind = TokenKind::Keyword(Keyword::Min);
        let ((at, column), rest) = over_column(alloc, text, tokens, room, kind)?;
        return Ok((under(scope, at, AggregateFunction::Min(column)), rest));
    }
    let kind = TokenKind::Keyword(Keyword::Max);
    let ((at, column), rest) = over_column(alloc, text, tokens, room, kind)?;
    Ok((under(scope, at, AggregateFunction::Max(column)), rest))
}
