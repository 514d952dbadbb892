//! Values that hold no expression: numbers, texts, calls without arguments, and what RUNNING or FINAL may stand before.

ghost use Rattle.std.specs.Prelude.{All, [], ◌∷◌};
ghost use Rattle.rp_lexer.specs.Lexes.{IsToken};
ghost use Rattle.rp_grammar.specs.Grammar.{◌then◌, gives, here, number, one_of};
ghost use Rattle.rp_grammar.specs.Names.{text_in};
ghost use Rattle.rp_grammar.specs.Readers.{Reads, itself};
ghost use Rattle.rp_tree.specs.Terms.{Literal, Number, term_of};
ghost use Rattle.rp_expressions.specs.ExprGrammar.{call, scoped};

use crate::aggregates::aggregate;
use crate::navigation::{edge, scope};
use rp_grammar::{Parsed, begins, number, opening, place, text_at, token, word};
use rp_lexer::{Keyword, Mark, Token, TokenKind};
use rp_tree::Expr;
use std::alloc::Global;

/// A number, and what follows it.
pub(crate) fn numeral<'a>(text: &str, tokens: &'a [Token]) -> Parsed<'a, Expr>
    requires stands { All (IsToken text.now) tokens.now }
    ensures { Reads (gives (λ x. Number x.0 x.1) (here then number)) term_of text.now tokens.now result }
{
    let at = place(text, tokens);
    let (value, rest) = number(text, tokens)?;
    Ok((Expr::Number { at, value }, rest))
}

/// A text, and what follows it.
pub(crate) fn literal<'a>(alloc: Global, text: &str, tokens: &'a [Token]) -> Parsed<'a, Expr>
    requires stands { All (IsToken text.now) tokens.now }
    ensures { Reads (one_of (TokenKind.Text ∷ []) (λ text t. Literal t.start (text_in text t)))
        term_of text.now tokens.now result }
{
    let (token, rest) = token(text, tokens, TokenKind::Text)?;
    let literal = Expr::Text {
        at: token.start,
        text: text_at(alloc, text, token)?,
    };
    Ok((literal, rest))
}

/// A word of this kind, `(`, `)`, and what follows.
pub(crate) fn call<'a>(
    text: &str,
    tokens: &'a [Token],
    room: usize,
    kind: TokenKind,
) -> Parsed<'a, usize>
    requires stands { All (IsToken text.now) tokens.now }
    ensures { Reads (call room kind) itself text.now tokens.now result }
{
    let (at, rest) = word(text, tokens, kind)?;
    let (_, rest) = opening(text, rest, TokenKind::Mark(Mark::LeftParenthesis), room)?;
    let (_, rest) = word(text, rest, TokenKind::Mark(Mark::RightParenthesis))?;
    Ok((at, rest))
}

/// A navigation or an aggregate that may have a scope, and what follows.
#[tactic(auto, unfolding(crate::specs::ExprGrammar::scoped, crate::specs::ExprGrammar::under_scope, crate::specs::NavigationGrammar::edge))]
pub(crate) fn scoped<'a>(
    alloc: Global,
    text: &str,
    tokens: &'a [Token],
    room: usize,
) -> Parsed<'a, Expr>
    requires stands { All (IsToken text.now) tokens.now }
    ensures { Reads (scoped room) term_of text.now tokens.now result }
{
    let (scope, rest) = scope(text, tokens)?;
    if begins(rest, TokenKind::Keyword(Keyword::First))
        || begins(rest, TokenKind::Keyword(Keyword::Last))
    {
        let (path, rest) = edge(alloc, text, rest, room, scope)?;
        return Ok((Expr::Navigation(path), rest));
    }
    let (aggregate, rest) = aggregate(alloc, text, rest, room, scope)?;
    Ok((Expr::Aggregate(aggregate), rest))
}
