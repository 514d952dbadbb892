//! Expressions.

ghost use Rattle.std.specs.Prelude.{◌≡◌, ◌≤◌, map, All, IfOk};
ghost use Rattle.rp_lexer.specs.Lexes.{IsToken};
ghost use Rattle.rp_grammar.specs.Grammar.{many};
ghost use Rattle.rp_grammar.specs.Readers.{Reads, ReadsSome};
ghost use Rattle.rp_tree.specs.Terms.{IsNull, Negative, Not, Operate, operand_of, term_of};
ghost use Rattle.rp_expressions.specs.ExprGrammar.{bracketed, chain, deeper_expr, expr, inside_expr, joined, link, negation, operand, predicate, signed, value};

use crate::navigation::{begins_plain, plain};
use crate::operators::{Level, begins_comparison, begins_operator, comparison, nullness, operator};
use crate::values::{call, literal, numeral, scoped};
use rp_grammar::{Parsed, begins, opening, word};
use rp_lexer::{Keyword, Mark, Token, TokenKind};
use rp_tree::{Expr, Operation};
use std::alloc::{AllocError, Global};

/// An expression, and what follows.
#[cycle(expr)]
#[tactic(auto, unfolding(crate::specs::ExprGrammar::expr, crate::specs::ExprGrammar::operand))]
pub fn expr<'a>(alloc: Global, text: &str, tokens: &'a [Token], room: usize) -> Parsed<'a, Expr>
    requires stands { All (IsToken text.now) tokens.now }
    ensures { Reads (expr room (inside_expr room)) term_of text.now tokens.now result }
{
    chain(alloc, text, tokens, room, Level::Or)
}

/// Operands with operators of this level between them, and what follows.
#[cycle(expr)]
fn chain<'a>(
    alloc: Global,
    text: &str,
    tokens: &'a [Token],
    room: usize,
    level: Level,
) -> Parsed<'a, Expr>
    requires stands { All (IsToken text.now) tokens.now }
    ensures { Reads (chain level room (inside_expr room)) term_of text.now tokens.now result }
{
    let (first, rest) = operand(alloc, text, tokens, room, level)?;
    if !begins_operator(rest, level) {
        return Ok((first, rest));
    }
    let first = Box::new(alloc, first)?;
    let (others, rest) = links(alloc, text, rest, room, level)?;
    Ok((joined(level, first, others), rest))
}

/// Any number of operators of this level, each with an operand, and what follows.
#[cycle(expr)]
fn links<'a>(
    alloc: Global,
    text: &str,
    tokens: &'a [Token],
    room: usize,
    level: Level,
) -> Parsed<'a, Vec<(Operation, Expr)>>
    requires stands { All (IsToken text.now) tokens.now }
    ensures { ReadsSome (many (link level room (inside_expr room)))
        (λ x. map operand_of x.items) text.now tokens.now result }
{
    let mut rest = tokens;
    let mut items = Vec::new(alloc);
    'items: while begins_operator(rest, level) {
        let (item, behind) = link(alloc, text, rest, room, level)?;
        items.push(item)?;
        rest = behind;
    }
    Ok((items, rest))
}

/// An operator of this level with its right operand, and what follows.
#[cycle(expr)]
fn link<'a>(
    alloc: Global,
    text: &str,
    tokens: &'a [Token],
    room: usize,
    level: Level,
) -> Parsed<'a, (Operation, Expr)>
    requires stands { All (IsToken text.now) tokens.now }
    ensures { Reads (link level room (inside_expr room)) operand_of text.now tokens.now result }
{
    let (operation, rest) = operator(text, tokens, level)?;
    let (operand, rest) = operand(alloc, text, rest, room, level)?;
    Ok(((operation, operand), rest))
}

/// What stands between operators of this level, and what follows.
#[cycle(expr)]
#[tactic(auto, unfolding(crate::specs::ExprGrammar::operand, crate::specs::ExprGrammar::conjunction, crate::specs::ExprGrammar::product))]
fn operand<'a>(
    alloc: Global,
    text: &str,
    tokens: &'a [Token],
    room: usize,
    level: Level,
) -> Parsed<'a, Expr>
    requires stands { All (IsToken text.now) tokens.now }
    ensures { Reads (operand level room (inside_expr room)) term_of text.now tokens.now result }
{
    match level {
        Level::Or => chain(alloc, text, tokens, room, Level::And),
        Level::And => negation(alloc, text, tokens, room),
        Level::Sum => chain(alloc, text, tokens, room, Level::Product),
        Level::Product => signed(alloc, text, tokens, room),
    }
}

/// A predicate, perhaps with NOT, and what follows.
#[cycle(expr)]
#[tactic(auto, unfolding(crate::specs::ExprGrammar::negation))]
fn negation<'a>(alloc: Global, text: &str, tokens: &'a [Token], room: usize) -> Parsed<'a, Expr>
    requires stands { All (IsToken text.now) tokens.now }
    ensures { Reads (negation room (inside_expr room)) term_of text.now tokens.now result }
{
    if !begins(tokens, TokenKind::Keyword(Keyword::Not)) {
        return predicate(alloc, text, tokens, room);
    }
    let (at, rest) = word(text, tokens, TokenKind::Keyword(Keyword::Not))?;
    let (body, rest) = predicate(alloc, text, rest, room)?;
    Ok((negated(alloc, at, body)?, rest))
}

/// A sum, perhaps compared, and what follows.
#[cycle(expr)]
#[tactic(auto, unfolding(crate::specs::ExprGrammar::predicate, crate::specs::ExprGrammar::sum, crate::specs::ExprGrammar::operand, crate::specs::ExprGrammar::comparison, crate::specs::ExprGrammar::nullness))]
fn predicate<'a>(alloc: Global, text: &str, tokens: &'a [Token], room: usize) -> Parsed<'a, Expr>
    requires stands { All (IsToken text.now) tokens.now }
    ensures { Reads (predicate room (inside_expr room)) term_of text.now tokens.now result }
{
    let (left, rest) = chain(alloc, text, tokens, room, Level::Sum)?;
    if begins(rest, TokenKind::Keyword(Keyword::Is)) {
        let left = Box::new(alloc, left)?;
        let ((at, negated), rest) = nullness(text, rest)?;
        return Ok((is_null(at, left, negated), rest));
    }
    if begins_comparison(rest) {
        let left = Box::new(alloc, left)?;
        let (operation, rest) = comparison(text, rest)?;
        let (right, rest) = chain(alloc, text, rest, room, Level::Sum)?;
        let right = Box::new(alloc, right)?;
        return Ok((compared(left, operation, right), rest));
    }
    Ok((left, rest))
}

/// A value, perhaps with `-`, and what follows.
#[cycle(expr)]
#[tactic(auto, unfolding(crate::specs::ExprGrammar::signed))]
fn signed<'a>(alloc: Global, text: &str, tokens: &'a [Token], room: usize) -> Parsed<'a, Expr>
    requires stands { All (IsToken text.now) tokens.now }
    ensures { Reads (signed room (inside_expr room)) term_of text.now tokens.now result }
{
    if !begins(tokens, TokenKind::Mark(Mark::Minus)) {
        return value(alloc, text, tokens, room);
    }
    let (at, rest) = word(text, tokens, TokenKind::Mark(Mark::Minus))?;
    let (body, rest) = value(alloc, text, rest, room)?;
    Ok((negative(alloc, at, body)?, rest))
}

/// A value, and what follows.
#[cycle(expr)]
#[tactic(auto, unfolding(crate::specs::ExprGrammar::value, crate::specs::NavigationGrammar::plain, crate::specs::NavigationGrammar::column))]
fn value<'a>(alloc: Global, text: &str, tokens: &'a [Token], room: usize) -> Parsed<'a, Expr>
    requires stands { All (IsToken text.now) tokens.now }
    ensures { Reads (value room (inside_expr room)) term_of text.now tokens.now result }
{
    if begins(tokens, TokenKind::Number) {
        return numeral(text, tokens);
    }
    if begins(tokens, TokenKind::Text) {
        return literal(alloc, text, tokens);
    }
    if begins(tokens, TokenKind::Mark(Mark::LeftParenthesis)) {
        return bracketed(alloc, text, tokens, room);
    }
    if begins_plain(tokens) {
        let (path, rest) = plain(alloc, text, tokens, room)?;
        return Ok((Expr::Navigation(path), rest));
    }
    if begins(tokens, TokenKind::Keyword(Keyword::MatchNumber)) {
        let (at, rest) = call(text, tokens, room, TokenKind::Keyword(Keyword::MatchNumber))?;
        return Ok((Expr::MatchNumber(at), rest));
    }
    if begins(tokens, TokenKind::Keyword(Keyword::Classifier)) {
        let (at, rest) = call(text, tokens, room, TokenKind::Keyword(Keyword::Classifier))?;
        return Ok((Expr::Classifier(at), rest));
    }
    scoped(alloc, text, tokens, room)
}

/// `(`, an expression, `)`, and what follows.
#[cycle(expr)]
fn bracketed<'a>(alloc: Global, text: &str, tokens: &'a [Token], room: usize) -> Parsed<'a, Expr>
    requires stands { All (IsToken text.now) tokens.now }
    ensures { Reads (bracketed room (inside_expr room)) term_of text.now tokens.now result }
{
    let (_, rest) = opening(text, tokens, TokenKind::Mark(Mark::LeftParenthesis), room)?;
    let (body, rest) = inner_expr(alloc, text, rest, room)?;
    let (_, rest) = word(text, rest, TokenKind::Mark(Mark::RightParenthesis))?;
    Ok((body, rest))
}

/// An expression inside a bracket for which there was room, and what follows.
#[cycle(expr)]
#[tactic(auto, using(crate::proofs::Exprs::deeper_expr_is))]
fn inner_expr<'a>(alloc: Global, text: &str, tokens: &'a [Token], room: usize) -> Parsed<'a, Expr>
    requires room { 1 ≤ room }
    requires stands { All (IsToken text.now) tokens.now }
    ensures { Reads (deeper_expr room) term_of text.now tokens.now result }
{
    expr(alloc, text, tokens, room - 1)
}

fn negated(alloc: Global, at: usize, body: Expr) -> Result<Expr, AllocError>
    ensures { IfOk result (λ expr. term_of expr ≡ Not at (term_of body)) }
{
    Ok(Expr::Not {
        at,
        body: Box::new(alloc, body)?,
    })
}

fn negative(alloc: Global, at: usize, body: Expr) -> Result<Expr, AllocError>
    ensures { IfOk result (λ expr. term_of expr ≡ Negative at (term_of body)) }
{
    Ok(Expr::Negative {
        at,
        body: Box::new(alloc, body)?,
    })
}

fn is_null(at: usize, body: Box<Expr>, negated: bool) -> Expr
    ensures { term_of result ≡ IsNull at negated (term_of body.value) }
{
    Expr::IsNull { at, body, negated }
}

fn compared(left: Box<Expr>, operation: Operation, right: Box<Expr>) -> Expr
    ensures { term_of result ≡ Operate (term_of left.value) operation (term_of right.value) }
{
    Expr::Comparison {
        left,
        operation,
        right,
    }
}

fn joined(level: Level, first: Box<Expr>, rest: Vec<(Operation, Expr)>) -> Expr
    ensures { term_of result ≡ joined level (term_of first.value) (map operand_of rest.items) }
{
    match level {
        Level::Or | Level::And => Expr::FromRight { first, rest },
        Level::Sum | Level::Product => Expr::FromLeft { first, rest },
    }
}
