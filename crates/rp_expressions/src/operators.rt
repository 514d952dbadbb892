//! Operators, and how strongly they bind.

ghost use Rattle.std.specs.Prelude.{◌≡◌, All};
ghost use Rattle.rp_lexer.specs.Lexes.{IsToken};
ghost use Rattle.rp_grammar.specs.Reading.{starts};
ghost use Rattle.rp_grammar.specs.Readers.{Reads, itself};
ghost use Rattle.rp_expressions.specs.ExprGrammar.{comparison, comparison_kinds, nullness, operation, operator, operator_kinds};

use rp_grammar::{Parsed, begins, word};
use rp_lexer::{Keyword, Mark, Token, TokenKind};
use rp_tree::{Operation, Operator};

/// The levels of operators that stand between operands, those that bind the weakest first.
#[derive(Clone, Copy)]
pub(crate) enum Level {
    /// OR, grouped from the right.
    Or,
    /// AND, grouped from the right.
    And,
    /// `+` and `-`, grouped from the left.
    Sum,
    /// `*`, grouped from the left.
    Product,
}

/// Whether the tokens begin with an operator of this level.
pub(crate) fn begins_operator(tokens: &[Token], level: Level) -> bool
    ensures { result ≡ starts (operator_kinds level) tokens.now }
{
    match level {
        Level::Or => begins(tokens, TokenKind::Keyword(Keyword::Or)),
        Level::And => begins(tokens, TokenKind::Keyword(Keyword::And)),
        Level::Sum => {
            begins(tokens, TokenKind::Mark(Mark::Plus))
                || begins(tokens, TokenKind::Mark(Mark::Minus))
        }
        Level::Product => begins(tokens, TokenKind::Mark(Mark::Asterisk)),
    }
}

/// An operator of this level, and what follows.
pub(crate) fn operator<'a>(text: &str, tokens: &'a [Token], level: Level) -> Parsed<'a, Operation>
    requires stands { All (IsToken text.now) tokens.now }
    ensures { Reads (operator level) itself text.now tokens.now result }
{
    let (kind, operator) = match level {
        Level::Or => (TokenKind::Keyword(Keyword::Or), Operator::Or),
        Level::And => (TokenKind::Keyword(Keyword::And), Operator::And),
        Level::Sum if begins(tokens, TokenKind::Mark(Mark::Plus)) => {
            (TokenKind::Mark(Mark::Plus), Operator::Plus)
        }
        Level::Sum => (TokenKind::Mark(Mark::Minus), Operator::Minus),
        Level::Product => (TokenKind::Mark(Mark::Asterisk), Operator::Times),
    };
    operation(text, tokens, kind, operator)
}

/// Whether the tokens begin with an operator of comparison.
pub(crate) fn begins_comparison(tokens: &[Token]) -> bool
    ensures { result ≡ starts comparison_kinds tokens.now }
{
    begins(tokens, TokenKind::Mark(Mark::Equals))
        || begins(tokens, TokenKind::Mark(Mark::NotEquals))
        || begins(tokens, TokenKind::Mark(Mark::LessThan))
        || begins(tokens, TokenKind::Mark(Mark::LessThanOrEquals))
        || begins(tokens, TokenKind::Mark(Mark::GreaterThan))
        || begins(tokens, TokenKind::Mark(Mark::GreaterThanOrEquals))
}

/// An operator of comparison, and what follows.
#[tactic(auto, unfolding(crate::specs::ExprGrammar::comparison))]
pub(crate) fn comparison<'a>(text: &str, tokens: &'a [Token]) -> Parsed<'a, Operation>
    requires stands { All (IsToken text.now) tokens.now }
    ensures { Reads comparison itself text.now tokens.now result }
{
    let equals = TokenKind::Mark(Mark::Equals);
    if begins(tokens, equals) {
        return operation(text, tokens, equals, Operator::Equals);
    }
    let not_equals = TokenKind::Mark(Mark::NotEquals);
    if begins(tokens, not_equals) {
        return operation(text, tokens, not_equals, Operator::NotEquals);
    }
    let less = TokenKind::Mark(Mark::LessThan);
    if begins(tokens, less) {
        return operation(text, tokens, less, Operator::Less);
    }
    let less_or_equals = TokenKind::Mark(Mark::LessThanOrEquals);
    if begins(tokens, less_or_equals) {
        return operation(text, tokens, less_or_equals, Operator::LessOrEquals);
    }
    let greater = TokenKind::Mark(Mark::GreaterThan);
    if begins(tokens, greater) {
        return operation(text, tokens, greater, Operator::Greater);
    }
    let greater_or_equals = TokenKind::Mark(Mark::GreaterThanOrEquals);
    operation(text, tokens, greater_or_equals, Operator::GreaterOrEquals)
}

/// `IS NULL` or `IS NOT NULL`, and what follows.
#[tactic(auto, unfolding(crate::specs::ExprGrammar::nullness))]
pub(crate) fn nullness<'a>(text: &str, tokens: &'a [Token]) -> Parsed<'a, (usize, bool)>
    requires stands { All (IsToken text.now) tokens.now }
    ensures { Reads nullness itself text.now tokens.now result }
{
    let (at, rest) = word(text, tokens, TokenKind::Keyword(Keyword::Is))?;
    if begins(rest, TokenKind::Keyword(Keyword::Not)) {
        let (_, rest) = word(text, rest, TokenKind::Keyword(Keyword::Not))?;
        let (_, rest) = word(text, rest, TokenKind::Keyword(Keyword::Null))?;
        return Ok(((at, true), rest));
    }
    let (_, rest) = word(text, rest, TokenKind::Keyword(Keyword::Null))?;
    Ok(((at, false), rest))
}

/// An operator of this kind, and what follows.
fn operation<'a>(
    text: &str,
    tokens: &'a [Token],
    kind: TokenKind,
    operator: Operator,
) -> Parsed<'a, Operation>
    requires stands { All (IsToken text.now) tokens.now }
    ensures { Reads (operation operator kind) itself text.now tokens.now result }
{
    let (at, rest) = word(text, tokens, kind)?;
    Ok((Operation { operator, at }, rest))
}
