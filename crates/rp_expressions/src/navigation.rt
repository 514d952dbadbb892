//! Columns and navigations.

ghost use Rattle.std.specs.Prelude.{◌≡◌, ◌≤◌, All, IfOk};
ghost use Rattle.rp_lexer.specs.Lexes.{IsToken};
ghost use Rattle.rp_grammar.specs.Reading.{starts};
ghost use Rattle.rp_grammar.specs.Grammar.{gives, optional, ◌then◌, word};
ghost use Rattle.rp_grammar.specs.Readers.{Reads, ReadsSome, itself};
ghost use Rattle.rp_tree.specs.Paths.{Move, path_of};
ghost use Rattle.rp_expressions.specs.NavigationGrammar.{argument, column, deeper_path, edge, ending, inside_path, key, moved, offset, path, plain, plain_kinds, scope};

use rp_grammar::{Parsed, begins, begins_name, name, number, opening, place, word};
use rp_lexer::{Keyword, Mark, Token, TokenKind};
use rp_tree::{Column, Movement, Navigation, Offset, Scope};
use std::alloc::{AllocError, Global};

/// A column, and what follows it.
#[tactic(auto, unfolding(crate::specs::NavigationGrammar::column))]
pub(crate) fn column<'a>(alloc: Global, text: &str, tokens: &'a [Token]) -> Parsed<'a, Column>
    requires stands { All (IsToken text.now) tokens.now }
    ensures { Reads column itself text.now tokens.now result }
{
    let (first, rest) = name(alloc, text, tokens)?;
    if !begins(rest, TokenKind::Mark(Mark::Period)) {
        let column = Column {
            qualifier: None,
            name: first,
        };
        return Ok((column, rest));
    }
    let (_, rest) = word(text, rest, TokenKind::Mark(Mark::Period))?;
    let (second, rest) = name(alloc, text, rest)?;
    let column = Column {
        qualifier: Some(first),
        name: second,
    };
    Ok((column, rest))
}

/// A number of rows, and what follows it.
#[tactic(auto, unfolding(crate::specs::NavigationGrammar::offset))]
fn offset<'a>(text: &str, tokens: &'a [Token]) -> Parsed<'a, Offset>
    requires stands { All (IsToken text.now) tokens.now }
    ensures { Reads offset itself text.now tokens.now result }
{
    let at = place(text, tokens);
    let (rows, rest) = number(text, tokens)?;
    Ok((Offset { at, rows }, rest))
}

/// Perhaps RUNNING or FINAL, and what follows.
#[tactic(auto, unfolding(crate::specs::NavigationGrammar::scope))]
pub(crate) fn scope<'a>(text: &str, tokens: &'a [Token]) -> Parsed<'a, Option<Scope>>
    requires stands { All (IsToken text.now) tokens.now }
    ensures { ReadsSome (optional scope) itself text.now tokens.now result }
{
    if begins(tokens, TokenKind::Keyword(Keyword::Running)) {
        let (at, rest) = word(text, tokens, TokenKind::Keyword(Keyword::Running))?;
        return Ok((
            Some(Scope {
                at,
                is_final: false,
            }),
            rest,
        ));
    }
    if begins(tokens, TokenKind::Keyword(Keyword::Final)) {
        let (at, rest) = word(text, tokens, TokenKind::Keyword(Keyword::Final))?;
        return Ok((Some(Scope { at, is_final: true }), rest));
    }
    Ok((None, tokens))
}

/// Perhaps a comma and by how many rows, `)`, and what follows.
#[tactic(auto, unfolding(crate::specs::NavigationGrammar::ending))]
fn ending<'a>(text: &str, tokens: &'a [Token]) -> Parsed<'a, Option<Offset>>
    requires stands { All (IsToken text.now) tokens.now }
    ensures { Reads ending itself text.now tokens.now result }
{
    if !begins(tokens, TokenKind::Mark(Mark::Comma)) {
        let (_, rest) = word(text, tokens, TokenKind::Mark(Mark::RightParenthesis))?;
        return Ok((None, rest));
    }
    let (_, rest) = word(text, tokens, TokenKind::Mark(Mark::Comma))?;
    let (rows, rest) = offset(text, rest)?;
    let (_, rest) = word(text, rest, TokenKind::Mark(Mark::RightParenthesis))?;
    Ok((Some(rows), rest))
}

/// The argument of a navigation in its brackets, and what follows.
#[cycle(navigation)]
#[tactic(auto, unfolding(crate::specs::NavigationGrammar::argument))]
fn argument<'a>(
    alloc: Global,
    text: &str,
    tokens: &'a [Token],
    room: usize,
) -> Parsed<'a, (Navigation, Option<Offset>)>
    requires stands { All (IsToken text.now) tokens.now }
    ensures { Reads (argument room (inside_path room)) (λ x. (path_of x.0, x.1)) text.now tokens.now result }
{
    let (_, rest) = opening(text, tokens, TokenKind::Mark(Mark::LeftParenthesis), room)?;
    let (path, rest) = inner_path(alloc, text, rest, room)?;
    let (rows, rest) = ending(text, rest)?;
    Ok(((path, rows), rest))
}

/// A column or a navigation inside a bracket for which there was room, and what follows.
#[cycle(navigation)]
#[tactic(auto, using(crate::proofs::Paths::deeper_path_is))]
fn inner_path<'a>(
    alloc: Global,
    text: &str,
    tokens: &'a [Token],
    room: usize,
) -> Parsed<'a, Navigation>
    requires room { 1 ≤ room }
    requires stands { All (IsToken text.now) tokens.now }
    ensures { Reads (deeper_path room) path_of text.now tokens.now result }
{
    path(alloc, text, tokens, room - 1)
}

/// A column or a navigation, and what follows.
#[cycle(navigation)]
#[tactic(auto, unfolding(crate::specs::NavigationGrammar::path, crate::specs::NavigationGrammar::plain, crate::specs::NavigationGrammar::column))]
fn path<'a>(alloc: Global, text: &str, tokens: &'a [Token], room: usize) -> Parsed<'a, Navigation>
    requires stands { All (IsToken text.now) tokens.now }
    ensures { Reads (path room (inside_path room)) path_of text.now tokens.now result }
{
    if begins_plain(tokens) {
        return plain(alloc, text, tokens, room);
    }
    let (scope, rest) = scope(text, tokens)?;
    edge(alloc, text, rest, room, scope)
}

/// Whether the tokens begin with a name, PREV or NEXT.
#[tactic(auto, unfolding(crate::specs::NavigationGrammar::plain, crate::specs::NavigationGrammar::column))]
pub(crate) fn begins_plain(tokens: &[Token]) -> bool
    ensures { result ≡ starts plain_kinds tokens.now }
{
    begins_name(tokens)
        || begins(tokens, TokenKind::Keyword(Keyword::Prev))
        || begins(tokens, TokenKind::Keyword(Keyword::Next))
}

/// A column, or a navigation by PREV or NEXT, and what follows.
#[cycle(navigation)]
#[tactic(auto, unfolding(crate::specs::NavigationGrammar::plain, crate::specs::NavigationGrammar::column))]
pub(crate) fn plain<'a>(
    alloc: Global,
    text: &str,
    tokens: &'a [Token],
    room: usize,
) -> Parsed<'a, Navigation>
    requires stands { All (IsToken text.now) tokens.now }
    ensures { Reads (plain room (inside_path room)) path_of text.now tokens.now result }
{
    if begins_name(tokens) {
        let (column, rest) = column(alloc, text, tokens)?;
        return Ok((Navigation::Column(column), rest));
    }
    if begins(tokens, TokenKind::Keyword(Keyword::Prev)) {
        return movement(alloc, text, tokens, room, Keyword::Prev, Movement::Prev);
    }
    movement(alloc, text, tokens, room, Keyword::Next, Movement::Next)
}

/// A navigation by the movement that this word asks for, and what follows.
#[cycle(navigation)]
fn movement<'a>(
    alloc: Global,
    text: &str,
    tokens: &'a [Token],
    room: usize,
    asked_by: Keyword,
    movement: Movement,
) -> Parsed<'a, Navigation>
    requires stands { All (IsToken text.now) tokens.now }
    ensures { Reads (gives (moved movement) (word (key asked_by) then argument room (inside_path room))) path_of
        text.now tokens.now result }
{
    let (at, rest) = word(text, tokens, TokenKind::Keyword(asked_by))?;
    let ((path, rows), rest) = argument(alloc, text, rest, room)?;
    Ok((moved(alloc, movement, at, path, rows)?, rest))
}

/// A navigation by FIRST or LAST under this scope, and what follows.
#[cycle(navigation)]
#[tactic(auto, unfolding(crate::specs::NavigationGrammar::edge))]
pub(crate) fn edge<'a>(
    alloc: Global,
    text: &str,
    tokens: &'a [Token],
    room: usize,
    scope: Option<Scope>,
) -> Parsed<'a, Navigation>
    requires stands { All (IsToken text.now) tokens.now }
    ensures { Reads (gives (λ f. f scope) (edge room (inside_path room))) path_of text.now tokens.now result }
{
    if begins(tokens, TokenKind::Keyword(Keyword::First)) {
        return movement(
            alloc,
            text,
            tokens,
            room,
            Keyword::First,
            Movement::First(scope),
        );
    }
    movement(
        alloc,
        text,
        tokens,
        room,
        Keyword::Last,
        Movement::Last(scope),
    )
}

fn moved(
    alloc: Global,
    movement: Movement,
    at: usize,
    argument: Navigation,
    offset: Option<Offset>,
) -> Result<Navigation, AllocError>
    ensures { IfOk result (λ path. path_of path ≡ Move movement at (path_of argument) offset) }
{
    Ok(Navigation::Move {
        movement,
        at,
        argument: Box::new(alloc, argument)?,
        offset,
    })
}
