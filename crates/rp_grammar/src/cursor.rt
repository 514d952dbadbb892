//! Single tokens at the front of a list. Each reader gives what it read, and the tokens that follow.

ghost use Rattle.std.specs.Prelude.{◌≡◌, ◌≤◌, OnOk, All, IfOk, [], ◌∷◌};
ghost use Rattle.rp_lexer.specs.Lexes.{IsToken};
ghost use Rattle.rp_grammar.specs.Reading.{place, starts};
ghost use Rattle.rp_grammar.specs.Grammar.{word, number, opening};
ghost use Rattle.rp_grammar.specs.Readers.{Reads, itself, token};

use crate::fault::ParseFault;
use rp_lexer::{Token, TokenKind, number_of};

/// What a reader returns: what the front of some tokens stands for and the tokens that are left, or the first fault.
pub type Parsed<'a, T> = Result<(T, &'a [Token]), ParseFault>;

/// The offset of the first of the tokens, or of the end of the text where there is none.
pub fn place(text: &str, tokens: &[Token]) -> usize
    ensures { result ≡ place text.now tokens.now }
{
    match tokens.first() {
        Some(token) => token.start,
        None => text.len(),
    }
}

/// Whether the tokens begin with one of this kind.
pub fn begins(tokens: &[Token], kind: TokenKind) -> bool
    ensures { result ≡ starts (kind ∷ []) tokens.now }
{
    match tokens.first() {
        Some(first) => first.kind == kind,
        None => false,
    }
}

/// A token of this kind.
pub fn token<'a>(text: &str, tokens: &'a [Token], kind: TokenKind) -> Parsed<'a, Token>
    requires stands { All (IsToken text.now) tokens.now }
    ensures reads { Reads (token kind) itself text.now tokens.now result }
    ensures token { IfOk result (λ x. IsToken text.now x.0) }
    ensures kind { IfOk result (λ x. x.0.kind ≡ kind) }
{
    match tokens.split_first() {
        Some((first, rest)) if first.kind == kind => Ok((*first, rest)),
        _ => Err(ParseFault::Expected(place(text, tokens))),
    }
}

/// The offset of a token of this kind, as of a reserved word or a mark.
pub fn word<'a>(text: &str, tokens: &'a [Token], kind: TokenKind) -> Parsed<'a, usize>
    requires stands { All (IsToken text.now) tokens.now }
    ensures { Reads (word kind) itself text.now tokens.now result }
{
    let (token, rest) = token(text, tokens, kind)?;
    Ok((token.start, rest))
}

/// The offset of an opening bracket of this kind, where `room` brackets may still be opened.
pub fn opening<'a>(
    text: &str,
    tokens: &'a [Token],
    kind: TokenKind,
    room: usize,
) -> Parsed<'a, usize>
    requires stands { All (IsToken text.now) tokens.now }
    ensures reads { Reads (opening room kind) itself text.now tokens.now result }
    ensures room { OnOk result (1 ≤ room) }
{
    let (at, rest) = word(text, tokens, kind)?;
    if room == 0 {
        return Err(ParseFault::Deep(at));
    }
    Ok((at, rest))
}

/// The value of a number, below 2^63.
pub fn number<'a>(text: &str, tokens: &'a [Token]) -> Parsed<'a, u64>
    requires stands { All (IsToken text.now) tokens.now }
    ensures { Reads number itself text.now tokens.now result }
{
    let (token, rest) = token(text, tokens, TokenKind::Number)?;
    Ok((number_of(text, token), rest))
}
