//! Names and texts: the tokens that mean other bytes than those that they are written with.
//!
//! Plain names mean their upper-case form, so that `price` and `Price` are one. What stands between quotes is taken letter
//! for letter, and a quote inside of it is written twice: `"Net ""price"""` is the name `Net "price"`, `'it''s'` the text
//! `it's`.

ghost use Rattle.std.specs.Prelude.{◌≡◌, ◌⊎◌, All, IfOk};
ghost use Rattle.rp_lexer.specs.Lexes.{IsToken};
ghost use Rattle.rp_grammar.specs.Reading.{starts};
ghost use Rattle.rp_grammar.specs.Names.{name, name_in, name_kinds, text_in};
ghost use Rattle.rp_grammar.specs.Readers.{Reads, itself};

use crate::cursor::{Parsed, place};
use crate::fault::ParseFault;
use crate::written::Name;
use rp_lexer::{Token, TokenKind, name_of, text_of};
use rp_value::Text;
use std::alloc::{AllocError, Global};

/// Whether the tokens begin with a name, plain or quoted. A reserved word is none.
pub fn begins_name(tokens: &[Token]) -> bool
    ensures { result ≡ starts name_kinds tokens.now }
{
    match tokens.first() {
        Some(first) => first.kind == TokenKind::Name || first.kind == TokenKind::Quoted,
        None => false,
    }
}

/// What a token means as a name.
#[tactic(auto, using(crate::proofs::Names::names))]
pub fn named(alloc: Global, text: &str, token: Token) -> Result<Name, AllocError>
    requires stands { IsToken text.now token }
    requires name { (token.kind ≡ TokenKind.Name) ⊎ (token.kind ≡ TokenKind.Quoted) }
    ensures { IfOk result (λ name. name ≡ name_in text.now token) }
{
    let string = name_of(alloc, text, token)?;
    Ok(Name {
        text: Text::new(alloc, string)?,
        at: token.start,
    })
}

/// A name, and what follows it.
pub fn name<'a>(alloc: Global, text: &str, tokens: &'a [Token]) -> Parsed<'a, Name>
    requires stands { All (IsToken text.now) tokens.now }
    ensures { Reads name itself text.now tokens.now result }
{
    match tokens.split_first() {
        Some((first, rest)) if first.kind == TokenKind::Name => {
            Ok((named(alloc, text, *first)?, rest))
        }
        Some((first, rest)) if first.kind == TokenKind::Quoted => {
            Ok((named(alloc, text, *first)?, rest))
        }
        _ => Err(ParseFault::Expected(place(text, tokens))),
    }
}

/// What a token means as a text.
#[tactic(auto, using(crate::proofs::Names::texts))]
pub fn text_at(alloc: Global, text: &str, token: Token) -> Result<Text, AllocError>
    requires stands { IsToken text.now token }
    requires literal { token.kind ≡ TokenKind.Text }
    ensures { IfOk result (λ literal. literal ≡ text_in text.now token) }
{
    let string = text_of(alloc, text, token)?;
    Text::new(alloc, string)
}
