//! What names, texts and numbers mean.

ghost use Rattle.std.specs.Prelude.{◌≡◌, ℕ, ◌<◌, ◌^◌, ◌⊎◌, List, IfOk};
ghost use Rattle.std.specs.String.{string_bytes};
ghost use Rattle.rp_lexer.specs.Forms.{doubled, enclosed};
ghost use Rattle.rp_lexer.specs.Lexes.{IsToken};
ghost use Rattle.rp_lexer.specs.Meanings.{bytes_of, IsNameOf, IsTextOf, number_of};

use crate::kind::TokenKind;
use crate::scan;
use crate::token::Token;
use std::alloc::{AllocError, Global};

/// The name that a token of the text means: the upper-case form of a name, or what stands inside the quotes.
/// So `abc` means ABC, and `"a""b"` means `a"b`.
pub fn name_of(alloc: Global, text: &str, token: Token) -> Result<String, AllocError>
    requires stands { IsToken text.now token }
    requires name { (token.kind ≡ TokenKind.Name) ⊎ (token.kind ≡ TokenKind.Quoted) }
    ensures { IfOk result (λ name. IsNameOf text.now token (string_bytes name)) }
{
    match token.kind {
        TokenKind::Quoted => unquoted(alloc, text, token, '"'),
        _ => upper_case(alloc, text, token),
    }
}

/// What a text literal of the text means: what stands inside the quotes. So `'it''s'` means `it's`.
pub fn text_of(alloc: Global, text: &str, token: Token) -> Result<String, AllocError>
    requires stands { IsToken text.now token }
    requires literal { token.kind ≡ TokenKind.Text }
    ensures { IfOk result (λ literal. IsTextOf text.now token (string_bytes literal)) }
{
    unquoted(alloc, text, token, '\'')
}

/// The value of a number of the text.
pub fn number_of(text: &str, token: Token) -> u64
    requires stands { IsToken text.now token }
    requires number { token.kind ≡ TokenKind.Number }
    ensures value { result ≡ number_of text.now token }
    ensures in_range { result < 2 ^ 63 }
{
    let digits = &text.as_bytes()[token.start..token.end];
    scan::value_of(digits).unwrap()
}

/// The upper-case form of a name.
fn upper_case(alloc: Global, text: &str, token: Token) -> Result<String, AllocError>
    requires stands { IsToken text.now token }
    requires name { token.kind ≡ TokenKind.Name }
    ensures { IfOk result (λ name. IsNameOf text.now token (string_bytes name)) }
{
    let mut name = String::from_str(alloc, &text[token.start..token.end])?;
    name.make_ascii_uppercase();
    Ok(name)
}

/// What stands between the quotes of a token, where two in a row stand for one.
fn unquoted(alloc: Global, text: &str, token: Token, quote: char) -> Result<String, AllocError>
    requires stands { IsToken text.now token }
    requires ascii { quote < 128 }
    requires quotes { (inside : List ℕ) × (bytes_of text.now token ≡ enclosed quote inside) }
    ensures { IfOk result (λ inside. bytes_of text.now token ≡ enclosed quote (string_bytes inside)) }
{
    undoubled(alloc, &text[token.start + 1..token.end - 1], quote)
}

/// The bytes of the text, where two quotes in a row stand for one.
fn undoubled(alloc: Global, mut rest: &str, quote: char) -> Result<String, AllocError>
    requires ascii { quote < 128 }
    requires doubled { (inside : List ℕ) × (rest.now ≡ doubled quote inside) }
    ensures { IfOk result (λ inside. rest.entry.now ≡ doubled quote (string_bytes inside)) }
{
    let mut text = String::new(alloc);
    while let Some(at) = rest.find(quote) {
        text.push_str(&rest[..at + 1])?;
        rest = &rest[at + 2..];
    }
    text.push_str(rest)?;
    Ok(text)
}
