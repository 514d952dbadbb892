//! Cuts the token that stands at a place of a text.

ghost use Rattle.std.specs.Prelude.{◌≡◌, ◌≢◌, ◌↔◌, IsTrue, ℕ, ◌+◌, ◌<◌, ◌≤◌, true, false, length, slice_index, slice_range, drop, take, All, IfOk, IfErr, MatchOption};
ghost use Rattle.std.specs.Char.{is_ascii_digit};
ghost use Rattle.std.specs.Str.{str_eq_ignore_ascii_case};
ghost use Rattle.std.specs.Str.Parse.{digits_value};
ghost use Rattle.rp_lexer.specs.Spelling.{keyword_spelling, mark_spelling};
ghost use Rattle.rp_lexer.specs.Forms.{is_name_start, is_name_byte, IsIdentifier, SpellsAlike, single_quote, double_quote};
ghost use Rattle.rp_lexer.specs.Lexes.{IsToken, IsInRange};
ghost use Rattle.rp_lexer.specs.Faults.{IsFault, offset};
ghost use Rattle.rp_lexer.specs.Scan.{Stops, IsRun, entries, word_in, begins_with, mark_in, Closes, NeverCloses, IsLongestMark, BeginsNoMark, IsSign};

use crate::fault::LexFault;
use crate::kind::{KEYWORDS, Keyword, MARKS, Mark, TokenKind};
use crate::token::Token;
use rp_value::is_name_byte;

/// How many letters, digits and `_` the bytes begin with.
fn name_len(rest: &[u8]) -> usize
    ensures { IsRun is_name_byte rest.now result }
{
    for (len, byte) in rest.iter().enumerate() {
        if !is_name_byte(*byte) {
            return len;
        }
    }
    rest.len()
}

/// How many digits the bytes begin with.
fn digits_len(rest: &[u8]) -> usize
    ensures { IsRun is_ascii_digit rest.now result }
{
    for (len, byte) in rest.iter().enumerate() {
        if !byte.is_ascii_digit() {
            return len;
        }
    }
    rest.len()
}

/// Whether the words are the same but for the case of their letters.
fn spells_alike(name: &[u8], other: &[u8]) -> bool
    ensures { result ≡ str_eq_ignore_ascii_case name.now other.now }
{
    name.eq_ignore_ascii_case(other)
}

/// The first word of the table that the name spells.
fn find_word(mut table: &[(&[u8], Keyword)], name: &[u8]) -> Option<Keyword>
    ensures { result ≡ word_in (entries table.entry.now) name.now }
{
    while let [(spelling, word), rest @ ..] = table {
        if spells_alike(spelling, name) {
            return Some(*word);
        }
        table = rest;
    }
    None
}

/// The reserved word, where the name is one.
fn keyword(name: &[u8]) -> Option<Keyword>
    ensures { MatchOption result ((word : Keyword) → SpellsAlike name.now (keyword_spelling word) → ⊥)
        (λ word. SpellsAlike name.now (keyword_spelling word)) }
{
    find_word(&KEYWORDS, name)
}

/// A name or a reserved word.
fn word(text: &[u8], start: usize) -> Token
    requires starts { is_name_start (slice_index text.now start) ≡ true }
    requires within { start < length text.now }
    ensures token { IsToken text.now result }
    ensures start { result.start ≡ start }
{
    let end = start + name_len(&text[start..]);
    let kind = match keyword(&text[start..end]) {
        Some(word) => TokenKind::Keyword(word),
        None => TokenKind::Name,
    };
    Token { kind, start, end }
}

/// The greatest number.
const GREATEST: u64 = 9_223_372_036_854_775_807;

/// The value of the digits, where it is at most 9223372036854775807.
pub(crate) fn value_of(digits: &[u8]) -> Option<u64>
    requires { All (λ b. is_ascii_digit b ≡ true) digits.now }
    ensures { MatchOption result (IsInRange digits.now → ⊥)
        (λ value. (value ≡ digits_value 10 digits.now) × IsInRange digits.now) }
{
    let mut value = 0;
    for byte in digits {
        let digit = u64::from(*byte - b'0');
        if value > (GREATEST - digit) / 10 {
            return None;
        }
        value = value * 10 + digit;
    }
    Some(value)
}

/// Where the quote that the bytes begin with closes, or nothing where it never does.
fn closing(rest: &[u8]) -> Option<usize>
    requires { 0 < length rest.now }
    ensures { MatchOption result (NeverCloses (slice_index rest.now 0) rest.now)
        (λ len. Closes (slice_index rest.now 0) rest.now len) }
{
    let quote = rest[0];
    let mut at = 1;
    while at < rest.len() {
        if rest[at] != quote {
            at += 1;
            continue;
        }
        if at + 1 == rest.len() || rest[at + 1] != quote {
            return Some(at + 1);
        }
        at += 2;
    }
    None
}

/// Whether the text begins with these bytes.
fn begins_with(rest: &[u8], front: &[u8]) -> bool
    ensures { result ≡ begins_with rest.now front.now }
{
    rest.starts_with(front)
}

/// The first mark of the table that the bytes begin with, and its length.
fn find_mark(mut table: &[(&[u8], Mark)], rest: &[u8]) -> Option<(Mark, usize)>
    ensures { result ≡ mark_in (entries table.entry.now) rest.now }
{
    while let [(spelling, mark), others @ ..] = table {
        if begins_with(rest, spelling) {
            return Some((*mark, spelling.len()));
        }
        table = others;
    }
    None
}

/// The longest mark that the bytes begin with, and its length.
fn mark(rest: &[u8]) -> Option<(Mark, usize)>
    ensures { MatchOption result (BeginsNoMark rest.now)
        (λ found. IsLongestMark rest.now found.0 found.1) }
{
    find_mark(&MARKS, rest)
}

/// The number that begins at the place.
fn number(text: &[u8], start: usize) -> Result<Token, LexFault>
    requires digit { is_ascii_digit (slice_index text.now start) ≡ true }
    requires within { start < length text.now }
    ensures ok { IfOk result (λ token. IsToken text.now token × (token.start ≡ start)) }
    ensures err { IfErr result (λ fault. IsFault text.now fault × (offset fault ≡ start)) }
{
    let end = start + digits_len(&text[start..]);
    match value_of(&text[start..end]) {
        Some(_) => Ok(Token {
            kind: TokenKind::Number,
            start,
            end,
        }),
        None => Err(LexFault::NumberRange(start)),
    }
}

/// The text literal that begins at the place.
fn literal(text: &[u8], start: usize) -> Result<Token, LexFault>
    requires quote { slice_index text.now start ≡ single_quote }
    requires within { start < length text.now }
    ensures ok { IfOk result (λ token. IsToken text.now token × (token.start ≡ start)) }
    ensures err { IfErr result (λ fault. IsFault text.now fault × (offset fault ≡ start)) }
{
    match closing(&text[start..]) {
        Some(length) => Ok(Token {
            kind: TokenKind::Text,
            start,
            end: start + length,
        }),
        None => Err(LexFault::OpenText(start)),
    }
}

/// The quoted name that begins at the place.
fn quoted(text: &[u8], start: usize) -> Result<Token, LexFault>
    requires quote { slice_index text.now start ≡ double_quote }
    requires within { start < length text.now }
    ensures ok { IfOk result (λ token. IsToken text.now token × (token.start ≡ start)) }
    ensures err { IfErr result (λ fault. IsFault text.now fault × (offset fault ≡ start)) }
{
    match closing(&text[start..]) {
        Some(2) => Err(LexFault::BadChar(start)),
        Some(length) => Ok(Token {
            kind: TokenKind::Quoted,
            start,
            end: start + length,
        }),
        None => Err(LexFault::OpenName(start)),
    }
}

/// The mark that begins at the place.
fn marked(text: &[u8], start: usize) -> Result<Token, LexFault>
    requires stops { Stops text.now start }
    requires sign { IsSign (slice_index text.now start) }
    requires within { start < length text.now }
    ensures ok { IfOk result (λ token. IsToken text.now token × (token.start ≡ start)) }
    ensures err { IfErr result (λ fault. IsFault text.now fault × (offset fault ≡ start)) }
{
    match mark(&text[start..]) {
        Some((mark, length)) => Ok(Token {
            kind: TokenKind::Mark(mark),
            start,
            end: start + length,
        }),
        None => Err(LexFault::BadChar(start)),
    }
}

/// The token that stands at the place, or the fault there.
pub(crate) fn token_at(text: &[u8], start: usize) -> Result<Token, LexFault>
    requires stops { Stops text.now start }
    requires within { start < length text.now }
    ensures ok { IfOk result (λ token. IsToken text.now token × (token.start ≡ start)) }
    ensures err { IfErr result (λ fault. IsFault text.now fault × (offset fault ≡ start)) }
{
    match text[start] {
        b'a'..=b'z' | b'A'..=b'Z' | b'_' => Ok(word(text, start)),
        b'0'..=b'9' => number(text, start),
        b'\'' => literal(text, start),
        b'"' => quoted(text, start),
        _ => marked(text, start),
    }
}
