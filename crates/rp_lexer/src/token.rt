//! A token: which kind of it stands where in a text.

use crate::kind::TokenKind;

/// A token of a text. Offsets count bytes from 0.
#[derive(Clone, Copy)]
pub struct Token {
    /// What the token is.
    pub kind: TokenKind,
    /// The offset of its first byte.
    pub start: usize,
    /// The offset behind its last byte. A quoted name or a text has its quotes inside.
    pub end: usize,
}
