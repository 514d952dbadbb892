//! The tokens round a place of a text.

use rp_lexer::{Keyword, LexFault, Mark, Token, TokenKind, lex};
use rp_place::Span;
use std::alloc::{AllocError, Global};

/// A part of a clause.
#[derive(Clone, Copy, PartialEq, Eq)]
pub enum Part {
    /// Before any part.
    Front,
    /// PARTITION BY
    Partition,
    /// ORDER BY
    Order,
    /// MEASURES
    Measures,
    /// ONE ROW or ALL ROWS PER MATCH
    Rows,
    /// AFTER MATCH SKIP
    Skip,
    /// PATTERN
    Pattern,
    /// SUBSET
    Subset,
    /// DEFINE
    Define,
}

/// A text's tokens, and one of them that is looked at.
#[derive(Clone, Copy)]
pub struct Reading<'a> {
    /// The text.
    pub text: &'a str,
    /// Its tokens.
    pub tokens: &'a [Token],
    /// The index of the token; the number of tokens at the end of the text.
    pub at: usize,
}

impl<'a> Reading<'a> {
    /// The reading at the first token from an offset on.
    pub fn new(text: &'a str, tokens: &'a [Token], offset: usize) -> Reading<'a> {
        let at = tokens
            .iter()
            .position(|token| token.start >= offset)
            .unwrap_or(tokens.len());
        Reading { text, tokens, at }
    }

    /// What stands at a token; nothing where there is none.
    pub fn written(&self, index: usize) -> &'a str {
        match self.tokens.get(index) {
            Some(token) => self.text.get(token.start..token.end).unwrap_or(""),
            None => "",
        }
    }

    /// What stands at the place.
    pub fn here(&self) -> &'a str {
        self.written(self.at)
    }

    /// What stands so many tokens behind the place.
    pub fn next(&self, count: usize) -> &'a str {
        self.written(self.at.saturating_add(count))
    }

    /// What stands so many tokens before the place.
    pub fn back(&self, count: usize) -> &'a str {
        match self.at.checked_sub(count) {
            Some(index) => self.written(index),
            None => "",
        }
    }

    /// The kind of a token.
    pub fn kind(&self, index: usize) -> Option<TokenKind> {
        match self.tokens.get(index) {
            Some(token) => Some(token.kind),
            None => None,
        }
    }

    /// The kind of the token at the place.
    pub fn kind_here(&self) -> Option<TokenKind> {
        self.kind(self.at)
    }

    /// The kind of the token so many before the place.
    pub fn kind_back(&self, count: usize) -> Option<TokenKind> {
        match self.at.checked_sub(count) {
            Some(index) => self.kind(index),
            None => None,
        }
    }

    /// Whether a reserved word stands at the place.
    pub fn is_keyword(&self) -> bool {
        matches!(self.kind_here(), Some(TokenKind::Keyword(_)))
    }

    /// Whether a name without quotes stands at the place.
    pub fn is_name(&self) -> bool {
        self.kind_here() == Some(TokenKind::Name)
    }

    /// Whether the text ends at the place.
    pub fn is_end(&self) -> bool {
        self.at >= self.tokens.len()
    }

    /// Whether the token at the place follows the one before without a gap.
    pub fn touches(&self) -> bool {
        let Some(before) = self.at.checked_sub(1) else {
            return false;
        };
        match (self.tokens.get(before), self.tokens.get(self.at)) {
            (Some(one), Some(other)) => one.end == other.start,
            _ => false,
        }
    }

    /// Where the token at the place stands; at the end of the text behind the last token.
    pub fn span(&self) -> Span {
        if let Some(token) = self.tokens.get(self.at) {
            return Span {
                start: token.start,
                end: token.end,
            };
        }
        match self.tokens.last() {
            Some(token) => Span {
                start: token.end,
                end: token.end,
            },
            None => Span { start: 0, end: 0 },
        }
    }

    /// The part in which the place stands: that of the last word before it that begins one.
    pub fn part(&self) -> Part {
        let mut part = Part::Front;
        for token in self.tokens.iter().take(self.at) {
            part = part_of(token.kind).unwrap_or(part);
        }
        part
    }

    /// Whether a token of this kind stands before the place.
    pub fn has_before(&self, kind: TokenKind) -> bool {
        self.tokens
            .iter()
            .take(self.at)
            .any(|token| token.kind == kind)
    }

    /// The index of the innermost bracket before the place that isn't closed there.
    pub fn open_bracket(&self) -> Option<usize> {
        let mut closed = 0usize;
        for (index, token) in self.tokens.iter().enumerate().take(self.at).rev() {
            let (found, left) = open_at(token.kind, closed);
            if found {
                return Some(index);
            }
            closed = left;
        }
        None
    }

    /// The word before the innermost open bracket, as SUM.
    pub fn function(&self) -> &'a str {
        match self.open_bracket() {
            Some(index) => match index.checked_sub(1) {
                Some(before) => self.written(before),
                None => "",
            },
            None => "",
        }
    }

    /// Whether the place stands in brackets, those of MATCH_RECOGNIZE aside.
    pub fn is_in_brackets(&self) -> bool {
        self.open_bracket().is_some() && !self.function().eq_ignore_ascii_case("MATCH_RECOGNIZE")
    }

    /// Whether the bracket of MATCH_RECOGNIZE is closed before the place.
    pub fn is_behind(&self) -> bool {
        self.kind(0) == Some(TokenKind::Keyword(Keyword::MatchRecognize))
            && self.at > 2
            && self.open_bracket().is_none()
    }
}

/// Whether this token, met going backwards behind so many closing brackets, is the open bracket; and how many there are then.
pub(crate) fn open_at(kind: TokenKind, closed: usize) -> (bool, usize) {
    match kind {
        TokenKind::Mark(Mark::RightParenthesis) => (false, closed.saturating_add(1)),
        TokenKind::Mark(Mark::LeftParenthesis) => (closed == 0, closed.saturating_sub(1)),
        _ => (false, closed),
    }
}

/// The part that a word begins.
pub fn part_of(kind: TokenKind) -> Option<Part> {
    match kind {
        TokenKind::Keyword(Keyword::Partition) => Some(Part::Partition),
        TokenKind::Keyword(Keyword::Order) => Some(Part::Order),
        TokenKind::Keyword(Keyword::Measures) => Some(Part::Measures),
        TokenKind::Keyword(Keyword::One) => Some(Part::Rows),
        TokenKind::Keyword(Keyword::All) => Some(Part::Rows),
        TokenKind::Keyword(Keyword::After) => Some(Part::Skip),
        TokenKind::Keyword(Keyword::Pattern) => Some(Part::Pattern),
        TokenKind::Keyword(Keyword::Subset) => Some(Part::Subset),
        TokenKind::Keyword(Keyword::Define) => Some(Part::Define),
        _ => None,
    }
}

/// The tokens of a text; none where it has a fault of its own.
pub fn tokens_of(alloc: Global, text: &str) -> Result<Vec<Token>, AllocError> {
    match lex(alloc, text) {
        Ok(tokens) => Ok(tokens),
        Err(LexFault::OutOfMemory) => Err(AllocError),
        Err(_) => Ok(Vec::new(alloc)),
    }
}
