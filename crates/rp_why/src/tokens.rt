//! The tokens of a clause in its text.

use rp_lexer::{Keyword, Mark, Token, TokenKind};
use rp_wording::Pieces;
use std::alloc::{AllocError, Global};

/// Tokens of a clause: from one to the one before another, by their indexes.
#[derive(Clone, Copy)]
pub(crate) struct Range {
    /// The index of the first.
    pub(crate) from: usize,
    /// The index behind the last.
    pub(crate) to: usize,
}

impl Range {
    /// A token alone.
    pub(crate) fn one(index: usize) -> Range {
        Range {
            from: index,
            to: index.saturating_add(1),
        }
    }
}

/// A clause's text, and its tokens.
#[derive(Clone, Copy)]
pub(crate) struct Tokens<'a> {
    /// The text.
    pub(crate) text: &'a str,
    /// Its tokens.
    pub(crate) list: &'a [Token],
}

impl<'a> Tokens<'a> {
    /// The kind of a token.
    pub(crate) fn kind(&self, index: usize) -> Option<TokenKind> {
        match self.list.get(index) {
            Some(token) => Some(token.kind),
            None => None,
        }
    }

    /// Whether a token is this sign.
    pub(crate) fn is(&self, index: usize, mark: Mark) -> bool {
        self.kind(index) == Some(TokenKind::Mark(mark))
    }

    /// The first token of this reserved word, wherever it is.
    pub(crate) fn word(&self, keyword: Keyword) -> Option<usize> {
        for (index, token) in self.list.iter().enumerate() {
            if token.kind == TokenKind::Keyword(keyword) {
                return Some(index);
            }
        }
        None
    }

    /// The first token of a range that is of this kind and in no bracket of the range. So a closing bracket is found that is opened
    /// before the range.
    pub(crate) fn find(&self, range: Range, kind: TokenKind) -> Option<usize> {
        let mut depth: usize = 0;
        for index in range.from..range.to {
            let here = self.kind(index)?;
            if depth == 0 && here == kind {
                return Some(index);
            }
            depth = depth_behind(here, depth);
        }
        None
    }

    /// Whether a sign or a word is in a range, in no bracket of it.
    pub(crate) fn has(&self, range: Range, kind: TokenKind) -> bool {
        self.find(range, kind).is_some()
    }

    /// The bracket that closes the one at an index.
    pub(crate) fn closing(&self, index: usize) -> Option<usize> {
        let kind = match self.kind(index) {
            Some(TokenKind::Mark(Mark::LeftParenthesis)) => Mark::RightParenthesis,
            Some(TokenKind::Mark(Mark::LeftBrace)) => Mark::RightBrace,
            Some(TokenKind::Mark(Mark::LeftBraceMinus)) => Mark::RightBraceMinus,
            _ => return None,
        };
        let behind = Range {
            from: index.saturating_add(1),
            to: self.list.len(),
        };
        self.find(behind, TokenKind::Mark(kind))
    }

    /// A range without the brackets that are round all of it.
    pub(crate) fn without_brackets(&self, range: Range) -> Range {
        let mut inside = range;
        for _ in range.from..range.to {
            if !self.is(inside.from, Mark::LeftParenthesis)
                || self.closing(inside.from) != inside.to.checked_sub(1)
            {
                return inside;
            }
            inside = Range {
                from: inside.from.saturating_add(1),
                to: inside.to.saturating_sub(1),
            };
        }
        inside
    }

    /// Where a range begins and ends in the text, in bytes.
    pub(crate) fn bytes(&self, range: Range) -> (usize, usize) {
        let start = match self.list.get(range.from) {
            Some(token) => token.start,
            None => self.text.len(),
        };
        match range.to.checked_sub(1) {
            Some(last) if last >= range.from => match self.list.get(last) {
                Some(token) => (start, token.end),
                None => (start, start),
            },
            _ => (start, start),
        }
    }

    /// A range as it is written, in one line: a blank is between two tokens where anything is between them.
    pub(crate) fn written(&self, alloc: Global, range: Range) -> Result<String, AllocError> {
        let mut out = Pieces::new(alloc);
        let mut end = None;
        for token in self.list.get(range.from..range.to).unwrap_or(&[]) {
            if end.is_some() && end != Some(token.start) {
                out.push(" ");
            }
            out.push(self.text.get(token.start..token.end).unwrap_or(""));
            end = Some(token.end);
        }
        out.finish()
    }
}

/// How many brackets are open behind a token, by how many are before it.
fn depth_behind(kind: TokenKind, depth: usize) -> usize {
    match kind {
        TokenKind::Mark(Mark::LeftParenthesis | Mark::LeftBrace | Mark::LeftBraceMinus) => {
            depth.saturating_add(1)
        }
        TokenKind::Mark(Mark::RightParenthesis | Mark::RightBrace | Mark::RightBraceMinus) => {
            depth.saturating_sub(1)
        }
        _ => depth,
    }
}
