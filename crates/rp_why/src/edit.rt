//! A clause that is written anew in some of its places.

use crate::tokens::{Range, Tokens};
use rp_wording::Pieces;
use std::alloc::{AllocError, Global};

/// A clause's text up to one of its places, with other words in some places before. Adding words never fails: whoever asks for the
/// whole text is told where memory was refused.
#[derive(Drop)]
pub(crate) struct Edited<'a> {
    tokens: Tokens<'a>,
    text: Pieces,
    from: usize,
}

impl<'a> Edited<'a> {
    /// Nothing of a clause.
    pub(crate) fn new(alloc: Global, tokens: Tokens<'a>) -> Edited<'a> {
        Edited {
            tokens,
            text: Pieces::new(alloc),
            from: 0,
        }
    }

    /// The text on to a range, and words in place of the range.
    pub(crate) fn replace(&mut self, range: Range, words: &str) {
        let (start, end) = self.tokens.bytes(range);
        self.replace_bytes(start, end, words);
    }

    /// The text on to the end of a range, and words behind it.
    pub(crate) fn insert_behind(&mut self, range: Range, words: &str) {
        let (_, end) = self.tokens.bytes(range);
        self.replace_bytes(end, end, words);
    }

    /// The text on to a byte, and words in place of what is before another byte.
    fn replace_bytes(&mut self, start: usize, end: usize, words: &str) {
        self.text
            .push(self.tokens.text.get(self.from..start).unwrap_or(""));
        self.text.push(words);
        self.from = end;
    }

    /// The whole text.
    pub(crate) fn finish(self) -> Result<String, AllocError> {
        let mut text = self.text;
        text.push(self.tokens.text.get(self.from..).unwrap_or(""));
        text.finish()
    }
}
