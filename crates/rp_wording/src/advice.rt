//! What is told of a place, and the tables of words that it is taken from.

use crate::pieces::Pieces;
use std::alloc::{AllocError, Global};

/// What is told of a place. Making it never fails: whoever asks for its texts is told where memory was refused to one.
pub struct Advice {
    what: Pieces,
    help: Pieces,
}

/// It is let go of by a call, wherever it is held.
impl Drop for Advice {
    fn drop(self) {
        let Advice { what: _, help: _ } = self;
    }
}

/// The same as texts of the program.
#[derive(Clone, Copy)]
pub struct Hint {
    /// What is wrong.
    pub what: &'static str,
    /// What to write.
    pub help: &'static str,
}

/// An entry of a table: words in upper case with blanks between, what is wrong with each of them, and what to write.
pub type Entry = (&'static str, &'static str, &'static str);

impl Advice {
    /// The advice of two texts: what is wrong, and what to write.
    pub fn new(alloc: Global, what: &str, help: &str) -> Advice {
        Advice::of_pieces(Pieces::of(alloc, what), Pieces::of(alloc, help))
    }

    /// The same, where what to write is put together already.
    pub fn with_help(alloc: Global, what: &str, help: Pieces) -> Advice {
        Advice::of_pieces(Pieces::of(alloc, what), help)
    }

    /// The same, where what is wrong is put together already.
    pub fn with_what(alloc: Global, what: Pieces, help: &str) -> Advice {
        Advice::of_pieces(what, Pieces::of(alloc, help))
    }

    /// The advice of what is wrong and what to write.
    pub fn of_pieces(what: Pieces, help: Pieces) -> Advice {
        Advice { what, help }
    }

    /// The advice of what is said.
    pub fn of(alloc: Global, said: Hint) -> Advice {
        Advice::new(alloc, said.what, said.help)
    }

    /// What is wrong, in a line behind the marks.
    pub fn what(&self) -> Result<&str, AllocError> {
        self.what.text()
    }

    /// What to write, a line for each help; it may be empty.
    pub fn help(&self) -> Result<&str, AllocError> {
        self.help.text()
    }
}

/// What is wrong, and what to write.
pub fn said(what: &'static str, help: &'static str) -> Option<Hint> {
    Some(Hint { what, help })
}

/// What a table says of a word, in any case.
pub fn look_up(table: &[Entry], word: &str) -> Option<Hint> {
    for (words, what, help) in table {
        if is_one_of(word, words) {
            return said(what, help);
        }
    }
    None
}

/// Whether a word is one of some words with blanks between, in any case.
pub fn is_one_of(word: &str, words: &str) -> bool {
    !word.is_empty() && words.split(' ').any(|one| one.eq_ignore_ascii_case(word))
}
