//! A text that is put together of pieces.

use crate::names::{shown, upper_case};
use itoa::Buffer;
use rp_place::{push_help, shown_character};
use std::alloc::{AllocError, Global};

/// So many names of a list are told.
const TOLD: usize = 16;

/// So many characters of bytes are told.
const START: usize = 40;

/// A text that is put together of pieces. Adding one never fails: once memory is refused to a piece, no further one is taken, and
/// whoever asks for the text is told.
#[derive(Drop)]
pub struct Pieces {
    text: String,
    is_cut: bool,
}

impl Pieces {
    /// A text without a piece.
    pub fn new(alloc: Global) -> Pieces {
        Pieces {
            text: String::new(alloc),
            is_cut: false,
        }
    }

    /// A text of one piece.
    pub fn of(alloc: Global, piece: &str) -> Pieces {
        let mut text = Pieces::new(alloc);
        text.push(piece);
        text
    }

    /// A form in which values stand, each in the place of a `{}`.
    pub fn filled(alloc: Global, form: &str, values: &[&str]) -> Pieces {
        let mut text = Pieces::new(alloc);
        text.push_filled(form, values);
        text
    }

    /// Adds a piece.
    pub fn push(&mut self, piece: &str) {
        if !self.is_cut && self.text.push_str(piece).is_err() {
            self.is_cut = true;
        }
    }

    /// Adds a form in which values stand, each in the place of a `{}`.
    pub fn push_filled(&mut self, form: &str, values: &[&str]) {
        for (index, piece) in form.split("{}").enumerate() {
            if let Some(before) = index.checked_sub(1) {
                self.push(value_at(values, before));
            }
            self.push(piece);
        }
    }

    /// Adds a text, unless memory was refused to it.
    pub fn push_made(&mut self, made: Result<String, AllocError>) {
        match made {
            Ok(text) => self.push(text.as_str()),
            Err(_) => self.is_cut = true,
        }
    }

    /// Adds a name as it may be typed.
    pub fn push_name(&mut self, name: &str) {
        let typed = shown(*self.text.allocator(), name);
        self.push_made(typed);
    }

    /// Adds a text as one word of a shell: in single quotes, of which it may have some itself.
    pub fn push_shell_word(&mut self, text: &str) {
        self.push("'");
        for (index, part) in text.split('\'').enumerate() {
            if index > 0 {
                self.push("'\\''");
            }
            self.push(part);
        }
        self.push("'");
    }

    /// Adds names with commas between, as they may be typed; of a long list the first ones.
    pub fn push_names(&mut self, names: &[String]) {
        for (index, name) in names.iter().enumerate().take(TOLD) {
            if index > 0 {
                self.push(", ");
            }
            self.push_name(name.as_str());
        }
        if names.len() > TOLD {
            self.push(" and ");
            self.push_count(names.len() - TOLD);
            self.push(" more");
        }
    }

    /// Adds how many there are.
    pub fn push_count(&mut self, count: usize) {
        let mut digits = Buffer::new();
        self.push(digits.format(count));
    }

    /// Adds a number.
    pub fn push_number(&mut self, number: u64) {
        let mut digits = Buffer::new();
        self.push(digits.format(number));
    }

    /// Adds a line and a column of it.
    pub fn push_place(&mut self, line: usize, column: usize) {
        self.push("line ");
        self.push_count(line);
        self.push(", column ");
        self.push_count(column);
    }

    /// Adds the first characters of bytes, as they are shown on a terminal.
    pub fn push_start(&mut self, bytes: &[u8]) {
        let start = start_of(*self.text.allocator(), bytes);
        self.push_made(start);
    }

    /// Adds what to write, each line of it behind `  help: `.
    pub fn push_help(&mut self, help: &str) {
        if push_help(&mut self.text, help).is_err() {
            self.is_cut = true;
        }
    }

    /// Adds the upper-case form of a text.
    pub fn push_upper(&mut self, text: &str) {
        let upper = upper_case(*self.text.allocator(), text);
        self.push_made(upper);
    }

    /// Whether nothing was added, and memory was refused to nothing.
    pub fn is_empty(&self) -> bool {
        self.text.is_empty() && !self.is_cut
    }

    /// The text, unless memory was refused to a piece of it.
    pub fn text(&self) -> Result<&str, AllocError> {
        if self.is_cut {
            return Err(AllocError);
        }
        Ok(self.text.as_str())
    }

    /// The text as its own, unless memory was refused to a piece of it.
    pub fn finish(self) -> Result<String, AllocError> {
        if self.is_cut {
            return Err(AllocError);
        }
        Ok(self.text)
    }
}

/// A value by its index.
fn value_at<'a>(values: &[&'a str], index: usize) -> &'a str {
    match values.get(index) {
        Some(value) => value,
        None => "",
    }
}

/// The first characters of bytes, as they are shown on a terminal.
fn start_of(alloc: Global, bytes: &[u8]) -> Result<String, AllocError> {
    let text = String::from_utf8_lossy(alloc, bytes)?;
    let mut start = String::new(alloc);
    for character in text.as_str().chars().take(START) {
        start.push(shown_character(character))?;
    }
    Ok(start)
}
