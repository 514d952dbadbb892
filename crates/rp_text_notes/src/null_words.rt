//! Words that other programs wrote for a null in a column of texts.

use crate::texts::ColumnTexts;
use rp_wording::{Pieces, noun};
use std::alloc::{AllocError, Global};

/// The words for null in a column.
pub(crate) struct NullWords {
    /// Each once, in the order in which they come.
    words: Vec<String>,
    /// How many fields have one.
    count: usize,
}

/// It is let go of by a call, wherever it is held.
impl Drop for NullWords {
    fn drop(self) {
        let NullWords { words: _, count: _ } = self;
    }
}

impl NullWords {
    /// None.
    pub(crate) fn new(alloc: Global) -> NullWords {
        NullWords {
            words: Vec::new(alloc),
            count: 0,
        }
    }

    /// Those of a column.
    pub(crate) fn of(alloc: Global, column: ColumnTexts<'_>) -> Result<NullWords, AllocError> {
        let mut found = NullWords::new(alloc);
        for row in column.rows {
            if let Some(word) = column.null_word(row) {
                found.add(alloc, word)?;
                found.count = found.count.saturating_add(1);
            }
        }
        Ok(found)
    }

    /// Those of a column that are hardly ever texts.
    pub(crate) fn sure_of(alloc: Global, column: ColumnTexts<'_>) -> Result<NullWords, AllocError> {
        let mut found = NullWords::new(alloc);
        for row in column.rows {
            if let Some(word) = column.null_word(row) {
                if is_sure(word.trim()) {
                    found.add(alloc, word)?;
                    found.count = found.count.saturating_add(1);
                }
            }
        }
        Ok(found)
    }

    pub(crate) fn is_empty(&self) -> bool {
        self.words.is_empty()
    }

    /// How many fields have one of them.
    pub(crate) fn count(&self) -> usize {
        self.count
    }

    /// Adds those of another column.
    pub(crate) fn add_all(&mut self, alloc: Global, others: &NullWords) -> Result<(), AllocError> {
        for word in &others.words {
            self.add(alloc, word.as_str())?;
        }
        Ok(())
    }

    /// Adds a word, unless it is there.
    fn add(&mut self, alloc: Global, word: &str) -> Result<(), AllocError> {
        if !self.has(word) {
            self.words.push(String::from_str(alloc, word)?)?;
        }
        Ok(())
    }

    fn has(&self, word: &str) -> bool {
        for known in &self.words {
            if known.as_str() == word {
                return true;
            }
        }
        false
    }

    /// Writes how many fields have one of them, and which they are.
    pub(crate) fn push_count(&self, line: &mut Pieces) {
        line.push_count(self.count);
        line.push(noun(self.count, " field is", " fields are"));
        for (index, word) in self.words.iter().enumerate() {
            line.push(if index == 0 { " '" } else { " or '" });
            line.push_start(word.as_bytes());
            line.push("'");
        }
    }

    /// Writes the options that name them, each with a blank behind it.
    pub(crate) fn push_options(&self, line: &mut Pieces) {
        for word in &self.words {
            line.push("--null ");
            line.push_shell_word(word.as_str());
            line.push(" ");
        }
    }
}

/// Whether a word for null is one that programs write, and people hardly ever do.
fn is_sure(word: &str) -> bool {
    matches!(word, "NULL" | "null" | "\\N" | "None" | "NaN")
}
