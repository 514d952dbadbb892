//! A line as the rows of a partition.
ghost use Rattle.std.specs.Prelude.{◌≡◌, ◌≤◌, length};
ghost use Rattle.rp_trace.specs.LetterTest.{admits_letter};
ghost use Rattle.rp_trace.specs.Limits.{longest_line};

use rp_search::Tests;
use rp_words::{End, Label, Pattern, Seen};
use std::alloc::AllocError;

/// A closed partition with a row for each letter of a line. Variable Z admits every row, any other its own letter.
#[derive(Drop)]
pub(crate) struct Letters<'a> {
    line: &'a [u8],
    /// The pattern whose match is looked for. It is named so that a search remembers where it failed.
    pattern: &'a Pattern,
    /// How many calls of `enter` were made, up to 2^64 - 1, where the count stays.
    entries: u64,
    ghost short: { length line.now ≤ longest_line },
}

/// The longest line whose match is looked for, in bytes, as `specs/Limits` has it.
pub(crate) const MAX_LINE: usize = 4096;

/// The variables of a pattern are the letters A to Z, as `specs/Limits` has it.
pub(crate) const VARIABLES: usize = 26;

/// The variable that admits every row.
const ANY: usize = 25;

impl<'a> Letters<'a> {
    ghost use Rattle.std.specs.Prelude.{◌≡◌, ◌≤◌, length};
    ghost use Rattle.rp_words.specs.PatternForm.{form_of};
    ghost use Rattle.rp_trace.specs.LetterRows.{sought_by};

    /// The rows of a line, none of which was entered yet.
    pub fn new(line: &'a [u8], pattern: &'a Pattern) -> Self
        requires { length line.now ≤ longest_line }
        ensures line { (sought_by result).line ≡ line.entry.now }
        ensures form { (sought_by result).form ≡ form_of pattern.entry.now }
    {
        Letters {
            line,
            pattern,
            entries: 0,
        }
    }
}

impl Tests for Letters<'_> {
    ghost use Rattle.std.specs.Prelude.{length};
    ghost use Rattle.rp_trace.specs.LetterRows.{Sought, asked_of_line, sought_by};
    ghost use Rattle.rp_trace.specs.LetterLaws.{letter_test-decided, short_fits};

    ghost Subject = { Sought };

    ghost subject = { sought_by };

    ghost asked = { asked_of_line };

    // A letter is tested alone, so no labels are kept.
    ghost entered = { λ _ _ _. Unit {0} };

    ghost entries = { λ letters. letters.entries };

    // A letter is refused alone, so for ever.
    ghost always = { λ _. Unit {0} };

    fn known(&self) -> u64 {
        self.line.len() as u64
    }

    fn end(&self) -> End {
        End::Closed
    }

    fn variables(&self) -> usize {
        VARIABLES
    }

    fn is_lasting(&self) -> bool {
        true
    }

    fn refused_until(&self, _start: u64, _labels: &[Label], _most: u64) -> u64 {
        u64::MAX
    }

    fn test(&self, start: u64, labels: &[Label]) -> Seen {
        let label = labels[labels.len() - 1];
        let row = start as usize + labels.len() - 1;
        let letter = self.line[row - 1];
        if admits_letter(label.var, letter) {
            Seen::True
        } else {
            Seen::NotTrue
        }
    }

    fn enter(&mut self, _start: u64, _labels: &[Label]) -> Result<(), AllocError> {
        self.entries = self.entries.saturating_add(1);
        Ok(())
    }

    fn cut(&mut self, _depth: usize) {}

    ghost few = { λ letters. short_fits (length letters.line.now) letters.short };

    ghost decided = { λ letters start labels _. letter_test-decided letters.line.now start labels };
}

/// Whether a row with this letter is admitted for the variable.
fn admits_letter(var: usize, letter: u8) -> bool
    ensures { result ≡ admits_letter var letter }
{
    var == ANY || (letter >= b'a' && usize::from(letter - b'a') == var)
}
