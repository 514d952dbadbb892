//! The quotes of a text that comes piece by piece.
ghost use Rattle.std.specs.Prelude.{ℕ, ◌++◌, ◌∷◌, [], List, MatchOption, ◌≡◌, true, false};
ghost use Rattle.rp_quotes.specs.Quotes.{HasNoQuoteBehindBlanks, HasNoStray, IsFirstQuoteBehindBlanks, IsFirstStray};
ghost use Rattle.rp_quotes.specs.Quotes.{IsQuotedFrom, LeavesQuoteOpen};
ghost use Rattle.rp_quotes.specs.Watching.{HasSeen, LeadsTo, behind_blank_by, is_blank_by, line_with, opened_by, stray_behind};

use crate::mark::Mark;
use crate::quoting::{QUOTE, Quoting};

/// What some programs write behind each delimiter.
const BLANK: u8 = b' ';

/// A field that goes on behind its closing quote.
#[derive(Clone, Copy)]
pub struct Stray {
    /// The number of the line in which the field begins, from 1.
    pub begins: u64,
    /// The number of the line in which it goes on.
    pub goes_on: u64,
}

/// Follows the bytes of a CSV text, piece by piece, as far as its quotes go.
#[derive(Clone, Copy)]
pub struct QuoteWatch {
    delimiter: u8,
    /// Where the bytes so far end.
    quoting: Quoting,
    /// Whether they begin with a byte order mark.
    mark: Mark,
    /// The number of the line in which they end, from 1.
    line: u64,
    /// The number of the line in which the last field that is quoted begins.
    opened: u64,
    /// The first field that goes on behind its closing quote.
    stray: Option<Stray>,
    /// Whether the last field is blanks alone so far, and at least one.
    blank: bool,
    /// The line of the first quote behind blanks with which a field begins.
    behind_blank: Option<u64>,
}

impl QuoteWatch {
    /// Before a text with this byte between fields.
    pub fn new(delimiter: u8) -> QuoteWatch
        ensures { HasSeen delimiter [] result }
    {
        QuoteWatch {
            delimiter,
            quoting: Quoting::Begin,
            mark: Mark::Nothing,
            line: 1,
            opened: 1,
            stray: None,
            blank: false,
            behind_blank: None,
        }
    }

    /// Goes over the next piece of the text.
    pub fn take(&mut self, piece: &[u8])
        ensures { (delimiter : ℕ) (text : List ℕ) → HasSeen delimiter text self.old →
            HasSeen delimiter (text ++ piece.now) self.new }
    {
        for byte in piece {
            self.take_byte(*byte);
        }
    }

    /// The line in which the quote is that is open at the end of the text, if one is.
    pub fn open_line(&self) -> Option<u64>
        ensures { (delimiter : ℕ) (text : List ℕ) → HasSeen delimiter text self.now →
            MatchOption result (LeavesQuoteOpen delimiter text → ⊥) (λ line.
            LeavesQuoteOpen delimiter text × IsQuotedFrom delimiter text line) }
    {
        if self.quoting == Quoting::Inside {
            Some(self.opened)
        } else {
            None
        }
    }

    /// The first field that goes on behind its closing quote, if one does.
    pub fn stray(&self) -> Option<Stray>
        ensures { (delimiter : ℕ) (text : List ℕ) → HasSeen delimiter text self.now →
            MatchOption result (HasNoStray delimiter text) (IsFirstStray delimiter text) }
    {
        self.stray
    }

    /// The line of the first quote that comes behind blanks with which a field begins, if one does.
    pub fn behind_blank(&self) -> Option<u64>
        ensures { (delimiter : ℕ) (text : List ℕ) → HasSeen delimiter text self.now →
            MatchOption result (HasNoQuoteBehindBlanks delimiter text) (IsFirstQuoteBehindBlanks delimiter text) }
    {
        self.behind_blank
    }

    fn take_byte(&mut self, byte: u8)
        ensures { (delimiter : ℕ) (text : List ℕ) → HasSeen delimiter text self.old →
            HasSeen delimiter (text ++ byte ∷ []) self.new }
    {
        let quoting = self.quoting_behind(byte);
        self.note(quoting);
        self.note_blank(byte, quoting);
        self.line = line_behind(self.line, byte);
        self.quoting = quoting;
        self.mark = self.mark.behind(byte);
    }

    /// Notes the line of a byte by which the text comes to stand here.
    fn note(&mut self, next: Quoting)
        ensures { self.new ≡ record self.old {
          opened = opened_by self.old.quoting next self.old.opened self.old.line;
          stray = stray_behind self.old.quoting next self.old.stray
              (record { begins = self.old.opened; goes_on = self.old.line });
        } }
    {
        if self.quoting == Quoting::Begin && next == Quoting::Inside {
            self.opened = self.line;
        }
        if self.stray.is_none() && self.quoting == Quoting::AtQuote && next == Quoting::Plain {
            self.stray = Some(Stray {
                begins: self.opened,
                goes_on: self.line,
            });
        }
    }

    /// Notes whether the field is blanks alone with a byte by which the text comes to stand here, and the line of a quote behind them.
    fn note_blank(&mut self, byte: u8, next: Quoting)
        ensures { self.new ≡ record self.old {
          blank = is_blank_by self.old.blank self.old.quoting byte next;
          behind_blank = behind_blank_by self.old.blank byte self.old.behind_blank self.old.line;
        } }
    {
        if self.behind_blank.is_none() && self.blank && byte == QUOTE {
            self.behind_blank = Some(self.line);
        }
        let begins = self.blank || self.quoting == Quoting::Begin;
        self.blank = byte == BLANK && begins && next == Quoting::Plain;
    }

    /// Where the text ends with one more byte. Behind the mark it begins anew.
    fn quoting_behind(&self, byte: u8) -> Quoting
        ensures { (delimiter : ℕ) (text : List ℕ) → HasSeen delimiter text self.now →
            LeadsTo delimiter text byte self.now.quoting result }
    {
        if self.mark == Mark::Second && byte == 0xBF {
            return Quoting::Begin;
        }
        self.quoting.led_by(byte, self.delimiter)
    }
}

/// The number of a line with one byte more. A count that is full stays.
fn line_behind(line: u64, byte: u8) -> u64
    ensures { result ≡ line_with line byte }
{
    if byte == b'\n' {
        line.saturating_add(1)
    } else {
        line
    }
}
