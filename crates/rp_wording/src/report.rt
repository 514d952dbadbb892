//! What is said of a fault.

use crate::advice::Advice;
use crate::pieces::Pieces;
use rp_place::{Place, Span, draw, push_help, shown_character};
use std::alloc::{AllocError, Global};
use std::fmt::{Display, Write};

/// What is said of a fault: a text for people, and its parts for programs.
pub struct Report {
    /// All of it: the line that the program prints, the place with its line and a mark under it, what is wrong there and
    /// what to write. Each line ends in LF.
    pub text: String,
    /// The fault's name, as `UnknownColumn`.
    pub kind: String,
    /// What is wrong, in one line. It may be empty.
    pub message: String,
    /// What to write, a line for each help. It may be empty.
    pub help: String,
    /// Where it is; None where the fault has no place.
    pub mark: Option<Mark>,
}

/// It is let go of by a call, wherever it is held.
impl Drop for Report {
    fn drop(self) {
        let Report {
            text: _,
            kind: _,
            message: _,
            help: _,
            mark: _,
        } = self;
    }
}

/// Where something is in a text.
#[derive(Clone, Copy)]
pub struct Mark {
    /// The offset of its first byte, from 0.
    pub byte: usize,
    /// How many bytes of its line are meant.
    pub length: usize,
    /// Its line, from 1.
    pub line: usize,
    /// The number of its first character in the line, from 1.
    pub column: usize,
}

impl Report {
    /// The fault's own line alone, of a text that is called so.
    pub fn new<F: Display>(alloc: Global, name: &str, fault: &F) -> Result<Report, AllocError> {
        Report::of(alloc, name, format!(in alloc; "{fault}")?.as_str())
    }

    /// The same of a fault as it is printed.
    pub fn of(alloc: Global, name: &str, fault: &str) -> Result<Report, AllocError> {
        let told = shown_text(alloc, fault)?;
        let kind = told.as_str().split(' ').next().unwrap_or("");
        Ok(Report {
            text: Pieces::filled(alloc, "{}: {}\n", &[name, told.as_str()]).finish()?,
            kind: String::from_str(alloc, kind)?,
            message: String::new(alloc),
            help: String::new(alloc),
            mark: None,
        })
    }

    /// Adds the place of a part of a text that is called so, and advice.
    pub fn point(
        &mut self,
        name: &str,
        text: &str,
        span: Span,
        advice: &Advice,
    ) -> Result<(), AllocError> {
        self.point_at(name, span.start, &Place::of(text, span), advice)
    }

    /// Adds a place that begins at this byte, and advice.
    pub fn point_at(
        &mut self,
        name: &str,
        byte: usize,
        place: &Place<'_>,
        advice: &Advice,
    ) -> Result<(), AllocError> {
        let what = shown_text(*self.text.allocator(), advice.what()?)?;
        self.draw(name, byte, place, what.as_str())?;
        self.help(advice.help()?)
    }

    /// Adds a place that begins at this byte, and what is wrong there.
    fn draw(
        &mut self,
        name: &str,
        byte: usize,
        place: &Place<'_>,
        what: &str,
    ) -> Result<(), AllocError> {
        draw(&mut self.text, name, place, what)?;
        self.mark = Some(Mark {
            byte,
            length: place.part.len(),
            line: place.line,
            column: place.column(),
        });
        self.message.push_str(what)
    }

    /// Adds what is wrong where there is no place for it.
    pub fn say(&mut self, name: &str, what: &str) -> Result<(), AllocError> {
        let what = shown_text(*self.text.allocator(), what)?;
        writeln!(self.text, "  {name}: {what}")?;
        self.message.push_str(what.as_str())
    }

    /// Adds advice where there is no place for it.
    pub fn advise(&mut self, name: &str, advice: &Advice) -> Result<(), AllocError> {
        self.say(name, advice.what()?)?;
        self.help(advice.help()?)
    }

    /// Adds a line that is neither what is wrong nor what to write.
    pub fn note(&mut self, line: &Pieces) -> Result<(), AllocError> {
        let line = shown_text(*self.text.allocator(), line.text()?)?;
        writeln!(self.text, "  {line}")
    }

    /// Adds what to write, a line for each help.
    pub fn help(&mut self, help: &str) -> Result<(), AllocError> {
        let help = shown_text(*self.text.allocator(), help)?;
        push_help(&mut self.text, help.as_str())?;
        push_lines(&mut self.help, help.as_str())
    }
}

/// Adds lines, each with a line end behind it.
fn push_lines(out: &mut String, lines: &str) -> Result<(), AllocError> {
    for line in lines.lines() {
        out.push_str(line)?;
        out.push('\n')?;
    }
    Ok(())
}

/// A text as it is shown in one line of a terminal: `?` for each character that would control it, a line end too, and a blank for a tab.
pub fn shown_line(alloc: Global, text: &str) -> Result<String, AllocError> {
    let mut shown = String::new(alloc);
    for character in text.chars() {
        shown.push(shown_character(character))?;
    }
    Ok(shown)
}

/// A text as it is shown on a terminal: `?` for each character that would control it, other than a line end, and a blank for a tab.
pub fn shown_text(alloc: Global, text: &str) -> Result<String, AllocError> {
    let mut shown = String::new(alloc);
    for character in text.chars() {
        if character == '\n' {
            shown.push(character)?;
        } else {
            shown.push(shown_character(character))?;
        }
    }
    Ok(shown)
}
