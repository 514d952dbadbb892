//! The report of a fault in a text that has a name.

use crate::advice::Advice;
use crate::reading::tokens_of;
use crate::report::Report;
use rp_lexer::Token;
use rp_place::Span;
use std::alloc::{AllocError, Global};
use std::fmt::Display;

/// A text as it is shown, and as it is read: with blanks in place of what is passed over.
#[derive(Clone, Copy)]
pub struct Source<'a> {
    /// The text as it was written.
    pub shown: &'a str,
    /// The text whose tokens are read; a byte of it stands where that of the other one does.
    pub read: &'a str,
}

impl<'a> Source<'a> {
    /// A text of which all is read.
    pub fn whole(text: &'a str) -> Source<'a> {
        Source {
            shown: text,
            read: text,
        }
    }
}

/// The report of a fault in a text, to which its place and advice are added.
#[derive(Drop)]
pub struct TextReport<'a> {
    /// What the text is called, `clause`, `table` or `columns`.
    pub name: &'static str,
    /// The text.
    pub source: Source<'a>,
    report: Report,
}

impl<'a> TextReport<'a> {
    /// The fault's own line alone.
    pub fn new<F: Display>(
        alloc: Global,
        name: &'static str,
        source: Source<'a>,
        fault: &F,
    ) -> Result<TextReport<'a>, AllocError> {
        let report = Report::new(alloc, name, fault)?;
        Ok(TextReport {
            name,
            source,
            report,
        })
    }

    /// The allocator of the report.
    pub fn alloc(&self) -> Global {
        *self.report.text.allocator()
    }

    /// The tokens of the text as it is read; none where it has a fault of its own.
    pub fn tokens(&self) -> Result<Vec<Token>, AllocError> {
        tokens_of(self.alloc(), self.source.read)
    }

    /// Adds the place of a part of the text, and advice.
    pub fn point(&mut self, span: Span, advice: &Advice) -> Result<(), AllocError> {
        self.report
            .point(self.name, self.source.shown, span, advice)
    }

    /// The whole report.
    pub fn finish(self) -> Report {
        self.report
    }
}
