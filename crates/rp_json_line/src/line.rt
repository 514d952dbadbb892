//! The line, and the pieces that it takes.

use json::Writer;
use std::alloc::{AllocError, Global};

/// A line of JSON, without its line end. The pieces come in the order in which they stand; that they make one value is up to the caller.
#[derive(Drop)]
pub struct JsonLine {
    writer: Writer,
    /// Whether some piece was refused memory.
    is_refused: bool,
}

impl JsonLine {
    /// An empty line.
    pub fn new(alloc: Global) -> JsonLine {
        JsonLine {
            writer: Writer::new(Vec::new(alloc)),
            is_refused: false,
        }
    }

    /// The bytes of the line; an error where some piece was refused memory.
    pub fn finish(self) -> Result<Vec<u8>, AllocError> {
        if self.is_refused {
            return Err(AllocError);
        }
        Ok(self.writer.into_inner())
    }

    /// `{`
    pub fn begin_object(&mut self) {
        let written = self.writer.begin_object();
        self.note(written);
    }

    /// `}`
    pub fn end_object(&mut self) {
        let written = self.writer.end_object();
        self.note(written);
    }

    /// `[`
    pub fn begin_array(&mut self) {
        let written = self.writer.begin_array();
        self.note(written);
    }

    /// `]`
    pub fn end_array(&mut self) {
        let written = self.writer.end_array();
        self.note(written);
    }

    /// The name of a field, whose value comes next.
    pub fn name(&mut self, name: &str) {
        let written = self.writer.key(name);
        self.note(written);
    }

    /// A text as a value.
    pub fn string(&mut self, text: &str) {
        let written = self.writer.string(text);
        self.note(written);
    }

    /// A number that may be negative as a value.
    pub fn integer(&mut self, number: i64) {
        let written = self.writer.i64(number);
        self.note(written);
    }

    /// `null`
    pub fn null(&mut self) {
        let written = self.writer.null();
        self.note(written);
    }

    /// A field with a text.
    pub fn text(&mut self, name: &str, text: &str) {
        self.name(name);
        self.string(text);
    }

    /// A field with a count.
    pub fn count(&mut self, name: &str, count: u64) {
        self.name(name);
        let written = self.writer.u64(count);
        self.note(written);
    }

    /// A field that is true.
    pub fn flag(&mut self, name: &str) {
        self.name(name);
        let written = self.writer.boolean(true);
        self.note(written);
    }

    fn note(&mut self, written: Result<(), AllocError>) {
        if written.is_err() {
            self.is_refused = true;
        }
    }
}
