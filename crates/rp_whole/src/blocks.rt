//! Lines that are gathered in memory.
ghost use Rattle.std.specs.Prelude.{◌≡◌, [], ◌∷◌, ◌++◌, IfOk, OnOk};

use crate::gathered::BLOCK;
use std::alloc::{AllocError, Global};
use std::mem;

/// A text of whole lines, and the line that comes next.
pub(crate) struct LineBlock {
    alloc: Global,
    pub(crate) text: Vec<u8>,
    /// A line is made apart from the text, since making one costs as much as the room that its buffer has.
    pub(crate) line: Vec<u8>,
    /// Memory for the next text, while one is written.
    spare: Vec<u8>,
}

/// It is let go of by a call, wherever it is held.
impl Drop for LineBlock {
    fn drop(self) {
        let LineBlock {
            alloc: _,
            text: _,
            line: _,
            spare: _,
        } = self;
    }
}

impl LineBlock {
    /// No line yet.
    pub(crate) fn new(alloc: Global) -> LineBlock
        ensures { result.text.items ≡ [] }
    {
        LineBlock {
            alloc,
            text: Vec::new(alloc),
            line: Vec::new(alloc),
            spare: Vec::new(alloc),
        }
    }

    /// Adds the line to the text, with a line feed.
    pub(crate) fn add_line(&mut self) -> Result<(), AllocError>
        ensures { OnOk result (self.new.text.items ≡ self.old.text.items ++ (self.old.line.items ++ 10 ∷ [])) }
    {
        self.line.push(b'\n')?;
        self.text.extend_from_slice(self.line.as_slice())
    }

    /// Whether the text is a block to be written.
    pub(crate) fn is_block(&self) -> bool {
        self.text.len() >= BLOCK
    }

    /// Gives the text away.
    pub(crate) fn take(&mut self) -> Vec<u8>
        ensures taken { result.items ≡ self.old.text.items }
        ensures none { self.new.text.items ≡ [] }
    {
        let mut empty = mem::replace(&mut self.spare, Vec::new(self.alloc));
        empty.clear();
        mem::replace(&mut self.text, empty)
    }

    /// Takes memory back that was given away.
    pub(crate) fn give_back(&mut self, memory: Vec<u8>)
        ensures { self.new.text.items ≡ self.old.text.items }
    {
        self.spare = memory;
    }
}
