//! Inputs, whose bytes come one input after another.
ghost use Rattle.std.specs.Prelude.{◌≡◌, Some, IfOk, IfSome, length, map, slice_get};
ghost use Rattle.rp_question.specs.Inputs.{InputsSeen, of_texts};

use rp_value::{Cells, Row};
use rp_whole::Watch;
use std::alloc::{AllocError, Global};

/// Why an input can't be read.
#[derive(Clone, Copy)]
pub enum Unread {
    /// A device failed.
    Device,
    /// No memory was left.
    OutOfMemory,
}

/// Inputs, of which each is read once, in order.
pub trait Inputs {
    /// How many inputs there are, and the bytes of each, in order, where they are known.
    ghost seen: { Self → InputsSeen };

    /// How many inputs there are.
    fn count(&self) -> usize
        ensures is { result ≡ (seen self.now).count }
        ensures known { IfSome (seen self.now).texts (λ texts. result ≡ length texts) };

    /// All bytes of the input with this index, from 0.
    fn read(&mut self, index: usize) -> Result<Vec<u8>, Unread>
        ensures stay { seen self.new ≡ seen self.old }
        ensures bytes { IfOk result (λ bytes. IfSome (seen self.old).texts (λ texts. slice_get texts index ≡ Some bytes.items)) };

    /// These are the rows of the input that was read last, which had these bytes: what is to be known of them can be reported.
    fn has_rows(&mut self, bytes: &[u8], rows: &[Row]) -> Result<(), AllocError>
        ensures { seen self.new ≡ seen self.old };

    /// These are the rows of all inputs, before a condition leaves some out: so it is with what is to be known of all of them.
    fn has_all(&mut self, rows: &[Row]) -> Result<(), AllocError>
        ensures { seen self.new ≡ seen self.old };
}

/// Texts in memory.
#[derive(Drop)]
pub struct Texts<'a> {
    alloc: Global,
    texts: &'a [Vec<u8>],
}

impl<'a> Texts<'a> {
    /// These texts, in order.
    pub fn new(alloc: Global, texts: &'a [Vec<u8>]) -> Texts<'a>
        ensures { result.texts.now ≡ texts.entry.now }
    {
        Texts { alloc, texts }
    }
}

impl Inputs for Texts<'_> {
    ghost seen = { λ inputs. of_texts (map (λ text. text.items) inputs.texts.now) };

    fn count(&self) -> usize {
        self.texts.len()
    }

    fn read(&mut self, index: usize) -> Result<Vec<u8>, Unread> {
        let Some(text) = self.texts.get(index) else {
            return Err(Unread::Device);
        };
        copied(self.alloc, text.as_slice())
    }

    fn has_rows(&mut self, _bytes: &[u8], _rows: &[Row]) -> Result<(), AllocError> {
        Ok(())
    }

    fn has_all(&mut self, _rows: &[Row]) -> Result<(), AllocError> {
        Ok(())
    }
}

/// Nobody is told.
impl Watch for Texts<'_> {
    fn begins(&mut self, _key: &Cells) {}

    fn pauses(&mut self, _key: &Cells, _row: u64, _turns: u32) {}
}

/// A copy of these bytes.
fn copied(alloc: Global, bytes: &[u8]) -> Result<Vec<u8>, Unread>
    ensures { IfOk result (λ copy. copy.items ≡ bytes.now) }
{
    let mut copy = Vec::new(alloc);
    match copy.extend_from_slice(bytes) {
        Ok(()) => Ok(copy),
        Err(_) => Err(Unread::OutOfMemory),
    }
}
