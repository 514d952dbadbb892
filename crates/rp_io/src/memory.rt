//! Devices in memory, of which one call can be made to fail.
ghost use Rattle.std.specs.Prelude.{Some};

use crate::device::{Intake, Outlet, ReadFailed, WriteFailed};
use std::alloc::{AllocError, Global};

/// A reader of bytes in memory, which come in pieces.
///
/// ```text
/// let mut reader = MemoryInput::new(b"abac\naab\n", 3, 2);
/// reader.read(buffer)  // Ok(3): aba
/// reader.read(buffer)  // Err(ReadFailed), and nothing is lost
/// reader.read(buffer)  // Ok(3): c, LF, a
/// ```
#[derive(Drop)]
pub struct MemoryInput<'a> {
    bytes: &'a [u8],
    piece: usize,
    failing: u64,
    calls: u64,
    failures: u64,
    ended: bool,
}

impl<'a> MemoryInput<'a> {
    ghost use Rattle.std.specs.Prelude.{◌≡◌, false};

    /// Nothing of the bytes was read yet. At most `piece` of them come at a call, and one where `piece` is 0. The call `failing`,
    /// counted from 1, fails; none does where it is 0.
    pub fn new(bytes: &'a [u8], piece: usize, failing: u64) -> Self
        ensures bytes { result.bytes.now ≡ bytes.entry.now }
        ensures calls { result.calls ≡ 0 }
        ensures failures { result.failures ≡ 0 }
        ensures ended { result.ended ≡ false }
    {
        MemoryInput {
            bytes,
            piece,
            failing,
            calls: 0,
            failures: 0,
            ended: false,
        }
    }

    /// How many calls were made, up to 2^64 - 1, where the count stays.
    pub fn calls(&self) -> u64
        ensures { result ≡ self.now.calls }
    {
        self.calls
    }

    /// Whether a call has told the end: it gave no byte where the buffer had room.
    pub fn ended(&self) -> bool
        ensures { result ≡ self.now.ended }
    {
        self.ended
    }
}

impl Intake for MemoryInput<'_> {
    ghost use Rattle.rp_io.specs.State.{IntakeState};

    ghost seen = { λ input. record {
      calls = input.calls;
      failures = input.failures;
      ended = input.ended;
      remaining = Some input.bytes.now;
    } };

    fn read(&mut self, buffer: &mut [u8]) -> Result<usize, ReadFailed> {
        self.calls = self.calls.saturating_add(1);
        if self.calls == self.failing {
            self.failures = self.failures.saturating_add(1);
            return Err(ReadFailed);
        }
        let count = self.bytes.len().min(buffer.len()).min(self.piece.max(1));
        let (first, rest) = self.bytes.split_at(count);
        buffer[..count].copy_from_slice(first);
        self.bytes = rest;
        if count == 0 && !buffer.is_empty() {
            self.ended = true;
        }
        Ok(count)
    }
}

/// A writer that keeps the bytes that it takes, in pieces.
#[derive(Drop)]
pub struct MemoryOutput {
    bytes: Vec<u8>,
    piece: usize,
    failing: u64,
    calls: u64,
    failures: u64,
}

impl MemoryOutput {
    ghost use Rattle.std.specs.Prelude.{◌≡◌, [], IfOk};

    /// Nothing was written yet. At most `piece` bytes are taken at a call, and one where `piece` is 0. The call `failing`, counted
    /// from 1, fails; none does where it is 0. The first `room` bytes take no memory beyond what is taken here; where memory for
    /// more is refused, the call fails.
    pub fn new(alloc: Global, room: usize, piece: usize, failing: u64) -> Result<Self, AllocError>
        ensures bytes { IfOk result (λ output. output.bytes.items ≡ []) }
        ensures calls { IfOk result (λ output. output.calls ≡ 0) }
        ensures failures { IfOk result (λ output. output.failures ≡ 0) }
    {
        Ok(MemoryOutput {
            bytes: Vec::with_capacity(alloc, room)?,
            piece,
            failing,
            calls: 0,
            failures: 0,
        })
    }

    /// What was written so far.
    pub fn bytes(&self) -> &[u8]
        ensures { result.now ≡ self.now.bytes.items }
    {
        self.bytes.as_slice()
    }
}

impl Outlet for MemoryOutput {
    ghost contents = { λ output. Some output.bytes.items };

    ghost calls = { λ output. output.calls };

    ghost failures = { λ output. output.failures };

    fn write(&mut self, bytes: &[u8]) -> Result<usize, WriteFailed> {
        self.calls = self.calls.saturating_add(1);
        let count = bytes.len().min(self.piece.max(1));
        if self.calls == self.failing || self.bytes.extend_from_slice(&bytes[..count]).is_err() {
            self.failures = self.failures.saturating_add(1);
            return Err(WriteFailed);
        }
        Ok(count)
    }
}
