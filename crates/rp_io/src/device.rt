//! Devices whose bytes, calls and failures clauses see, over any of std's.
ghost use Rattle.std.specs.Prelude.{◌≡◌, ℕ, ◌<◌, ◌≤◌, true, false, List, length, vec_len, Option, IfOk, OnOk, OnErr};
ghost use Rattle.std.specs.Io.KnownBytes.{Appends, ReadConsumes, WriteAppends};
ghost use Rattle.rp_io.specs.Counts.{raised};
ghost use Rattle.rp_io.specs.Devices.{AppendsFront, MakesCalls, Moves};
ghost use Rattle.rp_io.specs.State.{IntakeState};

use std::io::{Read, Write};
use thiserror::Error;

/// How often a program reads its input at most.
pub const READS: u64 = 1_000_000_000;

/// From how many bytes on a gathered text is written.
const BLOCK: usize = 65_536;

/// A read failed.
#[derive(Clone, Copy, Debug, PartialEq, Eq, Error)]
#[error("device: read")]
pub struct ReadFailed;

/// A write failed, or took nothing of what was there.
#[derive(Clone, Copy, Debug, PartialEq, Eq, Error)]
#[error("device: write")]
pub struct WriteFailed;

/// Where bytes come from.
pub trait Intake {
    /// How many calls were made and how many failed, whether one has reported the end, and what is still to come.
    ghost seen: { Self → IntakeState };

    /// Fills the front of the buffer. No byte, where the buffer has room, is the end.
    fn read(&mut self, buffer: &mut [u8]) -> Result<usize, ReadFailed>
        ensures within { IfOk result (λ count. count ≤ length buffer.new) }
        ensures bytes { ReadConsumes (seen self.old).remaining (seen self.new).remaining result buffer.new }
        ensures calls { (seen self.new).calls ≡ raised (seen self.old).calls }
        ensures fails { OnErr result ((seen self.new).failures ≡ raised (seen self.old).failures) }
        ensures no_failure { OnOk result ((seen self.new).failures ≡ (seen self.old).failures) }
        ensures end { IfOk result (λ count. count ≡ 0 → 0 < length buffer.new → (seen self.new).ended ≡ true) }
        ensures more { IfOk result (λ count. 0 < count → (seen self.new).ended ≡ (seen self.old).ended) }
        ensures no_room { length buffer.new ≡ 0 → (seen self.new).ended ≡ (seen self.old).ended }
        ensures stays { OnErr result ((seen self.new).ended ≡ (seen self.old).ended) };
}

/// Where bytes go.
pub trait Outlet {
    /// The bytes that were written, where they are known.
    ghost contents: { Self → Option (List ℕ) };

    /// How many calls were made, up to 2^64 - 1, where the count stays.
    ghost calls: { Self → ℕ };

    /// How many of them failed, counted in the same way.
    ghost failures: { Self → ℕ };

    /// Takes a front of the bytes. A call that takes none has failed, unless there are none.
    fn write(&mut self, bytes: &[u8]) -> Result<usize, WriteFailed>
        ensures within { IfOk result (λ count. count ≤ length bytes.now) }
        ensures some { IfOk result (λ count. 0 < length bytes.now → 0 < count) }
        ensures bytes { WriteAppends (contents self.old) (contents self.new) result bytes.now }
        ensures calls { calls self.new ≡ raised (calls self.old) }
        ensures fails { OnErr result (failures self.new ≡ raised (failures self.old)) }
        ensures no_failure { OnOk result (failures self.new ≡ failures self.old) };
}

/// A device, with counts of its calls.
#[derive(Drop)]
pub struct CountedDevice<D> {
    /// The device itself.
    pub device: D,
    /// How many calls of it were made, up to 2^64 - 1, where the count stays.
    pub calls: u64,
    /// How many of them failed, counted in the same way.
    pub failures: u64,
    /// Whether a read has reported the end.
    pub ended: bool,
}

impl<D> CountedDevice<D> {
    /// A device that was not called yet.
    pub fn new(device: D) -> Self
        ensures device { result.device ≡ device }
        ensures calls { result.calls ≡ 0 }
        ensures failures { result.failures ≡ 0 }
        ensures ended { result.ended ≡ false }
    {
        CountedDevice {
            device,
            calls: 0,
            failures: 0,
            ended: false,
        }
    }
}

impl<R: Read> Intake for CountedDevice<R> {
    ghost use Rattle.rp_io.specs.State.{IntakeState};

    ghost seen = { λ counted. record {
      calls = counted.calls;
      failures = counted.failures;
      ended = counted.ended;
      remaining = R.remaining counted.device;
    } };

    fn read(&mut self, buffer: &mut [u8]) -> Result<usize, ReadFailed> {
        self.calls = self.calls.saturating_add(1);
        match self.device.read(buffer) {
            Ok(count) => {
                if count == 0 && !buffer.is_empty() {
                    self.ended = true;
                }
                Ok(count)
            }
            Err(_) => {
                self.failures = self.failures.saturating_add(1);
                Err(ReadFailed)
            }
        }
    }
}

impl<W: Write> Outlet for CountedDevice<W> {
    ghost contents = { λ counted. W.contents counted.device };

    ghost calls = { λ counted. counted.calls };

    ghost failures = { λ counted. counted.failures };

    fn write(&mut self, bytes: &[u8]) -> Result<usize, WriteFailed> {
        self.calls = self.calls.saturating_add(1);
        match self.device.write(bytes) {
            Ok(count) if count > 0 || bytes.is_empty() => Ok(count),
            _ => {
                self.failures = self.failures.saturating_add(1);
                Err(WriteFailed)
            }
        }
    }
}

/// Writes all of the bytes, or a front of them where the writer fails. The call that fails is the last one made.
pub fn write_all<W: Outlet>(writer: &mut W, bytes: &[u8]) -> Result<(), WriteFailed>
    ensures ok { OnOk result (Appends (W.contents writer.old) (W.contents writer.new) bytes.now) }
    ensures err { OnErr result (AppendsFront (W.contents writer.old) (W.contents writer.new) bytes.now) }
    ensures fails { OnErr result (W.failures writer.new ≡ raised (W.failures writer.old)) }
    ensures no_failure { OnOk result (W.failures writer.new ≡ W.failures writer.old) }
    ensures calls { OnOk result (MakesCalls 0 (length bytes.now) (W.calls writer.old) (W.calls writer.new)) }
    ensures calls_failed { OnErr result (MakesCalls 1 (length bytes.now) (W.calls writer.old) (W.calls writer.new)) }
{
    let mut rest = bytes;
    while !rest.is_empty() {
        let count = writer.write(rest)?;
        rest = &rest[count..];
    }
    Ok(())
}

/// Writes the gathered text once it is a block, and keeps it until then.
pub fn write_block<W: Outlet>(writer: &mut W, text: &mut Vec<u8>) -> Result<(), WriteFailed>
    ensures ok { OnOk result (Moves (W.contents writer.old) text.old.items (W.contents writer.new) text.new.items) }
    ensures err { OnErr result (AppendsFront (W.contents writer.old) (W.contents writer.new) text.old.items) }
    ensures fails { OnErr result (W.failures writer.new ≡ raised (W.failures writer.old)) }
    ensures no_failure { OnOk result (W.failures writer.new ≡ W.failures writer.old) }
    ensures few { OnOk result (vec_len text.new < BLOCK) }
    ensures calls { OnOk result (MakesCalls 0 (length text.old.items) (W.calls writer.old) (W.calls writer.new)) }
    ensures calls_failed { OnErr result
        (MakesCalls 1 (length text.old.items) (W.calls writer.old) (W.calls writer.new)) }
{
    if text.len() < BLOCK {
        return Ok(());
    }
    write_all(writer, text.as_slice())?;
    text.clear();
    Ok(())
}
