//! The lines of what is read.
ghost use Rattle.std.specs.Prelude.{◌≡◌, ◌+◌, ◌<◌, ◌≤◌, ◌∷◌, ◌++◌, length, take, drop, vec_len, OnOk};
ghost use Rattle.rp_io.specs.Lines.{IsLfFree, line_feed};
ghost use Rattle.rp_io.specs.declared.lines.TheConstants.{CHUNK};
ghost use Rattle.rp_io.specs.declared.lines.LineFault.TheVariants.{OutOfMemory};

use crate::device::Intake;
use std::alloc::{AllocError, AllocFailed, Global};
use thiserror::Error;

/// Why the next line is not there.
#[derive(Clone, Copy, Debug, PartialEq, Eq, Error)]
pub enum LineFault {
    /// The device failed.
    #[error("device: read")]
    Read,
    /// All reads that are allowed were made, and another is due.
    #[error("too many reads")]
    TooManyReads,
    /// Memory was refused.
    #[error("out of memory")]
    OutOfMemory,
}

/// The most bytes that one call reads.
const CHUNK: usize = 65_536;

/// The byte that ends a line, as `specs/Lines` has it.
const LF: u8 = b'\n';

/// Cuts what is read into lines. Of a long line only the first bytes are kept.
#[derive(Drop)]
pub struct Lines {
    /// What was read last.
    pub chunk: Vec<u8>,
    /// Where the reader puts it. It is as long as a call may fill, from the first call on.
    pub room: Vec<u8>,
    /// How many bytes of it were cut off, from the first on.
    pub taken: usize,
    /// How many more calls of the reader may be made.
    pub reads: u64,
    /// How many bytes of a line are kept at most.
    pub kept: usize,
    ghost within: { taken ≤ vec_len chunk },
    ghost bounded: { vec_len chunk ≤ CHUNK },
    ghost wide: { vec_len room ≤ CHUNK },
}

impl Lines {
    ghost use Rattle.std.specs.Prelude.{◌≡◌, ◌<◌, ◌≤◌, ◌⊎◌, true, false, [], length, take, vec_len, IfOk, OnOk, OnErr};
    ghost use Rattle.std.specs.Io.KnownBytes.{Consumes, IsAtEnd};
    ghost use Rattle.rp_io.specs.Cuts.{Advances, CutsOff};
    ghost use Rattle.rp_io.specs.Devices.{AsManyBytesAsReads, UsesCalls};
    ghost use Rattle.rp_io.specs.Lines.{TakesLast, TakesLine};
    ghost use Rattle.rp_io.specs.Pending.{HasLine, pending_of, coming, most_lines_to_come};
    ghost use Rattle.rp_io.specs.Telling.{EndIsTold, FailureIsCounted};

    /// Nothing is read yet, at most `reads` calls of the reader will be made, and of each line at most `kept` bytes kept.
    pub fn new(alloc: Global, reads: u64, kept: usize) -> Self
        ensures pending { pending_of result ≡ [] }
        ensures reads { result.reads ≡ reads }
        ensures kept { result.kept ≡ kept }
    {
        Lines {
            chunk: Vec::new(alloc),
            room: Vec::new(alloc),
            taken: 0,
            reads,
            kept,
        }
    }

    /// Whether a whole line is read, which `next` then takes without a call of the reader.
    pub fn has_line(&self) -> bool
        ensures yes { result ≡ true → HasLine self.now }
        ensures no { result ≡ false → IsLfFree (pending_of self.now) }
    {
        let rest = &self.chunk[self.taken..];
        line_length(rest) < rest.len()
    }

    /// Puts the first bytes of the next line into `line`, without its LF, and says whether it had one. Without one it is
    /// what stood behind the last LF of the input, perhaps nothing, and the input has ended.
    pub fn next<R: Intake>(&mut self, reader: &mut R, line: &mut Vec<u8>) -> Result<bool, LineFault>
        ensures line { result ≡ Ok true → TakesLine self.old.kept
            (coming self.old (R.seen reader.old)) (coming self.new (R.seen reader.new)) line.new.items }
        ensures last { result ≡ Ok false → TakesLast self.old.kept
            (coming self.old (R.seen reader.old)) (coming self.new (R.seen reader.new)) line.new.items }
        ensures end { result ≡ Ok false → IsAtEnd (R.seen reader.new).remaining }
        ensures told { EndIsTold result (R.seen reader.old).ended (R.seen reader.new).ended }
        ensures failures { FailureIsCounted result (R.seen reader.old).failures (R.seen reader.new).failures }
        ensures calls { UsesCalls self.old.reads self.new.reads (R.seen reader.old).calls (R.seen reader.new).calls }
        ensures reads { result ≡ Err LineFault.TooManyReads → self.new.reads ≡ 0 }
        ensures gives { (result ≡ Ok true) ⊎ (result ≡ Err LineFault.TooManyReads) →
            AsManyBytesAsReads self.old.reads self.new.reads
            (R.seen reader.old).remaining (R.seen reader.new).remaining }
        ensures falls { result ≡ Ok true → most_lines_to_come self.new < most_lines_to_come self.old }
        ensures few { vec_len line.new ≤ self.old.kept }
        ensures kept { self.new.kept ≡ self.old.kept }
        ensures unread { HasLine self.old →
            ((result ≡ Ok true) ⊎ (result ≡ Err LineFault.OutOfMemory)) × (reader.new ≡ reader.old) }
    {
        line.clear();
        loop {
            if self.cut(line)? {
                return Ok(true);
            }
            if !self.fill(reader)? {
                return Ok(false);
            }
        }
    }

    /// Moves what is left of the chunk to the line, up to a LF, and says whether there was one.
    fn cut(&mut self, line: &mut Vec<u8>) -> Result<bool, AllocError>
        requires { vec_len line.old ≤ self.old.kept }
        ensures cut { IfOk result (λ had_lf. CutsOff had_lf self.old self.new line.old.items line.new.items) }
        ensures fits { vec_len line.new ≤ self.old.kept }
        ensures falls { IfOk result (λ had_lf. Advances had_lf self.old self.new) }
        ensures chunk { self.new.chunk ≡ self.old.chunk }
        ensures reads { self.new.reads ≡ self.old.reads }
        ensures kept { self.new.kept ≡ self.old.kept }
    {
        let rest = &self.chunk[self.taken..];
        let length = line_length(rest);
        let had_lf = length < rest.len();
        push_up_to(line, &rest[..length], self.kept)?;
        self.taken += length + usize::from(had_lf);
        Ok(had_lf)
    }

    /// Reads the next chunk, if a further call may be made, and says whether there is any. If none may be made, nothing
    /// changes.
    fn fill<R: Intake>(&mut self, reader: &mut R) -> Result<bool, LineFault>
        requires { pending_of self.old ≡ [] }
        ensures ok { OnOk result
            (Consumes (R.seen reader.old).remaining (R.seen reader.new).remaining (pending_of self.new)) }
        ensures none { result ≡ Ok false → pending_of self.new ≡ [] }
        ensures end { result ≡ Ok false → IsAtEnd (R.seen reader.new).remaining }
        ensures told { EndIsTold result (R.seen reader.old).ended (R.seen reader.new).ended }
        ensures failures { FailureIsCounted result (R.seen reader.old).failures (R.seen reader.new).failures }
        ensures calls { UsesCalls self.old.reads self.new.reads (R.seen reader.old).calls (R.seen reader.new).calls }
        ensures unread { result ≡ Err LineFault.TooManyReads →
            (self.old.reads ≡ 0) × (self.new ≡ self.old) × (reader.new ≡ reader.old) }
        ensures gives { result ≡ Ok true →
            AsManyBytesAsReads self.old.reads self.new.reads
            (R.seen reader.old).remaining (R.seen reader.new).remaining }
        ensures fewer { OnOk result (self.new.reads < self.old.reads) }
        ensures kept { self.new.kept ≡ self.old.kept }
    {
        if self.reads == 0 {
            return Err(LineFault::TooManyReads);
        }
        self.make_room()?;
        self.taken = 0;
        self.chunk.clear();
        self.reads -= 1;
        match reader.read(self.room.as_mut_slice()) {
            Ok(0) => Ok(false),
            Ok(count) => {
                self.chunk.extend_from_slice(&self.room[..count])?;
                Ok(true)
            }
            Err(_) => Err(LineFault::Read),
        }
    }

    /// Makes the room as long as a call may fill, once.
    fn make_room(&mut self) -> Result<(), AllocError>
        ensures long { OnOk result (vec_len self.new.room ≡ CHUNK) }
        ensures chunk { self.new.chunk ≡ self.old.chunk }
        ensures taken { self.new.taken ≡ self.old.taken }
        ensures reads { self.new.reads ≡ self.old.reads }
        ensures kept { self.new.kept ≡ self.old.kept }
    {
        if self.room.len() == CHUNK {
            return Ok(());
        }
        self.room.resize(CHUNK, 0)
    }
}

impl From<AllocError> for LineFault {
    ghost from_gives = { λ _ fault. fault ≡ OutOfMemory };

    fn from(_: AllocError) -> LineFault {
        LineFault::OutOfMemory
    }
}

impl<T: Drop> From<AllocFailed<T>> for LineFault {
    ghost from_gives = { λ _ fault. fault ≡ OutOfMemory };

    fn from(_: AllocFailed<T>) -> LineFault {
        LineFault::OutOfMemory
    }
}

/// How many bytes stand before the first LF, or in all.
fn line_length(bytes: &[u8]) -> usize
    ensures within { result ≤ length bytes.now }
    ensures before { IsLfFree (take result bytes.now) }
    ensures found { result < length bytes.now →
        bytes.now ≡ take result bytes.now ++ line_feed ∷ drop (result + 1) bytes.now }
{
    for (index, byte) in bytes.iter().enumerate() {
        if *byte == LF {
            return index;
        }
    }
    bytes.len()
}

/// Adds the bytes to the line, but none past `kept`.
fn push_up_to(line: &mut Vec<u8>, bytes: &[u8], kept: usize) -> Result<(), AllocError>
    requires { vec_len line.old ≤ kept }
    ensures front { OnOk result (line.new.items ≡ take kept (line.old.items ++ bytes.now)) }
    ensures fits { vec_len line.new ≤ kept }
{
    let room = kept - line.len();
    line.extend_from_slice(&bytes[..room.min(bytes.len())])?;
    Ok(())
}
