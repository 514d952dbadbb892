//! Lines of input and blocks of output, over devices whose bytes, calls and failures clauses see.
//!
//! `CountedDevice` makes a device of any of std's readers and writers. Of each line at most 80 bytes are kept here, the reader is
//! called at most a thousand times, and what is gathered is written once it is a block:
//!
//! ```text
//! let (mut reader, mut writer) = (CountedDevice::new(stdin), CountedDevice::new(stdout));
//! let mut lines = Lines::new(alloc, 1_000, 80);
//! let (mut line, mut text) = (Vec::new(alloc), Vec::new(alloc));
//! while lines.next(&mut reader, &mut line)? {
//!     text.extend_from_slice(line.as_slice())?;
//!     write_block(&mut writer, &mut text)?;
//! }
//! write_all(&mut writer, text.as_slice())?; // `line` has what is behind the last LF
//! ```
//!
//! What a line is, is said by `specs/Lines`; what calls do to a device's bytes and counts by `specs/Devices`, `Counts` and
//! `Telling`; and what all reads of a command's run did, by how it ended, by `specs/Reading`.
//!
//! `MemoryInput` and `MemoryOutput` are devices over bytes, for tests: one call of theirs can be made to fail.
#![tactic(auto)]

mod device;
mod lines;
mod memory;

pub use device::{
    CountedDevice, Intake, Outlet, READS, ReadFailed, WriteFailed, write_all, write_block,
};
pub use lines::{LineFault, Lines};
pub use memory::{MemoryInput, MemoryOutput};
