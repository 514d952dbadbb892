//! The matches of lines of letters: the text of a pattern, the rows of a line, and a reply for each line.
//!
//! Over the lines `abac` and `aab` this writes the lines `ABAC` and `none`:
//!
//! ```text
//! let pattern = trace_pattern(alloc, "(A B | A)* C")?;
//! let (mut reader, mut writer) = (CountedDevice::new(stdin), CountedDevice::new(stdout)); // of rp_io
//! run_trace(alloc, &mut reader, &mut writer, &pattern, READS)?;
//! ```
//!
//! Which texts are patterns is said by `specs/Grammar`, what is written for a line by `specs/Replies`, and the limits by
//! `specs/Limits`.
#![tactic(auto)]

mod grammar;
mod letters;
mod matching;
mod trace;

pub use grammar::{TracePatternFault, trace_pattern};
pub use matching::BUDGET;
pub use trace::{TraceFault, run_trace};
