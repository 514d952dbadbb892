//! The matches of lines of letters.
ghost use Rattle.std.specs.Prelude.{◌≡◌, ℕ, ◌<◌, ◌≤◌, ◌++◌, true, length, IfOk, IfSome, OnOk, OnErr, All};
ghost use Rattle.rp_words.specs.PatternForm.{form_of};
ghost use Rattle.rp_words.specs.Variables.{are_below};
ghost use Rattle.rp_search.specs.Search.{IsSearchFor};
ghost use Rattle.rp_io.specs.Reading.{ReadsWithin};
ghost use Rattle.rp_trace.specs.Faults.{TellsWrite, run_told, trace_fault};
ghost use Rattle.rp_trace.specs.Limits.{letter_count, longest_line};
ghost use Rattle.rp_trace.specs.Replies.{WritesFront, WritesReplies, is_letter, is_looked_at, last_reply, match_text, reply_text, reply_to, search_text};
ghost use Rattle.rp_trace.specs.declared.trace.TraceFault.TheVariants.{OutOfMemory, Write};

use crate::letters::{Letters, MAX_LINE};
use crate::matching::find;
use rp_io::{Intake, LineFault, Lines, Outlet, WriteFailed, write_all, write_block};
use rp_search::{Search, Steps};
use rp_words::{Label, Pattern, law_labels};
use std::alloc::{AllocError, AllocFailed, Global};
use std::marker::Brand;
use std::sync::ledger::{Blank, Ledger};
use thiserror::Error;

/// Why a run of `trace` ended before its input did.
#[derive(Clone, Copy, Debug, PartialEq, Eq, Error)]
pub enum TraceFault {
    /// A call of the reader failed.
    #[error("device: read")]
    Read,
    /// A call of the writer failed.
    #[error("device: write")]
    Write,
    /// All calls of the reader that are allowed were made, none of them told the end, and another is due. (A turn of a search is
    /// another thing: `trace` counts none.)
    #[error("too many turns")]
    Turns,
    /// Memory was refused.
    #[error("out of memory")]
    OutOfMemory,
}

/// Writes a line for each line that is read: the labels of its match at row 1, where each letter is a row.
///
/// Of a line `abac` and the pattern `(A B | A)* C` the line is `ABAC`. A match without rows is told as `empty`, and no
/// match as `none`. A line that has another byte than `a` to `z`, or more than 4,096 bytes, is `refused`. The reader is
/// called at most `reads` times. Bytes are written in blocks, so after a fault the replies to some lines that were read
/// may be missing.
pub fn run_trace<R: Intake, W: Outlet>(
    alloc: Global,
    reader: &mut R,
    writer: &mut W,
    pattern: &Pattern,
    reads: u64,
) -> Result<(), TraceFault>
    requires { are_below letter_count (form_of pattern.now) ≡ true }
    ensures written { OnOk result (WritesReplies
        (form_of pattern.now) (R.seen reader.old).remaining (W.contents writer.old) (W.contents writer.new)) }
    ensures front { OnErr result (WritesFront
        (form_of pattern.now) (R.seen reader.old).remaining (W.contents writer.old) (W.contents writer.new)) }
    ensures reads { ReadsWithin reads (run_told result) (R.seen reader.old) (R.seen reader.new) }
    ensures write { TellsWrite result (W.failures writer.old) (W.failures writer.new) }
{
    let mut lines = Lines::new(alloc, reads, MAX_LINE + 1);
    let mut line = Vec::new(alloc);
    // One search for all lines: the pattern is compiled once, and its room is kept from line to line.
    let mut search = new_search(alloc, pattern)?;
    let mut text = Vec::new(alloc);
    while lines.next(reader, &mut line)? {
        push_reply(&mut text, pattern, &mut search, line.as_slice())?;
        write_block(writer, &mut text)?;
    }
    push_last(&mut text, pattern, &mut search, line.as_slice())?;
    write_all(writer, text.as_slice())?;
    Ok(())
}

/// A search of the pattern from the first letter on. It is in a box, since it is large and much may fail while it is held.
fn new_search(alloc: Global, pattern: &Pattern) -> Result<Box<Search>, AllocError>
    ensures { IfOk result (λ search. IsSearchFor (form_of pattern.now) search.value) }
{
    Ok(Box::new(alloc, Search::new(alloc, pattern, 1)?)?)
}

/// Adds what is written for the part behind the last LF, which is a line unless it is empty.
fn push_last(
    text: &mut Vec<u8>,
    pattern: &Pattern,
    search: &mut Search,
    part: &[u8],
) -> Result<(), AllocError>
    requires letters { are_below letter_count (form_of pattern.now) ≡ true }
    requires is_for { IsSearchFor (form_of pattern.now) search.old }
    ensures { OnOk result (text.new.items ≡ text.old.items ++ last_reply (form_of pattern.now) part.now) }
{
    if part.is_empty() {
        return Ok(());
    }
    push_reply(text, pattern, search, part)
}

/// Adds what is written for a line.
fn push_reply(
    text: &mut Vec<u8>,
    pattern: &Pattern,
    search: &mut Search,
    line: &[u8],
) -> Result<(), AllocError>
    requires letters { are_below letter_count (form_of pattern.now) ≡ true }
    requires is_for { IsSearchFor (form_of pattern.now) search.old }
    ensures is_for { IsSearchFor (form_of pattern.now) search.new }
    ensures added { OnOk result (text.new.items ≡ text.old.items ++ reply_to (form_of pattern.now) line.now) }
{
    push_answer(text, pattern, search, line)?;
    text.push(b'\n')?;
    Ok(())
}

fn push_answer(
    text: &mut Vec<u8>,
    pattern: &Pattern,
    search: &mut Search,
    line: &[u8],
) -> Result<(), AllocError>
    requires letters { are_below letter_count (form_of pattern.now) ≡ true }
    requires is_for { IsSearchFor (form_of pattern.now) search.old }
    ensures is_for { IsSearchFor (form_of pattern.now) search.new }
    ensures added { OnOk result (text.new.items ≡ text.old.items ++ reply_text (form_of pattern.now) line.now) }
{
    if !is_looked_at(line) {
        return text.extend_from_slice(b"refused");
    }
    if line.is_empty() {
        return text.extend_from_slice(b"none");
    }
    push_match::<Brand>(text, pattern, search, line, Blank::new(1))
}

/// Adds the labels of the match at row 1. The search begins anew, and keeps its room; its turns aren't counted.
fn push_match<L: Ledger>(
    text: &mut Vec<u8>,
    pattern: &Pattern,
    search: &mut Search,
    line: &[u8],
    blank: Blank,
) -> Result<(), AllocError>
    requires lettered { are_below letter_count (form_of pattern.now) ≡ true }
    requires is_for { IsSearchFor (form_of pattern.now) search.old }
    requires some { 0 < length line.now }
    requires short { length line.now ≤ longest_line }
    requires name { blank.name ≡ L.name }
    requires parts { blank.parts ≡ L.parts }
    requires counts { 0 < blank.parts }
    ensures is_for { IsSearchFor (form_of pattern.now) search.new }
    ensures added { OnOk result (text.new.items ≡ text.old.items ++ search_text (form_of pattern.now) line.now) }
{
    // The labels of a pattern's words are of its variables, so that each is a letter.
    law_labels();
    let mut steps = Steps::<L>::new(blank);
    let mut letters = Letters::new(line, pattern);
    search.restart(1);
    if !find(search, &mut letters, &mut steps)? {
        return text.extend_from_slice(b"none");
    }
    push_labels(text, search.labels())
}

/// Adds the letters of a match's labels.
fn push_labels(text: &mut Vec<u8>, labels: &[Label]) -> Result<(), AllocError>
    requires { All (λ label. label.var < letter_count) labels.now }
    ensures { OnOk result (text.new.items ≡ text.old.items ++ match_text labels.now) }
{
    if labels.is_empty() {
        return text.extend_from_slice(b"empty");
    }
    for label in labels {
        text.push(b'A' + label.var as u8)?;
    }
    Ok(())
}

/// Whether the line is no longer than `MAX_LINE`, and has letters alone: any other is refused.
fn is_looked_at(line: &[u8]) -> bool
    ensures { result ≡ is_looked_at line.now }
{
    line.len() <= MAX_LINE && line.iter().all(|byte| is_letter(*byte))
}

fn is_letter(byte: u8) -> bool
    ensures { result ≡ is_letter byte }
{
    byte >= b'a' && byte <= b'z'
}

impl From<AllocError> for TraceFault {
    ghost from_gives = { λ _ fault. fault ≡ OutOfMemory };

    fn from(_: AllocError) -> TraceFault {
        TraceFault::OutOfMemory
    }
}

impl<T: Drop> From<AllocFailed<T>> for TraceFault {
    ghost from_gives = { λ _ fault. fault ≡ OutOfMemory };

    fn from(_: AllocFailed<T>) -> TraceFault {
        TraceFault::OutOfMemory
    }
}

impl From<WriteFailed> for TraceFault {
    ghost from_gives = { λ _ fault. fault ≡ Write };

    fn from(_: WriteFailed) -> TraceFault {
        TraceFault::Write
    }
}

impl From<LineFault> for TraceFault {
    ghost from_gives = { λ fault given. given ≡ trace_fault fault };

    fn from(fault: LineFault) -> TraceFault {
        match fault {
            LineFault::Read => TraceFault::Read,
            LineFault::TooManyReads => TraceFault::Turns,
            LineFault::OutOfMemory => TraceFault::OutOfMemory,
        }
    }
}
