//! A session: lines until the input ends.
ghost use Rattle.std.specs.Prelude.{◌≡◌, ◌<◌, length, IfErr, IfOk, OnErr, OnOk, Ok, false, true};
ghost use Rattle.rp_io.specs.Devices.{Moves};
ghost use Rattle.rp_io.specs.Lines.{TakesLast, TakesLine};
ghost use Rattle.rp_io.specs.Pending.{coming, most_lines_to_come};
ghost use Rattle.rp_io.specs.Reading.{ReadsWithin};
ghost use Rattle.rp_serve.specs.Faults.{NextReads, TellsWrite, fault_of, reads_told};
ghost use Rattle.rp_serve.specs.Served.{LeavesLine, LineDone};
ghost use Rattle.rp_serve.specs.Sessions.{IsWrittenBefore, ServesAll, StopsAfter, StopsServing};
ghost use Rattle.rp_serve.specs.declared.session.TheConstants.{KEPT};

use crate::answers::Answers;
use crate::fault::{ServeFault, Served};
use crate::line::answer_line;
use rp_io::{Intake, Lines, Outlet, write_all, write_block};
use rp_protocol::MAX_LINE_LEN;
use std::alloc::{AllocError, Global};

/// How many bytes of a line are kept: one more than a request may have.
const KEPT: usize = MAX_LINE_LEN + 1;

/// Answers the lines that are read, one after another, until the input ends.
///
/// A line of more than 65,536 bytes is read to its line feed and refused. What stands behind the last line feed is a line
/// unless it is empty. The reader is called at most `reads` times, and only once all replies were written. After a fault of
/// the writer or of memory some replies may be missing.
pub fn serve<R: Intake, W: Outlet, N: Answers>(
    alloc: Global,
    reader: &mut R,
    writer: &mut W,
    node: &mut N,
    reads: u64,
) -> Result<Served, ServeFault>
    ensures served { IfOk result (λ served. ServesAll N.step (R.seen reader.old).remaining node.old node.new
        (W.contents writer.old) (W.contents writer.new) served.lines) }
    ensures stops { IfErr result (λ fault. StopsServing N.step N.cut_short fault (R.seen reader.old).remaining
        node.old node.new (W.contents writer.old) (W.contents writer.new)) }
    ensures reads { ReadsWithin reads (reads_told (fault_of result)) (R.seen reader.old) (R.seen reader.new) }
    ensures write { TellsWrite (fault_of result) (W.failures writer.old) (W.failures writer.new) }
{
    let mut count = 0u128;
    match serve_counted(alloc, reader, writer, node, reads, &mut count) {
        Ok(()) => Ok(Served { lines: count }),
        Err(fault) => Err(fault),
    }
}

/// The same, with the number of the lines that were answered, whether the input ended or not.
pub(crate) fn serve_counted<R: Intake, W: Outlet, N: Answers>(
    alloc: Global,
    reader: &mut R,
    writer: &mut W,
    node: &mut N,
    reads: u64,
    count: &mut u128,
) -> Result<(), ServeFault>
    requires { count.old ≡ 0 }
    ensures served { OnOk result (ServesAll N.step (R.seen reader.old).remaining node.old node.new
        (W.contents writer.old) (W.contents writer.new) count.new) }
    ensures stops { IfErr result (λ fault. StopsAfter N.step N.cut_short fault (R.seen reader.old).remaining
        node.old node.new (W.contents writer.old) (W.contents writer.new) count.new) }
    ensures reads { ReadsWithin reads (reads_told (fault_of result)) (R.seen reader.old) (R.seen reader.new) }
    ensures write { TellsWrite (fault_of result) (W.failures writer.old) (W.failures writer.new) }
{
    let mut lines = Lines::new(alloc, reads, KEPT);
    let mut line = Vec::new(alloc);
    let mut text = Vec::new(alloc);
    while next_line(&mut lines, reader, writer, &mut line, &mut text)? {
        answer_line(alloc, node, line.as_slice(), &mut text)?;
        *count += 1;
        write_block(writer, &mut text)?;
    }
    let is_line = answer_last(alloc, node, line.as_slice(), &mut text)?;
    *count += u128::from(is_line);
    write_all(writer, text.as_slice())?;
    Ok(())
}

/// Takes the next line, and says whether it had a line feed. What is gathered is written before the reader is called.
fn next_line<R: Intake, W: Outlet>(
    lines: &mut Lines,
    reader: &mut R,
    writer: &mut W,
    line: &mut Vec<u8>,
    text: &mut Vec<u8>,
) -> Result<bool, ServeFault>
    requires { lines.old.kept ≡ KEPT }
    ensures kept { lines.new.kept ≡ KEPT }
    ensures line { result ≡ Ok true → TakesLine KEPT
        (coming lines.old (R.seen reader.old)) (coming lines.new (R.seen reader.new)) line.new.items }
    ensures last { result ≡ Ok false → TakesLast KEPT
        (coming lines.old (R.seen reader.old)) (coming lines.new (R.seen reader.new)) line.new.items }
    ensures falls { result ≡ Ok true → most_lines_to_come lines.new < most_lines_to_come lines.old }
    ensures moves { OnOk result (Moves (W.contents writer.old) text.old.items (W.contents writer.new) text.new.items) }
    ensures stops { IfErr result (λ fault.
        IsWrittenBefore fault (W.contents writer.old) (W.contents writer.new) text.old.items) }
    ensures reads { NextReads result lines.old.reads lines.new.reads (R.seen reader.old) (R.seen reader.new) }
    ensures write { TellsWrite (fault_of result) (W.failures writer.old) (W.failures writer.new) }
{
    if lines.has_line() {
        return Ok(lines.next(reader, line)?);
    }
    write_all(writer, text.as_slice())?;
    text.clear();
    Ok(lines.next(reader, line)?)
}

/// Answers the part behind the last line feed, if it is a line: it is unless it is empty.
fn answer_last<N: Answers>(
    alloc: Global,
    node: &mut N,
    part: &[u8],
    text: &mut Vec<u8>,
) -> Result<bool, AllocError>
    ensures done { result ≡ Ok true → (length part.now ≡ 0 → ⊥)
        × LineDone N.step node.old part.now node.new text.old.items text.new.items }
    ensures none { result ≡ Ok false →
        (length part.now ≡ 0) × (node.new ≡ node.old) × (text.new.items ≡ text.old.items) }
    ensures left { OnErr result ((length part.now ≡ 0 → ⊥) × LeavesLine N.step N.cut_short node.old part.now node.new) }
{
    if part.is_empty() {
        return Ok(false);
    }
    answer_line(alloc, node, part, text)?;
    Ok(true)
}
