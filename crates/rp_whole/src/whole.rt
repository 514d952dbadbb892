//! From a CSV input to its answers.
ghost use Rattle.std.specs.Prelude.{◌≡◌, IfErr, IfOk, OnOk};
ghost use Rattle.rp_io.specs.Reading.{ReadsWithin};
ghost use Rattle.rp_whole.specs.Answers.{WritesOf};
ghost use Rattle.rp_whole.specs.AnswerLines.{WritesLines};
ghost use Rattle.rp_whole.specs.AnswerRecords.{WritesRecords};
ghost use Rattle.rp_whole.specs.Faults.{LeavesFront, LeavesOf, LeavesRecords, TellsWrite, whole_told};

use crate::answers::write_answers;
use crate::fault::WholeFault;
use crate::gathered::Gathered;
use crate::lines::Lines;
use crate::records::RowRecords;
use crate::stopped::Stopped;
use crate::watch::Watch;
use rp_input::read_rows;
use rp_io::{Intake, Outlet};
use rp_query::Query;
use std::alloc::Global;
use std::collections::hash_map::RandomState;

/// Writes the answers of a CSV input as lines, as `write_lines` does.
///
/// All is read before the first line is written, by at most `reads` calls of the reader. Bytes are written in blocks,
/// so after a fault of the writer or of memory some lines may be missing.
pub fn run_whole<R: Intake, W: Outlet, V: Watch>(
    alloc: Global,
    query: Query,
    reader: &mut R,
    writer: &mut W,
    watch: &mut V,
    reads: u64,
    hasher: RandomState,
) -> Result<(), WholeFault>
    ensures written { OnOk result
        (WritesLines query (R.seen reader.old).remaining (W.contents writer.old) (W.contents writer.new)) }
    ensures front { IfErr result
        (LeavesFront query (R.seen reader.old).remaining (W.contents writer.old) (W.contents writer.new)) }
    ensures reads { ReadsWithin reads (whole_told result) (R.seen reader.old) (R.seen reader.new) }
    ensures write { TellsWrite result (W.failures writer.old) (W.failures writer.new) }
{
    let _stopped = run_answers::<R, W, Lines, V>(
        alloc, query, hasher, reader, reads, writer, watch,
    )?;
    Ok(())
}

/// Writes the answers of a CSV input as CSV, as `write_csv` does, and gives back the partitions whose answers skip faults
/// ended, in order.
///
///     sym,t,p         n,a,lo,hi
///     x,2,8           1,10,6,9
///     y,1,5
///     x,1,10
///     ..              by a clause with PARTITION BY sym ORDER BY t MEASURES MATCH_NUMBER() AS n, ..
///
/// All is read before the header is written, as by `run_whole`.
pub fn run_whole_csv<R: Intake, W: Outlet, V: Watch>(
    alloc: Global,
    query: Query,
    reader: &mut R,
    writer: &mut W,
    watch: &mut V,
    reads: u64,
    hasher: RandomState,
) -> Result<Vec<Stopped>, WholeFault>
    ensures written { IfOk result (λ stopped. WritesRecords query (R.seen reader.old).remaining
        (W.contents writer.old) (W.contents writer.new) stopped.items) }
    ensures front { IfErr result
        (LeavesRecords query (R.seen reader.old).remaining (W.contents writer.old) (W.contents writer.new)) }
    ensures reads { ReadsWithin reads (whole_told result) (R.seen reader.old) (R.seen reader.new) }
    ensures write { TellsWrite result (W.failures writer.old) (W.failures writer.new) }
{
    run_answers::<R, W, RowRecords, V>(alloc, query, hasher, reader, reads, writer, watch)
}

/// Writes the answers of a CSV input in a form: its rows are read, and then the answers over them are written.
fn run_answers<R: Intake, W: Outlet, G: Gathered, V: Watch>(
    alloc: Global,
    query: Query,
    hasher: RandomState,
    reader: &mut R,
    reads: u64,
    writer: &mut W,
    watch: &mut V,
) -> Result<Vec<Stopped>, WholeFault>
    ensures written { IfOk result (λ stopped. WritesOf G.form query (R.seen reader.old).remaining
        (W.contents writer.old) (W.contents writer.new) stopped.items) }
    ensures front { IfErr result (LeavesOf G.form query (R.seen reader.old).remaining
        (W.contents writer.old) (W.contents writer.new)) }
    ensures reads { ReadsWithin reads (whole_told result) (R.seen reader.old) (R.seen reader.new) }
    ensures write { TellsWrite result (W.failures writer.old) (W.failures writer.new) }
{
    let rows = read_rows(alloc, reader, query.table(), reads)?;
    let ended = write_answers::<W, G, V>(alloc, &query, rows, hasher, None, writer, watch)?;
    Ok(ended.stopped)
}
