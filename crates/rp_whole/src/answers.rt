//! The answers over rows, written in a form.
ghost use Rattle.std.specs.Prelude.{[], IfErr, IfOk, OnErr};
ghost use Rattle.rp_whole.specs.Answers.{WritesFrontWithin, WritesWithin, limit_of};
ghost use Rattle.rp_whole.specs.AnswerLines.{line_form};
ghost use Rattle.rp_whole.specs.AnswerObjects.{object_form};
ghost use Rattle.rp_whole.specs.AnswerRecords.{record_form};
ghost use Rattle.rp_whole.specs.Faults.{IsOfOutput, TellsWrite, WritesAnswers};

use crate::fault::WholeFault;
use crate::gathered::Gathered;
use crate::halted::Halted;
use crate::lines::Lines;
use crate::objects::RowObjects;
use crate::parts::write_parts;
use crate::records::RowRecords;
use crate::stopped::Stopped;
use crate::turns::Counting;
use crate::watch::Watch;
use rp_io::Outlet;
use rp_numbering::{law_orders, partitions};
use rp_query::Query;
use rp_value::Row;
use std::alloc::Global;
use std::collections::hash_map::RandomState;
use std::marker::Brand;
use std::num::NonZeroU64;
use std::sync::ledger::Blank;

/// The partitions whose answers ended early, in order.
#[derive(Drop)]
pub struct EndedEarly {
    /// Those that skip faults ended.
    pub stopped: Vec<Stopped>,
    /// Those that were given up at the limit.
    pub halted: Vec<Halted>,
}

/// Writes the answers over rows as lines: of each partition, by first appearance, the lines of the items of its answer, with
/// their places from 1.
///
///     {"cells":["x",1,10,6,9],"key":["x"],"number":1,"place":"1"}
///     {"end":true,"key":["x"],"place":"2"}
///
/// Where there is a limit, no search takes many more turns from one start row than that: the answer of its partition is given
/// up there, the items so far are written without an end, the other partitions are answered, and those that were given up are
/// given back, in order. A start row of at most `limit` turns is never given up; one of more than `limit` and twice the turns
/// of a poll (100,000, or the limit if that is less) always is. What the contract says of a row that is given up (`IsGivenUp`)
/// goes by the turns that it may take by its pattern alone. Where none may take more than `limit`, and without a limit, each
/// answer is whole (`law_limits`).
///
/// Bytes are written in blocks, so after a fault of the writer or of memory some lines may be missing. The hasher finds the
/// partition of a key, as in `rp_numbering::partitions`.
pub fn write_lines<W: Outlet, V: Watch>(
    alloc: Global,
    query: &Query,
    rows: Vec<Row>,
    limit: Option<NonZeroU64>,
    writer: &mut W,
    watch: &mut V,
    hasher: RandomState,
) -> Result<Vec<Halted>, WholeFault>
    ensures written { IfOk result (λ halted. WritesWithin (limit_of limit) line_form query.now rows.items
        (W.contents writer.old) (W.contents writer.new) [] halted.items) }
    ensures front { OnErr result (WritesFrontWithin (limit_of limit) line_form query.now rows.items
        (W.contents writer.old) (W.contents writer.new)) }
    ensures fault { IfErr result IsOfOutput }
    ensures write { TellsWrite result (W.failures writer.old) (W.failures writer.new) }
{
    let ended = write_answers::<W, Lines, V>(alloc, query, rows, hasher, limit, writer, watch)?;
    Ok(ended.halted)
}

/// Writes the answers over rows as CSV: a header of the names of the output columns, and then of each partition, by first
/// appearance, a record for each row of its answer. An end is no record. Nor is a skip fault, after which a partition has no
/// further row: the partitions whose answers ended so are given back, in order.
///
/// A field is in quotes where it holds a comma, a quote or a line end. Null is an empty field, and so is an empty text; in a
/// record of one column either is written as `""`, since an empty line is no record. An answer of no columns has `""` for its
/// header and for each row.
///
/// Answers are given up, bytes are written in blocks and the hasher is used as by `write_lines`.
pub fn write_csv<W: Outlet, V: Watch>(
    alloc: Global,
    query: &Query,
    rows: Vec<Row>,
    limit: Option<NonZeroU64>,
    writer: &mut W,
    watch: &mut V,
    hasher: RandomState,
) -> Result<EndedEarly, WholeFault>
    ensures answers { WritesAnswers (limit_of limit) record_form query.now rows.items
        (W.contents writer.old) (W.contents writer.new) result }
    ensures write { TellsWrite result (W.failures writer.old) (W.failures writer.new) }
{
    write_answers::<W, RowRecords, V>(alloc, query, rows, hasher, limit, writer, watch)
}

/// Writes the answers over rows as objects: of each partition, by first appearance, a line for each row of its answer, an
/// object that has each cell under the name of its output column, in the order of the columns. A whole number is a number, a
/// text a string, null null. An end is no line, nor is a skip fault: the partitions are given back as by `write_csv`.
///
///     {"SYM":"x","N":1,"A":10,"LO":6,"HI":9}
///
/// The keys are the names of the output columns and nothing else, so that none is there twice: who wants the number of the
/// match has it by `MATCH_NUMBER()`. An answer of no columns has `{}` for each row.
///
/// Answers are given up, bytes are written in blocks and the hasher is used as by `write_lines`.
pub fn write_objects<W: Outlet, V: Watch>(
    alloc: Global,
    query: &Query,
    rows: Vec<Row>,
    limit: Option<NonZeroU64>,
    writer: &mut W,
    watch: &mut V,
    hasher: RandomState,
) -> Result<EndedEarly, WholeFault>
    ensures answers { WritesAnswers (limit_of limit) object_form query.now rows.items
        (W.contents writer.old) (W.contents writer.new) result }
    ensures write { TellsWrite result (W.failures writer.old) (W.failures writer.new) }
{
    write_answers::<W, RowObjects, V>(alloc, query, rows, hasher, limit, writer, watch)
}

/// Writes the answers over rows in a form, and gives back the partitions whose answers ended early.
pub(crate) fn write_answers<W: Outlet, G: Gathered, V: Watch>(
    alloc: Global,
    query: &Query,
    rows: Vec<Row>,
    hasher: RandomState,
    limit: Option<NonZeroU64>,
    writer: &mut W,
    watch: &mut V,
) -> Result<EndedEarly, WholeFault>
    ensures answers { WritesAnswers (limit_of limit) G.form query.now rows.items
        (W.contents writer.old) (W.contents writer.new) result }
    ensures write { TellsWrite result (W.failures writer.old) (W.failures writer.new) }
{
    // Any rows can be put into any order: what isn't written after a fault are answers too.
    law_orders();
    let parts = partitions(alloc, query, rows, hasher)?;
    let mut gathered = G::begin(alloc, query)?;
    let counting = Counting {
        limit,
        blank: Blank::new(1),
    };
    let halted = write_parts::<W, G, V, Brand>(
        alloc,
        query,
        parts,
        &mut gathered,
        writer,
        watch,
        counting,
    )?;
    let stopped = gathered.into_stopped();
    Ok(EndedEarly { stopped, halted })
}
