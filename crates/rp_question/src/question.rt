//! What is asked of inputs, and the answer.
ghost use Rattle.std.specs.Prelude.{◌≡◌, IfErr, IfOk, IfSome, OnOk, Some, option_map, slice_get};
ghost use Rattle.rp_compile.specs.Compiled.{IsCompiled};
ghost use Rattle.rp_question.specs.Asked.{IsFaultOfFilter, IsFilterOf};
ghost use Rattle.rp_question.specs.Adding.{AddsRows, AddsRowsAt, AreRowsRead, IsFaultAt, IsFaultOfInput};
ghost use Rattle.rp_whole.specs.Answers.{limit_of};
ghost use Rattle.rp_whole.specs.AnswerLines.{line_form};
ghost use Rattle.rp_whole.specs.AnswerObjects.{object_form};
ghost use Rattle.rp_whole.specs.AnswerRecords.{record_form};

use crate::fault::{AnswerFault, InputFault, QuestionFault};
use crate::inputs::{Inputs, Unread};
use crate::reading::Reading;
use rp_compile::compile;
use rp_filter::{Filter, FilterFault, read_filter};
use rp_io::Outlet;
use rp_query::Query;
use rp_value::{Row, Table};
use rp_whole::{EndedEarly, Watch, write_csv, write_lines, write_objects};
use std::alloc::Global;
use std::collections::hash_map::RandomState;
use std::num::NonZeroU64;

/// What is asked, and how the inputs are read of which it is asked.
#[derive(Drop)]
pub struct Question<'a> {
    /// The query of the clause.
    pub query: Query,
    /// What a row has to meet; None where each row is looked at.
    pub filter: Option<Filter>,
    /// How inputs become rows.
    pub reading: Reading<'a>,
}

impl<'a> Question<'a> {
    ghost use Rattle.rp_question.specs.Answered.{CountsFailure, IsAnswered};
    ghost use Rattle.rp_question.specs.Asked.{AreRowsOfInputs, IsFilterOf, IsQuestionFault};
    ghost use Rattle.rp_question.specs.Read.{AreNoRows, columns_seen};

    /// The question of a clause, over the rows that meet a condition where there is one.
    ///
    /// The clause is looked at before the condition. A fault's offset is that in its own text.
    pub fn new(
        alloc: Global,
        clause: &str,
        condition: Option<&str>,
        reading: Reading<'a>,
    ) -> Result<Question<'a>, QuestionFault>
        ensures query { IfOk result (λ question.
            IsCompiled clause.now (columns_seen reading.entry.shape.now) question.query) }
        ensures filter { IfOk result (λ question. IsFilterOf (option_map (λ text. text.now) condition.entry)
            (columns_seen reading.entry.shape.now) question.filter) }
        ensures reading { IfOk result (λ question. question.reading ≡ reading.entry) }
        ensures fault { IfErr result (IsQuestionFault clause.now (option_map (λ text. text.now) condition.entry)
            (columns_seen reading.entry.shape.now)) }
    {
        let table = reading.shape.table();
        let query = compile(alloc, clause, table)?;
        let filter = filter_of(alloc, condition, table)?;
        Ok(Question {
            query,
            filter,
            reading,
        })
    }

    /// The rows that are asked of: those of all inputs, one after another, for which the condition is true. Each input is reported to have
    /// its rows before the next one is read.
    pub fn rows<I: Inputs>(&self, alloc: Global, inputs: &mut I) -> Result<Vec<Row>, InputFault>
        ensures rows { IfOk result (λ rows. AreRowsOfInputs self.now (I.seen inputs.old) rows.items) }
        ensures fault { IfErr result (AreNoRows self.now.reading (I.seen inputs.old)) }
    {
        let rows = self.rows_of_all(alloc, inputs)?;
        inputs.has_all(rows.as_slice())?;
        match &self.filter {
            Some(filter) => Ok(filter.keep(alloc, rows)?),
            None => Ok(rows),
        }
    }

    /// The rows of all inputs, one after another.
    fn rows_of_all<I: Inputs>(&self, alloc: Global, inputs: &mut I) -> Result<Vec<Row>, InputFault>
        ensures rows { IfOk result (λ rows. AreRowsRead self.now.reading (I.seen inputs.old) rows.items) }
        ensures fault { IfErr result (AreNoRows self.now.reading (I.seen inputs.old)) }
    {
        let mut all = Vec::new(alloc);
        for index in 0..inputs.count() {
            self.add_rows(alloc, inputs, index, &mut all)?;
        }
        Ok(all)
    }

    /// Adds the rows of the input with this index.
    fn add_rows<I: Inputs>(
        &self,
        alloc: Global,
        inputs: &mut I,
        index: usize,
        all: &mut Vec<Row>,
    ) -> Result<(), InputFault>
        ensures seen { I.seen inputs.new ≡ I.seen inputs.old }
        ensures added { OnOk result (AddsRowsAt self.now.reading (I.seen inputs.old).texts index
            all.old.items all.new.items) }
        ensures fault { IfErr result (IsFaultOfInput self.now.reading (I.seen inputs.old).texts index) }
    {
        match inputs.read(index) {
            Ok(text) => self.add_text(alloc, inputs, text.as_slice(), all),
            Err(Unread::Device) => Err(InputFault::Unread),
            Err(Unread::OutOfMemory) => Err(InputFault::OutOfMemory),
        }
    }

    /// Adds the rows of a text.
    fn add_text<I: Inputs>(
        &self,
        alloc: Global,
        inputs: &mut I,
        text: &[u8],
        all: &mut Vec<Row>,
    ) -> Result<(), InputFault>
        ensures seen { I.seen inputs.new ≡ I.seen inputs.old }
        ensures added { OnOk result (AddsRows self.now.reading (Some text.now) all.old.items all.new.items) }
        ensures fault { IfErr result (IsFaultAt self.now.reading (Some text.now)) }
    {
        let mut rows = self.reading.rows(alloc, text)?;
        inputs.has_rows(text, rows.as_slice())?;
        all.append(&mut rows)?;
        Ok(())
    }

    /// Writes the answer over the rows of the inputs as lines, as `rp_whole::write_lines` does.
    pub fn answer_lines<I: Inputs + Watch, W: Outlet>(
        &self,
        alloc: Global,
        inputs: &mut I,
        limit: Option<NonZeroU64>,
        writer: &mut W,
        hasher: RandomState,
    ) -> Result<EndedEarly, AnswerFault>
        ensures answer { IsAnswered (limit_of limit) line_form self.now (I.seen inputs.old)
            (W.contents writer.old) (W.contents writer.new) result }
        ensures failures { CountsFailure result (W.failures writer.old) (W.failures writer.new) }
    {
        let rows = self.rows(alloc, inputs)?;
        let halted = write_lines(alloc, &self.query, rows, limit, writer, inputs, hasher)?;
        Ok(EndedEarly {
            stopped: Vec::new(alloc),
            halted,
        })
    }

    /// Writes the answer over the rows of the inputs as CSV, as `rp_whole::write_csv` does.
    pub fn answer_csv<I: Inputs + Watch, W: Outlet>(
        &self,
        alloc: Global,
        inputs: &mut I,
        limit: Option<NonZeroU64>,
        writer: &mut W,
        hasher: RandomState,
    ) -> Result<EndedEarly, AnswerFault>
        ensures answer { IsAnswered (limit_of limit) record_form self.now (I.seen inputs.old)
            (W.contents writer.old) (W.contents writer.new) result }
        ensures failures { CountsFailure result (W.failures writer.old) (W.failures writer.new) }
    {
        let rows = self.rows(alloc, inputs)?;
        Ok(write_csv(alloc, &self.query, rows, limit, writer, inputs, hasher)?)
    }

    /// Writes the answer over the rows of the inputs as objects, as `rp_whole::write_objects` does.
    pub fn answer_objects<I: Inputs + Watch, W: Outlet>(
        &self,
        alloc: Global,
        inputs: &mut I,
        limit: Option<NonZeroU64>,
        writer: &mut W,
        hasher: RandomState,
    ) -> Result<EndedEarly, AnswerFault>
        ensures answer { IsAnswered (limit_of limit) object_form self.now (I.seen inputs.old)
            (W.contents writer.old) (W.contents writer.new) result }
        ensures failures { CountsFailure result (W.failures writer.old) (W.failures writer.new) }
    {
        let rows = self.rows(alloc, inputs)?;
        Ok(write_objects(alloc, &self.query, rows, limit, writer, inputs, hasher)?)
    }
}

/// The filter of a condition over a table, where there is one.
fn filter_of(
    alloc: Global,
    condition: Option<&str>,
    table: &Table,
) -> Result<Option<Filter>, FilterFault>
    ensures is { IfOk result (IsFilterOf (option_map (λ text. text.now) condition.entry) table.now) }
    ensures fault { IfErr result (IsFaultOfFilter (option_map (λ text. text.now) condition.entry) table.now) }
{
    let Some(text) = condition else {
        return Ok(None);
    };
    Ok(Some(read_filter(alloc, text, table)?))
}
