//! The inputs of a job, one after another.
use crate::asked::Asked;
use crate::fault::ProgramFault;
use crate::files::bytes_of;
use crate::input::InputLayout;
use crate::input_fault::input_fault;
use crate::progress::Progress;
use crate::remarks::{tell_near_misses, tell_never_found, tell_quotes_of};
use crate::texts::{notes_on_columns, notes_on_given, tell_notes};
use rp_query::Query;
use rp_question::{InputFault, Inputs, Question, Unread};
use rp_text_notes::Note;
use rp_value::{Cells, Row};
use rp_whole::Watch;
use std::alloc::AllocError;
use std::mem;

/// The inputs of a job: its files, or standard input. What may not be meant so is reported of each, and of all; and how far a long answer over
/// them is.
#[derive(Drop)]
pub struct JobInputs<'a> {
    rt: &'a HostRuntime,
    asked: Asked<'a>,
    layout: &'a InputLayout,
    /// The query of the clause.
    query: &'a Query,
    /// The bytes of all inputs, where these were read before; else none.
    ready: Vec<Vec<u8>>,
    progress: Option<Progress<'a>>,
    /// The index of the input that is at hand.
    index: usize,
    /// Why that can't be read.
    fault: Option<ProgramFault>,
}

impl<'a> JobInputs<'a> {
    /// The inputs of which this is asked. Their bytes are `ready` where they were read before.
    pub fn new(
        rt: &'a HostRuntime,
        asked: Asked<'a>,
        layout: &'a InputLayout,
        query: &'a Query,
        ready: Vec<Vec<u8>>,
        progress: Option<Progress<'a>>,
    ) -> JobInputs<'a> {
        JobInputs {
            rt,
            asked,
            layout,
            query,
            ready,
            progress,
            index: 0,
            fault: None,
        }
    }

    /// The rows that a question is asked of.
    pub fn rows(&mut self, question: &Question<'_>) -> Result<Vec<Row>, ProgramFault> {
        match question.rows(self.rt.alloc(), self) {
            Ok(rows) => Ok(rows),
            Err(fault) => Err(self.program_fault(fault)),
        }
    }

    /// Why the program ends where the input at hand has no rows.
    pub fn program_fault(&mut self, fault: InputFault) -> ProgramFault {
        match self.fault.take() {
            Some(fault) => fault,
            None => input_fault(self.rt.alloc(), self.name(), &self.layout.shape, fault),
        }
    }

    /// What is to be known of the columns, over the rows of all inputs.
    fn notes(&self, rows: &[Row]) -> Result<Vec<Note>, AllocError> {
        let (alloc, layout) = (self.rt.alloc(), self.layout);
        match &layout.proposed {
            Some(columns) => {
                let proposed = layout.form.proposed(columns.as_str());
                notes_on_columns(alloc, self.query, self.asked.filter, proposed, rows)
            }
            None => notes_on_given(alloc, self.query, self.asked.filter, &layout.shape),
        }
    }

    /// The name of the file at hand.
    fn name(&self) -> Option<&'a str> {
        self.asked.name_at(self.index)
    }
}

impl Inputs for JobInputs<'_> {
    ghost use Rattle.std.specs.Prelude.{None, length, max};
    ghost use Rattle.rp_question.specs.Inputs.{InputsSeen};

    ghost seen = { λ inputs. record { count = max (length inputs.asked.files.now) 1; texts = None } };

    fn count(&self) -> usize {
        self.asked.files.len().max(1)
    }

    fn read(&mut self, index: usize) -> Result<Vec<u8>, Unread> {
        self.index = index;
        if let Some(bytes) = self.ready.get_mut(index) {
            return Ok(mem::replace(bytes, Vec::new(self.rt.alloc())));
        }
        match bytes_of(self.rt, self.name(), &mut self.progress) {
            Ok(bytes) => Ok(bytes),
            Err(fault) => {
                self.fault = Some(fault);
                Err(Unread::Device)
            }
        }
    }

    fn has_rows(&mut self, bytes: &[u8], rows: &[Row]) -> Result<(), AllocError> {
        tell_quotes_of(self.rt, &self.layout.form, bytes, self.name())?;
        tell_never_found(self.rt, &self.layout.shape, rows, self.name())
    }

    fn has_all(&mut self, rows: &[Row]) -> Result<(), AllocError> {
        let notes = self.notes(rows)?;
        tell_notes(self.rt, notes.as_slice())?;
        tell_near_misses(self.rt, self.query, self.asked.filter, rows)
    }
}

impl Watch for JobInputs<'_> {
    fn begins(&mut self, key: &Cells) {
        if let Some(progress) = &mut self.progress {
            progress.begins(key);
        }
    }

    fn pauses(&mut self, key: &Cells, row: u64, turns: u32) {
        if let Some(progress) = &mut self.progress {
            progress.pauses(key, row, turns);
        }
    }
}
