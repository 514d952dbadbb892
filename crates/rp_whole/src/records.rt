//! Items as records of CSV.
ghost use Rattle.std.specs.Prelude.{◌≡◌, IfOk};
ghost use Rattle.rp_whole.specs.AnswerRecords.{header_text};
ghost use Rattle.rp_whole.specs.AnswerRows.{output_names};

use crate::gathered::{BLOCK, Gathered};
use crate::stopped::{Stopped, push_stopped};
use rp_query::{Item, Query};
use rp_table::Records;
use rp_value::{Cells, Text};
use std::alloc::{AllocError, Global};

/// The records of rows, and the partitions whose answers skip faults ended.
pub(crate) struct RowRecords {
    alloc: Global,
    records: Records,
    stopped: Vec<Stopped>,
}

/// It is let go of by a call, wherever it is held.
impl Drop for RowRecords {
    fn drop(self) {
        let RowRecords {
            alloc: _,
            records: _,
            stopped: _,
        } = self;
    }
}

/// The names of the output columns.
fn output_names(alloc: Global, query: &Query) -> Result<Vec<Text>, AllocError>
    ensures { IfOk result (λ names. names.items ≡ output_names query.now) }
{
    let mut names = Vec::new(alloc);
    for column in query.output() {
        names.push(column.name.share()?)?;
    }
    Ok(names)
}

/// The header alone: the names of the output columns.
fn header(alloc: Global, query: &Query) -> Result<Records, AllocError>
    ensures { IfOk result (λ records. records ≡ header_text query.now) }
{
    let names = output_names(alloc, query)?;
    let mut records = Records::new(alloc);
    records.push_names(names.as_slice())?;
    Ok(records)
}

impl Gathered for RowRecords {
    ghost use Rattle.rp_whole.specs.AnswerRecords.{record_form};

    ghost form = { record_form };

    ghost bytes = { λ rows. rows.records };

    ghost stopped = { λ rows. rows.stopped.items };

    fn begin(alloc: Global, query: &Query) -> Result<RowRecords, AllocError> {
        let records = header(alloc, query)?;
        Ok(RowRecords {
            alloc,
            records,
            stopped: Vec::new(alloc),
        })
    }

    fn push(
        &mut self,
        _query: &Query,
        key: &Cells,
        _place: u128,
        item: &Item,
    ) -> Result<(), AllocError> {
        match item {
            Item::Row { number: _, cells } => self.records.push_cells(cells.as_slice()),
            Item::Fault(fault) => push_stopped(self.alloc, &mut self.stopped, key, *fault),
            Item::End => Ok(()),
        }
    }

    fn is_block(&self) -> bool {
        self.records.holds_bytes(BLOCK)
    }

    fn take(&mut self) -> Result<Vec<u8>, AllocError> {
        self.records.take()
    }

    fn give_back(&mut self, memory: Vec<u8>) {
        self.records.give_back(memory);
    }

    fn into_stopped(self) -> Vec<Stopped> {
        let RowRecords {
            alloc: _,
            records: _,
            stopped,
        } = self;
        stopped
    }
}
