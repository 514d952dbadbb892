//! Output rows as objects of JSON, a line each.
ghost use Rattle.std.specs.Prelude.{◌≡◌, []};

use crate::blocks::LineBlock;
use crate::gathered::Gathered;
use crate::stopped::{Stopped, push_stopped};
use rp_protocol::push_object;
use rp_query::{Item, Query};
use rp_value::Cells;
use std::alloc::{AllocError, Global};

/// A line for each output row, and the partitions whose answers skip faults ended.
pub(crate) struct RowObjects {
    alloc: Global,
    block: LineBlock,
    stopped: Vec<Stopped>,
}

/// It is let go of by a call, wherever it is held.
impl Drop for RowObjects {
    fn drop(self) {
        let RowObjects {
            alloc: _,
            block: _,
            stopped: _,
        } = self;
    }
}

impl Gathered for RowObjects {
    ghost use Rattle.rp_whole.specs.AnswerObjects.{object_form};

    ghost form = { object_form };

    ghost bytes = { λ rows. rows.block.text.items };

    ghost stopped = { λ rows. rows.stopped.items };

    fn begin(alloc: Global, _query: &Query) -> Result<RowObjects, AllocError> {
        Ok(RowObjects {
            alloc,
            block: LineBlock::new(alloc),
            stopped: Vec::new(alloc),
        })
    }

    fn push(
        &mut self,
        query: &Query,
        key: &Cells,
        _place: u128,
        item: &Item,
    ) -> Result<(), AllocError> {
        match item {
            Item::Row { number: _, cells } => {
                self.block.line.clear();
                push_object(
                    self.alloc,
                    &mut self.block.line,
                    query.output(),
                    cells.as_slice(),
                )?;
                self.block.add_line()
            }
            Item::Fault(fault) => push_stopped(self.alloc, &mut self.stopped, key, *fault),
            Item::End => Ok(()),
        }
    }

    fn is_block(&self) -> bool {
        self.block.is_block()
    }

    fn take(&mut self) -> Result<Vec<u8>, AllocError> {
        Ok(self.block.take())
    }

    fn give_back(&mut self, memory: Vec<u8>) {
        self.block.give_back(memory);
    }

    fn into_stopped(self) -> Vec<Stopped> {
        let RowObjects {
            alloc: _,
            block: _,
            stopped,
        } = self;
        stopped
    }
}
