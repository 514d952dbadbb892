//! Items as lines.
ghost use Rattle.std.specs.Prelude.{◌≡◌, []};

use crate::blocks::LineBlock;
use crate::gathered::Gathered;
use crate::stopped::Stopped;
use rp_protocol::push_item_line;
use rp_query::{Item, Query};
use rp_value::Cells;
use std::alloc::{AllocError, Global};

/// A line for each item.
#[derive(Drop)]
pub(crate) struct Lines {
    alloc: Global,
    block: LineBlock,
}

impl Gathered for Lines {
    ghost use Rattle.std.specs.Prelude.{[]};
    ghost use Rattle.rp_whole.specs.AnswerLines.{line_form};

    ghost form = { line_form };

    ghost bytes = { λ lines. lines.block.text.items };

    ghost stopped = { λ _. [] };

    fn begin(alloc: Global, _query: &Query) -> Result<Lines, AllocError> {
        Ok(Lines {
            alloc,
            block: LineBlock::new(alloc),
        })
    }

    fn push(
        &mut self,
        _query: &Query,
        key: &Cells,
        place: u128,
        item: &Item,
    ) -> Result<(), AllocError> {
        self.block.line.clear();
        push_item_line(self.alloc, &mut self.block.line, key, place, item)?;
        self.block.add_line()
    }

    fn is_block(&self) -> bool {
        self.block.is_block()
    }

    fn take(&mut self) -> Result<Vec<u8>, AllocError> {
        Ok(self.block.take())
    }

    fn give_back(&mut self, memory: Vec<u8>) {
        self.block.give_back(memory);
    }

    fn into_stopped(self) -> Vec<Stopped> {
        Vec::new(self.alloc)
    }
}
