//! Rows that are made one after another.
ghost use Rattle.std.specs.Prelude.{◌≡◌, ◌≤◌, ◌+◌, ◌*◌, length};
ghost use Rattle.rp_value.specs.declared.row_list.TheConstants.{MOST_ROWS};

use crate::Value;
use crate::row::{Row, add_rows};
use std::alloc::{AllocError, Global};
use std::mem;

/// The most rows whose cells lie in one block: a block is given back only when its last row is dropped.
const MOST_ROWS: usize = 2048;

/// No row is added to a block that has as many cells: rows of many columns are few to a block.
const MANY_CELLS: usize = 8192;

/// Rows of one width, of whose cells a block will be made.
#[derive(Drop)]
struct Batch {
    width: usize,
    count: usize,
    /// The cells of the first row, those of the second, and so on.
    cells: Vec<Value>,
    ghost whole: { length cells.items ≡ count * width },
    ghost few: { count ≤ MOST_ROWS },
}

/// Rows that are made one after another. The cells of many lie in one block, so that a row costs no allocation of its own;
/// the block stays as long as one of its rows does.
#[derive(Drop)]
pub struct RowList {
    alloc: Global,
    full: Vec<Batch>,
    /// The batch that rows are added to.
    last: Batch,
}

#[tactic(auto, using(crate::proofs::Blocks::row_added), unfolding(crate::specs::RowLists::batch_rows, crate::specs::Blocks::cut_apart))]
impl Batch {
    ghost use Rattle.std.specs.Prelude.{[], ◌∷◌, ◌++◌, IfOk, IsTrue, OnOk, OnErr};
    ghost use Rattle.rp_value.specs.RowLists.{batch_rows};

    /// No row of this width, and room for so many cells.
    fn new(alloc: Global, width: usize, cells: usize) -> Result<Batch, AllocError>
        ensures none { IfOk result (λ batch. batch_rows batch ≡ []) }
        ensures width { IfOk result (λ batch. batch.width ≡ width) }
        ensures count { IfOk result (λ batch. batch.count ≡ 0) }
    {
        Ok(Batch {
            width,
            count: 0,
            cells: Vec::with_capacity(alloc, cells)?,
        })
    }

    /// Whether a row of this width has a place.
    fn has_place(&self, width: usize) -> bool
        ensures width { IsTrue result → self.now.width ≡ width }
        ensures room { IsTrue result → self.now.count + 1 ≤ MOST_ROWS }
    {
        width == self.width && self.count < MOST_ROWS && self.cells.len() < MANY_CELLS
    }

    /// Adds a row of its width.
    fn push(&mut self, cells: &mut Vec<Value>) -> Result<(), AllocError>
        requires width { length cells.now.items ≡ self.now.width }
        requires room { self.now.count + 1 ≤ MOST_ROWS }
        ensures ok { OnOk result (batch_rows self.new ≡ batch_rows self.old ++ cells.old.items ∷ []) }
        ensures emptied { OnOk result (cells.new.items ≡ []) }
        ensures err { OnErr result ((batch_rows self.new ≡ batch_rows self.old) × (cells.new.items ≡ cells.old.items)) }
    {
        self.cells.append(cells)?;
        self.count += 1;
        Ok(())
    }
}

#[tactic(auto, unfolding(crate::specs::RowLists::rows_added, crate::specs::RowLists::batch_rows, crate::specs::Blocks::cut_apart))]
impl RowList {
    ghost use Rattle.std.specs.Prelude.{[], ◌∷◌, ◌++◌, IfOk, OnOk, OnErr};
    ghost use Rattle.rp_value.specs.RowLists.{rows_added};

    /// No row.
    pub fn new(alloc: Global) -> RowList
        ensures { rows_added result ≡ [] }
    {
        RowList {
            alloc,
            full: Vec::new(alloc),
            last: Batch {
                width: 0,
                count: 0,
                cells: Vec::new(alloc),
            },
        }
    }

    /// Adds a row of these cells, which leave their list, so that its room can be used again. Where memory runs out the rows
    /// and the cells are as they were.
    pub fn push(&mut self, cells: &mut Vec<Value>) -> Result<(), AllocError>
        ensures ok { OnOk result (rows_added self.new ≡ rows_added self.old ++ cells.old.items ∷ []) }
        ensures emptied { OnOk result (cells.new.items ≡ []) }
        ensures err { OnErr result ((rows_added self.new ≡ rows_added self.old) × (cells.new.items ≡ cells.old.items)) }
    {
        if !self.last.has_place(cells.len()) {
            self.begin_batch(cells.len())?;
        }
        self.last.push(cells)
    }

    /// All rows. Where memory runs out they are dropped.
    pub fn into_rows(self) -> Result<Vec<Row>, AllocError>
        ensures { IfOk result (λ rows. rows.items ≡ rows_added self) }
    {
        let alloc = self.alloc;
        let mut rows = Vec::new(alloc);
        for batch in self.full {
            add_rows(alloc, &mut rows, batch.width, batch.count, batch.cells)?;
        }
        let last = self.last;
        add_rows(alloc, &mut rows, last.width, last.count, last.cells)?;
        Ok(rows)
    }

    /// The last batch is full, and another begins, with room for as many cells.
    fn begin_batch(&mut self, width: usize) -> Result<(), AllocError>
        ensures same { rows_added self.new ≡ rows_added self.old }
        ensures width { OnOk result (self.new.last.width ≡ width) }
        ensures none { OnOk result (self.new.last.count ≡ 0) }
    {
        let next = Batch::new(self.alloc, width, self.last.cells.len())?;
        let full = mem::replace(&mut self.last, next);
        if full.count == 0 {
            return Ok(());
        }
        if let Err(refused) = self.full.push(full) {
            self.last = refused.value;
            return Err(AllocError);
        }
        Ok(())
    }
}
