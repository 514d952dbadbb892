//! Rows of a table.
ghost use Rattle.std.specs.Prelude.{◌≡◌, ◌↔◌, IsTrue, IfOk, IfErr, OnOk, IfSome, None, Some, not, option_copied, position, zip, length, ◌<◌, ◌≤◌, ◌+◌, ◌*◌, ◌++◌};
ghost use Rattle.std.specs.Cmp.Lexicographic.{pointwise, lists_per, lists_equiv};
ghost use Rattle.rp_value.specs.Blocks.{cut_apart};
ghost use Rattle.rp_value.specs.Rows.{admits, cell_at, row_fault};
ghost use Rattle.rp_value.specs.declared.row.RowFault.TheVariants.{OutOfMemory};
ghost use Rattle.rp_value.specs.contracts.value.ValuePartialEq.TheImpl.Laws.{laws-law as value_per};
ghost use Rattle.rp_value.specs.contracts.value.ValueEq.TheImpl.Laws.{laws-law as value_equiv};

use crate::cells::same_values;
use crate::{Kind, Value};
use std::alloc::{AllocError, AllocFailed, Global};
use std::fmt::{self, Debug};
use std::marker::Model;
use std::rc::Rc;
use thiserror::Error;

/// Rows of one width, whose cells lie one after another.
struct Block {
    width: usize,
    cells: Vec<Value>,
}

/// It is let go of by a call, wherever it is held.
impl Drop for Block {
    fn drop(self) {
        let Block { width: _, cells: _ } = self;
    }
}

/// A row, whose cells further owners share. Contracts see it as the list of its cells.
///
/// `Table::row` makes one that fits its table; `RowList` makes many, whose cells lie in common blocks.
pub struct Row {
    block: Rc<Block>,
    /// Where its cells begin in the block.
    from: usize,
    ghost within: { from + block.value.width ≤ length block.value.cells.items },
}

/// It is let go of by a call, wherever it is held.
impl Drop for Row {
    fn drop(self) {
        let Row { block: _, from: _ } = self;
    }
}

impl Model for Row {
    ghost use Rattle.std.specs.Prelude.{List, drop, take};
    ghost use Rattle.rp_value.specs.declared.value.Value.{Value as Cell};

    ghost Value = { List Cell };

    ghost view = { λ r. take r.block.value.width (drop r.from r.block.value.cells.items) };
}

impl fmt::Debug for Row {
    fn fmt<W: fmt::Write>(&self, f: &mut fmt::Formatter<W>) -> Result<(), fmt::Error> {
        self.cells().fmt(f)
    }
}

impl PartialEq for Row {
    ghost eq = { pointwise ⟦<Value as PartialEq>⟧.eq };

    ghost laws = { lists_per value_per };

    fn eq(&self, other: &Row) -> bool {
        self.cells() == other.cells()
    }
}

impl Eq for Row {
    ghost laws = { lists_equiv value_equiv };
}

impl Row {
    /// A row of these cells, which need not fit any table: `check_cells` says whether they do.
    pub fn new(alloc: Global, cells: Vec<Value>) -> Result<Row, AllocError>
        ensures { IfOk result (λ row. row ≡ cells.items) }
    {
        let width = cells.len();
        let block = Rc::new(alloc, Block { width, cells })?;
        Ok(Row { block, from: 0 })
    }

    /// All cells, in the order of the columns.
    pub fn cells(&self) -> &[Value]
        ensures { result.now ≡ self.now }
    {
        &self.block.cells[self.from..self.from + self.block.width]
    }

    /// The cell in a column, from 1. None for 0 and beyond the last column.
    pub fn cell(&self, column: usize) -> Option<&Value>
        ensures { option_copied result ≡ cell_at self.now column }
    {
        if column == 0 {
            return None;
        }
        self.cells().get(column - 1)
    }

    /// Whether two rows have equal cells.
    pub fn same(&self, other: &Row) -> bool
        ensures { IsTrue result ↔ (self.now ≡ other.now) }
    {
        same_values(self.cells(), other.cells())
    }

    /// A further owner of the same cells. Nothing is copied; the error says that the count
    /// of owners is full.
    pub fn share(&self) -> Result<Row, AllocError>
        ensures { IfOk result (λ row. row ≡ self.now) }
    {
        let block = self.block.clone()?;
        Ok(Row {
            block,
            from: self.from,
        })
    }
}

#[tactic(auto, using(crate::proofs::Blocks::one_row_more))]
/// Adds `count` rows of `width` cells each, which lie one after another in `cells`.
pub(crate) fn add_rows(
    alloc: Global,
    rows: &mut Vec<Row>,
    width: usize,
    count: usize,
    cells: Vec<Value>,
) -> Result<(), AllocError>
    requires { length cells.items ≡ count * width }
    ensures { OnOk result (rows.new.items ≡ rows.old.items ++ cut_apart width count cells.items) }
{
    if count == 0 {
        return Ok(());
    }
    let block = Rc::new(alloc, Block { width, cells })?;
    for index in 0..count {
        let row = Row {
            block: block.clone()?,
            from: index * width,
        };
        rows.push(row)?;
    }
    Ok(())
}

/// Whether these cells may stand in columns of these kinds, as the cells of a row and the values of a key must: as many
/// as there are kinds, each null or of its kind. The error is never `OutOfMemory`.
pub fn check_cells(kinds: &[Kind], cells: &[Value]) -> Result<(), RowFault>
    ensures ok { OnOk result (row_fault kinds.now cells.now ≡ None) }
    ensures err { IfErr result (λ fault. row_fault kinds.now cells.now ≡ Some fault) }
{
    if cells.len() != kinds.len() {
        return Err(RowFault::Width);
    }
    match first_misfit(kinds, cells) {
        Some(index) => Err(RowFault::Kind(index + 1)),
        None => Ok(()),
    }
}

/// The index of the first value that is neither null nor of its kind.
fn first_misfit(kinds: &[Kind], cells: &[Value]) -> Option<usize>
    ensures place { result ≡ position (λ p. not (admits p.0 p.1)) (zip kinds.now cells.now) }
    ensures bound { IfSome result (λ index. index < length kinds.now) }
{
    kinds
        .iter()
        .zip(cells)
        .position(|(kind, cell)| !kind.admits(cell))
}

/// Why values are no row of a table, the first reason in the order of the variants.
#[derive(Clone, Copy, Debug, PartialEq, Eq, Error)]
pub enum RowFault {
    /// Their number is not the number of columns.
    #[error("width")]
    Width,
    /// The value in this column, from 1, is neither null nor of the column's kind.
    #[error("kind {0}")]
    Kind(usize),
    /// The values have neither fault, but no memory was left for the row.
    #[error("out of memory")]
    OutOfMemory,
}

impl From<AllocError> for RowFault {
    ghost from_gives = { λ _ fault. fault ≡ OutOfMemory };

    fn from(_error: AllocError) -> RowFault {
        RowFault::OutOfMemory
    }
}

impl<T: Drop> From<AllocFailed<T>> for RowFault {
    ghost from_gives = { λ _ fault. fault ≡ OutOfMemory };

    fn from(_error: AllocFailed<T>) -> RowFault {
        RowFault::OutOfMemory
    }
}
