//! Items of an answer.
use rp_value::Cells;

/// Why a skip rule names no row that a search could start at.
#[derive(Clone, Copy, Debug)]
pub enum SkipFault {
    /// No row of the match is mapped to the variable.
    SkipNoRow,
    /// The row is the match's first.
    SkipSame,
}

/// An item of an answer: rows of output, and then one skip fault or the partition's end.
#[derive(Debug)]
pub enum Item {
    /// A row of output.
    Row {
        /// The number of its match, from 1. None where the row is in no match.
        number: Option<u64>,
        /// Its cells, in the order of the output columns.
        cells: Cells,
    },
    /// A skip fault ends the answer.
    Fault(SkipFault),
    /// The partition's end.
    End,
}

/// It is let go of by a call, wherever it is held.
impl Drop for Item {
    fn drop(self) {
        match self {
            Item::Row {
                number: _,
                cells: _,
            } => {}
            Item::Fault(_) => {}
            Item::End => {}
        }
    }
}
