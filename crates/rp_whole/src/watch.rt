//! Who is told how a run goes on.
use rp_value::Cells;

/// Is told how a run goes on, so that somebody who waits can be shown where it is.
pub trait Watch {
    /// The rows of a partition are about to be walked.
    fn begins(&mut self, key: &Cells);

    /// In so many turns no item came of a partition. The search at hand begins at this row.
    fn pauses(&mut self, key: &Cells, row: u64, turns: u32);
}

/// Nobody is told.
#[derive(Clone, Copy)]
pub struct Unwatched;

impl Watch for Unwatched {
    fn begins(&mut self, _key: &Cells) {}

    fn pauses(&mut self, _key: &Cells, _row: u64, _turns: u32) {}
}
