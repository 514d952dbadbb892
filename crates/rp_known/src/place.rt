//! Where a walk over the start rows stands.

/// A start row, and what the walk remembers of the matches before it.
#[derive(Clone, Copy)]
pub struct Place {
    /// The row.
    pub start: u64,
    /// So many matches start at earlier rows.
    pub matches: u64,
    /// The greatest last row of these matches, 0 where they have no row.
    pub covered: u64,
}
