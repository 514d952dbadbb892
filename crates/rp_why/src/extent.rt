//! Which rows a match has.

use crate::seeking::{Match, Sought};

/// The rows of a match.
#[derive(Clone, Copy)]
pub(crate) struct Span {
    /// The row that it begins with.
    pub(crate) first: u64,
    /// The row that it ends with.
    pub(crate) last: u64,
}

/// Which rows a search finds.
#[derive(Clone, Copy)]
pub(crate) enum Extent {
    /// Those of a match.
    Rows(Span),
    /// There is none.
    Nothing,
    /// The searches take more turns than they may.
    GivenUp,
}

/// Which rows are found.
pub(crate) fn extent_of(sought: &Sought) -> Extent {
    match sought {
        Sought::NotFound => Extent::Nothing,
        Sought::GivenUp => Extent::GivenUp,
        Sought::Found(found) => Extent::Rows(Span {
            first: found.first,
            last: last_row(found),
        }),
    }
}

/// The last row of a match with rows.
pub(crate) fn last_row(found: &Match) -> u64 {
    let rows = found.labels.len() as u64;
    found.first.saturating_add(rows).saturating_sub(1)
}
