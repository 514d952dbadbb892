//! How the walk over a partition goes on.

/// What comes after a poll.
#[derive(Clone, Copy)]
pub(crate) enum Next {
    /// Another poll.
    More,
    /// Nothing: all items are written.
    All,
    /// Nothing: the search from this start row has taken too many turns.
    GivenUp(u64),
}
