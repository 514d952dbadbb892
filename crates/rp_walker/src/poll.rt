//! What a poll comes to.
use rp_query::Item;

/// What a poll came to.
#[derive(Drop)]
pub enum Poll {
    /// The item at this place of the partition's answer, from 1.
    Item(u128, Item),
    /// All that is known was given.
    Idle,
    /// The budget was used up.
    Paused,
}
