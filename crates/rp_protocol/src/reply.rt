//! What is replied.

use crate::Refusal;
use rp_feed::Taken;
use rp_query::Item;
use rp_value::Cells;

/// What a node replies to a line.
#[derive(Drop)]
pub enum Reply {
    /// What became of a row or a close.
    Taken(Taken),
    /// An item of a partition's answer.
    Item {
        /// The partition's values in the columns of PARTITION BY.
        key: Cells,
        /// The item's place in the answer, from 1.
        place: u128,
        item: Item,
    },
    /// All items of this partition that are known were given.
    Idle(Cells),
    /// The turns that a poll of this partition may take are used up.
    Paused(Cells),
    /// The line or what it asks is refused.
    Refused(Refusal),
}
