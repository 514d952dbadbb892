//! What a line asks.

use rp_feed::Packet;
use rp_value::Cells;

/// What a line asks of a node.
#[derive(Drop)]
pub enum Request {
    /// To take a packet.
    Packet(Packet),
    /// To give the next item of a partition.
    Poll {
        /// The partition's values in the columns of PARTITION BY.
        key: Cells,
        /// The greatest number of turns that it may take.
        budget: u32,
    },
}
