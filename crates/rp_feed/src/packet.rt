//! What a source sends.

use rp_value::{Cells, Row};

/// A row of a partition, or its end.
#[derive(Drop)]
pub enum Packet {
    /// A row.
    Row {
        /// Its number in its partition, from 1.
        number: u64,
        /// Its cells, in the order of the columns.
        cells: Row,
    },
    /// A partition has all its rows.
    Close {
        /// The partition's values in the columns of PARTITION BY.
        key: Cells,
        /// How many rows it has.
        count: u64,
    },
}
