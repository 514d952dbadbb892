//! Rows as the packets of their partitions.
ghost use Rattle.std.specs.Prelude.{◌≡◌, ◌++◌, ◌∷◌, [], IfOk, OnOk};
ghost use Rattle.rp_numbering.specs.Numbered.{AreNumbered, part_packets};

use crate::order::order_rows;
use crate::partition::{Part, partitions};
use rp_feed::Packet;
use rp_query::Query;
use rp_value::{Cells, Row};
use std::alloc::{AllocError, Global};
use std::collections::hash_map::RandomState;

/// The packets of rows: for each partition of the query, by first appearance, its rows in the query's order, numbered
/// from 1, and then its close with their count. Rows that tie stay as they came.
///
/// A column that a row doesn't have is null. The hasher is that of `partitions`.
pub fn number_rows(
    alloc: Global,
    query: &Query,
    rows: Vec<Row>,
    hasher: RandomState,
) -> Result<Vec<Packet>, AllocError>
    ensures { IfOk result (λ packets. AreNumbered query.now.partition.items query.now.order.items
        rows.items packets.items) }
{
    let mut packets = Vec::new(alloc);
    for Part { key, rows } in partitions(alloc, query, rows, hasher)? {
        let mut rows = rows;
        order_rows(query, &mut rows)?;
        push_part(&mut packets, key, rows)?;
    }
    Ok(packets)
}

/// Adds the packets of a partition whose rows are in order.
fn push_part(packets: &mut Vec<Packet>, key: Cells, rows: Vec<Row>) -> Result<(), AllocError>
    ensures { OnOk result (packets.new.items ≡ packets.old.items ++ part_packets (key, rows.items)) }
{
    let mut number = 0;
    for cells in rows {
        number += 1;
        push(packets, Packet::Row { number, cells })?;
    }
    push(packets, Packet::Close { key, count: number })
}

fn push(packets: &mut Vec<Packet>, packet: Packet) -> Result<(), AllocError>
    ensures { OnOk result (packets.new.items ≡ packets.old.items ++ packet ∷ []) }
{
    match packets.push(packet) {
        Ok(()) => Ok(()),
        Err(_) => Err(AllocError),
    }
}
