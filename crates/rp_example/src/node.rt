//! A node: it takes the rows of many partitions in any order, and each of them as often as it comes.
use crate::{row, text};
use anyhow::Result;
use rp_feed::Packet;
use rp_node::Node;
use rp_query::Query;
use rp_value::{Cells, Table, Value};
use rp_walker::Poll;
use std::collections::hash_map::RandomState;

/// The number and the price of each row, in the order in which they come: not in that of their numbers, and one of them twice.
const ARRIVALS: [(u64, i64); 5] = [(3, 6), (1, 10), (2, 8), (2, 8), (4, 9)];

/// Rows of one symbol and its close, of which the answer is printed. In between, the node is saved and another goes on.
pub fn run(rt: &HostRuntime, table: &Table, query: Query) -> Result<()> {
    let mut node = Node::new(rt.alloc(), query, RandomState::new(rt)?);
    accept_rows(rt, table, &mut node)?;
    let bytes = node.save()?;
    let mut node = restarted(rt, node.into_query(), &bytes)?;
    let key = accept_close(rt, &mut node)?;
    print_items(rt, &mut node, key.as_slice())
}

fn accept_rows(rt: &HostRuntime, table: &Table, node: &mut Node) -> Result<()> {
    for (number, price) in ARRIVALS.iter() {
        let cells = row(rt.alloc(), table, "y", *number as i64, *price)?;
        let number = *number;
        let taken = node.accept(Packet::Row { number, cells })?;
        println!(rt; "row {number}: {taken:?}")?;
    }
    Ok(())
}

/// The node that goes on from what an earlier one saved.
fn restarted(rt: &HostRuntime, query: Query, bytes: &[u8]) -> Result<Node> {
    match Node::restart(rt.alloc(), query, RandomState::new(rt)?, bytes) {
        Ok(node) => Ok(node),
        Err(refused) => Err(refused.fault.into()),
    }
}

/// Reports that the symbol has four rows, and gives its key.
fn accept_close(rt: &HostRuntime, node: &mut Node) -> Result<Cells> {
    let key = Cells::new(vec![in rt.alloc(); text(rt.alloc(), "y")?]?);
    let close = Packet::Close {
        key: key.share(rt.alloc())?,
        count: 4,
    };
    let taken = node.accept(close)?;
    println!(rt; "close: {taken:?}")?;
    Ok(key)
}

/// Prints the items of a partition that are certain by now and weren't given yet.
fn print_items(rt: &HostRuntime, node: &mut Node, key: &[Value]) -> Result<()> {
    for _poll in 0..u64::MAX {
        match node.next(key, 1_000)? {
            Poll::Item(place, item) => println!(rt; "    item {place}: {item:?}")?,
            Poll::Paused => {}
            Poll::Idle => break,
        }
    }
    Ok(())
}
