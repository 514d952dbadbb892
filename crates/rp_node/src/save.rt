//! From a node to what a checkpoint keeps of it.
ghost use Rattle.std.specs.Prelude.{◌≡◌, IfOk, map};
ghost use Rattle.rp_partition.specs.Joined.{held_of};
ghost use Rattle.rp_node.specs.NodeSeen.{AllJoined, node_by};
ghost use Rattle.rp_node.specs.Keeping.{held_row, kept_of, partition_kept};

use crate::partitions::Partitions as Parts;
use rp_checkpoint::{Columns, HeldRow, HeldRows, NodeData, PartitionData, Partitions};
use rp_feed::Feed;
use rp_partition::Partition;
use rp_query::Query;
use rp_value::{Cells, Row, Value};
use std::alloc::{AllocError, Global};

/// What is kept of a node of these partitions.
pub(crate) fn kept(alloc: Global, query: &Query, partitions: &Parts) -> Result<NodeData, AllocError>
    requires joined { AllJoined query.now partitions.now.entries }
    ensures { IfOk result (λ kept. kept ≡ kept_of (node_by query.now partitions.now.entries)) }
{
    let clause = query.text().share()?;
    let columns = query.table().to_columns(alloc)?;
    let table = Columns::new(columns);
    let partitions = all_kept(alloc, query, partitions)?;
    Ok(NodeData {
        clause,
        table,
        partitions,
    })
}

fn all_kept(alloc: Global, query: &Query, partitions: &Parts) -> Result<Partitions, AllocError>
    requires joined { AllJoined query.now partitions.now.entries }
    ensures { IfOk result (λ kept. kept ≡ map (λ e. partition_kept e.0.items (held_of e.1)) partitions.now.entries) }
{
    // The contract speaks of the query, and the code doesn't.
    let _query = query;
    let mut list = Vec::with_capacity(alloc, partitions.len())?;
    for place in 0..partitions.len() {
        let Some((key, partition)) = partitions.get_index(place) else {
            // It can't come: each place below the count of partitions has one.
            return Err(AllocError);
        };
        list.push(partition_kept(alloc, key.as_slice(), partition)?)?;
    }
    Ok(Partitions::new(list))
}

/// What is kept of a partition.
fn partition_kept(
    alloc: Global,
    key: &[Value],
    partition: &Partition,
) -> Result<PartitionData, AllocError>
    ensures { IfOk result (λ kept. kept ≡ partition_kept key.now (held_of partition.now)) }
{
    let key = Cells::of(alloc, key)?;
    let feed = partition.feed();
    let rows = rows(alloc, feed)?;
    let state = partition.state();
    Ok(PartitionData {
        at: state.at,
        close: feed.closed(),
        covered: state.covered,
        first: feed.first(),
        given: state.given,
        here: state.here,
        key,
        matches: state.matches,
        over: state.over,
        rows,
    })
}

/// The rows that a feed holds. Each gets one further owner.
fn rows(alloc: Global, feed: &Feed) -> Result<HeldRows, AllocError>
    ensures { IfOk result (λ rows. rows ≡ map held_row feed.now.rows) }
{
    // It brings in that what is held is a feed's.
    let _front = feed.front();
    let pairs = feed.rows(alloc)?;
    let held = held_rows(alloc, pairs)?;
    Ok(HeldRows::new(held))
}

fn held_rows(alloc: Global, pairs: Vec<(u64, Row)>) -> Result<Vec<HeldRow>, AllocError>
    ensures { IfOk result (λ rows. rows.items ≡ map held_row pairs.items) }
{
    let mut rows = Vec::with_capacity(alloc, pairs.len())?;
    for (number, cells) in pairs {
        rows.push(HeldRow { number, cells })?;
    }
    Ok(rows)
}
