//! From bytes to partitions.
ghost use Rattle.std.specs.Prelude.{◌≡◌, ◌↔◌, Ok, IfErr, IfOk, IsTrue, OnOk, option_map};
ghost use Rattle.indexmap.specs.IndexMap.{insert_entry};
ghost use Rattle.rp_query.specs.Keys.{same_key};
ghost use Rattle.rp_checkpoint.specs.Checkpoints.{restored};
ghost use Rattle.rp_partition.specs.Joined.{held_of};
ghost use Rattle.rp_node.specs.NodeSeen.{AllJoined, entries_by};
ghost use Rattle.rp_node.specs.Restarting.{IsOfQuery, IsRefused, RestartsTo, RestoredAll, RestoredOne};

use crate::clause_text::are_one_clause;
use crate::fault::bytes_fault;
use crate::partitions::Partitions;
use crate::resume::resume;
use indexmap::IndexMap;
use rp_checkpoint::{NodeData, PartitionData, RestartFault, read_checkpoint};
use rp_partition::Partition;
use rp_query::Query;
use rp_value::{Column, Value};
use std::alloc::{AllocError, Global};
use std::collections::hash_map::RandomState;

/// The partitions that a checkpoint of this query keeps, or why a node doesn't go on from the bytes.
pub(crate) fn restored(
    alloc: Global,
    query: &Query,
    hasher: RandomState,
    bytes: &[u8],
) -> Result<Partitions, RestartFault>
    ensures ok { IfOk result (λ m. RestartsTo query.now bytes.now (entries_by held_of m.entries)
        × AllJoined query.now m.entries) }
    ensures err { IfErr result (IsRefused query.now bytes.now) }
{
    match read_checkpoint(alloc, bytes) {
        Ok(kept) => restored_from(alloc, query, hasher, bytes, &kept),
        Err(fault) => Err(bytes_fault(fault)),
    }
}

/// The same, once the bytes are read.
fn restored_from(
    alloc: Global,
    query: &Query,
    hasher: RandomState,
    bytes: &[u8],
    kept: &NodeData,
) -> Result<Partitions, RestartFault>
    requires { restored bytes.now ≡ Ok kept.now }
    ensures ok { IfOk result (λ m. RestartsTo query.now bytes.now (entries_by held_of m.entries)
        × AllJoined query.now m.entries) }
    ensures err { IfErr result (IsRefused query.now bytes.now) }
{
    // The contract speaks of the bytes, and the code doesn't.
    let _bytes = bytes;
    if !is_of(query, kept) {
        return Err(RestartFault::ClauseDiffers);
    }
    match restore_all(alloc, query, hasher, kept.partitions.as_slice())? {
        None => Err(RestartFault::BadState),
        Some(partitions) => Ok(partitions),
    }
}

/// Whether the clause and the table are the query's.
fn is_of(query: &Query, kept: &NodeData) -> bool
    ensures { IsTrue result ↔ IsOfQuery query.now kept.now }
{
    are_one_clause(
        kept.clause.as_str().as_bytes(),
        query.text().as_str().as_bytes(),
    ) && same_columns(kept.table.as_slice(), query.table().columns())
}

fn same_columns(left: &[Column], right: &[Column]) -> bool
    ensures { IsTrue result ↔ (left.now ≡ right.now) }
{
    left == right
}

/// All partitions, if a node may go on from each.
fn restore_all(
    alloc: Global,
    query: &Query,
    hasher: RandomState,
    kept: &[PartitionData],
) -> Result<Option<Partitions>, AllocError>
    ensures { IfOk result (λ all. RestoredAll query.now kept.now (option_map (λ m. m.entries) all)) }
{
    let mut partitions = IndexMap::with_hasher(alloc, hasher);
    for one in kept {
        if !restore_one(alloc, query, &mut partitions, one)? {
            return Ok(None);
        }
    }
    Ok(Some(partitions))
}

/// Adds a partition, and tells whether a node may go on from it.
fn restore_one(
    alloc: Global,
    query: &Query,
    partitions: &mut Partitions,
    kept: &PartitionData,
) -> Result<bool, AllocError>
    requires joined { AllJoined query.now partitions.old.entries }
    ensures { IfOk result (RestoredOne query.now partitions.old.entries kept.now partitions.new.entries) }
{
    if partitions.contains_key(kept.key.as_slice()) {
        return Ok(false);
    }
    match resume(alloc, query, kept)? {
        None => Ok(false),
        Some(partition) => {
            let key = kept.key.share(alloc)?;
            add(partitions, key.into_vec(), partition)?;
            Ok(true)
        }
    }
}

/// Adds a partition.
fn add(partitions: &mut Partitions, key: Vec<Value>, partition: Partition) -> Result<(), AllocError>
    ensures { OnOk result (partitions.new.entries ≡ insert_entry (λ j k. same_key j.items k.items)
        partitions.old.entries key partition) }
{
    match partitions.insert(key, partition) {
        Ok(_) => Ok(()),
        Err(_) => Err(AllocError),
    }
}
