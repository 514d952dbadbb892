//! From what is kept of a node to a checkpoint.
ghost use Rattle.std.specs.Prelude.{◌≡◌, IfOk, Ok, Some};
ghost use Rattle.serde_json.specs.Data.{array, object, no_members};
ghost use Rattle.serde_json.specs.View.{view, items_view, members_view};
ghost use Rattle.rp_json.specs.Forms.{list_in, list_items};
ghost use Rattle.rp_checkpoint.specs.Checkpoints.{checkpoint, column_data, column_of, node_data, partition_data, partition_of, restored, restored_object, row_data, row_of, rows_of};

use crate::node_data::{HeldRow, HeldRows, NodeData, PartitionData};
use rp_json::{json_of_cells, json_of_optional, json_of_place};
use rp_seal::seal;
use rp_value::{Column, Kind};
use serde_json::{Map, Value as Json};
use std::alloc::{AllocError, Global};

/// The checkpoint of what is kept of a node. It is read as that again.
pub fn checkpoint_of(alloc: Global, node: &NodeData) -> Result<Vec<u8>, AllocError>
    ensures bytes { IfOk result (λ bytes. bytes.items ≡ checkpoint node.now) }
    ensures back { IfOk result (λ bytes. restored bytes.items ≡ Ok node.now) }
{
    let json = node_json(alloc, node)?;
    let object = json.to_vec(alloc)?;
    seal(alloc, object.as_slice())
}

fn node_json(alloc: Global, node: &NodeData) -> Result<Json, AllocError>
    ensures data { IfOk result (λ j. view j ≡ node_data node.now) }
    ensures back { IfOk result (λ j. restored_object (view j) ≡ Ok node.now) }
{
    let mut map = Map::new(alloc);
    put_node(alloc, &mut map, node)?;
    Ok(Json::Object(map))
}

/// The fields of a node's object, put into an empty one.
fn put_node(alloc: Global, map: &mut Map<String, Json>, node: &NodeData) -> Result<(), AllocError>
    requires { members_view map.old.entries ≡ no_members }
    ensures data { IfOk result (λ _. object (members_view map.new.entries) ≡ node_data node.now) }
    ensures back { IfOk result (λ _. restored_object (object (members_view map.new.entries)) ≡ Ok node.now) }
{
    let clause = Json::try_from_str(alloc, node.clause.as_str())?;
    serde_json::put(map, alloc, "clause", clause)?;
    let partitions = partitions_list(alloc, node.partitions.as_slice())?;
    serde_json::put(map, alloc, "partitions", Json::Array(partitions))?;
    let table = columns_list(alloc, node.table.as_slice())?;
    serde_json::put(map, alloc, "table", Json::Array(table))?;
    serde_json::put(map, alloc, "version", Json::from(2u64))?;
    Ok(())
}

fn columns_list(alloc: Global, columns: &[Column]) -> Result<Vec<Json>, AllocError>
    ensures data { IfOk result (λ v. items_view v.items ≡ list_items column_data columns.now) }
    ensures back { IfOk result (λ v. list_in column_of (items_view v.items) ≡ Some columns.now) }
{
    let mut list = Vec::with_capacity(alloc, columns.len())?;
    for column in columns {
        list.push(column_json(alloc, column)?)?;
    }
    Ok(list)
}

fn column_json(alloc: Global, column: &Column) -> Result<Json, AllocError>
    ensures data { IfOk result (λ j. view j ≡ column_data column.now) }
    ensures back { IfOk result (λ j. column_of (view j) ≡ Some column.now) }
{
    let word = match column.kind {
        Kind::Int => "int",
        Kind::Text => "text",
    };
    let mut pair = Vec::with_capacity(alloc, 2)?;
    let name = Json::try_from_str(alloc, column.name.as_str())?;
    pair.push(name)?;
    let kind = Json::try_from_str(alloc, word)?;
    pair.push(kind)?;
    Ok(Json::Array(pair))
}

fn partitions_list(alloc: Global, partitions: &[PartitionData]) -> Result<Vec<Json>, AllocError>
    ensures data { IfOk result (λ v. items_view v.items
        ≡ list_items partition_data partitions.now) }
    ensures back { IfOk result (λ v. list_in (partition_of 2) (items_view v.items)
        ≡ Some partitions.now) }
{
    let mut list = Vec::with_capacity(alloc, partitions.len())?;
    for partition in partitions {
        list.push(partition_json(alloc, partition)?)?;
    }
    Ok(list)
}

fn partition_json(alloc: Global, partition: &PartitionData) -> Result<Json, AllocError>
    ensures data { IfOk result (λ j. view j ≡ partition_data partition.now) }
    ensures back { IfOk result (λ j. partition_of 2 (view j) ≡ Some partition.now) }
{
    let mut map = Map::new(alloc);
    put_partition(alloc, &mut map, partition)?;
    Ok(Json::Object(map))
}

/// The fields of a partition's object, put into an empty one.
fn put_partition(
    alloc: Global,
    map: &mut Map<String, Json>,
    partition: &PartitionData,
) -> Result<(), AllocError>
    requires { members_view map.old.entries ≡ no_members }
    ensures data { IfOk result (λ _. object (members_view map.new.entries) ≡ partition_data partition.now) }
    ensures back { IfOk result (λ _. partition_of 2 (object (members_view map.new.entries)) ≡ Some partition.now) }
{
    serde_json::put(map, alloc, "at", Json::from(partition.at))?;
    serde_json::put(map, alloc, "close", json_of_optional(partition.close))?;
    serde_json::put(map, alloc, "covered", Json::from(partition.covered))?;
    serde_json::put(map, alloc, "first", Json::from(partition.first))?;
    let given = json_of_place(alloc, partition.given)?;
    serde_json::put(map, alloc, "given", given)?;
    serde_json::put(map, alloc, "here", Json::from(partition.here))?;
    let key = json_of_cells(alloc, partition.key.as_slice())?;
    serde_json::put(map, alloc, "key", Json::Array(key))?;
    serde_json::put(map, alloc, "matches", Json::from(partition.matches))?;
    serde_json::put(map, alloc, "over", Json::Bool(partition.over))?;
    let rows = rows_json(alloc, &partition.rows)?;
    serde_json::put(map, alloc, "rows", rows)?;
    Ok(())
}

fn rows_json(alloc: Global, rows: &HeldRows) -> Result<Json, AllocError>
    ensures data { IfOk result (λ j. view j ≡ array (list_items row_data rows.now)) }
    ensures back { IfOk result (λ j. rows_of (view j) ≡ Some rows.now) }
{
    let list = rows_list(alloc, rows.as_slice())?;
    Ok(Json::Array(list))
}

fn rows_list(alloc: Global, rows: &[HeldRow]) -> Result<Vec<Json>, AllocError>
    ensures data { IfOk result (λ v. items_view v.items ≡ list_items row_data rows.now) }
    ensures back { IfOk result (λ v. list_in row_of (items_view v.items) ≡ Some rows.now) }
{
    let mut list = Vec::with_capacity(alloc, rows.len())?;
    for row in rows {
        list.push(row_json(alloc, row)?)?;
    }
    Ok(list)
}

fn row_json(alloc: Global, row: &HeldRow) -> Result<Json, AllocError>
    ensures data { IfOk result (λ j. view j ≡ row_data row.now) }
    ensures back { IfOk result (λ j. row_of (view j) ≡ Some row.now) }
{
    let cells = json_of_cells(alloc, row.cells.cells())?;
    let mut pair = Vec::with_capacity(alloc, 2)?;
    pair.push(Json::from(row.number))?;
    pair.push(Json::Array(cells))?;
    Ok(Json::Array(pair))
}
