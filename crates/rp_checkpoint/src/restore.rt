//! From a checkpoint to what it keeps.
ghost use Rattle.std.specs.Prelude.{◌≡◌, ◌⊎◌, List, Ok, Err, IfOk, IfErr, codes, option_map};
ghost use Rattle.serde_json.specs.Find.{as_bool, as_str};
ghost use Rattle.serde_json.specs.View.{view, items_view};
ghost use Rattle.rp_json.specs.Forms.{list_in, list_of};
ghost use Rattle.rp_json.specs.Objects.{field};
ghost use Rattle.rp_value.specs.declared.value.Value.{Value};
ghost use Rattle.rp_checkpoint.specs.declared.node_data.HeldRow.{HeldRow as Held};
ghost use Rattle.rp_checkpoint.specs.Checkpoints.{column_of, given_of, if_ascending, kind_of, need, node_of, pair_of, partition_of, partition_with, progressed, restored, restored_object, row_of, rows_of, version_of};

use crate::node_data::{
    CheckpointFault, Columns, HeldRow, HeldRows, NodeData, PartitionData, Partitions, ascend,
};
use rp_json::{cells, cells_of, digits_of, has_fields, object_of, optional, whole};
use rp_seal::open;
use rp_value::{Cells, Column, Kind, Row, Text};
use serde_json::Value as Json;
use std::alloc::{AllocError, Global};

/// How far the searches of a partition have come.
#[derive(Clone, Copy)]
struct Progress {
    at: u64,
    close: Option<u64>,
    covered: u64,
    first: u64,
    given: u128,
    here: u64,
    matches: u64,
    over: bool,
}

/// What a checkpoint keeps, or the first fault of the bytes.
pub fn read_checkpoint(alloc: Global, bytes: &[u8]) -> Result<NodeData, CheckpointFault>
    ensures ok { IfOk result (λ n. restored bytes.now ≡ Ok n) }
    ensures err { IfErr result (λ e. (e ≡ CheckpointFault.OutOfMemory)
        ⊎ (restored bytes.now ≡ Err e)) }
{
    let text = open(bytes).ok_or(CheckpointFault::Digest)?;
    let object = object_of(alloc, text)?;
    let json = object.ok_or(CheckpointFault::NotJson)?;
    restored_object(alloc, &json)
}

fn restored_object(alloc: Global, json: &Json) -> Result<NodeData, CheckpointFault>
    ensures ok { IfOk result (λ n. restored_object (view json.now) ≡ Ok n) }
    ensures err { IfErr result (λ e. (e ≡ CheckpointFault.OutOfMemory)
        ⊎ (restored_object (view json.now) ≡ Err e)) }
{
    let version = version_of(json).ok_or(CheckpointFault::Version)?;
    let node = node_of(alloc, version, json)?;
    node.ok_or(CheckpointFault::BadField)
}

fn version_of(json: &Json) -> Option<u64>
    ensures { result ≡ version_of (view json.now) }
{
    let version = whole(json, "version")?;
    if version == 1 || version == 2 {
        Some(version)
    } else {
        None
    }
}

fn node_of(alloc: Global, version: u64, json: &Json) -> Result<Option<NodeData>, AllocError>
    ensures { IfOk result (λ o. o ≡ node_of version (view json.now)) }
{
    let Some(clause) = text(alloc, json, "clause")? else {
        return Ok(None);
    };
    let Some(table) = columns(alloc, json)? else {
        return Ok(None);
    };
    let Some(partitions) = partitions(alloc, version, json)? else {
        return Ok(None);
    };
    if has_fields(json, 4) {
        Ok(Some(NodeData {
            clause,
            table,
            partitions,
        }))
    } else {
        Ok(None)
    }
}

fn text(alloc: Global, json: &Json, name: &str) -> Result<Option<Text>, AllocError>
    ensures { IfOk result (λ o. o ≡ field name.now as_str (view json.now)) }
{
    let Some(value) = json.get(name) else {
        return Ok(None);
    };
    text_of(alloc, value)
}

fn text_of(alloc: Global, json: &Json) -> Result<Option<Text>, AllocError>
    ensures { IfOk result (λ o. o ≡ as_str (view json.now)) }
{
    match json {
        Json::String(text) => {
            let copy = String::from_str(alloc, text.as_str())?;
            Ok(Some(Text::new(alloc, copy)?))
        }
        _ => Ok(None),
    }
}

fn columns(alloc: Global, json: &Json) -> Result<Option<Columns>, AllocError>
    ensures { IfOk result (λ o. o ≡ field (codes "table") (list_of column_of) (view json.now)) }
{
    match json.get("table") {
        Some(Json::Array(list)) => columns_in(alloc, list.as_slice()),
        _ => Ok(None),
    }
}

fn columns_in(alloc: Global, list: &[Json]) -> Result<Option<Columns>, AllocError>
    ensures { IfOk result (λ o. o ≡ list_in column_of (items_view list.now)) }
{
    let mut columns = Vec::with_capacity(alloc, list.len())?;
    for json in list {
        let Some(column) = column_of(alloc, json)? else {
            return Ok(None);
        };
        columns.push(column)?;
    }
    Ok(Some(Columns::new(columns)))
}

fn column_of(alloc: Global, json: &Json) -> Result<Option<Column>, AllocError>
    ensures { IfOk result (λ o. o ≡ column_of (view json.now)) }
{
    let Some((first, second)) = pair_of(json) else {
        return Ok(None);
    };
    let Some(name) = text_of(alloc, first)? else {
        return Ok(None);
    };
    let Some(kind) = kind_of(second) else {
        return Ok(None);
    };
    Ok(Some(Column { name, kind }))
}

fn kind_of(json: &Json) -> Option<Kind>
    ensures { result ≡ kind_of (view json.now) }
{
    let text = json.as_str()?;
    if text == "int" {
        Some(Kind::Int)
    } else if text == "text" {
        Some(Kind::Text)
    } else {
        None
    }
}

/// The two items of an array of two.
fn pair_of(json: &Json) -> Option<(&Json, &Json)>
    ensures { option_map (λ p. (view p.0.now, view p.1.now)) result ≡ pair_of (view json.now) }
{
    let list = json.as_array()?.as_slice();
    if list.len() != 2 {
        return None;
    }
    Some((&list[0], &list[1]))
}

fn partitions(alloc: Global, version: u64, json: &Json) -> Result<Option<Partitions>, AllocError>
    ensures { IfOk result (λ o. o
        ≡ field (codes "partitions") (list_of (partition_of version)) (view json.now)) }
{
    match json.get("partitions") {
        Some(Json::Array(list)) => partitions_in(alloc, version, list.as_slice()),
        _ => Ok(None),
    }
}

fn partitions_in(
    alloc: Global,
    version: u64,
    list: &[Json],
) -> Result<Option<Partitions>, AllocError>
    ensures { IfOk result (λ o. o ≡ list_in (partition_of version) (items_view list.now)) }
{
    let mut partitions = Vec::with_capacity(alloc, list.len())?;
    for json in list {
        let Some(partition) = partition_of(alloc, version, json)? else {
            return Ok(None);
        };
        partitions.push(partition)?;
    }
    Ok(Some(Partitions::new(partitions)))
}

fn partition_of(
    alloc: Global,
    version: u64,
    json: &Json,
) -> Result<Option<PartitionData>, AllocError>
    ensures { IfOk result (λ o. o ≡ partition_of version (view json.now)) }
{
    let Some(key) = cells(alloc, json, "key")? else {
        return Ok(None);
    };
    let Some(rows) = rows(alloc, json)? else {
        return Ok(None);
    };
    Ok(partition_with(version, json, key, rows))
}

/// A partition with its key and its rows.
fn partition_with(version: u64, json: &Json, key: Cells, rows: HeldRows) -> Option<PartitionData>
    ensures { result ≡ partition_with version key rows (view json.now) }
{
    let progress = progress_of(version, json)?;
    Some(PartitionData {
        at: progress.at,
        close: progress.close,
        covered: progress.covered,
        first: progress.first,
        given: progress.given,
        here: progress.here,
        key,
        matches: progress.matches,
        over: progress.over,
        rows,
    })
}

/// What is kept of a partition beside its key and its rows.
fn progress_of(version: u64, json: &Json) -> Option<Progress>
    ensures { (key : List Value) → (rows : List Held) →
        partition_with version key rows (view json.now) ≡ option_map (progressed key rows) result }
{
    let at = whole(json, "at")?;
    let close = optional(json, "close")?;
    let covered = whole(json, "covered")?;
    let first = whole(json, "first")?;
    let given = given(version, json)?;
    let here = whole(json, "here")?;
    let matches = whole(json, "matches")?;
    let over = flag(json, "over")?;
    if !has_fields(json, 10) {
        return None;
    }
    Some(Progress {
        at,
        close,
        covered,
        first,
        given,
        here,
        matches,
        over,
    })
}

fn flag(json: &Json, name: &str) -> Option<bool>
    ensures { result ≡ field name.now as_bool (view json.now) }
{
    json.get(name)?.as_bool()
}

fn given(version: u64, json: &Json) -> Option<u128>
    ensures { result ≡ field (codes "given") (given_of version) (view json.now) }
{
    let value = json.get("given")?;
    if version == 1 {
        return value.as_u64().map(u128::from);
    }
    digits_of(value.as_str()?)
}

fn rows(alloc: Global, json: &Json) -> Result<Option<HeldRows>, AllocError>
    ensures { IfOk result (λ o. o ≡ field (codes "rows") rows_of (view json.now)) }
{
    match json.get("rows") {
        Some(Json::Array(list)) => ascending_rows(alloc, list.as_slice()),
        _ => Ok(None),
    }
}

fn ascending_rows(alloc: Global, list: &[Json]) -> Result<Option<HeldRows>, AllocError>
    ensures { IfOk result (λ o. o ≡ need (list_in row_of (items_view list.now)) if_ascending) }
{
    let Some(rows) = rows_in(alloc, list)? else {
        return Ok(None);
    };
    if ascend(rows.as_slice()) {
        Ok(Some(HeldRows::new(rows)))
    } else {
        Ok(None)
    }
}

fn rows_in(alloc: Global, list: &[Json]) -> Result<Option<Vec<HeldRow>>, AllocError>
    ensures { IfOk result (λ o. option_map (λ v. v.items) o ≡ list_in row_of (items_view list.now)) }
{
    let mut rows = Vec::with_capacity(alloc, list.len())?;
    for json in list {
        let Some(row) = row_of(alloc, json)? else {
            return Ok(None);
        };
        rows.push(row)?;
    }
    Ok(Some(rows))
}

fn row_of(alloc: Global, json: &Json) -> Result<Option<HeldRow>, AllocError>
    ensures { IfOk result (λ o. o ≡ row_of (view json.now)) }
{
    let Some((first, second)) = pair_of(json) else {
        return Ok(None);
    };
    let Some(number) = first.as_u64() else {
        return Ok(None);
    };
    let Some(cells) = cells_of(alloc, second)? else {
        return Ok(None);
    };
    let cells = Row::new(alloc, cells.into_vec())?;
    Ok(Some(HeldRow { number, cells }))
}
