//! Cells as JSON.
ghost use Rattle.std.specs.Prelude.{◌≡◌, IfOk, Some};
ghost use Rattle.serde_json.specs.View.{view, items_view};
ghost use Rattle.rp_json.specs.Forms.{cell_data, cell_of, cells_of, list_in, list_items};

use rp_value::{Cells, Text, Value};
use serde_json::Value as Json;
use std::alloc::{AllocError, Global};

/// The cells of a list.
pub fn cells_of(alloc: Global, json: &Json) -> Result<Option<Cells>, AllocError>
    ensures { IfOk result (λ o. o ≡ cells_of (view json.now)) }
{
    match json {
        Json::Array(list) => cells_in(alloc, list.as_slice()),
        _ => Ok(None),
    }
}

fn cells_in(alloc: Global, list: &[Json]) -> Result<Option<Cells>, AllocError>
    ensures { IfOk result (λ o. o ≡ list_in cell_of (items_view list.now)) }
{
    let mut cells = Vec::with_capacity(alloc, list.len())?;
    for json in list {
        let Some(cell) = cell_of(alloc, json)? else {
            return Ok(None);
        };
        cells.push(cell)?;
    }
    Ok(Some(Cells::new(cells)))
}

fn cell_of(alloc: Global, json: &Json) -> Result<Option<Value>, AllocError>
    ensures { IfOk result (λ o. o ≡ cell_of (view json.now)) }
{
    match json {
        Json::Null => Ok(Some(Value::Null)),
        Json::Number(number) => Ok(number.as_i64().map(Value::Int)),
        Json::String(text) => {
            let copy = String::from_str(alloc, text.as_str())?;
            Ok(Some(Value::Text(Text::new(alloc, copy)?)))
        }
        _ => Ok(None),
    }
}

/// The list of cells, as the items of an array.
pub fn json_of_cells(alloc: Global, cells: &[Value]) -> Result<Vec<Json>, AllocError>
    ensures data { IfOk result (λ v. items_view v.items ≡ list_items cell_data cells.now) }
    ensures back { IfOk result (λ v. list_in cell_of (items_view v.items) ≡ Some cells.now) }
{
    let mut list = Vec::with_capacity(alloc, cells.len())?;
    for cell in cells {
        list.push(json_of_cell(alloc, cell)?)?;
    }
    Ok(list)
}

fn json_of_cell(alloc: Global, cell: &Value) -> Result<Json, AllocError>
    ensures data { IfOk result (λ j. view j ≡ cell_data cell.now) }
    ensures back { IfOk result (λ j. cell_of (view j) ≡ Some cell.now) }
{
    match cell {
        Value::Null => Ok(Json::Null),
        Value::Int(number) => Ok(Json::from(*number)),
        Value::Text(text) => Json::try_from_str(alloc, text.as_str()),
    }
}
