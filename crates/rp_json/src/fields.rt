//! Fields of an object of JSON, by their forms.
ghost use Rattle.std.specs.Prelude.{◌≡◌, IfOk, is_some};
ghost use Rattle.serde_json.specs.Find.{get};
ghost use Rattle.serde_json.specs.View.{view};
ghost use Rattle.rp_json.specs.Forms.{cells_of, optional_of, short_of, whole_of};
ghost use Rattle.rp_json.specs.Objects.{field, has_fields};

use crate::numbers::optional_of;
use crate::values::cells_of;
use rp_value::Cells;
use serde_json::Value as Json;
use std::alloc::{AllocError, Global};

/// Whether the field is there.
pub fn has(json: &Json, name: &str) -> bool
    ensures { result ≡ is_some (get name.now (view json.now)) }
{
    json.get(name).is_some()
}

/// Whether it is an object of so many fields.
pub fn has_fields(json: &Json, count: usize) -> bool
    ensures { result ≡ has_fields count (view json.now) }
{
    match json {
        Json::Object(map) => map.len() == count,
        _ => false,
    }
}

/// The whole number in a field.
pub fn whole(json: &Json, name: &str) -> Option<u64>
    ensures { result ≡ field name.now whole_of (view json.now) }
{
    json.get(name)?.as_u64()
}

/// The whole number below 2^32 in a field.
pub fn short_whole(json: &Json, name: &str) -> Option<u32>
    ensures { result ≡ field name.now short_of (view json.now) }
{
    let number = whole(json, name)?;
    u32::try_from(number).ok()
}

/// The whole number or null in a field.
pub fn optional(json: &Json, name: &str) -> Option<Option<u64>>
    ensures { result ≡ field name.now optional_of (view json.now) }
{
    optional_of(json.get(name)?)
}

/// The cells in a field.
pub fn cells(alloc: Global, json: &Json, name: &str) -> Result<Option<Cells>, AllocError>
    ensures { IfOk result (λ o. o ≡ field name.now cells_of (view json.now)) }
{
    let Some(list) = json.get(name) else {
        return Ok(None);
    };
    cells_of(alloc, list)
}
