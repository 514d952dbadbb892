//! Whole numbers as JSON.
ghost use Rattle.std.specs.Prelude.{◌≡◌, IfOk, Some};
ghost use Rattle.serde_json.specs.View.{view};
ghost use Rattle.rp_json.specs.Forms.{optional_data, optional_of, place_data, place_of};

use crate::digits::digits_of;
use itoa::Buffer;
use serde_json::Value as Json;
use std::alloc::{AllocError, Global};

/// The whole number, or None for null.
pub fn optional_of(json: &Json) -> Option<Option<u64>>
    ensures { result ≡ optional_of (view json.now) }
{
    match json {
        Json::Null => Some(None),
        Json::Number(number) => number.as_u64().map(Some),
        _ => None,
    }
}

/// The number, or null.
pub fn json_of_optional(number: Option<u64>) -> Json
    ensures data { view result ≡ optional_data number }
    ensures back { optional_of (view result) ≡ Some number }
{
    match number {
        Some(number) => Json::from(number),
        None => Json::Null,
    }
}

/// The number of a text of digits. The number itself is read too, if it is below 2^64.
pub fn place_of(json: &Json) -> Option<u128>
    ensures { result ≡ place_of (view json.now) }
{
    match json {
        Json::Number(number) => number.as_u64().map(u128::from),
        Json::String(text) => digits_of(text.as_str()),
        _ => None,
    }
}

/// The number's digits as a text, since a reader of JSON may round a number above 2^53.
pub fn json_of_place(alloc: Global, place: u128) -> Result<Json, AllocError>
    ensures data { IfOk result (λ j. view j ≡ place_data place) }
    ensures back { IfOk result (λ j. place_of (view j) ≡ Some place) }
{
    let mut buffer = Buffer::new();
    Json::try_from_str(alloc, buffer.format(place))
}
