//! The object that a text is.
ghost use Rattle.std.specs.Prelude.{◌≡◌, IfOk, option_map};
ghost use Rattle.serde_json.specs.View.{view};
ghost use Rattle.rp_json.specs.Objects.{object_of};

use serde_json::Value as Json;
use std::alloc::{AllocError, Global};

/// The object that a text is, or None where it isn't UTF-8, isn't JSON, or is another value.
pub fn object_of(alloc: Global, text: &[u8]) -> Result<Option<Json>, AllocError>
    ensures { IfOk result (λ o. option_map view o ≡ object_of text.now) }
{
    let json = match Json::from_slice(alloc, text) {
        Ok(json) => json,
        Err(error) => {
            if error.is_memory() {
                return Err(AllocError);
            }
            return Ok(None);
        }
    };
    if json.is_object() {
        Ok(Some(json))
    } else {
        Ok(None)
    }
}
