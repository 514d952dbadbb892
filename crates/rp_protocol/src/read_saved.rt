//! From a line to the number of lines that a node has saved.
ghost use Rattle.std.specs.Prelude.{◌≡◌, ◌⊎◌, Ok, Err, IfOk, IfErr};
ghost use Rattle.serde_json.specs.View.{view};
ghost use Rattle.rp_protocol.specs.Saved.{saved, saved_in};

use crate::{Field, LineFault, MAX_LINE_LEN};
use rp_json::{has_fields, object_of, whole};
use serde_json::Value as Json;
use std::alloc::Global;

/// How many lines a node has saved, by the line `{"saved":N}`, or the first fault of the line.
///
/// A node that is asked to acknowledge writes this line after its file, behind its last reply. N counts the lines that it
/// answered on the connection.
pub fn saved_of(alloc: Global, line: &[u8]) -> Result<u64, LineFault>
    ensures ok { IfOk result (λ n. saved line.now ≡ Ok n) }
    ensures err { IfErr result (λ e. (e ≡ LineFault.OutOfMemory) ⊎ (saved line.now ≡ Err e)) }
{
    if line.len() > MAX_LINE_LEN {
        return Err(LineFault::TooLong);
    }
    let object = object_of(alloc, line)?;
    let json = object.ok_or(LineFault::NotJson)?;
    saved_in(&json).ok_or(LineFault::BadField(Field::Other))
}

fn saved_in(json: &Json) -> Option<u64>
    ensures { result ≡ saved_in (view json.now) }
{
    if has_fields(json, 1) {
        whole(json, "saved")
    } else {
        None
    }
}
