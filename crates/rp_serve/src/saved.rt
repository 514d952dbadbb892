//! The line that says what was saved.
ghost use Rattle.std.specs.Prelude.{◌≡◌, IfOk};
ghost use Rattle.rp_serve.specs.SavedLines.{saved_line};

use std::alloc::{AllocError, Global};

/// The line that says at the end of a connection that all which its lines did is saved, with how many were answered.
///
/// ```text
/// {"saved":6}
/// ```
pub fn saved_line(alloc: Global, lines: u128) -> Result<Vec<u8>, AllocError>
    ensures { IfOk result (λ line. line.items ≡ saved_line lines) }
{
    let mut line = Vec::new(alloc);
    let mut buffer = itoa::Buffer::new();
    line.extend_from_slice(b"{\"saved\":")?;
    line.extend_from_slice(buffer.format(lines).as_bytes())?;
    line.extend_from_slice(b"}\n")?;
    Ok(line)
}
