//! The names of what lies next to a node's file.
ghost use Rattle.std.specs.Prelude.{◌≡◌, IfOk, string_bytes, true};
ghost use Rattle.rp_node_job.specs.Names.{ends_beside, ends_in, is_digit, lock_name, new_name, refused_name, without_digits_end};

use std::alloc::{AllocError, Global};

/// The name of the file to which the next state is written, before it takes the place of the file of this name.
pub fn new_name(alloc: Global, path: &str) -> Result<String, AllocError>
    ensures name { IfOk result (λ name. string_bytes name ≡ new_name path.now) }
    ensures beside { IfOk result (λ name. ends_beside (string_bytes name) ≡ true) }
{
    let mut name = String::from_str(alloc, path)?;
    name.push_str(".new")?;
    Ok(name)
}

/// The name of the file by which the file of this name is locked.
pub fn lock_name(alloc: Global, path: &str) -> Result<String, AllocError>
    ensures name { IfOk result (λ name. string_bytes name ≡ lock_name path.now) }
    ensures beside { IfOk result (λ name. ends_beside (string_bytes name) ≡ true) }
{
    let mut name = String::from_str(alloc, path)?;
    name.push_str(".lock")?;
    Ok(name)
}

/// The name under which a refused file is kept: `PATH.refused` for the first, `PATH.refused.2` for the second.
pub fn refused_name(alloc: Global, path: &str, number: u64) -> Result<String, AllocError>
    ensures name { IfOk result (λ name. string_bytes name ≡ refused_name path.now number) }
    ensures beside { IfOk result (λ name. ends_beside (string_bytes name) ≡ true) }
{
    let mut name = String::from_str(alloc, path)?;
    name.push_str(".refused")?;
    if number == 1 {
        return Ok(name);
    }
    let mut buffer = itoa::Buffer::new();
    name.push_str(".")?;
    name.push_str(buffer.format(number))?;
    Ok(name)
}

/// Whether this is a name of what lies next to another file: no node's file may have it, since the node of that other file takes it for
/// its own.
pub fn ends_beside(name: &str) -> bool
    ensures { result ≡ ends_beside name.now }
{
    let name = name.as_bytes();
    let is_refused = ends_in(name, ".refused") || ends_in(without_digits_end(name), ".refused.");
    ends_in(name, ".new") || (ends_in(name, ".lock") || is_refused)
}

fn ends_in(name: &[u8], end: &str) -> bool
    ensures { result ≡ ends_in end.now name.now }
{
    name.ends_with(end.as_bytes())
}

/// The name without the digits at its end.
fn without_digits_end(name: &[u8]) -> &[u8]
    ensures { result.now ≡ without_digits_end name.now }
{
    let mut length = name.len();
    while length > 0 && is_digit(name[length - 1]) {
        length -= 1;
    }
    &name[..length]
}

fn is_digit(byte: u8) -> bool
    ensures { result ≡ is_digit byte }
{
    byte.is_ascii_digit()
}
