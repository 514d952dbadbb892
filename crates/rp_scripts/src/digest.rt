//! Checkpoints that a script writes by hand.
use sha2::{Digest, Sha256};
use std::alloc::{AllocError, Global};

/// An object behind its digest, a line feed between them.
pub fn sealed(alloc: Global, object: &str) -> Result<Vec<u8>, AllocError> {
    let digest = Sha256::digest(object.as_bytes());
    let digits = hex::encode(alloc, digest.as_slice())?;
    let mut bytes = Vec::from_slice(alloc, digits.as_bytes())?;
    bytes.push(b'\n')?;
    bytes.extend_from_slice(object.as_bytes())?;
    Ok(bytes)
}
