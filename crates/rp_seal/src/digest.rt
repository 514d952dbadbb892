//! A digest in front of an object.
ghost use Rattle.std.specs.Prelude.{◌≡◌, ◌++◌, ◌∷◌, IfOk, Some, option_map, nat_eq};
ghost use Rattle.std.specs.Cmp.Lexicographic.{pointwise};
ghost use Rattle.sha2.specs.Sha256.{sha256};
ghost use Rattle.hex.specs.Hex.{encode_lower};
ghost use Rattle.rp_seal.specs.Sealed.{sealed, opened};

use sha2::{Digest, Sha256};
use std::alloc::{AllocError, Global};

/// An object behind its digest.
pub fn seal(alloc: Global, object: &[u8]) -> Result<Vec<u8>, AllocError>
    ensures { IfOk result (λ v. v.items ≡ sealed object.now) }
{
    let digest = Sha256::digest(object);
    let digits = hex::encode(alloc, digest.as_slice())?;
    let mut bytes = Vec::from_slice(alloc, digits.as_bytes())?;
    bytes.push(b'\n')?;
    bytes.extend_from_slice(object)?;
    Ok(bytes)
}

/// The object behind a digest, if that is right.
pub fn open(bytes: &[u8]) -> Option<&[u8]>
    ensures { option_map (λ s. s.now) result ≡ opened bytes.now }
{
    if bytes.len() < 65 {
        return None;
    }
    let (digits, rest) = bytes.split_at(64);
    let object = &rest[1..];
    if rest[0] == b'\n' && is_digest(digits, object) {
        Some(object)
    } else {
        None
    }
}

fn is_digest(text: &[u8], object: &[u8]) -> bool
    ensures { result ≡ pointwise nat_eq (encode_lower (sha256 object.now)) text.now }
{
    let digest = Sha256::digest(object);
    let mut digits = [0u8; 64];
    if hex::encode_to_slice(digest.as_slice(), &mut digits).is_err() {
        unreachable!();
    }
    digits.as_slice() == text
}
