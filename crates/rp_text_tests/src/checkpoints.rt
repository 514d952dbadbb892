//! Checkpoints that look random, each read and written anew.
use crate::chance::Chance;
use crate::support::holds;
use rp_checkpoint::{checkpoint_of, read_checkpoint};
use sha2::{Digest, Sha256};
use std::alloc::{AllocError, Global};
use std::test::Fail;

/// What a checkpoint may have behind its digest: no partition, one that is open, and two of which one is closed.
const CHECKPOINTS: [&str; 3] = [
    r#"{"clause":"A","partitions":[],"table":[],"version":2}"#,
    concat!(
        r#"{"clause":"A","partitions":[{"at":$,"close":null,"covered":$,"first":$,"given":"&","here":$,"key":*,"#,
        r#""matches":$,"over":false,"rows":[[+,*],[+,*],[+,*]]}],"table":[["P","int"]],"version":2}"#,
    ),
    concat!(
        r#"{"clause":"A","partitions":[{"at":$,"close":$,"covered":$,"first":$,"given":"&","here":$,"key":*,"#,
        r#""matches":$,"over":true,"rows":[]},{"at":$,"close":null,"covered":$,"first":$,"given":"&","here":$,"#,
        r#""key":*,"matches":$,"over":false,"rows":[[+,*]]}],"table":[],"version":2}"#,
    ),
];

/// An object behind its digest, a line feed between them.
fn sealed(alloc: Global, object: &str) -> Result<Vec<u8>, AllocError> {
    let digest = Sha256::digest(object.as_bytes());
    let digits = hex::encode(alloc, digest.as_slice())?;
    let mut bytes = Vec::from_slice(alloc, digits.as_bytes())?;
    bytes.push(b'\n')?;
    bytes.extend_from_slice(object.as_bytes())?;
    Ok(bytes)
}

/// Whether a checkpoint that is read is written as it was.
fn is_written_anew(alloc: Global, bytes: &[u8]) -> Result<bool, Fail> {
    let node = read_checkpoint(alloc, bytes)?;
    let again = checkpoint_of(alloc, &node)?;
    Ok(again.as_slice() == bytes)
}

#[test]
fn random_checkpoints(rt: HostRuntime) -> Result<(), Fail> {
    let alloc = rt.alloc();
    let mut chance = Chance::new(3);
    for _ in 0..1_000 {
        let form = chance.one_of(&CHECKPOINTS);
        let object = chance.filled(alloc, form)?;
        let bytes = sealed(alloc, object.as_str())?;
        holds(&rt, form, is_written_anew(alloc, bytes.as_slice())?);
    }
    Ok(())
}
