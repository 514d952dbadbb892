//! The seed by which partitions are found.
use crate::fault::ProgramFault;
use std::collections::hash_map::RandomState;

/// A hasher whose seed the system draws. Where it can't be had, that is the fault of a read.
pub fn seeded_hasher(rt: &HostRuntime) -> Result<RandomState, ProgramFault> {
    match RandomState::new(rt) {
        Ok(hasher) => Ok(hasher),
        Err(_) => Err(ProgramFault::Read),
    }
}
