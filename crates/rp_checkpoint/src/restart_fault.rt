//! Why a node doesn't go on from a checkpoint.

ghost use Rattle.std.specs.Prelude.{◌≡◌};
ghost use Rattle.rp_checkpoint.specs.declared.restart_fault.RestartFault.TheVariants.{OutOfMemory};

use std::alloc::AllocError;
use thiserror::Error;

/// Why a node doesn't go on from bytes, the first reason in the order of the variants.
#[derive(Clone, Copy, Debug, PartialEq, Eq, Error)]
pub enum RestartFault {
    /// The digest is missing or another's.
    #[error("Digest")]
    Digest,
    /// What follows the digest isn't an object of JSON.
    #[error("NotJson")]
    NotJson,
    /// The version is missing or neither 1 nor 2.
    #[error("Version")]
    Version,
    /// A field is missing, of another form, or one too many.
    #[error("BadField")]
    BadField,
    /// The clause's text or the table is another than the query's.
    #[error("ClauseDiffers")]
    ClauseDiffers,
    /// No node can be in that state.
    #[error("BadState")]
    BadState,
    /// No memory was left. It says nothing of the bytes.
    #[error("out of memory")]
    OutOfMemory,
}

impl From<AllocError> for RestartFault {
    ghost from_gives = { λ _ fault. fault ≡ OutOfMemory };

    fn from(_error: AllocError) -> RestartFault {
        RestartFault::OutOfMemory
    }
}
