//! How a session ends.

ghost use Rattle.std.specs.Prelude.{◌≡◌};
ghost use Rattle.rp_serve.specs.Faults.{line_fault};
ghost use Rattle.rp_serve.specs.declared.fault.ServeFault.TheVariants.{Write, OutOfMemory};

use rp_io::{LineFault, WriteFailed};
use std::alloc::{AllocError, AllocFailed};
use thiserror::Error;

/// What was done until the input ended.
#[derive(Clone, Copy)]
pub struct Served {
    /// How many lines were read and answered.
    pub lines: u128,
}

/// Why a session ended before its input did.
#[derive(Clone, Copy, Debug, PartialEq, Eq, Error)]
pub enum ServeFault {
    /// A call of the reader failed.
    #[error("device: read")]
    Read,
    /// A call of the writer failed.
    #[error("device: write")]
    Write,
    /// All calls of the reader that are allowed were made, and another is due.
    #[error("too many turns")]
    Turns,
    /// Memory was refused.
    #[error("out of memory")]
    OutOfMemory,
}

impl From<LineFault> for ServeFault {
    ghost from_gives = { λ why fault. fault ≡ line_fault why };

    fn from(why: LineFault) -> ServeFault {
        match why {
            LineFault::Read => ServeFault::Read,
            LineFault::TooManyReads => ServeFault::Turns,
            LineFault::OutOfMemory => ServeFault::OutOfMemory,
        }
    }
}

impl From<WriteFailed> for ServeFault {
    ghost from_gives = { λ _ fault. fault ≡ Write };

    fn from(_: WriteFailed) -> ServeFault {
        ServeFault::Write
    }
}

impl From<AllocError> for ServeFault {
    ghost from_gives = { λ _ fault. fault ≡ OutOfMemory };

    fn from(_: AllocError) -> ServeFault {
        ServeFault::OutOfMemory
    }
}

impl<T: Drop> From<AllocFailed<T>> for ServeFault {
    ghost from_gives = { λ _ fault. fault ≡ OutOfMemory };

    fn from(_: AllocFailed<T>) -> ServeFault {
        ServeFault::OutOfMemory
    }
}
