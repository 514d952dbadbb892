//! How a conversation ends early.

ghost use Rattle.std.specs.Prelude.{◌≡◌};
ghost use Rattle.rp_drive.specs.Faults.{line_fault};
ghost use Rattle.rp_drive.specs.declared.fault.DriveFault.TheVariants.{Write, OutOfMemory};

use rp_io::{LineFault, WriteFailed};
use rp_protocol::Refusal;
use std::alloc::{AllocError, AllocFailed};
use thiserror::Error;

/// Why a conversation ended before all was sent and told.
#[derive(Clone, Copy, Debug, PartialEq, Eq, Error)]
pub enum DriveFault {
    /// A call of the reader failed.
    #[error("device: read")]
    Read,
    /// A call of one of the writers failed.
    #[error("device: write")]
    Write,
    /// A line is no reply, or none to what was asked; or the input ended where a reply was due.
    #[error("bad reply")]
    BadReply,
    /// The node refused what was sent.
    #[error("refused")]
    Refused,
    /// All calls of the reader that are allowed were made, and another is due.
    #[error("too many turns")]
    Turns,
    /// Memory was refused.
    #[error("out of memory")]
    OutOfMemory,
}

/// Where a conversation ended early, and why.
#[derive(Clone, Copy)]
pub struct Stop {
    /// Why it ended.
    pub fault: DriveFault,
    /// The place of the packet that was in hand, from 0. All before it were taken, and their partitions polled until idle.
    pub packet: usize,
    /// What the node replied, where the fault is that it refused.
    pub refusal: Option<Refusal>,
}

impl From<LineFault> for DriveFault {
    ghost from_gives = { λ why fault. fault ≡ line_fault why };

    fn from(why: LineFault) -> DriveFault {
        match why {
            LineFault::Read => DriveFault::Read,
            LineFault::TooManyReads => DriveFault::Turns,
            LineFault::OutOfMemory => DriveFault::OutOfMemory,
        }
    }
}

impl From<WriteFailed> for DriveFault {
    ghost from_gives = { λ _ fault. fault ≡ Write };

    fn from(_: WriteFailed) -> DriveFault {
        DriveFault::Write
    }
}

impl From<AllocError> for DriveFault {
    ghost from_gives = { λ _ fault. fault ≡ OutOfMemory };

    fn from(_: AllocError) -> DriveFault {
        DriveFault::OutOfMemory
    }
}

impl<T: Drop> From<AllocFailed<T>> for DriveFault {
    ghost from_gives = { λ _ fault. fault ≡ OutOfMemory };

    fn from(_: AllocFailed<T>) -> DriveFault {
        DriveFault::OutOfMemory
    }
}
