//! What a feed answers to a row and to a close.
ghost use Rattle.std.specs.Prelude.{◌≡◌};
ghost use Rattle.rp_feed.specs.declared.answer.FeedFault.TheVariants.{OutOfMemory};

use std::alloc::{AllocError, AllocFailed};
use thiserror::Error;

/// The greatest number of a row, and the greatest count of a close: 2^40.
pub const MAX_NUMBER: u64 = 1_099_511_627_776;

/// How far above the front a row's number may be.
pub const MAX_BEYOND: u64 = 4_096;

/// What a row or a close is that isn't refused.
#[derive(Clone, Copy, Debug, PartialEq, Eq)]
pub enum Taken {
    /// It wasn't taken before, and is now.
    New,
    /// The same was taken before.
    Repeat,
    /// The row of that number was taken before and is dropped. Its cells aren't known any more, whatever comes.
    Old,
}

/// Why a row or a close is refused. The feed stays as it is.
#[derive(Clone, Copy, Debug, PartialEq, Eq, Error)]
pub enum FeedFault {
    /// The number is 0 or above `MAX_NUMBER`, or the count is above it.
    #[error("NumberRange")]
    NumberRange,
    /// The number is above the close's count.
    #[error("PastClose")]
    PastClose,
    /// A row of other cells is held at the number.
    #[error("Conflict")]
    Conflict,
    /// The number is more than `MAX_BEYOND` above the front.
    #[error("TooFar")]
    TooFar,
    /// A close with another count was taken.
    #[error("CloseDiffers")]
    CloseDiffers,
    /// A row with a number above the count was taken.
    #[error("CloseBelow")]
    CloseBelow,
    /// No memory was left for the row, which would have been `New`.
    #[error("out of memory")]
    OutOfMemory,
}

impl From<AllocError> for FeedFault {
    ghost from_gives = { λ _ fault. fault ≡ OutOfMemory };

    fn from(_error: AllocError) -> FeedFault {
        FeedFault::OutOfMemory
    }
}

impl<T: Drop> From<AllocFailed<T>> for FeedFault {
    ghost from_gives = { λ _ fault. fault ≡ OutOfMemory };

    fn from(_error: AllocFailed<T>) -> FeedFault {
        FeedFault::OutOfMemory
    }
}
