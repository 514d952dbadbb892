//! Why a field is no value of its column.

ghost use Rattle.std.specs.Prelude.{◌≡◌};
ghost use Rattle.rp_columns.specs.declared.fault.ReadingFault.TheVariants.{OutOfMemory};

use std::alloc::{AllocError, AllocFailed};
use thiserror::Error;

/// Why a field is no value of its column.
#[derive(Clone, Copy, Debug, PartialEq, Eq, Error)]
pub enum ReadingFault {
    /// It hasn't the form of the reading: a letter in a number, signs between other digits than thousands, a date without its zeros, a
    /// year below 1000 in a format.
    #[error("Form")]
    Form,
    /// It has the form of a date or a time that the calendar or the clock doesn't have, as 2023-02-29, 24:00 or a second 60, or a number
    /// in a format is out of its bounds.
    #[error("NoSuchTime")]
    NoSuchTime,
    /// A time has no offset from UTC, and the column names none, nor a time zone whose rules are loaded.
    #[error("NoOffset")]
    NoOffset,
    /// Clocks of the column's time zone skip this time: it is in the gap when they go forward.
    #[error("Gap")]
    Gap,
    /// Clocks of the column's time zone show this time twice: it is in the fold when they go back.
    #[error("Fold")]
    Fold,
    /// A decimal number has more places than the column: nothing is rounded.
    #[error("Places")]
    Places,
    /// A number is outside 64 bits with sign.
    #[error("Range")]
    Range,
    /// A text isn't UTF-8.
    #[error("NotText")]
    NotText,
    /// No memory was left. It says nothing of the field.
    #[error("out of memory")]
    OutOfMemory,
}

impl From<AllocError> for ReadingFault {
    ghost from_gives = { λ _ fault. fault ≡ OutOfMemory };

    fn from(_error: AllocError) -> ReadingFault {
        ReadingFault::OutOfMemory
    }
}

impl<T: Drop> From<AllocFailed<T>> for ReadingFault {
    ghost from_gives = { λ _ fault. fault ≡ OutOfMemory };

    fn from(_error: AllocFailed<T>) -> ReadingFault {
        ReadingFault::OutOfMemory
    }
}
