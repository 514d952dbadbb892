//! Why a text of objects is no rows.

ghost use Rattle.std.specs.Prelude.{◌≡◌};
ghost use Rattle.rp_objects.specs.declared.fault.ObjectsFault.TheVariants.{OutOfMemory};

use rp_columns::ReadingFault;
use std::alloc::{AllocError, AllocFailed};
use thiserror::Error;

/// Why an object has no value for a column.
#[derive(Clone, Copy, Debug, PartialEq, Eq, Error)]
pub enum FieldFault {
    /// An object or a list stands where a value has to be, or another value where an object has to be on the way to it.
    #[error("Nested")]
    Nested,
    /// Two keys of one object name the same part of the column's path.
    #[error("Double")]
    Double,
    /// The value is none of the column's.
    #[error("{0}")]
    Reading(ReadingFault),
}

/// Why a text is no rows of its columns: the first reason, in the order of its lines.
#[derive(Clone, Copy, Debug, PartialEq, Eq, Error)]
pub enum ObjectsFault {
    /// This line, from 1, is no object of JSON.
    #[error("NotObject at line {0}")]
    NotObject(u64),
    /// An object of this line, from 1, has a key twice.
    #[error("DoubleKey at line {0}")]
    DoubleKey(u64),
    /// In this line, from 1, this column, from 0, has no value.
    #[error("{2} at line {0}, column {1}")]
    Field(u64, usize, FieldFault),
    /// This line, from 1, is an object too many.
    #[error("TooMany at line {0}")]
    TooMany(u64),
    /// Memory was refused.
    #[error("out of memory")]
    OutOfMemory,
}

impl From<AllocError> for ObjectsFault {
    ghost from_gives = { λ _ fault. fault ≡ OutOfMemory };

    fn from(_error: AllocError) -> ObjectsFault {
        ObjectsFault::OutOfMemory
    }
}

impl<T: Drop> From<AllocFailed<T>> for ObjectsFault {
    ghost from_gives = { λ _ fault. fault ≡ OutOfMemory };

    fn from(_error: AllocFailed<T>) -> ObjectsFault {
        ObjectsFault::OutOfMemory
    }
}
