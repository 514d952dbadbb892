//! Why an input is no rows of its columns.

ghost use Rattle.std.specs.Prelude.{◌≡◌};
ghost use Rattle.rp_input.specs.Devices.{of_device};
ghost use Rattle.rp_input.specs.declared.columns_fault.ColumnsCsvFault.TheVariants.{OutOfMemory};

use crate::device::DeviceFault;
use rp_columns::ReadingFault;
use std::alloc::{AllocError, AllocFailed};
use thiserror::Error;

/// Why an input is no rows of its columns: the first reason, in the order of its text.
#[derive(Clone, Copy, Debug, PartialEq, Eq, Error)]
pub enum ColumnsCsvFault {
    /// There has to be a header, and there is none.
    #[error("Header")]
    Header,
    /// No field of the header names the source of this column, from 0.
    #[error("Missing column {0}")]
    Missing(usize),
    /// More than one field of the header names the source of this column, from 0.
    #[error("Double column {0}")]
    Double(usize),
    /// This record, from 1, hasn't as many fields as the header, or without one as the columns read, or is one too many.
    #[error("Record at record {0}")]
    Record(u64),
    /// In this record, from 1, the field of this column, from 0, is no value of it.
    #[error("{2} at record {0}, column {1}")]
    Field(u64, usize, ReadingFault),
    /// The device failed.
    #[error("device: read")]
    Read,
    /// All reads that are allowed were made, none of them told the end, and another is due. (A turn of a search is another
    /// thing.)
    #[error("too many turns")]
    Turns,
    /// Memory was refused.
    #[error("out of memory")]
    OutOfMemory,
}

impl From<DeviceFault> for ColumnsCsvFault {
    ghost from_gives = { λ why fault. fault ≡ of_device why };

    fn from(why: DeviceFault) -> ColumnsCsvFault {
        match why {
            DeviceFault::Read => ColumnsCsvFault::Read,
            DeviceFault::Turns => ColumnsCsvFault::Turns,
            DeviceFault::OutOfMemory => ColumnsCsvFault::OutOfMemory,
        }
    }
}

impl From<AllocError> for ColumnsCsvFault {
    ghost from_gives = { λ _ fault. fault ≡ OutOfMemory };

    fn from(_error: AllocError) -> ColumnsCsvFault {
        ColumnsCsvFault::OutOfMemory
    }
}

impl<T: Drop> From<AllocFailed<T>> for ColumnsCsvFault {
    ghost from_gives = { λ _ fault. fault ≡ OutOfMemory };

    fn from(_error: AllocFailed<T>) -> ColumnsCsvFault {
        ColumnsCsvFault::OutOfMemory
    }
}
