//! How a run ends early.

ghost use Rattle.std.specs.Prelude.{◌≡◌};
ghost use Rattle.rp_whole.specs.Faults.{told_csv};
ghost use Rattle.rp_whole.specs.declared.fault.WholeFault.TheVariants.{Write, OutOfMemory};

use rp_input::CsvFault;
use rp_io::WriteFailed;
use std::alloc::{AllocError, AllocFailed};
use thiserror::Error;

/// Why a run ended before all was written.
#[derive(Clone, Copy, Debug, PartialEq, Eq, Error)]
pub enum WholeFault {
    /// The input is no rows of the table, or can't be read. Nothing was written.
    #[error("csv: {0}")]
    Csv(CsvFault),
    /// A call of the writer failed.
    #[error("device: write")]
    Write,
    /// Memory was refused.
    #[error("out of memory")]
    OutOfMemory,
}

impl From<CsvFault> for WholeFault {
    ghost from_gives = { λ why fault. fault ≡ told_csv why };

    fn from(why: CsvFault) -> WholeFault {
        match why {
            CsvFault::OutOfMemory => WholeFault::OutOfMemory,
            why => WholeFault::Csv(why),
        }
    }
}

impl From<WriteFailed> for WholeFault {
    ghost from_gives = { λ _ fault. fault ≡ Write };

    fn from(_: WriteFailed) -> WholeFault {
        WholeFault::Write
    }
}

impl From<AllocError> for WholeFault {
    ghost from_gives = { λ _ fault. fault ≡ OutOfMemory };

    fn from(_: AllocError) -> WholeFault {
        WholeFault::OutOfMemory
    }
}

impl<T: Drop> From<AllocFailed<T>> for WholeFault {
    ghost from_gives = { λ _ fault. fault ≡ OutOfMemory };

    fn from(_: AllocFailed<T>) -> WholeFault {
        WholeFault::OutOfMemory
    }
}
