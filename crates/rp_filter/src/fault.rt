//! Why a text is no condition of a row.
ghost use Rattle.std.specs.Prelude.{◌≡◌};
ghost use Rattle.rp_filter.specs.declared.fault.FilterFault.TheVariants.{OutOfMemory};

use rp_compile::CompileFault;
use std::alloc::{AllocError, AllocFailed};
use thiserror::Error;

/// Why a text is no condition of a row. Offsets count from the condition's first byte.
#[derive(Clone, Copy, Debug, PartialEq, Eq, Error)]
pub enum FilterFault {
    /// The text is no condition over the table.
    #[error("{0}")]
    Condition(CompileFault),
    /// It looks at other rows than its own, as PREV and COUNT do.
    #[error("OtherRows")]
    OtherRows,
    /// No memory was left. It says nothing of the text.
    #[error("out of memory")]
    OutOfMemory,
}

impl From<AllocError> for FilterFault {
    ghost from_gives = { λ _ fault. fault ≡ OutOfMemory };

    fn from(_error: AllocError) -> FilterFault {
        FilterFault::OutOfMemory
    }
}

impl<T: Drop> From<AllocFailed<T>> for FilterFault {
    ghost from_gives = { λ _ fault. fault ≡ OutOfMemory };

    fn from(_error: AllocFailed<T>) -> FilterFault {
        FilterFault::OutOfMemory
    }
}
