//! Why a clause is refused.

ghost use Rattle.std.specs.Prelude.{◌≡◌};
ghost use Rattle.rp_resolution.specs.declared.fault.CheckFault.TheVariants.{OutOfMemory};

use std::alloc::{AllocError, AllocFailed};
use thiserror::Error;

/// What is wrong in a clause.
#[derive(Clone, Copy, Debug, PartialEq, Eq, Error)]
pub enum CheckKind {
    /// The table has no column of this name.
    #[error("UnknownColumn")]
    UnknownColumn,
    /// The pattern has no variable of this name; where a union may stand, there is no such union either.
    #[error("UnknownVariable")]
    UnknownVariable,
    /// The name was given before.
    #[error("DoubleName")]
    DoubleName,
    /// A value or a condition of another kind must stand here.
    #[error("KindMismatch")]
    KindMismatch,
    /// FINAL stands in DEFINE.
    #[error("FinalInDefine")]
    FinalInDefine,
    /// A navigation stands in another, and isn't FIRST or LAST in PREV or NEXT.
    #[error("NestedNavigation")]
    NestedNavigation,
    /// A quantifier's bounds or an offset are above 1,000, or the lower bound is above the upper.
    #[error("BadBounds")]
    BadBounds,
    /// PERMUTE has more than eight parts.
    #[error("TooManyPermuted")]
    TooManyPermuted,
    /// The pattern has an exclusion, and unmatched rows are to be shown.
    #[error("ExclusionWithUnmatched")]
    ExclusionWithUnmatched,
    /// MATCH_NUMBER or CLASSIFIER stands in DEFINE.
    #[error("MeasureOnly")]
    MeasureOnly,
}

/// A fault of a clause, and the offset of the byte at which it stands, from 0.
#[derive(Clone, Copy, Debug, PartialEq, Eq, Error)]
#[error("{kind} at byte {offset}")]
pub struct Fault {
    pub kind: CheckKind,
    pub offset: usize,
}

/// Why a clause is refused.
#[derive(Clone, Copy, Debug, PartialEq, Eq, Error)]
pub enum CheckFault {
    /// The first of its faults.
    #[error("{0}")]
    Fault(Fault),
    /// No memory was left. It says nothing of the clause.
    #[error("out of memory")]
    OutOfMemory,
}

impl From<AllocError> for CheckFault {
    ghost from_gives = { λ _ e. e ≡ OutOfMemory };

    fn from(_error: AllocError) -> CheckFault {
        CheckFault::OutOfMemory
    }
}

impl<T: Drop> From<AllocFailed<T>> for CheckFault {
    ghost from_gives = { λ _ e. e ≡ OutOfMemory };

    fn from(_error: AllocFailed<T>) -> CheckFault {
        CheckFault::OutOfMemory
    }
}
