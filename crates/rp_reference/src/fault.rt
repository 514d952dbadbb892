//! Why the plain program doesn't tell the items.
use rp_word_lists::ListFault;
use std::alloc::{AllocError, AllocFailed};
use thiserror::Error;

/// Why the plain program doesn't tell the items. It says nothing of them.
#[derive(Clone, Copy, Debug, PartialEq, Eq, Error)]
pub enum PlainFault {
    /// There are more rows, or more words of the pattern, than the tests have.
    #[error("more rows or words than the plain program takes")]
    TooMany,
    /// The rows have fewer columns than the tests' tables.
    #[error("the plain program takes rows of three columns")]
    NoColumn,
    /// Memory was refused.
    #[error("out of memory")]
    OutOfMemory,
}

impl From<ListFault> for PlainFault {
    fn from(fault: ListFault) -> PlainFault {
        match fault {
            ListFault::TooMany => PlainFault::TooMany,
            ListFault::OutOfMemory => PlainFault::OutOfMemory,
        }
    }
}

impl From<AllocError> for PlainFault {
    fn from(_: AllocError) -> PlainFault {
        PlainFault::OutOfMemory
    }
}

impl<T: Drop> From<AllocFailed<T>> for PlainFault {
    fn from(_: AllocFailed<T>) -> PlainFault {
        PlainFault::OutOfMemory
    }
}
