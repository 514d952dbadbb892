//! Why a list of tokens is no clause.

ghost use Rattle.std.specs.Prelude.{◌≡◌};
ghost use Rattle.rp_grammar.specs.declared.fault.ParseFault.TheVariants.{OutOfMemory};

use std::alloc::{AllocError, AllocFailed};
use thiserror::Error;

/// Why tokens are no clause, with a byte offset from 0.
#[derive(Clone, Copy, Debug, PartialEq, Eq, Error)]
pub enum ParseFault {
    /// The token that begins here can't follow those before it, or the text ends here too early.
    #[error("Expected at byte {0}")]
    Expected(usize),
    /// A hundred brackets are open before the one that begins here.
    #[error("Deep at byte {0}")]
    Deep(usize),
    /// No memory was left. It says nothing of the tokens.
    #[error("out of memory")]
    OutOfMemory,
}

impl From<AllocError> for ParseFault {
    ghost from_gives = { λ _ e. e ≡ OutOfMemory };

    fn from(_error: AllocError) -> ParseFault {
        ParseFault::OutOfMemory
    }
}

impl<T: Drop> From<AllocFailed<T>> for ParseFault {
    ghost from_gives = { λ _ e. e ≡ OutOfMemory };

    fn from(_error: AllocFailed<T>) -> ParseFault {
        ParseFault::OutOfMemory
    }
}
