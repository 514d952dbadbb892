//! What is wrong with a text.

ghost use Rattle.std.specs.Prelude.{◌≡◌};
ghost use Rattle.rp_lexer.specs.declared.fault.LexFault.TheVariants.{OutOfMemory};

use std::alloc::{AllocError, AllocFailed};
use thiserror::Error;

/// The first fault of a text, each with its byte offset from 0: up to it stand tokens,
/// separators and comments alone.
#[derive(Clone, Copy, Debug, PartialEq, Eq, Error)]
pub enum LexFault {
    /// No token begins with the character whose first byte stands here; or `""` stands here, with no
    /// third `"` behind it: a name without a character.
    #[error("BadChar at byte {0}")]
    BadChar(usize),
    /// A text literal begins with the `'` here and never closes.
    #[error("OpenText at byte {0}")]
    OpenText(usize),
    /// A quoted name begins with the `"` here and never closes.
    #[error("OpenName at byte {0}")]
    OpenName(usize),
    /// The number whose first digit stands here is above 9223372036854775807, whatever
    /// follows it.
    #[error("NumberRange at byte {0}")]
    NumberRange(usize),
    /// No memory was left for the tokens. It says nothing of the text.
    #[error("out of memory")]
    OutOfMemory,
}

impl From<AllocError> for LexFault {
    ghost from_gives = { λ _ e. e ≡ OutOfMemory };

    fn from(_error: AllocError) -> LexFault {
        LexFault::OutOfMemory
    }
}

impl<T: Drop> From<AllocFailed<T>> for LexFault {
    ghost from_gives = { λ _ e. e ≡ OutOfMemory };

    fn from(_error: AllocFailed<T>) -> LexFault {
        LexFault::OutOfMemory
    }
}
