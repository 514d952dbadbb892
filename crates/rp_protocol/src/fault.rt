//! Why a line is refused.
ghost use Rattle.std.specs.Prelude.{◌≡◌};
ghost use Rattle.rp_protocol.specs.declared.fault.LineFault.TheVariants.{OutOfMemory};

use crate::{Field, Refusal};
use std::alloc::AllocError;
use thiserror::Error;

/// The greatest length of a line, in bytes, without its line feed.
pub const MAX_LINE_LEN: usize = 65_536;

/// Why a line is no request or reply, the first reason in the order of the variants.
#[derive(Clone, Copy, Debug, PartialEq, Eq, Error)]
pub enum LineFault {
    /// It has more than 65,536 bytes.
    #[error("TooLong")]
    TooLong,
    /// It isn't UTF-8, isn't JSON, or isn't an object.
    #[error("NotJson")]
    NotJson,
    /// The field is missing, of another form, or one too many.
    #[error("{}", Refusal::BadField(*.0).word())]
    BadField(Field),
    /// No memory was left. It says nothing of the line.
    #[error("out of memory")]
    OutOfMemory,
}

impl From<AllocError> for LineFault {
    ghost from_gives = { λ _ fault. fault ≡ OutOfMemory };

    fn from(_error: AllocError) -> LineFault {
        LineFault::OutOfMemory
    }
}
