//! An object behind a digest of its bytes, which shows whether these were cut or changed.
//!
//!     seal    {"a":1}    015abd7f5cc57a2dd94b7590f04ad8084273905ee33ec5cebeae62276a97f862
//!                        {"a":1}
//!     open    these two lines give {"a":1}, and any with another digest None
//!
//! The digest is the SHA-256 of the object's bytes as 64 lower-case hexadecimal digits, and a line feed stands between: `specs/Sealed`.
//! Any bytes may be the object.
#![tactic(auto)]

mod digest;

pub use digest::{open, seal};
