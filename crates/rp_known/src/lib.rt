//! The known answer of a partition: the items that are certain from the rows known so far.
//!
//! `specs/Walk` says what it is: the start rows are gone through in order, what the search at each finds gives its
//! items, and the skip rule says where the next search starts. `law_known` says that it only grows.
#![tactic(auto)]

mod cells;
mod laws;
mod making;
mod place;
mod skips;

pub use laws::{law_earlier, law_known, law_legs, law_named};
pub use making::{match_item, unmatched_item};
pub use place::Place;
pub use skips::next_start;
