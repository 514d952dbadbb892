//! What is said of a query: which rows its conditions look at, whether they wait for later rows, and which variables never have a
//! row before others.
//!
//! What is said holds of what conditions come to, and of the words of the pattern: `specs/Said` and `specs/Precedes`. The
//! sentences that say it are the crate rp_explain_queries's.
#![tactic(auto)]

mod laws;
mod looks;
mod missing;
mod precedes;

pub use laws::law_missing;
pub use looks::{Looks, OWN_ROW, all_looks, looks_at};
pub use missing::missing_variable;
pub use precedes::has_variable;
