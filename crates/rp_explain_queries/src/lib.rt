//! What a clause without a fault does and looks at, and what it may not see of rows as they are meant.
//!
//! Nothing here decides: which rows a condition looks at is rp_describe's. Each line ends in LF. The only error is being out of memory.
#![tactic(auto)]

mod costs;
mod described;
mod described_input;
mod permuted;

pub use described::describe;
pub use described_input::describe_input;
pub use permuted::doubt;
