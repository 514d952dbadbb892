//! Rows that meet a condition, before they are put into partitions.
//!
//! ```text
//! let filter = read_filter(alloc, "event <> 'debug' AND user_id IS NOT NULL", &table)?;
//! let rows = filter.keep(alloc, rows)?;
//! ```
//!
//! The condition is one of the clause's own language, of a row alone. As in SQL's WHERE a row for which it is unknown is left out. What it
//! means is `specs/Meets`.
#![tactic(auto)]

mod fault;
mod filter;
mod reading;

pub use fault::FilterFault;
pub use filter::Filter;
pub use reading::read_filter;
