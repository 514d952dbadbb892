//! One partition: what was taken of its rows, in whatever order they come, and the walk over those up to the front.
//!
//! ```text
//! let mut partition = Partition::new(alloc);
//! partition.take(&query, 1, first)?; // Taken::New, Repeat or Old, or why it is refused
//! partition.close(&query, 4)?;       // the partition has four rows
//! match partition.poll(&query, 1_000, &mut steps)? {
//!     Poll::Item(place, item) => ..  // the next item of the partition's answer
//!     Poll::Paused => ..             // the budget is used up: poll it again
//!     Poll::Idle => ..               // nothing more is certain until a row or the close comes
//! }
//! ```
//!
//! A partition has neither its query nor its key: whoever keeps many, as a node does, keeps the query once and each key
//! with its partition. How its parts agree is said by `specs/Joined`, what a row or the close does by `specs/Taking`, and
//! what a poll does to the record that the law over schedules speaks of by `specs/Polling`.
#![tactic(auto)]

mod part_rows;
mod partition;

pub use partition::Partition;
