//! Rows of one partition, put in order: they come late, twice, out of order or not at all, and the feed alone knows
//! which have come.
//!
//!     let mut feed = Feed::new(alloc);
//!     feed.take(3, third)?;       // Taken::New, and the front stays 0: rows 1 and 2 are missing
//!     feed.take(1, first)?;       // Taken::New, front 1
//!     feed.take(1, again)?;       // Taken::Repeat with equal cells, else the fault Conflict
//!     feed.forget(2);             // row 1 was taken and is dropped: from now on it is Taken::Old
//!     feed.close(3)?;             // the partition has three rows
//!
//! What a feed is seen as is said in `specs/Fed`, what it answers in `specs/Answers`, and the laws of both in
//! `specs/FedLaws`.
#![tactic(auto)]

mod answer;
mod feed;
mod held_rows;
mod laws;
mod packet;

pub use answer::{FeedFault, MAX_BEYOND, MAX_NUMBER, Taken};
pub use feed::Feed;
pub use laws::{law_again, law_front, law_new, law_rows, law_same_rows};
pub use packet::Packet;
