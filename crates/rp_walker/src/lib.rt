//! Gives the items of a partition's known answer one after another, over rows that are lent.
//!
//! A walker holds no rows: each poll lends it the query and the rows. What it gives is said by `specs/Polls`, for every
//! partition that its record fits.
#![tactic(auto)]

mod ahead;
mod giving;
mod laws;
mod poll;
mod record;
mod run;
mod stage;
mod walker;

pub use laws::{law_drops, law_left, law_records, law_steps, law_walkers, law_work};
pub use poll::Poll;
pub use record::MatcherState;
pub use walker::Walker;
