//! The resumable search for the first word of a pattern that no condition refuses.
//!
//! A caller answers what a search asks by an implementation of `Tests`, begins at a row, and runs the search with a budget of
//! turns until it isn't paused:
//!
//! ```text
//! let mut search = Search::new(alloc, &pattern, 1)?;
//! while search.run(&mut tests, 1_000, &mut steps)? == Outcome::Paused {}
//! let labels = search.labels(); // after a match
//! search.restart(2);
//! tests.cut(0); // no label is entered any more
//! ```
//!
//! What is found is said by `specs/Found`, what is asked by `specs/Asked`, and what a search does by `specs/Search`.
#![tactic(auto)]

mod asking;
mod conditions;
mod laws;
mod memo;
mod search;
mod steps;
mod table;

pub use conditions::Tests;
pub use laws::{law_agreement, law_found, law_search};
pub use search::{Outcome, Search};
pub use steps::Steps;
