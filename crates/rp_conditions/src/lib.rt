//! The conditions of a query as the tests of a search: they follow the labels of the search by totals, so that no
//! condition goes over the labels again.
//!
//!     let mut tester = Tester::new(&rows, &query, Totals::new(alloc, &query)?, Entries::new());
//!     let outcome = search.run(&mut tester, budget, &mut steps)?;
//!     let (totals, entries) = tester.into_parts(); // when rows come, for the tester of the next run
#![tactic(auto)]

mod entries;
mod laws;
mod tester;

pub use entries::Entries;
pub use laws::{law_local_tests, law_tests};
pub use tester::Tester;
