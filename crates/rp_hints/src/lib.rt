//! What to write in place of what can't stand in a clause, by the words round its place: what people know from other dialects of SQL,
//! from other languages and from elsewhere in a clause.
//!
//! Hints are guesses, and nothing here decides. The only error is being out of memory.
#![tactic(auto)]

mod behind;
mod brackets;
mod columns;
mod expected;
mod fractions;
mod instead;
mod intervals;
mod pairs;
mod parts;
mod pattern_hints;
mod reserved_names;
mod rewriting;
mod words;

pub use columns::{push_new, unknown_column, unknown_variable};
pub use expected::unexpected;
pub use parts::ends_value;
pub use words::{is_missing_function, sql_around};
