//! The grammar of MATCH_RECOGNIZE: from the tokens of a text to the clause that they derive, or the first fault.
//!
//! ```text
//! let tokens = lex(alloc, "PATTERN (A B+) DEFINE B AS p < PREV(p)")?;
//! let clause = parse(alloc, text, tokens.as_slice())?;
//! ```
//!
//! The grammar is `specs/ClauseGrammar`, a rule a line in the order of the written one, over those of rp_patterns and
//! rp_expressions. `read_table` reads the names and kinds of a table's columns.
#![tactic(auto)]

mod clause;
mod cursor;
mod table;

pub use clause::parse;
pub use table::{TableTextFault, read_table};
