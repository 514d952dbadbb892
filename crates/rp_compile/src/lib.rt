//! From the text of a clause to its query, and the laws of it.
//!
//! ```text
//! let table = read_table(alloc, "sym text, p int")?;
//! let query = compile(alloc, "PATTERN (A B+) DEFINE B AS p < PREV(p)", &table)?;
//! ```
//!
//! What is compiled, and what is wrong with a text that isn't, is `specs/Compiled`.
#![tactic(auto)]

mod compiling;
mod laws;

pub use compiling::{CompileFault, compile};
pub use laws::law_compiled;
