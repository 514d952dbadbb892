//! The words of a row pattern, listed all at once, in the order in which the standard prefers them: for tests, which hold a search beside
//! them.
//!
//! ```text
//! let form = Form::concatenation(alloc, Form::variable(0), Form::variable(1))?;
//! let words = list_words(alloc, &Pattern::new(form), 1, 2, End::Closed, 100)?;
//! ```
#![tactic(auto)]

mod list;

pub use list::{ListFault, list_words};
