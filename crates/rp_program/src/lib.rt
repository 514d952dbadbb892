//! Row patterns compiled to programs. A program's instructions stand at places; each place stands for what is left of the
//! pattern from there on, and what its words are depends on the place and the row alone.
//!
//! The pattern `A B* C` has a program of five places: `A`, the choice of another `B` or to go on, `B`, `C`, and the match:
//! ```text
//! let program = Program::compile(alloc, &pattern, 10_000)?;
//! ```
//! A PERMUTE of variables has a place for each variable of each set of those that are still to be mapped, not one for
//! each order.
//! What the words of a pattern are is said by the crate rp_words.
#![tactic(auto)]

mod draft;
mod place;
mod program;
mod sets;

pub use program::{Instruction, Program};
