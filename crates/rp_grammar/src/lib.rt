//! Grammars over the tokens of a text: how they are put together, the readers of single tokens, and names.
//!
//! A grammar is written once, a rule a line, in `specs/Grammar`: `listed name` is one or more names with commas
//! between. Each way to put grammars together has one law, in `proofs/Laws`: what the next token alone decides is
//! read exactly as it is derived.
//!
//! A reader takes the front of a list of tokens, and gives what that stands for and the tokens that follow. So of the text
//! `{ 3 }` the number is read as the grammar `word left then number then word right` derives it:
//!
//! ```text
//! let tokens = lex(alloc, text)?; // of rp_lexer
//! let (_, rest) = word(text, &tokens, TokenKind::Mark(Mark::LeftBrace))?;
//! let (value, rest) = number(text, rest)?;
//! let (_, rest) = word(text, rest, TokenKind::Mark(Mark::RightBrace))?;
//! ```
#![tactic(auto)]

mod cursor;
mod fault;
mod naming;
mod written;

pub use cursor::{Parsed, begins, number, opening, place, token, word};
pub use fault::ParseFault;
pub use naming::{begins_name, name, named, text_at};
pub use written::Name;
