//! Tokens of a MATCH_RECOGNIZE clause: the names, reserved words, text literals, numbers and signs that a parser reads.
//!
//! `lex` cuts a text into its one list of tokens, or gives the first fault with its byte. Each token tells its kind and where
//! it stands; `name_of`, `text_of` and `number_of` say what it means. So of `b AS p < 5 -- falling` the tokens are the name
//! B, AS, the name P, `<` and the number 5:
//!
//!     let tokens = lex(alloc, text)?;
//!     match tokens.split_first() {
//!         Some((first, rest)) if first.kind == TokenKind::Name => {
//!             let name = name_of(alloc, text, *first)?;
//!         }
//!         _ => {}
//!     }
//!
//! That each token stands in the text is a clause of `lex`, and its parts keep it, so that a parser may ask for the meaning of
//! each token that it comes to. What is a token, a fault and a meaning is said in `specs/`: Forms and Spelling, Lexes,
//! Faults, Meanings.
#![tactic(auto)]

mod fault;
mod gap;
mod kind;
mod laws;
mod lexer;
mod meaning;
mod scan;
mod token;

pub use fault::LexFault;
pub use kind::{Keyword, Mark, TokenKind};
pub use laws::law_lexes;
pub use lexer::lex;
pub use meaning::{name_of, number_of, text_of};
pub use token::Token;
