//! The grammar of row patterns: from the tokens of a text to a tree and what follows it, or the first fault. Its rules are
//! `specs/PatternGrammar`, a rule a line.
#![tactic(auto)]

mod pattern;
mod quantifier;

pub use pattern::inner;
