//! The grammar of expressions and of navigations in them: from the tokens of a text to a tree and what follows it, or the
//! first fault. Its rules are `specs/ExprGrammar` and `NavigationGrammar`, a rule a line.
#![tactic(auto)]

mod aggregates;
mod expression;
mod navigation;
mod operators;
mod values;

pub use expression::expr;
