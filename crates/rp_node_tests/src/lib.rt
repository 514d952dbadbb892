//! The tests of rp_node, rp_columns, rp_numbering, rp_input, rp_whole and rp_question, in a crate of their own: they compile clauses,
//! which most of those don't, and what they test is proved once, and not again with them.
#![tactic(auto)]

#[cfg(test)]
mod connections;
#[cfg(test)]
mod input;
#[cfg(test)]
mod questions;
#[cfg(test)]
mod schedules;
#[cfg(test)]
mod support;
#[cfg(test)]
mod whole;
