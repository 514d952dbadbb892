//! The job `check`: what is wrong with columns, a clause, a condition of `--where` or inputs, or what a clause does.
#![tactic(auto)]

mod bare_dates;
mod check;
mod condition;
mod found;
mod inputs;
mod literals;
mod near_keys;
mod nulls;
mod parts;
mod proposing;
mod rows;
mod texts;
mod ties;

pub use check::run_check;
