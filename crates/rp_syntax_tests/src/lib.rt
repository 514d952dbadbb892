//! The tests of the texts of clauses and tables, from their tokens to what is told of them, and of the command line: of rp_place,
//! rp_lexer, rp_syntax, rp_resolution, rp_check, the crates that explain and rp_command, in a crate of their own, so that those are
//! proved once and not again with their tests. What shows in the output of the program is no test here and stands in the folder `cases`.
#![tactic(auto)]

#[cfg(test)]
mod check;
#[cfg(test)]
mod command;
#[cfg(test)]
mod drawings;
#[cfg(test)]
mod explain;
#[cfg(test)]
mod lexer;
#[cfg(test)]
mod support;
#[cfg(test)]
mod syntax;
#[cfg(test)]
mod tree;
