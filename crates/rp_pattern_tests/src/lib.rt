//! The tests of rp_words, rp_program, rp_pattern, rp_search and rp_trace, in a crate of their own: so that these are proved once, and not
//! again with their tests. Replies and patterns that show in a text are in cases/trace.cases.
#![tactic(auto)]

#[cfg(test)]
mod lists;
#[cfg(test)]
mod notation;
#[cfg(test)]
mod outlooks;
#[cfg(test)]
mod patterns;
#[cfg(test)]
mod programs;
#[cfg(test)]
mod searches;
#[cfg(test)]
mod support;
#[cfg(test)]
mod trace;
