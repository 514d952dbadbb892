//! The tests of rp_eval and rp_answer, in a crate of their own: so these are proved once, and stand on no parser. Items, values,
//! conditions and skips that show in a text are cases of cases/matcher.script and cases/values.script, and those in which memory is
//! refused are cases of cases/refused.script.
#![tactic(auto)]

#[cfg(test)]
mod answers;
#[cfg(test)]
mod support;
#[cfg(test)]
mod values;
