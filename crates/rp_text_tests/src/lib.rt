//! The tests of texts and conversations: of feeds, of the lines and checkpoints that are written with JSON, and of both sides of a
//! conversation over lines. They stand in a crate of their own, so that those crates are proved once, and not again with their
//! tests. What a script can play is in cases/lines.script, cases/node.script and cases/refused.script.
#![tactic(auto)]

#[cfg(test)]
mod chance;
#[cfg(test)]
mod checkpoints;
#[cfg(test)]
mod lines;
#[cfg(test)]
mod orders;
#[cfg(test)]
mod replies;
#[cfg(test)]
mod requests;
#[cfg(test)]
mod sessions;
#[cfg(test)]
mod support;
#[cfg(test)]
mod texts;
