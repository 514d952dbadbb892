//! The tests of rp_value, in a crate of their own: so that it is proved once, and not again with its tests.
#![tactic(auto)]

#[cfg(test)]
mod lists;
#[cfg(test)]
mod names;
#[cfg(test)]
mod refused;
#[cfg(test)]
mod support;
#[cfg(test)]
mod tables;
#[cfg(test)]
mod truth;
#[cfg(test)]
mod values;
