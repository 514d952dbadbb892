//! `node`: a node behind connections, and the file in which it is kept between them and after it has ended.
#![tactic(auto)]

mod accepting;
mod aside;
mod beside;
mod client;
mod folder;
mod node;
mod place;
mod state;

pub use node::run_node;
