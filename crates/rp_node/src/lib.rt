//! A node: it takes the rows of many partitions in any order, and gives the items of each partition's answer as early as
//! they are certain.
//!
//! ```text
//! let mut node = Node::new(rt.alloc(), query, RandomState::new(rt)?);
//! let taken = node.accept(Packet::Row { number, cells })?; // Taken::New, Repeat or Old, or why it is refused
//! match node.next(key, 1_000)? {
//!     Poll::Item(place, item) => println!(rt; "    item {place}: {item:?}")?, // the next of this partition's answer
//!     Poll::Paused => {}    // the budget is used up: call it again
//!     Poll::Idle => break,  // nothing more is certain until a packet comes
//! }
//! let bytes = node.save()?; // Node::restart(alloc, query, hasher, &bytes) goes on from here
//! ```
//!
//! The whole program is the crate rp_example.
//!
//! Behind a connection a node answers lines: it is what `rp_serve::serve` and `rp_serve::round` run over. `begin` goes on from
//! what was saved, or begins with nothing.
//!
//! What contracts see of a node is `specs/NodeSeen`; what packets do `specs/Accepting`, polls `specs/Polling`, and requests
//! `specs/Replies`.
#![tactic(auto)]

mod beginning;
mod clause_text;
mod difference;
mod fault;
mod laws;
mod node;
mod partitions;
mod requests;
mod restart;
mod resume;
mod save;

pub use beginning::{Begun, begin};
pub use clause_text::without_blank_end;
pub use difference::clause_difference;
pub use fault::{NodeFault, RestartRefused};
pub use laws::law_calls;
pub use node::Node;
