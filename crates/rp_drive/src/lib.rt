//! The source's side of a conversation with a node: packets are sent, one line each, and after each its partition is
//! polled until it is idle. The items that come are written to another writer, each after the node's number.
//!
//!     {"cells":["x",1,10],"row":1}      {"taken":"new"}
//!     {"budget":50,"poll":["x"]}        {"idle":["x"]}
//!     {"close":1,"key":["x"]}           {"taken":"new"}
//!     {"budget":50,"poll":["x"]}        {"end":true,"key":["x"],"place":"1"}    1 {"end":true,"key":["x"],"place":"1"}
//!     {"budget":50,"poll":["x"]}        {"idle":["x"]}
//!
//! What is sent and written for which replies is said in `specs/Exchange`, and that of a run in `specs/Exchanged`.
#![tactic(auto)]

mod conversation;
mod counted;
mod fault;
mod items;
mod replies;
mod requests;

pub use conversation::{Conversation, drive, drive_within};
pub use counted::Counted;
pub use fault::{DriveFault, Stop};
