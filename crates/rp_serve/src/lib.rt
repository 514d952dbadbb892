//! The node's side of a conversation: each line that comes is read as a request, and answered by a line.
//!
//!     {"cells":["x",1,10],"row":1}      {"taken":"new"}
//!     {"budget":50,"poll":["x"]}        {"idle":["x"]}
//!     nope                              {"refused":"NotJson"}
//!
//! Whoever waits for a reply before it sends the next line gets it: what is gathered is written before the reader is
//! called again. The replies to lines that came together go together.
//!
//! What answers is whatever has the trait `Answers`; `round` goes back to what was saved, over `Keeps`, and `round_on` saves only
//! what may have changed. What a line does is said in `specs/Served`, what a session does in `specs/Sessions`, what is kept after
//! it in `specs/Rounds`, and which replies leave all as it was in `specs/Changes`.
#![tactic(auto)]

mod answers;
mod connection;
mod fault;
mod http;
mod keeps;
mod line;
mod patience;
mod saved;
mod session;
mod watched;

pub use answers::Answers;
pub use connection::{RoundEnd, round, round_on};
pub use fault::{ServeFault, Served};
pub use http::begins_http;
pub use keeps::Keeps;
pub use patience::Patience;
pub use saved::saved_line;
pub use session::serve;
