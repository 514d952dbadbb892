//! What goes over a line between a source and a node: packets, requests and replies, each as the text of a line and back; and
//! the rows of an answer as objects.
//!
//! A line is one object of JSON. Written lines are compact, their keys in ascending byte order, but for those of a row's
//! object, whose keys come as its columns do; read are spaces and other orders too. A place is a text of digits, since readers of
//! JSON may round a number above 2^53:
//!
//!     {"cells":["x",1,10],"row":1}        {"taken":"new"}
//!     {"close":1,"key":["x"]}             {"refused":"TooFar"}
//!     {"budget":50,"poll":["x"]}          {"end":true,"key":["x"],"place":"1"}
//!     {"SYM":"x","N":1,"LO":6}            {"cells":["x",1,10,6,9],"key":["x"],"number":1,"place":"1"}
//!
//! What lines say is defined in `specs/Requests` and `specs/Replies`, how they are written in `specs/PacketLines`,
//! `specs/ReplyLines` and `specs/ObjectTexts`, the texts of refusals in `specs/Refusals`; `specs/ReplyLaw` says that the line of a
//! reply reads back. What a node acknowledges, `{"saved":2}`, is in `specs/Saved`. A compact request is read without a tree of
//! JSON.
#![tactic(auto)]

mod compact;
mod fault;
mod laws;
mod line;
mod object;
mod packets;
mod read_refusal;
mod read_reply;
mod read_request;
mod read_saved;
mod refusal;
mod reply;
mod request;
mod write_request;

pub use compact::compact_request;
pub use fault::{LineFault, MAX_LINE_LEN};
pub use laws::{law_objects, law_replies, law_replies_within};
pub use line::{push_item_line, push_reply_line, reply_line};
pub use object::push_object;
pub use packets::{packet_line, poll_line};
pub use read_reply::{reply_of, reply_within};
pub use read_request::request_of;
pub use read_saved::saved_of;
pub use refusal::{Field, Refusal};
pub use reply::Reply;
pub use request::Request;
pub use write_request::request_line;
