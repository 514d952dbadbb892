//! Conversations of both sides over devices in memory and a socket. What is expected is worked out by hand.

mod driving;
mod exchange;
mod node;
mod refused;
mod rounds;
mod serving;
mod sockets;
