//! The lines that are sent, and the key that a packet is polled by.
ghost use Rattle.std.specs.Prelude.{◌≡◌, IfOk};
ghost use Rattle.rp_drive.specs.Keys.{packet_key};
ghost use Rattle.rp_drive.specs.Lines.{line_of};
ghost use Rattle.rp_protocol.specs.declared.request.Request.TheVariants as request;

use rp_feed::Packet;
use rp_protocol::{packet_line, poll_line};
use rp_query::Query;
use rp_value::Cells;
use std::alloc::{AllocError, Global};

/// The line of a packet, with its line feed.
pub(crate) fn packet_request(alloc: Global, packet: &Packet) -> Result<Vec<u8>, AllocError>
    ensures { IfOk result (λ line. line.items ≡ line_of (request.Packet packet.now)) }
{
    let mut line = packet_line(alloc, packet)?;
    line.push(b'\n')?;
    Ok(line)
}

/// The line of a poll, with its line feed.
pub(crate) fn poll_request(alloc: Global, key: &Cells, budget: u32) -> Result<Vec<u8>, AllocError>
    ensures { IfOk result (λ line. line.items ≡ line_of (request.Poll key.now budget)) }
{
    let mut line = poll_line(alloc, key, budget)?;
    line.push(b'\n')?;
    Ok(line)
}

/// The key of the partition that a packet is of.
pub(crate) fn packet_key(alloc: Global, query: &Query, packet: &Packet) -> Result<Cells, AllocError>
    ensures { IfOk result (λ key. key ≡ packet_key query.now packet.now) }
{
    match packet {
        Packet::Row { cells, .. } => query.key(alloc, cells),
        Packet::Close { key, .. } => key.share(alloc),
    }
}
