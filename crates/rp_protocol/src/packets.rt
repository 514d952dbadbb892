//! Lines that ask something of a node, written a token at a time.
ghost use Rattle.std.specs.Prelude.{◌≡◌, ◌++◌, IfOk, OnOk};
ghost use Rattle.rp_protocol.specs.PacketLines.{packet_text, poll_text};
ghost use Rattle.rp_protocol.specs.PacketTokens.{packet_tokens, poll_tokens};

use crate::line::{ROOM, write_values};
use json::Writer;
use rp_feed::Packet;
use rp_value::{Cells, Row};
use std::alloc::{AllocError, Global};

/// The line of a packet, without its line feed. The packet is lent, and its cells are not copied.
///
/// ```text
/// {"cells":["x",1,10],"row":1}
/// {"close":1,"key":["x"]}
/// ```
pub fn packet_line(alloc: Global, packet: &Packet) -> Result<Vec<u8>, AllocError>
    ensures { IfOk result (λ line. line.items ≡ packet_text packet.now) }
{
    let mut writer = Writer::new(Vec::with_capacity(alloc, ROOM)?);
    write_packet(&mut writer, packet)?;
    Ok(writer.into_inner())
}

/// The line of a poll of the partition with this key, without its line feed.
///
/// ```text
/// {"budget":50,"poll":["x"]}
/// ```
pub fn poll_line(alloc: Global, key: &Cells, budget: u32) -> Result<Vec<u8>, AllocError>
    ensures { IfOk result (λ line. line.items ≡ poll_text key.now budget) }
{
    let mut writer = Writer::new(Vec::with_capacity(alloc, ROOM)?);
    write_poll(&mut writer, key, budget)?;
    Ok(writer.into_inner())
}

fn write_packet(writer: &mut Writer, packet: &Packet) -> Result<(), AllocError>
    ensures ok { OnOk result (writer.new.tokens ≡ writer.old.tokens ++ packet_tokens packet.now) }
    ensures before { writer.new.before ≡ writer.old.before }
{
    match packet {
        Packet::Row { number, cells } => write_row(writer, *number, cells),
        Packet::Close { key, count } => write_close(writer, key, *count),
    }
}

fn write_row(writer: &mut Writer, number: u64, cells: &Row) -> Result<(), AllocError>
    ensures ok { OnOk result
        (writer.new.tokens ≡ writer.old.tokens ++ packet_tokens (Packet.Row number cells.now)) }
    ensures before { writer.new.before ≡ writer.old.before }
{
    writer.begin_object()?;
    writer.key("cells")?;
    write_values(writer, cells.cells())?;
    writer.key("row")?;
    writer.u64(number)?;
    writer.end_object()
}

fn write_close(writer: &mut Writer, key: &Cells, count: u64) -> Result<(), AllocError>
    ensures ok { OnOk result
        (writer.new.tokens ≡ writer.old.tokens ++ packet_tokens (Packet.Close key.now count)) }
    ensures before { writer.new.before ≡ writer.old.before }
{
    writer.begin_object()?;
    writer.key("close")?;
    writer.u64(count)?;
    writer.key("key")?;
    write_values(writer, key.as_slice())?;
    writer.end_object()
}

fn write_poll(writer: &mut Writer, key: &Cells, budget: u32) -> Result<(), AllocError>
    ensures ok { OnOk result (writer.new.tokens ≡ writer.old.tokens ++ poll_tokens key.now budget) }
    ensures before { writer.new.before ≡ writer.old.before }
{
    writer.begin_object()?;
    writer.key("budget")?;
    writer.u64(u64::from(budget))?;
    writer.key("poll")?;
    write_values(writer, key.as_slice())?;
    writer.end_object()
}
