//! The items that a node gives, each after its number.
ghost use Rattle.std.specs.Prelude.{◌≡◌, IfErr, IfOk, OnErr, OnOk};
ghost use Rattle.std.specs.Io.KnownBytes.{Appends};
ghost use Rattle.rp_protocol.specs.declared.reply.Reply.TheVariants as reply;
ghost use Rattle.rp_io.specs.Devices.{AppendsFront};
ghost use Rattle.rp_drive.specs.Faults.{IsOfWriting, TellsWrite};
ghost use Rattle.rp_drive.specs.Lines.{item_line};

use crate::fault::DriveFault;
use rp_io::{Outlet, write_all};
use rp_protocol::push_item_line;
use rp_query::Item;
use rp_value::Cells;
use std::alloc::{AllocError, Global};

/// Writes the line of an item, after the node's number and a space.
pub(crate) fn write_item<O: Outlet>(
    alloc: Global,
    node_number: u64,
    key: &Cells,
    place: u128,
    item: &Item,
    out: &mut O,
) -> Result<(), DriveFault>
    ensures all { OnOk result (Appends (O.contents out.old) (O.contents out.new)
        (item_line node_number (reply.Item key.now place item.now))) }
    ensures front { OnErr result (AppendsFront (O.contents out.old) (O.contents out.new)
        (item_line node_number (reply.Item key.now place item.now))) }
    ensures fault { IfErr result IsOfWriting }
    ensures write { TellsWrite result (O.failures out.old) (O.failures out.new) }
{
    let text = numbered_line(alloc, node_number, key, place, item)?;
    write_all(out, text.as_slice())?;
    Ok(())
}

fn numbered_line(
    alloc: Global,
    node_number: u64,
    key: &Cells,
    place: u128,
    item: &Item,
) -> Result<Vec<u8>, AllocError>
    ensures { IfOk result (λ text. text.items ≡ item_line node_number (reply.Item key.now place item.now)) }
{
    let mut text = Vec::new(alloc);
    let mut buffer = itoa::Buffer::new();
    text.extend_from_slice(buffer.format(node_number).as_bytes())?;
    text.push(b' ')?;
    push_item_line(alloc, &mut text, key, place, item)?;
    text.push(b'\n')?;
    Ok(text)
}
