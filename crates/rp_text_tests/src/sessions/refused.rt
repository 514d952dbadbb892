//! A call that is refused memory, made again, answers as with ample memory.
use super::exchange::{Exchange, ITEMS, REPLIES, SENT};
use super::node::SmallNode;
use crate::support::refused_twice;
use rp_drive::{Conversation, DriveFault, drive};
use rp_io::{MemoryInput, MemoryOutput};
use rp_serve::{ServeFault, round, serve};
use std::alloc::{AllocError, Global};
use std::test::Fail;

/// A writer of which nothing fails.
fn output(alloc: Global) -> Result<MemoryOutput, AllocError> {
    MemoryOutput::new(alloc, 4_096, 1_000, 0)
}

/// Whether a new node replies to all that is sent. Where memory is refused the node goes back to its beginning, or is lost.
fn is_replied(alloc: Global) -> Result<bool, Fail> {
    let mut reader = MemoryInput::new(SENT.as_bytes(), 20, 0);
    let mut writer = output(alloc)?;
    let node = SmallNode::new(alloc);
    let Ok(end) = round(alloc, node, None, &mut reader, &mut writer, 1_000) else {
        return Ok(false);
    };
    let went_back = end.node.rows() == 0 && end.saved.is_none();
    match end.fault {
        None if writer.bytes() == REPLIES.as_bytes() => Ok(true),
        Some(ServeFault::OutOfMemory) if went_back => Ok(false),
        _ => Err(Fail::from("other replies were written")),
    }
}

/// All lines are sent again to a new node.
#[test]
fn refused_rounds(rt: HostRuntime) -> Result<(), Fail> {
    if is_replied(rt.alloc())? || is_replied(rt.alloc())? {
        return Ok(());
    }
    Err(refused_twice())
}

/// Whether a new node serves all that is sent. Where memory is refused, what was written before is a front of the replies.
fn is_served(alloc: Global) -> Result<bool, Fail> {
    let mut reader = MemoryInput::new(SENT.as_bytes(), 20, 0);
    let mut writer = output(alloc)?;
    let mut node = SmallNode::new(alloc);
    let result = serve(alloc, &mut reader, &mut writer, &mut node, 1_000);
    let written = writer.bytes();
    match result {
        Ok(_) if written == REPLIES.as_bytes() => Ok(true),
        Err(ServeFault::OutOfMemory) if REPLIES.as_bytes().starts_with(written) => Ok(false),
        _ => Err(Fail::from("other replies were written")),
    }
}

#[test]
fn refused_sessions(rt: HostRuntime) -> Result<(), Fail> {
    if is_served(rt.alloc())? || is_served(rt.alloc())? {
        return Ok(());
    }
    Err(refused_twice())
}

/// Whether a conversation comes to its end. Where memory is refused, what was sent and written before are fronts.
fn is_driven(alloc: Global, conversation: &Conversation) -> Result<bool, Fail> {
    let mut reader = MemoryInput::new(REPLIES.as_bytes(), 20, 0);
    let mut writer = output(alloc)?;
    let mut out = output(alloc)?;
    let result = drive(alloc, conversation, &mut reader, &mut writer, &mut out);
    let (sent, written) = (writer.bytes(), out.bytes());
    match result {
        Ok(()) if sent == SENT.as_bytes() && written == ITEMS.as_bytes() => Ok(true),
        Err(DriveFault::OutOfMemory)
            if SENT.as_bytes().starts_with(sent) && ITEMS.as_bytes().starts_with(written) => {
            Ok(false)
        }
        _ => Err(Fail::from("other lines were sent or written")),
    }
}

#[test]
fn refused_drives(rt: HostRuntime) -> Result<(), Fail> {
    let exchange = Exchange::new(rt.alloc())?;
    drive_again(rt.alloc(), &exchange.conversation())
}

fn drive_again(alloc: Global, conversation: &Conversation) -> Result<(), Fail> {
    if is_driven(alloc, conversation)? || is_driven(alloc, conversation)? {
        return Ok(());
    }
    Err(refused_twice())
}
