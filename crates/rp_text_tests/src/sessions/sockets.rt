//! Both sides over one connection on loopback.
use super::exchange::{Exchange, ITEMS, REPLIES};
use super::node::SmallNode;
use crate::support::holds;
use rp_drive::drive;
use rp_io::{CountedDevice, MemoryOutput};
use rp_serve::serve;
use std::alloc::Global;
use std::io::Write;
use std::net::{Shutdown, TcpListener, TcpStream};
use std::process::Abort;
use std::test::Fail;

/// The replies are written to one end and driven on at the other. Then the lines that came are served, with the same replies.
#[test]
fn loopback(rt: HostRuntime) -> Result<(), Fail> {
    let alloc = rt.alloc();
    let listener = TcpListener::bind(&rt, "127.0.0.1:0")?;
    let source = TcpStream::connect(&rt, listener.local_addr()?)?;
    let (node, _from) = listener.accept()?;
    converse(&rt, alloc, &source, &node)
}

fn converse(
    rt: &impl Abort,
    alloc: Global,
    source: &TcpStream,
    node: &TcpStream,
) -> Result<(), Fail> {
    let mut replies = node;
    replies.write_all(REPLIES.as_bytes())?;
    holds(rt, "driven", is_driven(alloc, source)?);
    source.shutdown(Shutdown::Write)?;
    holds(rt, "served", is_served(alloc, node)?);
    Ok(())
}

/// Whether the items come of what is driven over a connection on which the replies wait.
fn is_driven(alloc: Global, source: &TcpStream) -> Result<bool, Fail> {
    let exchange = Exchange::new(alloc)?;
    let mut out = MemoryOutput::new(alloc, 4_096, 1_000, 0)?;
    let mut reader = CountedDevice::new(source);
    let mut writer = CountedDevice::new(source);
    let conversation = exchange.conversation();
    drive(alloc, &conversation, &mut reader, &mut writer, &mut out)?;
    Ok(out.bytes() == ITEMS.as_bytes())
}

/// Whether the five lines that wait at the node's end are replied to so.
fn is_served(alloc: Global, node: &TcpStream) -> Result<bool, Fail> {
    let mut reader = CountedDevice::new(node);
    let mut writer = MemoryOutput::new(alloc, 4_096, 1_000, 0)?;
    let mut node = SmallNode::new(alloc);
    let served = serve(alloc, &mut reader, &mut writer, &mut node, 1_000)?;
    Ok(served.lines == 5 && writer.bytes() == REPLIES.as_bytes())
}
