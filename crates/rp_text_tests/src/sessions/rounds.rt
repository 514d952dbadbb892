//! Connections over devices in memory, after which a node is saved or goes back.
use super::node::SmallNode;
use crate::support::same;
use rp_io::{MemoryInput, MemoryOutput};
use rp_serve::{ServeFault, round};
use std::alloc::Global;
use std::test::Fail;

const ROW: &str = "{\"row\":1,\"cells\":[\"x\",1,10]}\n";

/// What a connection over a row comes to of which the read and the write of these numbers fail: its fault, the rows that the node has then,
/// and what is saved.
fn told_of(
    alloc: Global,
    saved: Option<Vec<u8>>,
    failing_read: u64,
    failing_write: u64,
) -> Result<String, Fail> {
    let mut reader = MemoryInput::new(ROW.as_bytes(), 29, failing_read);
    let mut writer = MemoryOutput::new(alloc, 100, 8, failing_write)?;
    let node = SmallNode::new(alloc);
    let end = round(alloc, node, saved, &mut reader, &mut writer, 100)?;
    if end.fault == Some(ServeFault::OutOfMemory) {
        return Err(Fail::from(ServeFault::OutOfMemory));
    }
    let told = format!(in alloc; "{:?} {} {:?}", end.fault, end.node.rows(), end.saved)?;
    Ok(told)
}

#[test]
fn connections(rt: HostRuntime) -> Result<(), Fail> {
    let alloc = rt.alloc();
    // A writer that fails at once: the node is as it began, and nothing is saved where nothing was.
    let told = told_of(alloc, None, 0, 1)?;
    same(&rt, "nothing saved", told.as_str(), "Some(Write) 0 None");
    // The same where something was saved: the node is as it was then, and that stays saved.
    let saved = Vec::from_slice(alloc, &[7, 1, 0])?;
    let told = told_of(alloc, Some(saved), 0, 1)?;
    same(
        &rt,
        "saved before",
        told.as_str(),
        "Some(Write) 7 Some([7, 1, 0])",
    );
    // Without a fault the node is saved as it is.
    let told = told_of(alloc, None, 0, 0)?;
    same(&rt, "no fault", told.as_str(), "None 1 Some([1, 0, 0])");
    // Where a read failed, all replies to what came are written, so the node is saved too.
    let told = told_of(alloc, None, 2, 0)?;
    same(
        &rt,
        "a failed read",
        told.as_str(),
        "Some(Read) 1 Some([1, 0, 0])",
    );
    Ok(())
}
