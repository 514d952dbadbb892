//! `source`: hands the rows of a CSV to nodes, one node after the other, and prints the items that they give.
use crate::printed::ItemOutput;
use crate::stream::NodeStream;
use rp_command::SourceJob;
use rp_drive::{Conversation, Counted, DriveFault, Stop, drive_within};
use rp_feed::Packet;
use rp_io::{CountedDevice, Lines, Outlet, READS};
use rp_job::{
    Asked, InputForm, InputLayout, JobInputs, ProgramFault, named_shape, seeded_hasher, shown_key,
    tell,
};
use rp_numbering::number_rows;
use rp_protocol::{MAX_LINE_LEN, Refusal, Reply, reply_line, saved_of};
use rp_query::Query;
use rp_value::Row;
use rp_wording::Pieces;
use std::alloc::{AllocError, Global};
use std::io::{self, ErrorKind, IsTerminal, Read};
use std::net::{Shutdown, TcpStream, ToSocketAddrs};
use std::time::Duration;

/// The greatest length of a reply that is read, in bytes: 16 MiB. A node writes an item whatever its length.
const MAX_REPLY_LEN: usize = 16_777_216;

/// How the line begins by which a node says what it saved.
const SAVED: &[u8] = b"{\"saved\":";

/// What is reported where a node has ended its side without that line.
const UNSAVED: &str =
    "the connection ended without {\"saved\":N}: does the node run with --acknowledge?";

/// A stream to a node, with the count of the lines that went through it.
type Counter<'a> = Counted<CountedDevice<NodeStream<'a>>>;

/// Hands all rows of standard input to each node in turn. The first fault ends it.
pub fn run_source(rt: &HostRuntime, job: &SourceJob) -> Result<(), ProgramFault> {
    let form = InputForm::of(rt.alloc(), &job.input)?;
    match named_shape(rt, &job.input, &form)? {
        Some(shape) => hand_over_input(rt, job, &InputLayout::named(form, shape)),
        None => Err(ProgramFault::Usage("nodes have a table: give --table or --columns")),
    }
}

/// Hands the rows of an input that is read so to each node.
fn hand_over_input<'a>(
    rt: &'a HostRuntime,
    job: &'a SourceJob,
    layout: &'a InputLayout,
) -> Result<(), ProgramFault> {
    let asked = Asked {
        input: &job.input,
        clause: job.clause.as_str(),
        filter: &None,
        files: &[],
    };
    let question = asked.question(rt.alloc(), layout)?;
    let ready = Vec::new(rt.alloc());
    let rows = JobInputs::new(rt, asked, layout, &question.query, ready, None).rows(&question)?;
    hand_out(rt, job, &question.query, rows)
}

/// Hands the rows of a query to each node.
fn hand_out(
    rt: &HostRuntime,
    job: &SourceJob,
    query: &Query,
    rows: Vec<Row>,
) -> Result<(), ProgramFault> {
    let packets = number_rows(rt.alloc(), query, rows, seeded_hasher(rt)?)?;
    hand_to_each(rt, job, query, packets.as_slice())
}

fn hand_to_each(
    rt: &HostRuntime,
    job: &SourceJob,
    query: &Query,
    packets: &[Packet],
) -> Result<(), ProgramFault> {
    let mut out = CountedDevice::new(ItemOutput::new(rt));
    let mut number = 0u64;
    for address in &job.addresses {
        number = number.saturating_add(1);
        let node = node_at(job, query, packets, address.as_str(), number);
        hand_to_one(rt, &node, &mut out)?;
    }
    Ok(())
}

/// Hands the rows to one node.
fn hand_to_one<O: Outlet>(
    rt: &HostRuntime,
    node: &SourceNode<'_>,
    out: &mut O,
) -> Result<(), ProgramFault> {
    let stream = match connected(rt, node.address, idle_time(node.job)) {
        Ok(stream) => stream,
        Err(error) => return Err(no_connection(rt, node, &error)),
    };
    prepare(node.job, &stream);
    converse(rt, node, &stream, out)
}

/// How long the job waits for a node, where that is bounded.
fn idle_time(job: &SourceJob) -> Option<Duration> {
    Some(Duration::from_secs(u64::from(job.idle?)))
}

/// The fault of a node to which there is no connection. Why there is none is reported.
fn no_connection(rt: &HostRuntime, node: &SourceNode<'_>, error: &io::Error) -> ProgramFault {
    tell_error(rt, node, error);
    ProgramFault::Connect
}

/// Reports what the system said of a node.
fn tell_error(rt: &HostRuntime, node: &SourceNode<'_>, error: &io::Error) {
    let (number, address) = (node.number, node.address);
    let _ = eprintln!(rt; "rowmatch: node {number} at {address}: {error}");
}

/// Reports why a call of the stream to a node failed, if one did: it waited for longer than the job allows, or what the system said.
fn tell_failure(rt: &HostRuntime, node: &SourceNode<'_>, failure: Option<io::Error>, what: &str) {
    let Some(error) = failure else {
        return;
    };
    match node.job.idle {
        Some(seconds) if error.kind() == ErrorKind::WouldBlock => {
            let (number, address, unit) = (node.number, node.address, unit_of(seconds));
            let _ = eprintln!(rt;
                "rowmatch: node {number} at {address}: nothing {what} for {seconds} {unit}"
            );
        }
        _ => tell_error(rt, node, &error),
    }
}

/// The unit of so many seconds.
fn unit_of(seconds: u32) -> &'static str {
    if seconds == 1 { "second" } else { "seconds" }
}

/// A connection to the node at this address, which takes it in this time where that is bounded.
fn connected(rt: &HostRuntime, address: &str, time: Option<Duration>) -> io::Result<TcpStream> {
    let Some(time) = time else {
        return TcpStream::connect(rt, address);
    };
    let mut fault = io::Error::from(ErrorKind::AddrNotAvailable);
    for one in address.to_socket_addrs(rt)? {
        match TcpStream::connect_timeout(rt, &one, time) {
            Ok(stream) => return Ok(stream),
            Err(error) => fault = error,
        }
    }
    Err(fault)
}

/// What a node is handed, its address, and its number, from 1.
#[derive(Clone, Copy)]
struct SourceNode<'a> {
    job: &'a SourceJob,
    query: &'a Query,
    packets: &'a [Packet],
    address: &'a str,
    number: u64,
}

/// The node of this number at this address, which is handed these packets.
fn node_at<'a>(
    job: &'a SourceJob,
    query: &'a Query,
    packets: &'a [Packet],
    address: &'a str,
    number: u64,
) -> SourceNode<'a> {
    SourceNode {
        job,
        query,
        packets,
        address,
        number,
    }
}

/// Lines go out at once, and calls that wait longer than the job allows fail. Where the system doesn't take one of these, the
/// node is handed the rows all the same.
fn prepare(job: &SourceJob, stream: &TcpStream) {
    let _ = stream.set_nodelay(true);
    if let Some(time) = idle_time(job) {
        let _ = stream.set_read_timeout(Some(time));
        let _ = stream.set_write_timeout(Some(time));
    }
}

/// The whole conversation with a node. It is over once the node has ended its side.
fn converse<O: Outlet>(
    rt: &HostRuntime,
    node: &SourceNode<'_>,
    stream: &TcpStream,
    out: &mut O,
) -> Result<(), ProgramFault> {
    let mut heard = Counted::new(CountedDevice::new(NodeStream::new(stream)));
    let mut sent = Counted::new(CountedDevice::new(NodeStream::new(stream)));
    hand_over(rt, node, &mut heard, &mut sent, out)?;
    if heard.lines > sent.lines {
        return Err(unasked(rt, node.number));
    }
    let shut = stream.shutdown(Shutdown::Write);
    if node.job.acknowledge {
        return wait_for_saved(rt, node, stream, sent.lines);
    }
    match shut {
        Ok(()) => wait_for_end(rt, node, stream),
        Err(error) => {
            tell_error(rt, node, &error);
            Err(ProgramFault::Write)
        }
    }
}

fn hand_over<O: Outlet>(
    rt: &HostRuntime,
    node: &SourceNode<'_>,
    heard: &mut Counter<'_>,
    sent: &mut Counter<'_>,
    out: &mut O,
) -> Result<(), ProgramFault> {
    let conversation = Conversation {
        query: node.query,
        packets: node.packets,
        budget: node.job.budget,
        reads: READS,
        node_number: node.number,
    };
    match drive_within(rt.alloc(), &conversation, MAX_REPLY_LEN, heard, sent, out) {
        Ok(()) => Ok(()),
        Err(stop) => {
            tell_stop(rt, node, &stop, heard, sent)?;
            if node.job.acknowledge && is_gone(&stop, heard, sent) {
                return Err(ProgramFault::NotSaved(node.number));
            }
            Err(node_fault(rt, node, &stop)?)
        }
    }
}

/// Reports why a conversation stopped, where its fault doesn't say that.
fn tell_stop(
    rt: &HostRuntime,
    node: &SourceNode<'_>,
    stop: &Stop,
    heard: &Counter<'_>,
    sent: &Counter<'_>,
) -> Result<(), AllocError> {
    match stop.fault {
        DriveFault::Read => tell_failure(rt, node, heard.device.device.failure(), "came"),
        DriveFault::Write => tell_failure(rt, node, sent.device.device.failure(), "was taken"),
        DriveFault::BadReply => return tell_bad_reply(rt, node, heard),
        DriveFault::Refused | DriveFault::Turns | DriveFault::OutOfMemory => {}
    }
    Ok(())
}

/// Reports what came in place of a reply: nothing, since the connection ended, or something that is shown where somebody is to read it.
fn tell_bad_reply(
    rt: &HostRuntime,
    node: &SourceNode<'_>,
    heard: &Counter<'_>,
) -> Result<(), AllocError> {
    let mut text = Pieces::of(rt.alloc(), "node ");
    text.push_number(node.number);
    if heard.device.ended {
        text.push(": the connection ended in place of a reply");
    } else if node.job.verbose || rt.stderr().is_terminal() {
        text.push(": what came last begins with ");
        text.push_start(heard.device.device.last_line());
    } else {
        return Ok(());
    }
    tell(rt, &text.finish()?);
    Ok(())
}

/// The fault of a reply to nothing that was asked, which is reported.
fn unasked(rt: &HostRuntime, number: u64) -> ProgramFault {
    let _ = eprintln!(rt; "rowmatch: node {number}: a reply came to nothing that was asked");
    ProgramFault::BadReply(number)
}

/// Whether a conversation stopped since its connection ended or failed: no whole line came where a reply was due, or a line wasn't taken.
fn is_gone(stop: &Stop, heard: &Counter<'_>, sent: &Counter<'_>) -> bool {
    match stop.fault {
        DriveFault::Read => true,
        DriveFault::Write => sent.device.failures > 0,
        DriveFault::BadReply => heard.device.ended,
        DriveFault::Refused | DriveFault::Turns | DriveFault::OutOfMemory => false,
    }
}

/// Waits until the node ends its side: it has saved all that it took by then, or has failed to.
fn wait_for_end(
    rt: &HostRuntime,
    node: &SourceNode<'_>,
    stream: &TcpStream,
) -> Result<(), ProgramFault> {
    let mut rest = [0u8; 9];
    match NodeStream::new(stream).read(&mut rest) {
        Ok(0) => Ok(()),
        Ok(_) => Err(behind_replies(rt, &rest, node.number)),
        Err(error) => {
            tell_failure(rt, node, Some(error), "came");
            Err(ProgramFault::Read)
        }
    }
}

/// The fault of a node that goes on behind its replies with these bytes, which is reported. One that says what it saved expects a source
/// that waits for that.
fn behind_replies(rt: &HostRuntime, rest: &[u8], number: u64) -> ProgramFault {
    if rest != SAVED {
        return unasked(rt, number);
    }
    tell(
        rt,
        &"the node runs with --acknowledge: give source --acknowledge, too",
    );
    ProgramFault::BadReply(number)
}

/// Waits for the line by which the node says that it saved all lines that were sent, and for the end behind it. That there is no line,
/// or why it can't be read, is reported.
fn wait_for_saved(
    rt: &HostRuntime,
    node: &SourceNode<'_>,
    stream: &TcpStream,
    sent: u128,
) -> Result<(), ProgramFault> {
    let mut rest = CountedDevice::new(NodeStream::new(stream));
    let mut lines = Lines::new(rt.alloc(), READS, MAX_LINE_LEN);
    let mut line = Vec::new(rt.alloc());
    if let Ok(true) = lines.next(&mut rest, &mut line)
        && let Ok(saved) = saved_of(rt.alloc(), line.as_slice())
        && u128::from(saved) == sent
        && let Ok(false) = lines.next(&mut rest, &mut line)
        && line.is_empty()
    {
        return Ok(());
    }
    if rest.ended && line.is_empty() {
        tell(rt, &UNSAVED);
    } else {
        tell_failure(rt, node, rest.device.failure(), "came");
    }
    Err(ProgramFault::NotSaved(node.number))
}

/// The fault of a conversation that stopped.
fn node_fault(
    rt: &HostRuntime,
    node: &SourceNode<'_>,
    stop: &Stop,
) -> Result<ProgramFault, AllocError> {
    Ok(match stop.fault {
        DriveFault::Read => ProgramFault::Read,
        DriveFault::Write => ProgramFault::Write,
        DriveFault::BadReply => ProgramFault::BadReply(node.number),
        DriveFault::Refused => ProgramFault::Refused(node.number, told_refusal(rt, node, stop)?),
        DriveFault::Turns => ProgramFault::Turns,
        DriveFault::OutOfMemory => ProgramFault::OutOfMemory,
    })
}

/// What the node refused, and its words, where somebody is to read that.
fn told_refusal(
    rt: &HostRuntime,
    node: &SourceNode<'_>,
    stop: &Stop,
) -> Result<Option<String>, AllocError> {
    if !node.job.verbose && !rt.stderr().is_terminal() {
        return Ok(None);
    }
    let Some(packet) = node.packets.get(stop.packet) else {
        return Ok(None);
    };
    let Some(refusal) = stop.refusal else {
        return Ok(None);
    };
    Ok(Some(refusal_text(rt.alloc(), node, packet, refusal)?))
}

/// As `node 1: {"refused":"Conflict"} at row 3 of ["x"]`.
fn refusal_text(
    alloc: Global,
    node: &SourceNode<'_>,
    packet: &Packet,
    refusal: Refusal,
) -> Result<String, AllocError> {
    let mut text = Pieces::of(alloc, "node ");
    text.push_number(node.number);
    text.push(": ");
    text.push_made(reply_line(alloc, &Reply::Refused(refusal)));
    match packet {
        Packet::Row { number, cells } => {
            text.push(" at row ");
            text.push_number(*number);
            text.push(" of ");
            text.push_made(key_of_row(alloc, node.query, cells));
        }
        Packet::Close { key, count } => {
            text.push(" at the close of ");
            text.push_made(shown_key(alloc, key));
            text.push(" after row ");
            text.push_number(*count);
        }
    }
    text.finish()
}

/// The key of a row as people read it.
fn key_of_row(alloc: Global, query: &Query, cells: &Row) -> Result<String, AllocError> {
    shown_key(alloc, &query.key(alloc, cells)?)
}
