//! `node`: a node behind connections, which are served one after the other, kept in a file after each.
ghost use Rattle.std.specs.Prelude.{◌≡◌, IfOk, true};
ghost use Rattle.std.specs.Option.{ForSome};
ghost use Rattle.rp_node.specs.GoingBack.{CanRestart, IsSaved};
ghost use Rattle.rp_serve.specs.Rounds.{IsSavedAs, kept_bytes};

use crate::accepting::accepted;
use crate::client::{ClientInput, ClientOutput};
use crate::state::StateFile;
use rp_checkpoint::RestartFault;
use rp_command::NodeJob;
use rp_compile::compile;
use rp_io::{CountedDevice, Outlet, READS, write_all};
use rp_job::{ProgramFault, seeded_hasher, table_of, tell};
use rp_node::{Node, begin, clause_difference};
use rp_query::Query;
use rp_serve::{RoundEnd, ServeFault, round_on, saved_line};
use std::alloc::Global;
use std::net::{TcpListener, TcpStream};
use std::time::Duration;

/// A node between two connections: it can go back to what was saved of it.
#[derive(Drop)]
struct Standing {
    node: Node,
    /// What was saved of it last.
    saved: Option<Vec<u8>>,
    /// Whether that is known to be what would be saved now.
    is_current: bool,
}

/// Serves as many connections as the job asks for. Begins from its file where that is there and accepted, else with nothing.
pub fn run_node(rt: &HostRuntime, job: &NodeJob) -> Result<(), ProgramFault> {
    let query = query_of(rt.alloc(), job)?;
    let mut file = StateFile::take(rt, job.state.as_str())?;
    let standing = begun(rt, job, &mut file, query)?;
    let listener = listening(rt, job.listen.as_str())?;
    tell_listening(rt, job, &listener);
    tell_beginning(rt, job, &file, &standing);
    serve_all(rt, job, &listener, &mut file, standing)
}

/// What listens at an address. Why nothing can is reported.
fn listening(rt: &HostRuntime, address: &str) -> Result<TcpListener, ProgramFault> {
    match TcpListener::bind(rt, address) {
        Ok(listener) => Ok(listener),
        Err(error) => {
            let _ = eprintln!(rt; "rowmatch: can't listen at {address}: {error}");
            Err(ProgramFault::Listen)
        }
    }
}

/// The query of the job's clause, over its table.
fn query_of(alloc: Global, job: &NodeJob) -> Result<Query, ProgramFault> {
    let table = table_of(alloc, job.table.as_str())?;
    Ok(compile(alloc, job.clause.as_str(), &table)?)
}

/// The node as it begins. A file that is refused is reported, and stays until there is something else to be kept.
fn begun(
    rt: &HostRuntime,
    job: &NodeJob,
    file: &mut StateFile,
    query: Query,
) -> Result<Standing, ProgramFault>
    ensures again { IfOk result (λ s. ForSome s.saved (λ bytes. CanRestart s.node.query bytes.items)) }
    ensures known { IfOk result (λ s. s.is_current ≡ true → IsSavedAs IsSaved s.node (kept_bytes s.saved)) }
{
    let saved = file.read(rt)?;
    let begun = begin(rt.alloc(), query, seeded_hasher(rt)?, saved)?;
    let Some(why) = begun.refused else {
        return Ok(Standing {
            node: begun.node,
            saved: begun.saved,
            is_current: false,
        });
    };
    file.is_refused = true;
    tell_refused(rt, job, file, why)?;
    standing_anew(begun.node)
}

/// A node that begins with nothing although something is in its file. What would be saved of it is known, so that the file stays as it is
/// until there is something else to be kept.
fn standing_anew(node: Node) -> Result<Standing, ProgramFault>
    ensures again { IfOk result (λ s. ForSome s.saved (λ bytes. CanRestart s.node.query bytes.items)) }
    ensures known { IfOk result (λ s. s.is_current ≡ true → IsSavedAs IsSaved s.node (kept_bytes s.saved)) }
{
    let bytes = node.save()?;
    Ok(Standing {
        node,
        saved: Some(bytes),
        is_current: true,
    })
}

fn serve_all(
    rt: &HostRuntime,
    job: &NodeJob,
    listener: &TcpListener,
    file: &mut StateFile,
    standing: Standing,
) -> Result<(), ProgramFault>
    requires again { ForSome standing.saved (λ bytes. CanRestart standing.node.query bytes.items) }
    requires known { standing.is_current ≡ true → IsSavedAs IsSaved standing.node (kept_bytes standing.saved) }
{
    let mut standing = standing;
    let count = match job.connections {
        Some(count) => u64::from(count),
        None => u64::MAX,
    };
    for number in 0..count {
        let stream = accepted(rt, listener)?;
        prepare(job, &stream);
        standing = connection(rt, job, file, &stream, standing, number + 1)?;
    }
    Ok(())
}

/// Replies go out at once, and calls that wait longer than the job allows fail. Where the system doesn't take one of these,
/// the connection is served all the same.
fn prepare(job: &NodeJob, stream: &TcpStream) {
    let _ = stream.set_nodelay(true);
    if let Some(seconds) = job.idle {
        let idle = Duration::from_secs(u64::from(seconds));
        let _ = stream.set_read_timeout(Some(idle));
        let _ = stream.set_write_timeout(Some(idle));
    }
}

/// One connection. It is closed by the caller, and so after the file was written.
fn connection(
    rt: &HostRuntime,
    job: &NodeJob,
    file: &mut StateFile,
    stream: &TcpStream,
    standing: Standing,
    number: u64,
) -> Result<Standing, ProgramFault>
    requires again { ForSome standing.saved (λ bytes. CanRestart standing.node.query bytes.items) }
    requires known { standing.is_current ≡ true → IsSavedAs IsSaved standing.node (kept_bytes standing.saved) }
    ensures again { IfOk result (λ s. ForSome s.saved (λ bytes. CanRestart s.node.query bytes.items)) }
    ensures known { IfOk result (λ s. s.is_current ≡ true → IsSavedAs IsSaved s.node (kept_bytes s.saved)) }
{
    let mut reader = CountedDevice::new(ClientInput::new(rt, stream, job.idle));
    let mut writer = CountedDevice::new(ClientOutput::new(stream));
    let end = round_on(
        rt.alloc(),
        standing.node,
        standing.saved,
        standing.is_current,
        &mut reader,
        &mut writer,
        READS,
    )?;
    write_if_new(rt, file, &end)?;
    acknowledge(rt, job, &mut writer, &end);
    tell_end(rt, job, number, &end, &reader.device);
    Ok(Standing {
        node: end.node,
        saved: end.saved,
        is_current: end.is_current,
    })
}

/// Writes what was saved, unless the file has it. A file that somebody has taken away is written again, which is reported.
fn write_if_new(
    rt: &HostRuntime,
    file: &mut StateFile,
    end: &RoundEnd<Node>,
) -> Result<(), ProgramFault> {
    let Some(bytes) = &end.saved else {
        return Ok(());
    };
    if end.is_new {
        return file.write(rt, bytes.as_slice());
    }
    if file.is_gone(rt) {
        tell(
            rt,
            &"the file of the node was taken away: what was saved is written again",
        );
        return file.write(rt, bytes.as_slice());
    }
    Ok(())
}

/// Tells the client, where the job asks for that, that what its lines did is saved. It needn't take that: then it doesn't know.
fn acknowledge<W: Outlet>(rt: &HostRuntime, job: &NodeJob, writer: &mut W, end: &RoundEnd<Node>) {
    if job.acknowledge
        && !went_back(end.fault)
        && let Ok(line) = saved_line(rt.alloc(), end.lines)
    {
        let _ = write_all(writer, line.as_slice());
    }
}

/// Whether the node is as it was saved before: the file stays as it is then.
fn went_back(fault: Option<ServeFault>) -> bool {
    matches!(fault, Some(ServeFault::Write | ServeFault::OutOfMemory))
}

/// Tells why the file is refused; where it is of another clause, from where on that differs; and what follows.
fn tell_refused(
    rt: &HostRuntime,
    job: &NodeJob,
    file: &StateFile,
    why: RestartFault,
) -> Result<(), ProgramFault> {
    tell(rt, &ProgramFault::Checkpoint(why));
    if why == RestartFault::ClauseDiffers {
        tell_other(rt, job, file)?;
    }
    let path = job.state.as_str();
    let _ = eprintln!(rt;
        "rowmatch: {path}: the node begins with nothing; the file stays until there is something else to keep"
    );
    Ok(())
}

/// Tells from where on the clause differs from that of the file; or that the table does.
fn tell_other(rt: &HostRuntime, job: &NodeJob, file: &StateFile) -> Result<(), ProgramFault> {
    match file.read(rt)? {
        Some(bytes) => tell_difference(rt, job.clause.as_bytes(), bytes.as_slice()),
        None => Ok(()),
    }
}

/// Tells from where on the clause differs from that of the file's bytes; or that the table does.
fn tell_difference(rt: &HostRuntime, clause: &[u8], bytes: &[u8]) -> Result<(), ProgramFault> {
    match clause_difference(rt.alloc(), clause, bytes)? {
        Some(place) => {
            let _ = eprintln!(rt; "rowmatch: clause differs from byte {place} on");
        }
        None => tell(rt, &"table differs"),
    }
    Ok(())
}

/// Says with `--verbose` whether the node goes on from its file, unless that is reported as refused. One whose file isn't there begins with
/// nothing, as a new node does and as one does whose file's name has a mistake in it.
fn tell_beginning(rt: &HostRuntime, job: &NodeJob, file: &StateFile, standing: &Standing) {
    if !job.verbose || file.is_refused {
        return;
    }
    let path = job.state.as_str();
    let _ = if standing.saved.is_some() {
        eprintln!(rt; "rowmatch: resumed from {path}")
    } else {
        eprintln!(rt; "rowmatch: {path} isn't there: the node begins with nothing")
    };
}

fn tell_listening(rt: &HostRuntime, job: &NodeJob, listener: &TcpListener) {
    if !job.verbose {
        return;
    }
    if let Ok(address) = listener.local_addr() {
        let _ = eprintln!(rt; "rowmatch: listening at {address}");
    }
}

/// A fault is reported always, and with `--verbose` how many lines were answered too.
fn tell_end(
    rt: &HostRuntime,
    job: &NodeJob,
    number: u64,
    end: &RoundEnd<Node>,
    client: &ClientInput<'_>,
) {
    if client.is_http {
        tell(rt, &"a client that speaks HTTP was turned away");
    } else if client.is_silent {
        tell_silence(rt, number, job.idle.unwrap_or(0));
    } else if let Some(fault) = end.fault {
        tell(rt, &fault);
    }
    if !job.verbose {
        return;
    }
    let how = if went_back(end.fault) {
        "went back to what was saved"
    } else {
        "saved"
    };
    let lines = end.lines;
    let _ = eprintln!(rt; "rowmatch: connection {number}: {lines} lines, {how}");
}

/// Reports that no line of a connection came in as many seconds as the job allows.
fn tell_silence(rt: &HostRuntime, number: u64, seconds: u32) {
    let unit = if seconds == 1 { "second" } else { "seconds" };
    let _ = eprintln!(rt; "rowmatch: connection {number}: no line came for {seconds} {unit}");
}
