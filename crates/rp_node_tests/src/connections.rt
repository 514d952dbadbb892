//! Connections of a node over devices in memory, and what is kept after them. Further files from which a node begins are in
//! cases/nodes.cases, and what it answers in cases/node.script and refused.script.
ghost use Rattle.std.specs.Prelude.{IfOk};
ghost use Rattle.std.specs.Option.{ForSome};
ghost use Rattle.rp_node.specs.GoingBack.{CanRestart};

use crate::support::{V, fixed_hasher, holds, query_of, refused_twice, same};
use rp_io::{MemoryInput, MemoryOutput};
use rp_node::{Node, begin};
use rp_query::Query;
use rp_serve::{RoundEnd, ServeFault, round};
use std::alloc::{AllocError, Global};
use std::test::Fail;

/// The lines of a connection, and the replies to all of them.
#[derive(Clone, Copy)]
struct Talk {
    lines: &'static str,
    replies: &'static str,
}

/// Of the 166 bytes each read of 29 ends one line more, up to the sixth.
const ALL: Talk = Talk {
    lines: r#"{"row":1,"cells":["x",1,10]}
{"poll":["x"],"budget":0}
{"poll":["x"],"budget":1000}
{"close":1,"key":["x"]}
{"poll":["x"],"budget":1000}
{"poll":["x"],"budget":1000}
"#,
    replies: r#"{"taken":"new"}
{"paused":["x"]}
{"idle":["x"]}
{"taken":"new"}
{"end":true,"key":["x"],"place":"1"}
{"idle":["x"]}
"#,
};

const FAULTY: Talk = Talk {
    lines: r#"nope
{"row":1}
{"row":1,"cells":["x",1]}
{"row":1,"cells":["x","y",1]}
{"row":0,"cells":["x",1,10]}
{"poll":["x"],"budget":1}
"#,
    replies: r#"{"refused":"NotJson"}
{"refused":"BadField cells"}
{"refused":"BadRow width"}
{"refused":"BadRow kind 2"}
{"refused":"NumberRange"}
{"refused":"UnknownPartition"}
"#,
};

const ROW: &str = "{\"row\":1,\"cells\":[\"x\",1,10]}\n";

const NEW: Talk = Talk {
    lines: ROW,
    replies: "{\"taken\":\"new\"}\n",
};

const REPEATED: Talk = Talk {
    lines: ROW,
    replies: "{\"taken\":\"repeat\"}\n",
};

const OLD: Talk = Talk {
    lines: ROW,
    replies: "{\"taken\":\"old\"}\n",
};

const ONE_MORE: Talk = Talk {
    lines: "{\"row\":1,\"cells\":[\"x\",1,10]}\n{\"row\":2,\"cells\":[\"x\",2,8]}\n",
    replies: "{\"taken\":\"repeat\"}\n{\"taken\":\"new\"}\n",
};

/// What comes to a node.
#[derive(Clone, Copy)]
enum Step {
    /// A connection.
    Talk(Talk),
    /// One whose read of this number fails, from 1.
    FailingRead(u64, Talk),
    /// One whose write of this number fails.
    FailingWrite(u64, Talk),
    /// One without a read.
    NoRead(Talk),
    /// A node of this clause begins from what was saved, without so many of its last bytes.
    Begin(&'static str, usize),
}

/// Another clause than the usual one.
const OTHER: &str = "PATTERN (A) DEFINE A AS p = 1";

/// What comes to new nodes, and what is told of it: of a beginning why what was saved is refused, of a connection its fault and how many
/// lines and bytes were answered; and whether a partition is saved after it, and held. After a fault of the writer a node goes back to
/// what was saved before, and after any other it is saved with all that was answered.
const RUNS: &[&[(Step, &str)]] = &[
    &[(
        Step::Talk(ALL),
        "None after 6 lines, 116 bytes: a partition saved, a partition held",
    )],
    &[(
        Step::Talk(FAULTY),
        "None after 6 lines, 163 bytes: no partition saved, no partition held",
    )],
    &[(
        Step::NoRead(ALL),
        "Some(Turns) after 0 lines, 0 bytes: no partition saved, no partition held",
    )],
    &[
        (
            Step::FailingRead(1, ALL),
            "Some(Read) after 0 lines, 0 bytes: no partition saved, no partition held",
        ),
        (
            Step::Talk(NEW),
            "None after 1 lines, 16 bytes: a partition saved, a partition held",
        ),
    ],
    &[
        (
            Step::FailingRead(2, ALL),
            "Some(Read) after 1 lines, 16 bytes: a partition saved, a partition held",
        ),
        (
            Step::Talk(REPEATED),
            "None after 1 lines, 19 bytes: a partition saved, a partition held",
        ),
    ],
    &[
        (
            Step::FailingRead(3, ALL),
            "Some(Read) after 2 lines, 33 bytes: a partition saved, a partition held",
        ),
        (
            Step::Talk(REPEATED),
            "None after 1 lines, 19 bytes: a partition saved, a partition held",
        ),
    ],
    &[
        (
            Step::FailingRead(4, ALL),
            "Some(Read) after 3 lines, 48 bytes: a partition saved, a partition held",
        ),
        (
            Step::Talk(REPEATED),
            "None after 1 lines, 19 bytes: a partition saved, a partition held",
        ),
    ],
    &[
        (
            Step::FailingRead(5, ALL),
            "Some(Read) after 4 lines, 64 bytes: a partition saved, a partition held",
        ),
        (
            Step::Talk(REPEATED),
            "None after 1 lines, 19 bytes: a partition saved, a partition held",
        ),
    ],
    &[
        (
            Step::FailingRead(6, ALL),
            "Some(Read) after 5 lines, 101 bytes: a partition saved, a partition held",
        ),
        (
            Step::Talk(OLD),
            "None after 1 lines, 16 bytes: a partition saved, a partition held",
        ),
    ],
    &[
        (
            Step::FailingRead(7, ALL),
            "Some(Read) after 6 lines, 116 bytes: a partition saved, a partition held",
        ),
        (
            Step::Talk(OLD),
            "None after 1 lines, 16 bytes: a partition saved, a partition held",
        ),
    ],
    &[(
        Step::FailingWrite(1, ALL),
        "Some(Write) after 1 lines, 0 bytes: nothing saved, no partition held",
    )],
    &[(
        Step::FailingWrite(2, ALL),
        "Some(Write) after 2 lines, 16 bytes: nothing saved, no partition held",
    )],
    &[
        (
            Step::Talk(NEW),
            "None after 1 lines, 16 bytes: a partition saved, a partition held",
        ),
        (
            Step::FailingWrite(1, ONE_MORE),
            "Some(Write) after 1 lines, 0 bytes: a partition saved, a partition held",
        ),
        (
            Step::Talk(ONE_MORE),
            "None after 2 lines, 35 bytes: a partition saved, a partition held",
        ),
    ],
    &[
        (
            Step::Talk(NEW),
            "None after 1 lines, 16 bytes: a partition saved, a partition held",
        ),
        (Step::Begin(V, 0), "begins, None: a partition saved"),
        (
            Step::Talk(REPEATED),
            "None after 1 lines, 19 bytes: a partition saved, a partition held",
        ),
    ],
    &[
        (
            Step::Talk(NEW),
            "None after 1 lines, 16 bytes: a partition saved, a partition held",
        ),
        (Step::Begin(V, 1), "begins, Some(Digest): nothing saved"),
        (
            Step::Talk(NEW),
            "None after 1 lines, 16 bytes: a partition saved, a partition held",
        ),
    ],
    &[
        (
            Step::Talk(NEW),
            "None after 1 lines, 16 bytes: a partition saved, a partition held",
        ),
        (
            Step::Begin(OTHER, 0),
            "begins, Some(ClauseDiffers): nothing saved",
        ),
    ],
];

#[test]
fn connections(rt: HostRuntime) -> Result<(), Fail> {
    each_run(rt.alloc(), RUNS)
}

fn each_run(alloc: Global, runs: &[&[(Step, &str)]]) -> Result<(), Fail> {
    for steps in runs {
        each_step(alloc, *steps)?;
    }
    Ok(())
}

fn each_step(alloc: Global, steps: &[(Step, &str)]) -> Result<(), Fail> {
    let mut standing = begun(alloc, V, None, "begins, None: nothing saved")?;
    for (step, wanted) in steps {
        standing = taken(alloc, standing, *step, *wanted)?;
    }
    Ok(())
}

/// A node between two connections: it can go back to what was saved of it.
#[derive(Drop)]
struct Standing {
    node: Node,
    saved: Option<Vec<u8>>,
}

fn taken(alloc: Global, standing: Standing, step: Step, wanted: &str) -> Result<Standing, Fail>
    requires { ForSome standing.saved (λ bytes. CanRestart standing.node.query bytes.items) }
    ensures again { IfOk result (λ s. ForSome s.saved (λ bytes. CanRestart s.node.query bytes.items)) }
{
    match step {
        Step::Talk(talk) => connected(alloc, standing, talk, (0, 0), 1_000, wanted),
        Step::FailingRead(call, talk) => connected(alloc, standing, talk, (call, 0), 1_000, wanted),
        Step::FailingWrite(call, talk) => connected(
            alloc,
            standing,
            talk,
            (0, call),
            1_000,
            wanted,
        ),
        Step::NoRead(talk) => connected(alloc, standing, talk, (0, 0), 0, wanted),
        Step::Begin(clause, without) => begun(alloc, clause, cut(standing.saved, without), wanted),
    }
}

/// What was saved, without its last bytes.
fn cut(saved: Option<Vec<u8>>, without: usize) -> Option<Vec<u8>> {
    let mut saved = saved;
    if let Some(bytes) = &mut saved {
        bytes.truncate(bytes.len().saturating_sub(without));
    }
    saved
}

/// A node as it begins.
fn begun(
    alloc: Global,
    clause: &str,
    saved: Option<Vec<u8>>,
    wanted: &str,
) -> Result<Standing, Fail>
    ensures again { IfOk result (λ s. ForSome s.saved (λ bytes. CanRestart s.node.query bytes.items)) }
{
    let query = query_of(alloc, clause)?;
    let begun = begin(alloc, query, fixed_hasher()?, saved)?;
    let (refused, saved) = (begun.refused, saved_text(&begun.saved));
    let told = format!(in alloc; "begins, {refused:?}: {saved} saved")?;
    same(alloc, told.as_str(), wanted)?;
    Ok(Standing {
        node: begun.node,
        saved: begun.saved,
    })
}

/// A node after a connection, of whose devices these calls fail, the read's and the write's, from 1, and none where that is 0. One that is
/// out of memory ends the test.
fn connected(
    alloc: Global,
    standing: Standing,
    talk: Talk,
    failing: (u64, u64),
    reads: u64,
    wanted: &str,
) -> Result<Standing, Fail>
    requires { ForSome standing.saved (λ bytes. CanRestart standing.node.query bytes.items) }
    ensures again { IfOk result (λ s. ForSome s.saved (λ bytes. CanRestart s.node.query bytes.items)) }
{
    let Standing { node, saved } = standing;
    let mut reader = MemoryInput::new(talk.lines.as_bytes(), 29, failing.0);
    let mut writer = MemoryOutput::new(alloc, 4_096, 100, failing.1)?;
    let end = round(alloc, node, saved, &mut reader, &mut writer, reads)?;
    look_at_end(alloc, &end, talk.replies, writer.bytes(), wanted)?;
    Ok(Standing {
        node: end.node,
        saved: end.saved,
    })
}

fn look_at_end(
    alloc: Global,
    end: &RoundEnd<Node>,
    replies: &str,
    written: &[u8],
    wanted: &str,
) -> Result<(), Fail> {
    if end.fault == Some(ServeFault::OutOfMemory) {
        return Err(Fail::from(AllocError));
    }
    holds(replies.as_bytes().starts_with(written), "other replies")?;
    let bytes = end.node.save()?;
    let (fault, lines, written) = (end.fault, end.lines, written.len());
    let (saved, held) = (saved_text(&end.saved), partition_text(bytes.as_slice()));
    let told = format!(in alloc;
        "{fault:?} after {lines} lines, {written} bytes: {saved} saved, {held} held"
    )?;
    same(alloc, told.as_str(), wanted)
}

fn saved_text(saved: &Option<Vec<u8>>) -> &'static str {
    match saved {
        Some(bytes) => partition_text(bytes.as_slice()),
        None => "nothing",
    }
}

/// Whether what is saved of a node has the partition.
fn partition_text(bytes: &[u8]) -> &'static str {
    match str::from_utf8(bytes) {
        Ok(text) if text.contains("\"key\":[\"x\"]") => "a partition",
        _ => "no partition",
    }
}

/// The replies of a new node, or None where memory was refused and the node went back to its beginning.
fn replied(alloc: Global, query: &Query) -> Result<Option<MemoryOutput>, AllocError> {
    let node = Node::new(alloc, query.share()?, fixed_hasher()?);
    let mut reader = MemoryInput::new(ALL.lines.as_bytes(), 29, 0);
    let mut writer = MemoryOutput::new(alloc, 4_096, 100, 0)?;
    let end = round(alloc, node, None, &mut reader, &mut writer, 1_000)?;
    if end.fault == Some(ServeFault::OutOfMemory) && end.saved.is_none() {
        return Ok(None);
    }
    Ok(Some(writer))
}

/// All lines are sent again to a node that was refused memory.
#[test]
fn refused_rounds(rt: HostRuntime) -> Result<(), Fail> {
    let query = query_of(rt.alloc(), V)?;
    for _attempt in 0..2 {
        if let Ok(Some(writer)) = replied(rt.alloc(), &query) {
            let is_all = writer.bytes() == ALL.replies.as_bytes();
            return holds(is_all, "other replies");
        }
    }
    Err(refused_twice())
}
