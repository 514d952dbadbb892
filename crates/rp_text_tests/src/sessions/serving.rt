//! Sessions over devices in memory.
use super::node::SmallNode;
use crate::support::{numbers_of, same};
use rp_io::{MemoryInput, MemoryOutput};
use rp_serve::{ServeFault, Served, serve};
use std::alloc::Global;
use std::test::Fail;

/// A row, polls, and a close; then lines that are refused, and a last part without a line feed.
const LINES: &str = "\
{\"row\":1,\"cells\":[\"x\",1,10]}
{\"poll\":[\"x\"],\"budget\":0}
{\"poll\":[\"x\"],\"budget\":1000}
{\"close\":1,\"key\":[\"x\"]}
{\"poll\":[\"x\"],\"budget\":1000}
{\"poll\":[\"x\"],\"budget\":1000}
nope
{\"row\":1}

{\"row\":1,\"cells\":[\"x\",1,10]}
{\"row\":3,\"cells\":[]}
{\"row\":0,\"cells\":[\"x\",1,10]}";

const REPLIES: &str = "\
{\"taken\":\"new\"}
{\"paused\":[\"x\"]}
{\"idle\":[\"x\"]}
{\"taken\":\"new\"}
{\"end\":true,\"key\":[\"x\"],\"place\":\"1\"}
{\"idle\":[\"x\"]}
{\"refused\":\"NotJson\"}
{\"refused\":\"BadField cells\"}
{\"refused\":\"NotJson\"}
{\"taken\":\"repeat\"}
{\"refused\":\"TooFar\"}
{\"refused\":\"NumberRange\"}
";

/// Sessions on these lines: how many bytes come at a call of the reader, and which call fails, how many a call of the writer takes,
/// and which fails, where 0 is none, and how many reads are allowed; and what each comes to.
const SESSIONS: &str =
    r#"# However the reader cuts the lines, the replies are the same, and the last part is a line.
1 0 999 0 999 -> 12 lines; rows 1, replies 12
7 0 999 0 999 -> 12 lines; rows 1, replies 12
30 0 999 0 999 -> 12 lines; rows 1, replies 12
999 0 999 0 999 -> 12 lines; rows 1, replies 12
# Each read fails once. The replies to all lines that were taken up are written: no line is cut, and the node has done them.
24 1 999 0 999 -> device: read, reads 1; rows 0, replies 0
24 2 999 0 999 -> device: read, reads 2; rows 0, replies 0
24 3 999 0 999 -> device: read, reads 3; rows 1, replies 1
24 4 999 0 999 -> device: read, reads 4; rows 1, replies 2
24 5 999 0 999 -> device: read, reads 5; rows 1, replies 3
24 6 999 0 999 -> device: read, reads 6; rows 1, replies 4
24 7 999 0 999 -> device: read, reads 7; rows 1, replies 5
24 8 999 0 999 -> device: read, reads 8; rows 1, replies 6
24 9 999 0 999 -> device: read, reads 9; rows 1, replies 9
24 10 999 0 999 -> device: read, reads 10; rows 1, replies 10
24 11 999 0 999 -> device: read, reads 11; rows 1, replies 11
24 12 999 0 999 -> device: read, reads 12; rows 1, replies 11
# Each write fails once: a front of the replies was written. The fifth reply takes two writes.
24 0 30 1 999 -> device: write, reads 2; rows 1, replies 0
24 0 30 2 999 -> device: write, reads 3; rows 1, replies 1
24 0 30 3 999 -> device: write, reads 4; rows 1, replies 2
24 0 30 4 999 -> device: write, reads 5; rows 1, replies 3
24 0 30 5 999 -> device: write, reads 6; rows 1, replies 4
24 0 30 6 999 -> device: write, reads 6; rows 1, replies 4 and {"end":true,"key":["x"],"place
24 0 30 7 999 -> device: write, reads 7; rows 1, replies 5
24 0 30 8 999 -> device: write, reads 8; rows 1, replies 6
# The replies to eleven lines that come together go in one write, and the last part's in another.
999 0 999 2 999 -> device: write, reads 2; rows 1, replies 11
999 0 999 3 999 -> 12 lines; rows 1, replies 12
# After the last turn all replies to the lines that came are written.
64 0 999 0 1 -> too many turns, reads 1; rows 1, replies 2
999 0 999 0 0 -> too many turns, reads 0; rows 0, replies 0
"#;

#[test]
fn sessions(rt: HostRuntime) -> Result<(), Fail> {
    let alloc = rt.alloc();
    for line in SESSIONS.lines() {
        if line.starts_with('#') {
            continue;
        }
        let (limits, wanted) = line.split_once(" -> ").ok_or("an arrow")?;
        let told = told_of(alloc, LINES.as_bytes(), REPLIES, limits)?;
        same(&rt, limits, told.as_str(), wanted);
    }
    Ok(())
}

const LONG_REPLIES: &str = r#"{"refused":"TooLong"}
{"refused":"NotJson"}
{"refused":"TooLong"}
"#;

/// A line of 65,537 bytes is refused for its length, also without a line feed; one of 65,536 is read. Of nothing no line is.
#[test]
fn long_lines_and_none(rt: HostRuntime) -> Result<(), Fail> {
    let alloc = rt.alloc();
    let blanks = " ".repeat(alloc, 65_536)?;
    let lines = format!(in alloc; " {blanks}\n{blanks}\n {blanks}")?;
    let limits = "100000 0 999 0 999";
    let told = told_of(alloc, lines.as_str().as_bytes(), LONG_REPLIES, limits)?;
    same(&rt, "long", told.as_str(), "3 lines; rows 0, replies 3");
    let told = told_of(alloc, b"", "", limits)?;
    same(&rt, "none", told.as_str(), "0 lines; rows 0, replies 0");
    Ok(())
}

/// What a new node's session on these lines comes to: how it ends, the rows that the node has then, and how many of the replies were
/// written, and nothing else.
fn told_of(alloc: Global, lines: &[u8], replies: &str, limits: &str) -> Result<String, Fail> {
    let [read_piece, failing_read, write_piece, failing_write, reads] = numbers_of(limits)?;
    let mut reader = MemoryInput::new(lines, read_piece as usize, failing_read);
    let mut writer = MemoryOutput::new(alloc, 4_096, write_piece as usize, failing_write)?;
    let mut node = SmallNode::new(alloc);
    let ended = serve(alloc, &mut reader, &mut writer, &mut node, reads);
    let written = front_of(alloc, replies, writer.bytes())?;
    told_of_end(alloc, ended, reader.calls(), node.rows(), written.as_str())
}

fn told_of_end(
    alloc: Global,
    ended: Result<Served, ServeFault>,
    reads: u64,
    rows: u8,
    written: &str,
) -> Result<String, Fail> {
    match ended {
        Ok(served) => {
            let lines = served.lines;
            Ok(format!(in alloc; "{lines} lines; rows {rows}, replies {written}")?)
        }
        Err(ServeFault::OutOfMemory) => Err(Fail::from(ServeFault::OutOfMemory)),
        Err(fault) => {
            Ok(format!(in alloc; "{fault}, reads {reads}; rows {rows}, replies {written}")?)
        }
    }
}

/// How many lines of a text these bytes are, and what they have of the next one.
fn front_of(alloc: Global, text: &str, bytes: &[u8]) -> Result<String, Fail> {
    if !text.as_bytes().starts_with(bytes) {
        return Err(Fail::from("other replies were written"));
    }
    let front = text.get(..bytes.len()).unwrap_or("");
    let (lines, part) = front.rsplit_once("\n").unwrap_or(("", front));
    let count = lines.lines().count();
    if part.is_empty() {
        return Ok(format!(in alloc; "{count}")?);
    }
    Ok(format!(in alloc; "{count} and {part}")?)
}
