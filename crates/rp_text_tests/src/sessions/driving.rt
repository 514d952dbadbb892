//! Conversations over devices in memory.
use super::exchange::{Exchange, ITEMS, REPLIES};
use crate::support::{numbers_of, same};
use rp_drive::{Conversation, DriveFault, drive};
use rp_io::{MemoryInput, MemoryOutput};
use std::alloc::{AllocError, Global};
use std::process::Abort;
use std::test::Fail;

/// Conversations: how many bytes come at a call of the reader, which call of it fails, which of the writer and which of the items'
/// writer, where 0 is none, how many reads are allowed, and the replies, with `$` for a line feed; and what each comes to.
const CONVERSATIONS: &str = r#"# However the reader cuts the replies, what is sent is the same.
1 0 0 0 99 all -> done, reads 99: row poll close poll poll end
7 0 0 0 99 all -> done, reads 15: row poll close poll poll end
999 0 0 0 99 all -> done, reads 1: row poll close poll poll end
# A paused reply and an item are polled again.
999 0 0 0 99 {"taken":"new"}${"paused":["x"]}${"cells":[1],"key":["x"],"number":1,"place":"1"}${"idle":["x"]}${"refused":"Conflict"}$ -> refused, reads 1: row poll poll poll close match
# A last reply without a line feed is one; after it the reader isn't called again.
999 0 0 0 99 {"taken":"new"}${"paused":["x"]} -> bad reply, reads 2: row poll poll
# A reply that can't stand behind a packet ends the conversation after the first line.
5 0 0 0 99 {"refused":"TooFar"}$ -> refused, reads 5: row
5 0 0 0 99 {"refused":"TooFar"} -> refused, reads 5: row
5 0 0 0 99 {"idle":["x"]}$ -> bad reply, reads 3: row
5 0 0 0 99 {"end":true,"key":["x"],"place":"1"}$ -> bad reply, reads 8: row
5 0 0 0 99 nope$ -> bad reply, reads 1: row
5 0 0 0 99 $ -> bad reply, reads 1: row
5 0 0 0 99 none -> bad reply, reads 1: row
# So does one that can't stand behind a poll.
999 0 0 0 99 {"taken":"repeat"}${"refused":"UnknownPartition"}$ -> refused, reads 1: row poll
999 0 0 0 99 {"taken":"repeat"}${"taken":"new"}$ -> bad reply, reads 1: row poll
999 0 0 0 99 {"taken":"repeat"}${"idle":1}$ -> bad reply, reads 1: row poll
999 0 0 0 99 {"taken":"repeat"}$ -> bad reply, reads 2: row poll
# Each read fails once, and each write, a line each. Where the item can't be written nothing more is sent.
40 1 0 0 99 all -> device: read, reads 1: row
40 2 0 0 99 all -> device: read, reads 2: row poll close
40 3 0 0 99 all -> device: read, reads 3: row poll close poll
999 0 1 0 99 all -> device: write, reads 0:
999 0 2 0 99 all -> device: write, reads 1: row
999 0 3 0 99 all -> device: write, reads 1: row poll
999 0 4 0 99 all -> device: write, reads 1: row poll close
999 0 5 0 99 all -> device: write, reads 1: row poll close poll end
999 0 0 1 99 all -> device: write, reads 1: row poll close poll
# A reader that may not be called isn't.
999 0 0 0 0 all -> too many turns, reads 0: row
"#;

#[test]
fn conversations(rt: HostRuntime) -> Result<(), Fail> {
    let exchange = Exchange::new(rt.alloc())?;
    each_is_told(&rt, rt.alloc(), &exchange.conversation())
}

fn each_is_told(rt: &impl Abort, alloc: Global, conversation: &Conversation) -> Result<(), Fail> {
    for line in CONVERSATIONS.lines() {
        if line.starts_with('#') {
            continue;
        }
        let (case, wanted) = line.split_once(" -> ").ok_or("an arrow")?;
        let (limits, replies) = case.rsplit_once(" ").ok_or("replies")?;
        let replies = replies_of(alloc, replies)?;
        let told = told_of(alloc, conversation, replies.as_str(), numbers_of(limits)?)?;
        same(rt, case, told.as_str(), wanted);
    }
    Ok(())
}

fn replies_of(alloc: Global, word: &str) -> Result<String, AllocError> {
    match word {
        "all" => String::from_str(alloc, REPLIES),
        "none" => Ok(String::new(alloc)),
        _ => word.replace(alloc, "$", "\n"),
    }
}

/// What a conversation comes to: how it ends, how often the reader was called, and what was sent and written.
fn told_of(
    alloc: Global,
    conversation: &Conversation,
    replies: &str,
    limits: [u64; 5],
) -> Result<String, Fail> {
    let [piece, failing_read, failing_write, failing_item, reads] = limits;
    let mut reader = MemoryInput::new(replies.as_bytes(), piece as usize, failing_read);
    let mut writer = MemoryOutput::new(alloc, 4_096, 1_000, failing_write)?;
    let mut out = MemoryOutput::new(alloc, 4_096, 1_000, failing_item)?;
    let conversation = Conversation {
        reads,
        ..*conversation
    };
    let ended = drive(alloc, &conversation, &mut reader, &mut writer, &mut out);
    told_of_end(alloc, ended, reader.calls(), writer.bytes(), out.bytes())
}

fn told_of_end(
    alloc: Global,
    ended: Result<(), DriveFault>,
    reads: u64,
    sent: &[u8],
    written: &[u8],
) -> Result<String, Fail> {
    let lines = words_of(alloc, sent, written)?;
    match ended {
        Ok(()) => Ok(format!(in alloc; "done, reads {reads}:{lines}")?),
        Err(DriveFault::OutOfMemory) => Err(Fail::from(DriveFault::OutOfMemory)),
        Err(fault) => Ok(format!(in alloc; "{fault}, reads {reads}:{lines}")?),
    }
}

/// The lines that are sent and written, and a word for each.
const WORDS: [(&str, &str); 5] = [
    ("{\"cells\":[\"x\",-1,null],\"row\":1}\n", " row"),
    ("{\"budget\":50,\"poll\":[\"x\"]}\n", " poll"),
    ("{\"close\":1,\"key\":[\"x\"]}\n", " close"),
    (
        "1 {\"cells\":[1],\"key\":[\"x\"],\"number\":1,\"place\":\"1\"}\n",
        " match",
    ),
    (ITEMS, " end"),
];

/// A word for each line that was sent and then for each that was written; another line stands as it is.
fn words_of(alloc: Global, sent: &[u8], written: &[u8]) -> Result<String, Fail> {
    let mut lines = Vec::from_slice(alloc, sent)?;
    lines.extend_from_slice(written)?;
    let mut text = String::from_utf8(lines)?;
    let words: &[(&str, &str)] = &WORDS;
    for (line, word) in words {
        text = text.as_str().replace(alloc, *line, *word)?;
    }
    Ok(text)
}
