//! The replies that come.
ghost use Rattle.std.specs.Prelude.{◌≡◌, ◌+◌, IfOk};
ghost use Rattle.rp_drive.specs.Lines.{reply_within};

use crate::fault::DriveFault;
use rp_io::{Intake, Lines};
use rp_protocol::{LineFault, Reply, reply_within};
use std::alloc::{AllocError, Global};

/// The replies of a node, a line each.
pub(crate) struct Replies {
    pub(crate) alloc: Global,
    pub(crate) lines: Lines,
    line: Vec<u8>,
    /// How many bytes a reply may have.
    pub(crate) limit: usize,
    /// Whether the input has ended.
    pub(crate) over: bool,
    ghost kept: { lines.kept ≡ limit + 1 },
}

/// It is let go of by a call, wherever it is held.
impl Drop for Replies {
    fn drop(self) {
        let Replies {
            alloc: _,
            lines: _,
            line: _,
            limit: _,
            over: _,
        } = self;
    }
}

impl Replies {
    ghost use Rattle.std.specs.Prelude.{◌≡◌, ◌+◌, ◌<◌, ◌^◌, [], IfErr, IfOk, None, false};
    ghost use Rattle.rp_io.specs.Pending.{pending_of};
    ghost use Rattle.rp_drive.specs.Faults.{IsOfReading};
    ghost use Rattle.rp_drive.specs.Listening.{Comes, Hears, cut_by, lines_left, replies_left};

    /// No reply yet. At most `reads` calls of the reader will be made. Of each line one byte more is kept than a reply may
    /// have.
    pub(crate) fn new(alloc: Global, limit: usize, reads: u64) -> Replies
        requires { limit + 1 < 2 ^ 64 }
        ensures limit { result.limit ≡ limit }
        ensures pending { pending_of result.lines ≡ [] }
        ensures reads { result.lines.reads ≡ reads }
        ensures over { result.over ≡ false }
    {
        Replies {
            alloc,
            lines: Lines::new(alloc, reads, limit + 1),
            line: Vec::new(alloc),
            limit,
            over: false,
        }
    }

    /// The next reply. There is none where the input has ended, or where its next line is no reply. Once the input has ended
    /// the reader isn't called again.
    pub(crate) fn next<R: Intake>(&mut self, reader: &mut R) -> Result<Option<Reply>, DriveFault>
        ensures came { IfOk result (Comes
            (replies_left self.old (R.seen reader.old)) (replies_left self.new (R.seen reader.new))) }
        ensures falls { IfOk result (λ reply. (reply ≡ None → ⊥) → lines_left self.new < lines_left self.old) }
        ensures fault { IfErr result IsOfReading }
        ensures reads { Hears (cut_by result) self.old self.new (R.seen reader.old) (R.seen reader.new) }
    {
        if self.over {
            return Ok(None);
        }
        if self.lines.next(reader, &mut self.line)? {
            return Ok(reply_on(self.alloc, self.limit, self.line.as_slice())?);
        }
        self.over = true;
        if self.line.is_empty() {
            return Ok(None);
        }
        Ok(reply_on(self.alloc, self.limit, self.line.as_slice())?)
    }
}

/// The reply that a line of at most `limit` bytes is.
fn reply_on(alloc: Global, limit: usize, line: &[u8]) -> Result<Option<Reply>, AllocError>
    ensures { IfOk result (λ reply. reply ≡ reply_within limit line.now) }
{
    match reply_within(alloc, limit, line) {
        Ok(reply) => Ok(Some(reply)),
        Err(LineFault::OutOfMemory) => Err(AllocError),
        Err(_) => Ok(None),
    }
}
