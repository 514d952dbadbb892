//! The reply to a line.
ghost use Rattle.std.specs.Prelude.{◌≡◌, IfOk, OnErr, OnOk, Some, None};
ghost use Rattle.rp_serve.specs.Served.{AnswersLine, LeavesLine, LineDone, refusal_of};

use crate::answers::Answers;
use rp_protocol::{LineFault, Refusal, Reply, push_reply_line, request_of};
use std::alloc::{AllocError, Global};

/// Answers a line, and adds the reply's line to the text. Where memory is refused, the reply may be missing, or its line feed.
pub(crate) fn answer_line<N: Answers>(
    alloc: Global,
    node: &mut N,
    line: &[u8],
    text: &mut Vec<u8>,
) -> Result<(), AllocError>
    ensures done { OnOk result (LineDone N.step node.old line.now node.new text.old.items text.new.items) }
    ensures left { OnErr result (LeavesLine N.step N.cut_short node.old line.now node.new) }
{
    let reply = reply_to(alloc, node, line)?;
    push_reply_line(alloc, text, &reply)?;
    text.push(b'\n')?;
    Ok(())
}

/// What a line does, and its reply.
fn reply_to<N: Answers>(alloc: Global, node: &mut N, line: &[u8]) -> Result<Reply, AllocError>
    ensures ok { IfOk result (λ reply. AnswersLine N.step node.old line.now reply node.new) }
    ensures err { OnErr result (LeavesLine N.step N.cut_short node.old line.now node.new) }
{
    match request_of(alloc, line) {
        Ok(request) => node.answer(request),
        Err(fault) => refused(fault),
    }
}

/// The reply to a line that is no request, if it isn't memory that is wanting.
fn refused(fault: LineFault) -> Result<Reply, AllocError>
    ensures ok { IfOk result (λ reply. refusal_of fault ≡ Some reply) }
    ensures err { OnErr result (refusal_of fault ≡ None) }
{
    match fault {
        LineFault::TooLong => Ok(Reply::Refused(Refusal::TooLong)),
        LineFault::NotJson => Ok(Reply::Refused(Refusal::NotJson)),
        LineFault::BadField(field) => Ok(Reply::Refused(Refusal::BadField(field))),
        LineFault::OutOfMemory => Err(AllocError),
    }
}
