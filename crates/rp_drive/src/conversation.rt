//! A conversation with a node, from the first packet to the last reply.
ghost use Rattle.std.specs.Prelude.{◌≡◌, ◌+◌, ◌<◌, ◌^◌, Some, None, IfErr, IfOk, OnErr, OnOk, Ok, false, true};
ghost use Rattle.std.specs.Io.KnownBytes.{Appends};
ghost use Rattle.rp_protocol.specs.declared.refusal.Refusal.{Refusal as Why};
ghost use Rattle.rp_protocol.specs.declared.reply.Reply.TheVariants as variant;
ghost use Rattle.rp_io.specs.Reading.{ReadsWithin};
ghost use Rattle.rp_drive.specs.Conversations.{HandsAll, HandsInPart, Halts, IsStopped, IsStoppedAt, IsStoppedBy};
ghost use Rattle.rp_drive.specs.Conversations.{Passes, with_packet};
ghost use Rattle.rp_drive.specs.Exchange.{Packets, Poll};
ghost use Rattle.rp_drive.specs.Exchanged.{SendsLine};
ghost use Rattle.rp_drive.specs.Faults.{TellsWrite, TellsWrites, by_fault, packet_fault, reads_told};
ghost use Rattle.rp_drive.specs.Lines.{line_of};
ghost use Rattle.rp_protocol.specs.Lines.{longest_line};
ghost use Rattle.rp_drive.specs.Listening.{Comes, Hears, cut_by, lines_left, replies_left};
ghost use Rattle.rp_protocol.specs.declared.request.Request.TheVariants as request;

use crate::fault::{DriveFault, Stop};
use crate::items::write_item;
use crate::replies::Replies;
use crate::requests::{packet_key, packet_request, poll_request};
use rp_feed::Packet;
use rp_io::{Intake, Outlet, write_all};
use rp_protocol::{MAX_LINE_LEN, Refusal, Reply};
use rp_query::Query;
use rp_value::Cells;
use std::alloc::Global;

/// What is handed over to a node, and how: the same from the first packet to the last.
#[derive(Clone, Copy)]
pub struct Conversation<'a> {
    /// Whose partitions are polled.
    pub query: &'a Query,
    /// What is sent, in this order.
    pub packets: &'a [Packet],
    /// How many turns a poll may take. A budget of 0 is of no use: each poll is paused, and made again until no read is left.
    pub budget: u32,
    /// How often the reader may be called: over a socket about once a reply.
    pub reads: u64,
    /// What comes before each item.
    pub node_number: u64,
}

/// Hands packets over to a node, one after another, and writes the items that it gives.
///
/// For each packet its line is written and the reply read. Then its partition is polled until the reply is that it is idle.
/// The line of each item that comes goes to `out`, after the node's number and a space, before anything else is asked.
pub fn drive<R: Intake, W: Outlet, O: Outlet>(
    alloc: Global,
    conversation: &Conversation<'_>,
    reader: &mut R,
    writer: &mut W,
    out: &mut O,
) -> Result<(), DriveFault>
    ensures done { OnOk result (HandsAll conversation.now longest_line (R.seen reader.old)
        (W.contents writer.old) (W.contents writer.new) (O.contents out.old) (O.contents out.new)) }
    ensures stops { IfErr result (λ fault. IsStopped conversation.now fault longest_line (R.seen reader.old)
        (W.contents writer.old) (W.contents writer.new) (O.contents out.old) (O.contents out.new)) }
    ensures front { OnErr result (HandsInPart conversation.now longest_line (R.seen reader.old)
        (W.contents writer.old) (W.contents writer.new) (O.contents out.old) (O.contents out.new)) }
    ensures reads { ReadsWithin conversation.now.reads (reads_told result) (R.seen reader.old) (R.seen reader.new) }
    ensures write { TellsWrites result (W.failures writer.old) (W.failures writer.new)
        (O.failures out.old) (O.failures out.new) }
{
    match drive_within(alloc, conversation, MAX_LINE_LEN, reader, writer, out) {
        Ok(()) => Ok(()),
        Err(stop) => Err(stop.fault),
    }
}

/// The same with a greatest length of replies: one of more than `limit` bytes is a bad reply. Where it ends early it says at
/// which packet, and what was refused.
///
/// A node that replies has given the item, whoever can read it. So a source that must lose none reads all that a node may write.
pub fn drive_within<R: Intake, W: Outlet, O: Outlet>(
    alloc: Global,
    conversation: &Conversation<'_>,
    limit: usize,
    reader: &mut R,
    writer: &mut W,
    out: &mut O,
) -> Result<(), Stop>
    requires { limit + 1 < 2 ^ 64 }
    ensures done { OnOk result (HandsAll conversation.now limit (R.seen reader.old)
        (W.contents writer.old) (W.contents writer.new) (O.contents out.old) (O.contents out.new)) }
    ensures stops { IfErr result (λ stop. IsStoppedBy conversation.now stop.refusal stop.fault limit (R.seen reader.old)
        (W.contents writer.old) (W.contents writer.new) (O.contents out.old) (O.contents out.new)) }
    ensures at { IfErr result (λ stop. IsStoppedAt conversation.now stop.packet stop.refusal stop.fault
        limit (R.seen reader.old)
        (W.contents writer.old) (W.contents writer.new) (O.contents out.old) (O.contents out.new)) }
    ensures front { OnErr result (HandsInPart conversation.now limit (R.seen reader.old)
        (W.contents writer.old) (W.contents writer.new) (O.contents out.old) (O.contents out.new)) }
    ensures reads { ReadsWithin conversation.now.reads (reads_told (by_fault result))
        (R.seen reader.old) (R.seen reader.new) }
    ensures write { TellsWrites (by_fault result) (W.failures writer.old) (W.failures writer.new)
        (O.failures out.old) (O.failures out.new) }
{
    let mut place = 0usize;
    let mut refusal = None;
    match conversation.hand_all(alloc, limit, reader, writer, out, &mut place, &mut refusal) {
        Ok(()) => Ok(()),
        Err(fault) => Err(Stop {
            fault,
            packet: place,
            refusal,
        }),
    }
}

impl Conversation<'_> {
    /// Hands over all packets, and says at which it stopped and what was refused, if it did.
    fn hand_all<R: Intake, W: Outlet, O: Outlet>(
        &self,
        alloc: Global,
        limit: usize,
        reader: &mut R,
        writer: &mut W,
        out: &mut O,
        place: &mut usize,
        refusal: &mut Option<Refusal>,
    ) -> Result<(), DriveFault>
        requires limit { limit + 1 < 2 ^ 64 }
        requires place { place.old ≡ 0 }
        ensures done { OnOk result (HandsAll self.now limit (R.seen reader.old)
            (W.contents writer.old) (W.contents writer.new) (O.contents out.old) (O.contents out.new)) }
        ensures stops { IfErr result (λ fault. IsStoppedBy self.now refusal.new fault limit (R.seen reader.old)
            (W.contents writer.old) (W.contents writer.new) (O.contents out.old) (O.contents out.new)) }
        ensures at { IfErr result (λ fault. IsStoppedAt self.now place.new refusal.new fault limit (R.seen reader.old)
            (W.contents writer.old) (W.contents writer.new) (O.contents out.old) (O.contents out.new)) }
        ensures front { OnErr result (HandsInPart self.now limit (R.seen reader.old)
            (W.contents writer.old) (W.contents writer.new) (O.contents out.old) (O.contents out.new)) }
        ensures reads { ReadsWithin self.now.reads (reads_told result) (R.seen reader.old) (R.seen reader.new) }
        ensures write { TellsWrites result (W.failures writer.old) (W.failures writer.new)
            (O.failures out.old) (O.failures out.new) }
    {
        let mut replies = Replies::new(alloc, limit, self.reads);
        for packet in self.packets {
            self.hand_over(&mut replies, reader, writer, packet, out, refusal)?;
            *place += 1;
        }
        Ok(())
    }

    /// Sends a packet, and polls its partition until it is idle.
    fn hand_over<R: Intake, W: Outlet, O: Outlet>(
        &self,
        replies: &mut Replies,
        reader: &mut R,
        writer: &mut W,
        packet: &Packet,
        out: &mut O,
        refusal: &mut Option<Refusal>,
    ) -> Result<(), DriveFault>
        ensures goes { OnOk result (Passes self.now (with_packet packet.now) Packets
            replies.old (R.seen reader.old) replies.new (R.seen reader.new)
            (W.contents writer.old) (W.contents writer.new) (O.contents out.old) (O.contents out.new)) }
        ensures stops { IfErr result (λ fault. Halts self.now (with_packet packet.now) refusal.new fault
            replies.old (R.seen reader.old)
            (W.contents writer.old) (W.contents writer.new) (O.contents out.old) (O.contents out.new)) }
        ensures reads { Hears (cut_by result) replies.old replies.new (R.seen reader.old) (R.seen reader.new) }
        ensures write { TellsWrites result (W.failures writer.old) (W.failures writer.new)
            (O.failures out.old) (O.failures out.new) }
    {
        let key = packet_key(replies.alloc, self.query, packet)?;
        let line = poll_request(replies.alloc, &key, self.budget)?;
        let sent = packet_request(replies.alloc, packet)?;
        let reply = ask(replies, reader, writer, sent.as_slice())?;
        must_be_taken(&reply, refusal)?;
        'polls: while self.poll(replies, reader, writer, &key, line.as_slice(), out, refusal)? {}
        Ok(())
    }

    /// Polls a partition once, and says whether to poll it again. An item that comes is written.
    fn poll<R: Intake, W: Outlet, O: Outlet>(
        &self,
        replies: &mut Replies,
        reader: &mut R,
        writer: &mut W,
        key: &Cells,
        line: &[u8],
        out: &mut O,
        refusal: &mut Option<Refusal>,
    ) -> Result<bool, DriveFault>
        requires { line.now ≡ line_of (request.Poll key.now self.now.budget) }
        ensures again { result ≡ Ok true → Passes self.now (Poll key.now) (Poll key.now)
            replies.old (R.seen reader.old) replies.new (R.seen reader.new)
            (W.contents writer.old) (W.contents writer.new) (O.contents out.old) (O.contents out.new) }
        ensures idle { result ≡ Ok false → Passes self.now (Poll key.now) Packets
            replies.old (R.seen reader.old) replies.new (R.seen reader.new)
            (W.contents writer.old) (W.contents writer.new) (O.contents out.old) (O.contents out.new) }
        ensures stops { IfErr result (λ fault. Halts self.now (Poll key.now) refusal.new fault
            replies.old (R.seen reader.old)
            (W.contents writer.old) (W.contents writer.new) (O.contents out.old) (O.contents out.new)) }
        ensures falls { result ≡ Ok true → lines_left replies.new < lines_left replies.old }
        ensures reads { Hears (cut_by result) replies.old replies.new (R.seen reader.old) (R.seen reader.new) }
        ensures write { TellsWrites result (W.failures writer.old) (W.failures writer.new)
            (O.failures out.old) (O.failures out.new) }
    {
        match ask(replies, reader, writer, line)? {
            Some(Reply::Item { key, place, item }) => {
                write_item(replies.alloc, self.node_number, &key, place, &item, out)?;
                Ok(true)
            }
            Some(Reply::Paused(_)) => Ok(true),
            Some(Reply::Idle(_)) => Ok(false),
            Some(Reply::Refused(why)) => {
                *refusal = Some(why);
                Err(DriveFault::Refused)
            }
            Some(Reply::Taken(_)) => Err(DriveFault::BadReply),
            None => Err(DriveFault::BadReply),
        }
    }
}

/// The fault that a reply to a packet's line is, if it isn't that the packet was taken. A refusal is handed out.
fn must_be_taken(reply: &Option<Reply>, refusal: &mut Option<Refusal>) -> Result<(), DriveFault>
    ensures taken { OnOk result (packet_fault reply.now ≡ None) }
    ensures fault { IfErr result (λ fault. packet_fault reply.now ≡ Some fault) }
    ensures refusal { (why : Why) → reply.now ≡ Some (variant.Refused why) → refusal.new ≡ Some why }
{
    match reply {
        Some(Reply::Taken(_)) => Ok(()),
        Some(Reply::Refused(why)) => {
            *refusal = Some(*why);
            Err(DriveFault::Refused)
        }
        _ => Err(DriveFault::BadReply),
    }
}

/// Sends a line, and waits for the reply.
fn ask<R: Intake, W: Outlet>(
    replies: &mut Replies,
    reader: &mut R,
    writer: &mut W,
    line: &[u8],
) -> Result<Option<Reply>, DriveFault>
    ensures asked { OnOk result (Appends (W.contents writer.old) (W.contents writer.new) line.now) }
    ensures stops { IfErr result (λ fault. SendsLine fault (W.contents writer.old) (W.contents writer.new) line.now) }
    ensures came { IfOk result (Comes
        (replies_left replies.old (R.seen reader.old)) (replies_left replies.new (R.seen reader.new))) }
    ensures falls { IfOk result (λ reply. (reply ≡ None → ⊥) → lines_left replies.new < lines_left replies.old) }
    ensures reads { Hears (cut_by result) replies.old replies.new (R.seen reader.old) (R.seen reader.new) }
    ensures write { TellsWrite result (W.failures writer.old) (W.failures writer.new) }
{
    write_all(writer, line)?;
    replies.next(reader)
}
