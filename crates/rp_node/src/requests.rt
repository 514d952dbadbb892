//! A node behind connections: each request is a call of it, and the call's answer is the reply.
ghost use Rattle.std.specs.Prelude.{◌≡◌, IfOk, OnErr, Some, None};
ghost use Rattle.rp_node.specs.Replies.{Does, fault_reply};
ghost use Rattle.rp_protocol.specs.declared.request.Request.TheVariants as request;

use crate::fault::NodeFault;
use crate::node::Node;
use rp_checkpoint::RestartFault;
use rp_feed::Packet;
use rp_protocol::{Refusal, Reply, Request};
use rp_serve::{Answers, Keeps};
use rp_value::{Cells, RowFault};
use rp_walker::Poll;
use std::alloc::AllocError;

/// The turns of polls that lines ask for aren't counted.
impl Answers for Node {
    ghost use Rattle.std.specs.Prelude.{Some, None};
    ghost use Rattle.rp_node.specs.Replies.{Does};

    ghost step = { λ old request reply new. Does old request (Some reply) new };

    ghost cut_short = { λ old request new. Does old request None new };

    fn answer(&mut self, request: Request) -> Result<Reply, AllocError> {
        match request {
            Request::Packet(packet) => take(self, packet),
            Request::Poll { key, budget } => poll(self, key, budget),
        }
    }
}

impl Keeps for Node {
    ghost use Rattle.std.specs.Prelude.{Some, None};
    ghost use Rattle.rp_node.specs.GoingBack.{CanRestart, GoesBack, IsSaved, back_again, restarts_still, saved_stays};
    ghost use Rattle.rp_node.specs.Unchanged.{unchanged};

    ghost is_saved = { λ node bytes. IsSaved node bytes };

    ghost can_go_back = { λ node bytes. CanRestart node.query bytes };

    ghost goes_back = { λ old saved new. GoesBack old saved new };

    ghost saved_stays = { λ node bytes is. saved_stays node bytes is };

    ghost back_again = { λ old new bytes can back. back_again old new bytes can back };

    ghost keeps = { λ old request reply new bytes does can. restarts_still old request (Some reply) new bytes does can };

    ghost keeps_cut = { λ old request new bytes does can. restarts_still old request None new bytes does can };

    ghost unchanged = { λ old request reply new does same. unchanged old request reply new does same };

    fn save(&self) -> Result<Vec<u8>, AllocError> {
        Node::save(self)
    }

    fn go_back(self, saved: &Option<Vec<u8>>) -> Result<Self, AllocError> {
        let alloc = self.alloc();
        let hasher = self.hasher();
        let query = self.into_query();
        let Some(bytes) = saved else {
            return Ok(Node::new(alloc, query, hasher));
        };
        match Node::restart(alloc, query, hasher, bytes.as_slice()) {
            Ok(node) => Ok(node),
            Err(refused) => Err(memory_alone(refused.fault)),
        }
    }
}

/// Hands a packet to the node.
fn take(node: &mut Node, packet: Packet) -> Result<Reply, AllocError>
    ensures ok { IfOk result (λ reply. Does node.old (request.Packet packet) (Some reply) node.new) }
    ensures err { OnErr result (Does node.old (request.Packet packet) None node.new) }
{
    match node.accept(packet) {
        Ok(taken) => Ok(Reply::Taken(taken)),
        Err(fault) => refused(fault),
    }
}

/// Polls the partition of a key.
fn poll(node: &mut Node, key: Cells, budget: u32) -> Result<Reply, AllocError>
    ensures ok { IfOk result (λ reply. Does node.old (request.Poll key budget) (Some reply) node.new) }
    ensures err { OnErr result (Does node.old (request.Poll key budget) None node.new) }
{
    match node.next(key.as_slice(), budget) {
        Ok(Poll::Item(place, item)) => Ok(Reply::Item { key, place, item }),
        Ok(Poll::Idle) => Ok(Reply::Idle(key)),
        Ok(Poll::Paused) => Ok(Reply::Paused(key)),
        Err(fault) => refused(fault),
    }
}

/// The reply to a call that is refused, if it isn't memory that is wanting.
fn refused(fault: NodeFault) -> Result<Reply, AllocError>
    ensures ok { IfOk result (λ reply. fault_reply fault ≡ Some reply) }
    ensures err { OnErr result (fault_reply fault ≡ None) }
{
    let refusal = match fault {
        NodeFault::BadRow(RowFault::Width) => Refusal::BadRowWidth,
        NodeFault::BadRow(RowFault::Kind(column)) => Refusal::BadRowKind(column as u64),
        NodeFault::BadRow(RowFault::OutOfMemory) => return Err(AllocError),
        NodeFault::NumberRange => Refusal::NumberRange,
        NodeFault::PastClose => Refusal::PastClose,
        NodeFault::Conflict => Refusal::Conflict,
        NodeFault::TooFar => Refusal::TooFar,
        NodeFault::CloseDiffers => Refusal::CloseDiffers,
        NodeFault::CloseBelow => Refusal::CloseBelow,
        NodeFault::UnknownPartition => Refusal::UnknownPartition,
        NodeFault::OutOfMemory => return Err(AllocError),
    };
    Ok(Reply::Refused(refusal))
}

/// Being out of memory, which alone keeps a node from going on from what it has saved itself.
fn memory_alone(fault: RestartFault) -> AllocError
    requires { fault ≡ RestartFault.OutOfMemory }
{
    match fault {
        RestartFault::OutOfMemory => AllocError,
        _ => unreachable!(),
    }
}
