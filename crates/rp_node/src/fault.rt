//! Why a node refuses a call.
ghost use Rattle.std.specs.Prelude.{◌≡◌};
ghost use Rattle.rp_node.specs.declared.fault.NodeFault.TheVariants.{OutOfMemory};
ghost use Rattle.rp_node.specs.Accepting.{named, told};
ghost use Rattle.rp_node.specs.Polling.{told_poll};
ghost use Rattle.rp_node.specs.Restarting.{bytes_fault};

use rp_checkpoint::{CheckpointFault, RestartFault};
use rp_feed::{FeedFault, Taken};
use rp_query::Query;
use rp_value::RowFault;
use rp_walker::Poll;
use std::alloc::AllocError;
use thiserror::Error;

/// Why a node refuses a packet or a poll. The node stays as it is.
#[derive(Clone, Copy, Debug, PartialEq, Eq, Error)]
pub enum NodeFault {
    /// The cells are no row of the table, or the close's key doesn't fit the columns of PARTITION BY.
    #[error("BadRow {0}")]
    BadRow(RowFault),
    /// The number is 0, or the number or the count is too great.
    #[error("NumberRange")]
    NumberRange,
    /// The number is above the close's count.
    #[error("PastClose")]
    PastClose,
    /// A row of other cells is held at the number.
    #[error("Conflict")]
    Conflict,
    /// The number is too far above the front.
    #[error("TooFar")]
    TooFar,
    /// A close with another count was taken.
    #[error("CloseDiffers")]
    CloseDiffers,
    /// A row with a number above the count was taken.
    #[error("CloseBelow")]
    CloseBelow,
    /// No packet of that key was accepted.
    #[error("UnknownPartition")]
    UnknownPartition,
    /// No memory was left.
    #[error("out of memory")]
    OutOfMemory,
}

impl From<AllocError> for NodeFault {
    ghost from_gives = { λ _ fault. fault ≡ OutOfMemory };

    fn from(_error: AllocError) -> NodeFault {
        NodeFault::OutOfMemory
    }
}

/// What is told of a feed's answer: its refusals are the node's of the same names.
pub(crate) fn told(answer: Result<Taken, FeedFault>) -> Result<Taken, NodeFault>
    ensures { result ≡ told answer }
{
    match answer {
        Ok(taken) => Ok(taken),
        Err(fault) => Err(named(fault)),
    }
}

/// A feed's refusal as the node's.
fn named(fault: FeedFault) -> NodeFault
    ensures { result ≡ named fault }
{
    match fault {
        FeedFault::NumberRange => NodeFault::NumberRange,
        FeedFault::PastClose => NodeFault::PastClose,
        FeedFault::Conflict => NodeFault::Conflict,
        FeedFault::TooFar => NodeFault::TooFar,
        FeedFault::CloseDiffers => NodeFault::CloseDiffers,
        FeedFault::CloseBelow => NodeFault::CloseBelow,
        FeedFault::OutOfMemory => NodeFault::OutOfMemory,
    }
}

/// What is told of a poll of a partition.
pub(crate) fn told_poll(answer: Result<Poll, AllocError>) -> Result<Poll, NodeFault>
    ensures { result ≡ told_poll answer }
{
    match answer {
        Ok(poll) => Ok(poll),
        Err(_refused) => Err(NodeFault::OutOfMemory),
    }
}

/// A restart that is refused hands the query back.
#[derive(Drop)]
pub struct RestartRefused {
    pub query: Query,
    pub fault: RestartFault,
}

/// Why bytes are no checkpoint, as a refusal to restart.
pub(crate) fn bytes_fault(fault: CheckpointFault) -> RestartFault
    ensures { result ≡ bytes_fault fault }
{
    match fault {
        CheckpointFault::Digest => RestartFault::Digest,
        CheckpointFault::NotJson => RestartFault::NotJson,
        CheckpointFault::Version => RestartFault::Version,
        CheckpointFault::BadField => RestartFault::BadField,
        CheckpointFault::OutOfMemory => RestartFault::OutOfMemory,
    }
}
