//! What answers, watched for whether it may have changed.
ghost use Rattle.std.specs.Prelude.{◌≡◌};
ghost use Rattle.rp_serve.specs.Changes.{may_change};

use crate::answers::Answers;
use crate::keeps::Keeps;
use rp_feed::Taken;
use rp_protocol::{Reply, Request};
use std::alloc::AllocError;

/// What answers, and whether it may be another than it was.
#[derive(Drop)]
pub(crate) struct Watched<N> {
    /// What answers.
    pub node: N,
    /// Whether a reply was given after which it may be another.
    pub has_changed: bool,
}

impl<N: Keeps> Answers for Watched<N> {
    ghost use Rattle.std.specs.Prelude.{◌≡◌, ◌||◌};
    ghost use Rattle.rp_serve.specs.Changes.{may_change};

    ghost step = { λ old request reply new. N.step old.node request reply new.node
        × (new.has_changed ≡ (old.has_changed || may_change reply)) };

    ghost cut_short = { λ old request new. N.cut_short old.node request new.node };

    fn answer(&mut self, request: Request) -> Result<Reply, AllocError> {
        let reply = self.node.answer(request)?;
        let may_change = may_change(&reply);
        self.has_changed |= may_change;
        Ok(reply)
    }
}

/// Whether what answers may be another after this reply.
fn may_change(reply: &Reply) -> bool
    ensures { result ≡ may_change reply.now }
{
    match reply {
        Reply::Taken(taken) => is_new(*taken),
        Reply::Item { .. } | Reply::Idle(_) | Reply::Paused(_) => true,
        Reply::Refused(_) => false,
    }
}

fn is_new(taken: Taken) -> bool
    ensures { result ≡ may_change (Reply.Taken taken) }
{
    match taken {
        Taken::New => true,
        Taken::Repeat | Taken::Old => false,
    }
}
