//! A small node of one partition, which takes rows in order and gives its end.
ghost use Rattle.std.specs.Prelude.{◌≡◌, ⊤, false};
ghost use Rattle.rp_serve.specs.Changes.{may_change};

use rp_feed::{Packet, Taken};
use rp_protocol::{Refusal, Reply, Request};
use rp_query::Item;
use rp_serve::{Answers, Keeps};
use std::alloc::{AllocError, Global};

/// What it has taken and given.
#[derive(Drop)]
pub struct SmallNode {
    alloc: Global,
    rows: u8,
    closed: bool,
    ended: bool,
}

impl SmallNode {
    ghost use Rattle.std.specs.Prelude.{◌≡◌, false};
    ghost use Rattle.rp_serve.specs.Changes.{may_change};

    /// One that has taken nothing.
    pub fn new(alloc: Global) -> Self {
        SmallNode {
            alloc,
            rows: 0,
            closed: false,
            ended: false,
        }
    }

    /// How many rows it has taken.
    pub fn rows(&self) -> u8 {
        self.rows
    }

    fn take(&mut self, packet: Packet) -> Reply
        ensures { may_change result ≡ false → self.new ≡ self.old }
    {
        match packet {
            Packet::Row { number, .. } => self.take_row(number),
            Packet::Close { .. } => {
                if self.closed {
                    return Reply::Taken(Taken::Repeat);
                }
                self.closed = true;
                Reply::Taken(Taken::New)
            }
        }
    }

    fn take_row(&mut self, number: u64) -> Reply
        ensures { may_change result ≡ false → self.new ≡ self.old }
    {
        let next = u64::from(self.rows) + 1;
        if number == 0 {
            return Reply::Refused(Refusal::NumberRange);
        }
        if number < next {
            return Reply::Taken(Taken::Repeat);
        }
        if number > next {
            return Reply::Refused(Refusal::TooFar);
        }
        self.rows = self.rows.saturating_add(1);
        Reply::Taken(Taken::New)
    }
}

impl Answers for SmallNode {
    ghost step = { λ old request reply new. may_change reply ≡ false → new ≡ old };

    ghost cut_short = { λ old request new. ⊤ };

    fn answer(&mut self, request: Request) -> Result<Reply, AllocError> {
        match request {
            Request::Packet(packet) => Ok(self.take(packet)),
            Request::Poll { key, budget } => {
                if budget == 0 {
                    return Ok(Reply::Paused(key));
                }
                if self.ended || !self.closed {
                    return Ok(Reply::Idle(key));
                }
                self.ended = true;
                Ok(Reply::Item {
                    key,
                    place: 1,
                    item: Item::End,
                })
            }
        }
    }
}

impl Keeps for SmallNode {
    ghost is_saved = { λ node bytes. ⊤ };

    ghost can_go_back = { λ node bytes. ⊤ };

    ghost goes_back = { λ old saved new. ⊤ };

    ghost saved_stays = { λ node bytes is. tt };

    ghost back_again = { λ old new bytes has back. has };

    ghost keeps = { λ old request reply new bytes done has. has };

    ghost keeps_cut = { λ old request new bytes cut has. has };

    ghost unchanged = { λ old request reply new done same. done same };

    fn save(&self) -> Result<Vec<u8>, AllocError> {
        let mut bytes = Vec::new(self.alloc);
        bytes.extend_from_slice(&[self.rows, u8::from(self.closed), u8::from(self.ended)])?;
        Ok(bytes)
    }

    fn go_back(self, saved: &Option<Vec<u8>>) -> Result<Self, AllocError> {
        let mut node = SmallNode::new(self.alloc);
        let Some(bytes) = saved else {
            return Ok(node);
        };
        if let [rows, closed, ended] = bytes.as_slice() {
            node.rows = *rows;
            node.closed = *closed == 1;
            node.ended = *ended == 1;
        }
        Ok(node)
    }
}
