//! Lines and checkpoints: of each what is written once it was read, or why it can't be read.
//!
//! - `request LINE` and `reply LINE` are the lines that a node reads and writes.
//! - `checkpoint OBJECT` is what a node saves, behind its own digest. What is written of it is told without its digest.
use crate::digest::sealed;
use crate::fault::EventFault;
use crate::line::Line;
use crate::refusals::Refusals;
use crate::told::tell;
use rp_checkpoint::{CheckpointFault, checkpoint_of, read_checkpoint};
use rp_protocol::{LineFault, reply_line, reply_of, request_line, request_of};
use std::alloc::{AllocError, Global};
use thiserror::Error;

/// Plays lines, each for itself.
#[derive(Drop)]
pub struct LinesPlayer {
    alloc: Global,
    refusals: Refusals,
}

/// Why a text is not written anew.
#[derive(Debug, Drop, Error)]
enum Unread {
    #[error("no such event")]
    NoEvent,
    #[error("{0}")]
    Line(LineFault),
    #[error("{0}")]
    Checkpoint(CheckpointFault),
    #[error("what is written is no text")]
    NoText,
    #[error("out of memory")]
    OutOfMemory,
}

impl LinesPlayer {
    pub fn new(alloc: Global) -> LinesPlayer {
        LinesPlayer {
            alloc,
            refusals: Refusals::none(),
        }
    }

    /// Plays an event, and adds what is told of it.
    pub fn act(&mut self, line: Line, told: &mut String) -> Result<(), EventFault> {
        match self.written(line) {
            Ok(text) => Ok(tell(told, text.as_str())?),
            Err(Unread::NoEvent) => Err(EventFault::NoEvent),
            Err(Unread::OutOfMemory) => Err(EventFault::RefusedTwice),
            Err(fault) => Ok(tell(told, format!(in self.alloc; "{fault}")?.as_str())?),
        }
    }

    /// What is written. After a first refusal of memory the text is read again.
    fn written(&mut self, line: Line) -> Result<String, Unread> {
        match written_anew(self.alloc, line) {
            Err(Unread::OutOfMemory) => self.written_again(line),
            written => written,
        }
    }

    fn written_again(&mut self, line: Line) -> Result<String, Unread> {
        if self.refusals.is_first() {
            return written_anew(self.alloc, line);
        }
        Err(Unread::OutOfMemory)
    }
}

fn written_anew(alloc: Global, line: Line) -> Result<String, Unread> {
    match line.event {
        "request" => request_anew(alloc, line.rest),
        "reply" => reply_anew(alloc, line.rest),
        "checkpoint" => checkpoint_anew(alloc, line.rest),
        _ => Err(Unread::NoEvent),
    }
}

fn request_anew(alloc: Global, line: &str) -> Result<String, Unread> {
    let request = request_of(alloc, line.as_bytes())?;
    text_of(request_line(alloc, &request)?)
}

fn reply_anew(alloc: Global, line: &str) -> Result<String, Unread> {
    let reply = reply_of(alloc, line.as_bytes())?;
    Ok(reply_line(alloc, &reply)?)
}

fn checkpoint_anew(alloc: Global, object: &str) -> Result<String, Unread> {
    let bytes = sealed(alloc, object)?;
    let node = read_checkpoint(alloc, bytes.as_slice())?;
    let written = text_of(checkpoint_of(alloc, &node)?)?;
    let Some((_digest, object)) = written.as_str().split_once("\n") else {
        return Err(Unread::NoText);
    };
    Ok(String::from_str(alloc, object)?)
}

fn text_of(bytes: Vec<u8>) -> Result<String, Unread> {
    match String::from_utf8(bytes) {
        Ok(text) => Ok(text),
        Err(_) => Err(Unread::NoText),
    }
}

impl From<LineFault> for Unread {
    fn from(fault: LineFault) -> Unread {
        match fault {
            LineFault::OutOfMemory => Unread::OutOfMemory,
            fault => Unread::Line(fault),
        }
    }
}

impl From<CheckpointFault> for Unread {
    fn from(fault: CheckpointFault) -> Unread {
        match fault {
            CheckpointFault::OutOfMemory => Unread::OutOfMemory,
            fault => Unread::Checkpoint(fault),
        }
    }
}

impl From<AllocError> for Unread {
    fn from(_: AllocError) -> Unread {
        Unread::OutOfMemory
    }
}
