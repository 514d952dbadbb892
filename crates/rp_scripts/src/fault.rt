//! Why a script can't be played to its end.
use rp_compile::CompileFault;
use rp_reference::PlainFault;
use rp_syntax::TableTextFault;
use rp_value::RowFault;
use std::alloc::{AllocError, AllocFailed};
use std::io;
use thiserror::Error;

/// Why an event can't be played. It says nothing of what is played, but for `RefusedTwice`.
#[derive(Debug, Drop, Error)]
pub enum EventFault {
    #[error("no such event")]
    NoEvent,
    #[error("a number is wanted")]
    NoNumber,
    #[error("one word too many")]
    TooManyWords,
    #[error("nothing stands behind the arrow")]
    NothingBehindArrow,
    #[error("no arrow belongs here")]
    NoArrow,
    #[error("an event before `node`, `matcher`, `lines` or `input`")]
    NoSubject,
    #[error("no columns were given")]
    NoColumns,
    #[error("bytes in square brackets are wanted")]
    NoBytes,
    #[error("a case without a name")]
    NoName,
    #[error("a case in which nothing is told")]
    NothingTold,
    #[error("no such case")]
    NoCase,
    #[error("nothing is saved")]
    NothingSaved,
    #[error("OLD => NEW is wanted, where what is saved has OLD")]
    NoAlteration,
    #[error("not idle after 100,000 polls")]
    NotIdle,
    #[error("no matcher goes on from this record")]
    NoRecord,
    #[error("no row or close comes after the close")]
    NoFurtherRow,
    #[error("no row of the table: {0}")]
    Row(RowFault),
    #[error("{0}")]
    Plain(PlainFault),
    #[error("table: {0}")]
    Table(TableTextFault),
    #[error("clause: {0}")]
    Clause(CompileFault),
    #[error("device")]
    Device,
    /// What is played is refused memory once more, though its call was made again.
    #[error("memory was refused twice")]
    RefusedTwice,
    /// The program itself is refused memory.
    #[error("out of memory")]
    OutOfMemory,
}

impl EventFault {
    /// The exit status that the program ends with.
    pub fn status(&self) -> u8 {
        match self {
            EventFault::OutOfMemory => 3,
            EventFault::RefusedTwice => 4,
            _ => 2,
        }
    }
}

/// Where a script stops, and why. Line 0 is before its first line.
#[derive(Debug, Drop, Error)]
#[error("line {line}: {fault}")]
pub struct Stopped {
    pub line: u64,
    pub fault: EventFault,
}

impl From<EventFault> for Stopped {
    fn from(fault: EventFault) -> Stopped {
        Stopped { line: 0, fault }
    }
}

impl From<TableTextFault> for EventFault {
    fn from(fault: TableTextFault) -> EventFault {
        match fault {
            TableTextFault::OutOfMemory => EventFault::OutOfMemory,
            fault => EventFault::Table(fault),
        }
    }
}

impl From<CompileFault> for EventFault {
    fn from(fault: CompileFault) -> EventFault {
        match fault {
            CompileFault::OutOfMemory => EventFault::OutOfMemory,
            fault => EventFault::Clause(fault),
        }
    }
}

impl From<RowFault> for EventFault {
    fn from(fault: RowFault) -> EventFault {
        match fault {
            RowFault::OutOfMemory => EventFault::OutOfMemory,
            fault => EventFault::Row(fault),
        }
    }
}

impl From<PlainFault> for EventFault {
    fn from(fault: PlainFault) -> EventFault {
        match fault {
            PlainFault::OutOfMemory => EventFault::OutOfMemory,
            fault => EventFault::Plain(fault),
        }
    }
}

impl From<AllocError> for EventFault {
    fn from(_: AllocError) -> EventFault {
        EventFault::OutOfMemory
    }
}

impl<T: Drop> From<AllocFailed<T>> for EventFault {
    fn from(_: AllocFailed<T>) -> EventFault {
        EventFault::OutOfMemory
    }
}

impl From<io::Error> for EventFault {
    fn from(error: io::Error) -> EventFault {
        if error.kind() == io::ErrorKind::OutOfMemory {
            return EventFault::OutOfMemory;
        }
        EventFault::Device
    }
}
