//! Why the program's words name no job.

use crate::job::JobFault;
use std::alloc::{AllocError, AllocFailed};

/// Why the program's words name no job.
#[derive(Drop)]
pub enum CommandLineFault {
    /// The file of this name, which should hold the text of an option, can't be read, or isn't UTF-8.
    TextFile(String),
    /// The words, with the texts that they name, are no job's.
    Job(JobFault),
}

impl From<JobFault> for CommandLineFault {
    fn from(fault: JobFault) -> CommandLineFault {
        CommandLineFault::Job(fault)
    }
}

impl From<AllocError> for CommandLineFault {
    fn from(_: AllocError) -> CommandLineFault {
        CommandLineFault::Job(JobFault::OutOfMemory)
    }
}

impl<T: Drop> From<AllocFailed<T>> for CommandLineFault {
    fn from(_: AllocFailed<T>) -> CommandLineFault {
        CommandLineFault::Job(JobFault::OutOfMemory)
    }
}
