//! The words of the program, and the job that they name.
use crate::command::{not_utf8, read_command};
use crate::fault::CommandLineFault;
use crate::job::{Job, JobFault};
use crate::texts::with_texts;
use std::{env, io};

/// The job that the program's words name, of which those that are texts may come from files. Of the words `whole --clause-file F` the
/// job is `whole`, and its clause is what F holds; where F can't be read or isn't UTF-8 the fault is `TextFile`.
///
/// Help and the version, where they are asked for, are a fault too, as is an argument that isn't UTF-8: clap has the words for each.
pub fn named_job(rt: &HostRuntime) -> Result<Box<Job>, CommandLineFault> {
    let words = with_texts(rt, words_of(rt)?.as_slice())?;
    let job = read_command(rt.alloc(), words.as_slice())?;
    Ok(Box::new(rt.alloc(), job)?)
}

/// The words of the command line, behind the program's name.
fn words_of(rt: &HostRuntime) -> Result<Vec<String>, CommandLineFault> {
    let all = match env::args(rt) {
        Ok(all) => all,
        Err(error) => return Err(unread(rt, &error)),
    };
    let mut words = Vec::new(rt.alloc());
    for word in all.skip(1) {
        words.push(word)?;
    }
    Ok(words)
}

/// Why the command line can't be read: an argument isn't UTF-8, or memory was refused.
fn unread(rt: &HostRuntime, error: &io::Error) -> CommandLineFault {
    if error.kind() == io::ErrorKind::InvalidData {
        CommandLineFault::Job(not_utf8(rt.alloc()))
    } else {
        CommandLineFault::Job(JobFault::OutOfMemory)
    }
}
