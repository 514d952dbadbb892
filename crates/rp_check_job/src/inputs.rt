//! The inputs that are looked at: files, or standard input.
use rp_command::CheckJob;
use rp_job::{ProgramFault, bytes_of};
use std::fs::{self, FileType};
use std::io::IsTerminal;
use std::os::unix::fs::FileTypeExt;

/// The bytes of an input, and its name where it is a file.
#[derive(Drop)]
pub(crate) struct Input<'a> {
    pub(crate) name: Option<&'a str>,
    pub(crate) bytes: Vec<u8>,
}

/// The inputs, of which there may be none: the files, or standard input, unless that is a terminal, or empty and not meant.
pub(crate) fn inputs_of<'a>(
    rt: &HostRuntime,
    job: &'a CheckJob,
) -> Result<Vec<Input<'a>>, ProgramFault> {
    let mut inputs = Vec::new(rt.alloc());
    for name in &job.files {
        let name = Some(name.as_str());
        let bytes = bytes_of(rt, name, &mut None)?;
        inputs.push(Input { name, bytes })?;
    }
    if !job.files.is_empty() {
        return Ok(inputs);
    }
    if let Some(bytes) = bytes_of_input(rt, job)? {
        inputs.push(Input { name: None, bytes })?;
    }
    Ok(inputs)
}

/// The bytes of standard input, unless that is a terminal, or empty and not meant.
fn bytes_of_input(rt: &HostRuntime, job: &CheckJob) -> Result<Option<Vec<u8>>, ProgramFault> {
    if rt.stdin().is_terminal() {
        return Ok(None);
    }
    let bytes = bytes_of(rt, None, &mut None)?;
    if bytes.is_empty() && !is_meant(rt, job) {
        return Ok(None);
    }
    Ok(Some(bytes))
}

/// Whether standard input is meant where it is empty: a file is, and a pipe where there is no clause and no condition to look at;
/// /dev/null isn't.
fn is_meant(rt: &HostRuntime, job: &CheckJob) -> bool {
    match kind_of_input(rt) {
        Some(kind) => {
            kind.is_file() || kind.is_fifo() && job.clause.is_none() && job.filter.is_none()
        }
        None => false,
    }
}

/// Whether standard input is a pipe.
pub(crate) fn is_pipe(rt: &HostRuntime) -> bool {
    match kind_of_input(rt) {
        Some(kind) => kind.is_fifo(),
        None => false,
    }
}

/// What kind of file standard input is, where the system says so.
fn kind_of_input(rt: &HostRuntime) -> Option<FileType> {
    match fs::metadata(rt, "/dev/stdin") {
        Ok(found) => Some(found.file_type()),
        Err(_) => None,
    }
}
