//! The folder that a file is in.
use std::fs::File;
use std::io;

/// The number of Linux for a call that a file system doesn't have.
const EINVAL: i32 = 22;

/// The number of Linux for what the user may not do.
const EACCES: i32 = 13;

/// Flushes the entry of the folder that the file is in, where the system can: the file itself is safe before.
pub fn flush_folder(rt: &HostRuntime, path: &str) -> io::Result<()> {
    let folder = match path.rfind('/') {
        Some(0) => "/",
        Some(end) => path.split_at(end).0,
        None => ".",
    };
    match File::open(rt, folder) {
        Ok(folder) => unless_impossible(folder.sync_all()),
        Err(error) => unless_impossible(Err(error)),
    }
}

/// The error of a call, unless the file system can't do what was asked, or the user may not.
fn unless_impossible(done: io::Result<()>) -> io::Result<()> {
    match done {
        Err(error) if matches!(error.raw_os_error(), Some(EINVAL | EACCES)) => Ok(()),
        done => done,
    }
}
