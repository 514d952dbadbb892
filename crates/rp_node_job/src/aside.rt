//! How a refused file is kept under another name.
use crate::beside::refused_name;
use crate::folder::flush_folder;
use crate::place::{Found, found_at};
use std::fs;
use std::io::{self, ErrorKind};

/// How many refused files may be kept next to a file.
const MOST_REFUSED: u64 = 1_000_000;

/// What became of a refused file that was to have another name.
#[derive(Drop)]
enum Aside {
    /// It has it.
    Kept,
    /// Something else has that name.
    Taken,
    /// The file isn't there any more.
    Gone,
}

/// Keeps a refused file under the first name for one that is free, and reports that name. A file that somebody has taken away meanwhile
/// needn't be kept.
pub fn set_aside(rt: &HostRuntime, path: &str) -> io::Result<()> {
    for number in 1..MOST_REFUSED {
        let Ok(name) = refused_name(rt.alloc(), path, number) else {
            return Err(io::Error::from(ErrorKind::OutOfMemory));
        };
        match kept_as(rt, path, name.as_str())? {
            Aside::Kept => {
                let _ = eprintln!(rt;
                    "rowmatch: the checkpoint that was refused is kept as {name}"
                );
                return Ok(());
            }
            Aside::Gone => return Ok(()),
            Aside::Taken => {}
        }
    }
    Err(io::Error::from(ErrorKind::AlreadyExists))
}

/// Gives the file a second name, under which it stays when another file takes its place: so it is under one of them at any time. Where
/// the file system has no second names, it is renamed.
fn kept_as(rt: &HostRuntime, path: &str, name: &str) -> io::Result<Aside> {
    match fs::hard_link(rt, path, name) {
        Ok(()) => {
            flush_folder(rt, path)?;
            Ok(Aside::Kept)
        }
        Err(error) => match error.kind() {
            ErrorKind::AlreadyExists => Ok(Aside::Taken),
            ErrorKind::NotFound => Ok(Aside::Gone),
            _ => renamed_to(rt, path, name),
        },
    }
}

fn renamed_to(rt: &HostRuntime, path: &str, name: &str) -> io::Result<Aside> {
    if !matches!(found_at(rt, name)?, Found::Nothing) {
        return Ok(Aside::Taken);
    }
    match fs::rename(rt, path, name) {
        Ok(()) => Ok(Aside::Kept),
        Err(error) if error.kind() == ErrorKind::NotFound => Ok(Aside::Gone),
        Err(error) => Err(error),
    }
}
