//! Where a node's file is: a link is followed, and a name that can't be that of a file is refused.
use crate::beside::ends_beside;
use rp_job::{ProgramFault, tell};
use std::fs;
use std::io::{self, ErrorKind};
use std::path::Path;

/// How many links are followed from one to the next: as many as the system follows.
const MOST_LINKS: u32 = 40;

/// What has a name.
#[derive(Drop)]
pub enum Found {
    /// Nothing.
    Nothing,
    /// A regular file.
    File,
    /// A link, wherever it leads.
    Link,
    /// A folder, a pipe, a device or the like.
    Other,
}

/// The name of the file that is kept where this one is given: its own, or that to which its links lead, be it there or not. It is a fault
/// that there can be none, which is reported.
pub fn place_of(rt: &HostRuntime, path: &str) -> Result<String, ProgramFault> {
    if path.is_empty() {
        tell(rt, &"--state names no file");
        return Err(ProgramFault::State);
    }
    let mut name = String::from_str(rt.alloc(), path)?;
    for _link in 0..=MOST_LINKS {
        match behind(rt, path, name.as_str())? {
            Some(target) => name = target,
            None => return Ok(name),
        }
    }
    let _ = eprintln!(rt; "rowmatch: {path} leads over more than {MOST_LINKS} links");
    Err(ProgramFault::State)
}

/// Where the link of this name leads; None where it is no link. What can't be kept is reported by the name that was given.
fn behind(rt: &HostRuntime, given: &str, name: &str) -> Result<Option<String>, ProgramFault> {
    if ends_beside(name) {
        let _ = eprintln!(rt;
            "rowmatch: {given}: a name that ends in .new, .lock, .refused or .refused.N belongs to another FILE"
        );
        return Err(ProgramFault::State);
    }
    match found_at(rt, name) {
        Ok(Found::Nothing | Found::File) => Ok(None),
        Ok(Found::Link) => Ok(Some(target_of(rt, name)?)),
        Ok(Found::Other) => Err(no_regular_file(rt, given)),
        Err(error) => Err(state_fault(rt, given, &error)),
    }
}

/// Where the link of this name leads. Unless that is said from the root on, it is said from the link's folder on.
fn target_of(rt: &HostRuntime, link: &str) -> Result<String, ProgramFault> {
    let target = match fs::read_link(rt, link) {
        Ok(target) => target,
        Err(error) => return Err(state_fault(rt, link, &error)),
    };
    match Path::new(link).parent() {
        Some(folder) => Ok(folder.join(rt.alloc(), target.as_str())?.into_string()),
        None => Ok(target.into_string()),
    }
}

/// What has this name. A link isn't followed.
pub fn found_at(rt: &HostRuntime, name: &str) -> io::Result<Found> {
    let found = match fs::symlink_metadata(rt, name) {
        Ok(found) => found,
        Err(error) if error.kind() == ErrorKind::NotFound => return Ok(Found::Nothing),
        Err(error) => return Err(error),
    };
    if found.is_symlink() {
        return Ok(Found::Link);
    }
    if found.is_file() {
        return Ok(Found::File);
    }
    Ok(Found::Other)
}

/// It is a fault, which is reported, that this name has something else than a regular file, even a link.
pub fn only_regular(rt: &HostRuntime, name: &str) -> Result<(), ProgramFault> {
    match found_at(rt, name) {
        Ok(Found::Nothing | Found::File) => Ok(()),
        Ok(_) => Err(no_regular_file(rt, name)),
        Err(error) => Err(state_fault(rt, name, &error)),
    }
}

/// The fault of a name that something else than a regular file has. It is reported.
fn no_regular_file(rt: &HostRuntime, name: &str) -> ProgramFault {
    let _ = eprintln!(rt; "rowmatch: {name} is no regular file");
    ProgramFault::State
}

/// The fault of a call for the file of this name that failed. Why it did is reported, unless memory was refused.
pub fn state_fault(rt: &HostRuntime, name: &str, error: &io::Error) -> ProgramFault {
    if error.kind() == ErrorKind::OutOfMemory {
        return ProgramFault::OutOfMemory;
    }
    let _ = eprintln!(rt; "rowmatch: {name}: {error}");
    ProgramFault::State
}
