//! The bytes of files and of standard input.
use crate::fault::ProgramFault;
use crate::progress::Progress;
use rp_io::READS;
use rp_wording::shown_line;
use std::alloc::Global;
use std::fs::File;
use std::io::{self, Read};

/// The most bytes that one call reads of a file.
const CHUNK: usize = 65_536;

/// All bytes of a file; of standard input where there is none.
pub fn bytes_of(
    rt: &HostRuntime,
    name: Option<&str>,
    progress: &mut Option<Progress<'_>>,
) -> Result<Vec<u8>, ProgramFault> {
    let Some(name) = name else {
        return bytes_of_input(rt);
    };
    let mut file = opened(rt, name)?;
    let size = match file.metadata() {
        Ok(found) => found.len(),
        Err(_) => 0,
    };
    match read_all(rt.alloc(), &mut file, name, size, progress) {
        Ok(bytes) => Ok(bytes),
        Err(error) => Err(unread(rt.alloc(), name, &error)),
    }
}

/// All bytes of standard input.
fn bytes_of_input(rt: &HostRuntime) -> Result<Vec<u8>, ProgramFault> {
    let mut bytes = Vec::new(rt.alloc());
    match rt.stdin().read_to_end(&mut bytes) {
        Ok(_count) => Ok(bytes),
        Err(error) if error.kind() == io::ErrorKind::OutOfMemory => Err(ProgramFault::OutOfMemory),
        Err(_) => Err(ProgramFault::Read),
    }
}

/// All bytes of a file, which is of this size where that is known, and how much of it is read on the way.
fn read_all(
    alloc: Global,
    file: &mut File,
    name: &str,
    size: u64,
    progress: &mut Option<Progress<'_>>,
) -> io::Result<Vec<u8>> {
    let mut bytes = Vec::new(alloc);
    let mut chunk = Vec::new(alloc);
    chunk.resize(CHUNK, 0)?;
    for _read in 0..READS {
        let count = file.read(chunk.as_mut_slice())?;
        if count == 0 {
            break;
        }
        bytes.extend_from_slice(&chunk[..count])?;
        if let Some(progress) = progress {
            progress.reads(name, bytes.len() as u64, size);
        }
    }
    Ok(bytes)
}

/// A file that is to be read.
fn opened(rt: &HostRuntime, name: &str) -> Result<File, ProgramFault> {
    match File::open(rt, name) {
        Ok(file) => Ok(file),
        Err(error) => Err(unread(rt.alloc(), name, &error)),
    }
}

/// The fault of a call that opens or reads a file.
fn unread(alloc: Global, name: &str, error: &io::Error) -> ProgramFault {
    if error.kind() == io::ErrorKind::OutOfMemory {
        return ProgramFault::OutOfMemory;
    }
    unreadable(alloc, name)
}

/// The fault of a file that can't be read, with its name as it is shown.
pub(crate) fn unreadable(alloc: Global, name: &str) -> ProgramFault {
    match shown_line(alloc, name) {
        Ok(name) => ProgramFault::InputFile(name),
        Err(_) => ProgramFault::OutOfMemory,
    }
}
