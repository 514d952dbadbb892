//! Time zones by name, whose rules are files of the system.
use crate::fault::ProgramFault;
use rp_columns::{Columns, ZoneFault};
use std::alloc::AllocError;
use std::env::{self, VarError};
use std::fs::File;
use std::io::{self, Read};

/// Where the files of the time zones are, unless the variable TZDIR names another folder.
const ZONEINFO: &str = "/usr/share/zoneinfo";

/// The longest file that is read as the rules of a zone, in bytes. Those of the Time Zone Database have a few thousand.
const MAX_FILE_LEN: u64 = 1_048_576;

/// The columns with the rules of all time zones that they name.
pub fn with_zones(rt: &HostRuntime, columns: Columns) -> Result<Columns, ProgramFault> {
    let mut columns = columns;
    for _ in 0..columns.as_slice().len() {
        let Some(name) = columns.region_without_rules() else {
            break;
        };
        let name = String::from_str(rt.alloc(), name)?;
        columns = with_zone(rt, columns, name)?;
    }
    Ok(columns)
}

/// The columns with the rules of the zone of this name.
fn with_zone(rt: &HostRuntime, columns: Columns, name: String) -> Result<Columns, ProgramFault> {
    let Some(bytes) = file_of(rt, name.as_str())? else {
        return Err(ProgramFault::Zone(name));
    };
    match columns.with_rules(rt.alloc(), name.as_str(), bytes.as_slice()) {
        Ok(columns) => Ok(columns),
        Err(ZoneFault::Tzif) => Err(ProgramFault::Zone(name)),
        Err(ZoneFault::OutOfMemory) => Err(ProgramFault::OutOfMemory),
    }
}

/// All bytes of the file of a zone; None where there is no such file, or it can't be read.
fn file_of(rt: &HostRuntime, name: &str) -> Result<Option<Vec<u8>>, ProgramFault> {
    let folder = zones_folder(rt)?;
    let folder = folder.as_str();
    let path = format!(in rt.alloc(); "{folder}/{name}")?;
    match read_file(rt, path.as_str()) {
        Ok(bytes) => Ok(Some(bytes)),
        Err(error) if error.kind() == io::ErrorKind::OutOfMemory => Err(ProgramFault::OutOfMemory),
        Err(_) => Ok(None),
    }
}

/// The folder of the zones' files.
fn zones_folder(rt: &HostRuntime) -> Result<String, AllocError> {
    match env::var(rt, "TZDIR") {
        Ok(folder) if !folder.is_empty() => Ok(folder),
        _ => String::from_str(rt.alloc(), ZONEINFO),
    }
}

/// All bytes of a file, up to one more than the longest that is read has.
fn read_file(rt: &HostRuntime, path: &str) -> io::Result<Vec<u8>> {
    let mut bytes = Vec::new(rt.alloc());
    let mut file = File::open(rt, path)?.take(MAX_FILE_LEN + 1);
    file.read_to_end(&mut bytes)?;
    Ok(bytes)
}
