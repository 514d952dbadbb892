//! An input whose header names no column.

use crate::by_columns::of_delimiter;
use crate::first_line::{empty_input, header_of};
use csv::ByteRecord;
use rp_input::ColumnsCsvFault;
use rp_proposal::{are_text, is_shown, meanings, of_above};
use rp_wording::{Advice, Report};
use std::alloc::{AllocError, Global};

/// What to do about a name with a character that controls a terminal.
pub(crate) const CONTROLLED: &str =
    "to have it, give it another name in the header, or write this one in double quotes in a file for --columns-file";

/// Explains why no columns can be proposed for the bytes of a CSV text, in which this byte is between fields: it is empty or no CSV,
/// there is something above its header, or that isn't UTF-8 or has no name.
pub fn explain_no_header(alloc: Global, bytes: &[u8], delimiter: u8) -> Result<Report, AllocError> {
    let mut report = Report::new(alloc, "csv", &ColumnsCsvFault::Header)?;
    of_no_header(alloc, &mut report, bytes, delimiter)?;
    Ok(report)
}

/// Explains an input that has no header.
pub(crate) fn of_no_header(
    alloc: Global,
    report: &mut Report,
    bytes: &[u8],
    delimiter: u8,
) -> Result<(), AllocError> {
    if let Some(found) = of_above(alloc, bytes, delimiter)? {
        return report.advise("csv", &found);
    }
    if bytes.is_empty() {
        return report.advise("csv", &empty_input(alloc));
    }
    let header = header_of(alloc, bytes, delimiter)?;
    report.advise("csv", &of_names(alloc, &header, delimiter)?)
}

/// What is said of a header that names no column, in which this byte is between fields.
fn of_names(alloc: Global, header: &ByteRecord, delimiter: u8) -> Result<Advice, AllocError> {
    if !are_text(header) {
        return Ok(Advice::new(
            alloc,
            "the header isn't UTF-8",
            "UTF-8 is read: iconv -f WINDOWS-1252 -t UTF-8 FILE | rowmatch ..",
        ));
    }
    if let Some(help) = of_delimiter(header, delimiter) {
        return Ok(Advice::new(alloc, "the header is one field", help));
    }
    let names = meanings(alloc, header)?;
    if names.iter().any(|name| !is_shown(name.as_str())) {
        return Ok(Advice::new(
            alloc,
            "no field of the header has a name of its own without a line end or another control character",
            CONTROLLED,
        ));
    }
    Ok(Advice::new(
        alloc,
        "no field of the header has a name of its own",
        "the first line names the columns, each once",
    ))
}
