//! Why a CSV input is refused.

use crate::field::{of_field, of_record};
use crate::first_line::of_header;
use rp_input::CsvFault;
use rp_place::{Place, Span, line_number};
use rp_proposal::without_mark;
use rp_value::Table;
use rp_wording::{Advice, Report};
use std::alloc::{AllocError, Global};

/// Explains why `rows_of` refuses the bytes of a CSV text over a table, by the fault that it gave.
///
/// The first line is the fault's own, `csv: Field at record 3`; each line ends in LF. Where a device failed or memory ran out that
/// line is all there is.
pub fn explain_csv(
    alloc: Global,
    table: &Table,
    bytes: &[u8],
    fault: &CsvFault,
) -> Result<Report, AllocError> {
    let mut report = Report::new(alloc, "csv", fault)?;
    explain(alloc, &mut report, table, bytes, fault)?;
    Ok(report)
}

/// Adds where a fault is, and what to write.
fn explain(
    alloc: Global,
    report: &mut Report,
    table: &Table,
    bytes: &[u8],
    fault: &CsvFault,
) -> Result<(), AllocError> {
    match fault {
        CsvFault::Header => of_header(alloc, report, table, bytes),
        CsvFault::Record(number) => of_record(alloc, report, table, bytes, *number),
        CsvFault::Field(number) => of_field(alloc, report, table, bytes, *number),
        CsvFault::Read | CsvFault::Turns | CsvFault::OutOfMemory => Ok(()),
    }
}

/// Writes advice at a part of the bytes.
pub(crate) fn write_at(
    alloc: Global,
    report: &mut Report,
    bytes: &[u8],
    span: Span,
    advice: &Advice,
) -> Result<(), AllocError> {
    let before = bytes.get(..span.start).unwrap_or(bytes);
    let front = String::from_utf8_lossy(alloc, last_line(before))?;
    let rest = first_line(bytes.get(span.start..).unwrap_or(b""));
    let length = span.end.saturating_sub(span.start).min(rest.len());
    let (part, behind) = rest.split_at(length);
    let part = String::from_utf8_lossy(alloc, part)?;
    let behind = String::from_utf8_lossy(alloc, behind)?;
    let place = Place {
        line: line_number(before),
        front: front.as_str(),
        part: part.as_str(),
        behind: behind.as_str(),
    };
    report.point_at("csv", span.start, &place, advice)
}

/// What stands behind the last line end.
fn last_line(bytes: &[u8]) -> &[u8] {
    match bytes.rsplit(|byte| *byte == b'\n').next() {
        Some(line) => without_mark(line),
        None => bytes,
    }
}

/// What stands before the first line end.
fn first_line(bytes: &[u8]) -> &[u8] {
    match bytes.split(|byte| *byte == b'\n' || *byte == b'\r').next() {
        Some(line) => line,
        None => bytes,
    }
}
