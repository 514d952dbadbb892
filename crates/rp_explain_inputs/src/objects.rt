//! Why lines of JSON are no rows of columns.

use crate::no_object::{Line, no_object};
use crate::object_fields::at_object;
use rp_columns::Columns;
use rp_objects::ObjectsFault;
use rp_place::Place;
use rp_proposal::objects_fault_line;
use rp_wording::{Advice, Report};
use std::alloc::{AllocError, Global};

/// Explains why `rows_by_objects` refuses the bytes of a text, by the fault that it gave.
///
/// The first line is the fault's name with its line; each line ends in LF. Where memory ran out that line is all there is.
pub fn explain_objects(
    alloc: Global,
    columns: &Columns,
    bytes: &[u8],
    fault: &ObjectsFault,
) -> Result<Report, AllocError> {
    match fault {
        ObjectsFault::NotObject(line) => {
            let found = no_object(bytes, &line_at(bytes, *line));
            at_line(alloc, fault, bytes, *line, &Advice::of(alloc, found))
        }
        ObjectsFault::DoubleKey(line) => {
            let what = "a key is in an object twice";
            at_line(
                alloc,
                fault,
                bytes,
                *line,
                &Advice::new(alloc, what, "which of the two is meant?"),
            )
        }
        ObjectsFault::TooMany(line) => {
            let advice = Advice::new(alloc, "there are too many objects", "");
            at_line(alloc, fault, bytes, *line, &advice)
        }
        ObjectsFault::Field(line, index, why) => {
            let Some(column) = columns.as_slice().get(*index) else {
                return Report::new(alloc, "json", fault);
            };
            let told = objects_fault_line(alloc, columns.as_slice(), fault)?;
            let advice = at_object(alloc, column, line_at(bytes, *line).text, *why)?;
            at_line(alloc, &told, bytes, *line, &advice)
        }
        ObjectsFault::OutOfMemory => Report::new(alloc, "json", fault),
    }
}

/// A report of a fault with the line of a text, from 1.
fn at_line<F: std::fmt::Display>(
    alloc: Global,
    fault: &F,
    bytes: &[u8],
    line: u64,
    advice: &Advice,
) -> Result<Report, AllocError> {
    let mut report = Report::new(alloc, "json", fault)?;
    point_at_line(alloc, &mut report, bytes, line, advice)?;
    Ok(report)
}

/// Adds the line of a text, from 1, and advice.
fn point_at_line(
    alloc: Global,
    report: &mut Report,
    bytes: &[u8],
    line: u64,
    advice: &Advice,
) -> Result<(), AllocError> {
    let line = line_at(bytes, line);
    let shown = String::from_utf8_lossy(alloc, line.text)?;
    let place = Place {
        line: line.number,
        front: "",
        part: shown.as_str(),
        behind: "",
    };
    report.point_at("json", line.start, &place, advice)
}

/// The line of this number, from 1; an empty one behind the end where there are fewer.
fn line_at(bytes: &[u8], line: u64) -> Line<'_> {
    let number = usize::try_from(line).unwrap_or(usize::MAX);
    let mut start = 0usize;
    for (index, text) in bytes.split(|byte| *byte == b'\n').enumerate() {
        let end = start.saturating_add(text.len());
        let next = end.saturating_add(1);
        if index.saturating_add(1) == number {
            return Line {
                number,
                start,
                text,
                behind: bytes.get(next..).unwrap_or(b""),
            };
        }
        start = next;
    }
    Line {
        number,
        start: bytes.len(),
        text: b"",
        behind: b"",
    }
}
