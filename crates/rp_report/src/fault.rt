//! Faults.

use rp_json_line::JsonLine;
use rp_wording::{Mark, Report};

/// What is wrong with a text.
pub struct FoundFault {
    /// What the text is called.
    pub text: &'static str,
    /// The path of the file that the text is, where there are several.
    pub file: Option<String>,
    /// What is said of the fault.
    pub report: Report,
}

/// It is let go of by a call, wherever it is held.
impl Drop for FoundFault {
    fn drop(self) {
        let FoundFault {
            text: _,
            file: _,
            report: _,
        } = self;
    }
}

/// Writes faults, each with the text in which it is.
pub(crate) fn write_faults(line: &mut JsonLine, faults: &[FoundFault]) {
    line.begin_array();
    for fault in faults {
        write_fault(line, fault);
    }
    line.end_array();
}

fn write_fault(line: &mut JsonLine, fault: &FoundFault) {
    let report = &fault.report;
    line.begin_object();
    if let Some(mark) = report.mark {
        write_number(line, "byte", mark.byte);
        write_number(line, "column", mark.column);
    }
    if let Some(file) = &fault.file {
        line.text("file", file.as_str());
    }
    line.name("help");
    write_lines(line, report.help.as_str());
    line.text("kind", report.kind.as_str());
    if let Some(mark) = report.mark {
        write_extent(line, mark);
    }
    line.text("message", report.message.as_str());
    line.text("text", fault.text);
    line.end_object();
}

/// Writes how many bytes are meant, and in which line.
fn write_extent(line: &mut JsonLine, mark: Mark) {
    write_number(line, "length", mark.length);
    write_number(line, "line", mark.line);
}

fn write_number(line: &mut JsonLine, name: &str, number: usize) {
    line.count(name, u64::try_from(number).unwrap_or(u64::MAX));
}

/// Writes the lines of a text.
fn write_lines(line: &mut JsonLine, text: &str) {
    line.begin_array();
    for one in text.lines() {
        line.string(one);
    }
    line.end_array();
}
