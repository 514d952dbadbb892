//! What is found of inputs.

use rp_json_line::JsonLine;

/// What was found of an input.
#[derive(Drop)]
pub struct FoundInput {
    /// The path of its file; None where it is standard input.
    pub file: Option<String>,
    /// How many rows it has, where they were read.
    pub rows: Option<FoundRows>,
}

/// How many rows there are.
#[derive(Clone, Copy)]
pub struct FoundRows {
    /// All of them.
    pub all: u64,
    /// Those that meet the condition of `--where`; None where there is none, or it has a fault.
    pub kept: Option<u64>,
}

/// How many rows all inputs have; None where those of one weren't read, or there is no input.
pub(crate) fn rows_of_all(inputs: &[FoundInput]) -> Option<FoundRows> {
    let mut sum = None;
    for input in inputs {
        sum = Some(both(sum, input.rows?));
    }
    sum
}

/// The rows of both.
fn both(one: Option<FoundRows>, other: FoundRows) -> FoundRows {
    let Some(one) = one else {
        return other;
    };
    FoundRows {
        all: one.all.saturating_add(other.all),
        kept: match (one.kept, other.kept) {
            (Some(one), Some(other)) => Some(one.saturating_add(other)),
            _ => None,
        },
    }
}

/// Writes the inputs, where there are several.
pub(crate) fn write_inputs(line: &mut JsonLine, inputs: &[FoundInput]) {
    if inputs.len() < 2 {
        return;
    }
    line.name("inputs");
    line.begin_array();
    for input in inputs {
        write_input(line, input);
    }
    line.end_array();
}

fn write_input(line: &mut JsonLine, input: &FoundInput) {
    line.begin_object();
    if let Some(file) = &input.file {
        line.text("file", file.as_str());
    }
    write_kept(line, input.rows);
    write_rows(line, input.rows);
    line.end_object();
}

/// Writes how many rows meet the condition, where that is known.
pub(crate) fn write_kept(line: &mut JsonLine, rows: Option<FoundRows>) {
    if let Some(kept) = kept_of(rows) {
        line.count("kept", kept);
    }
}

fn kept_of(rows: Option<FoundRows>) -> Option<u64> {
    rows?.kept
}

/// Writes how many rows there are, where that is known.
pub(crate) fn write_rows(line: &mut JsonLine, rows: Option<FoundRows>) {
    if let Some(rows) = rows {
        line.count("rows", rows.all);
    }
}
