//! `check`: what is wrong with columns, a clause, a condition or inputs, with its place and what to write; or what a clause does.
use crate::bare_dates::bare_dates_told;
use crate::found::{Found, RowsSeen};
use crate::inputs::{Input, inputs_of, is_pipe};
use crate::proposing::propose;
use crate::rows::look_at_inputs;
use crate::texts::units_told;
use rp_command::{CheckJob, ReportFormat};
use rp_compile::{CompileFault, compile};
use rp_explain_clauses::{
    AsNumbers, Compared, as_numbers, compared_literal, explain_condition, explain_other_rows,
    explain_table, explain_text,
};
use rp_explain_inputs::{explain_columns, explain_zone};
use rp_filter::{FilterFault, read_filter};
use rp_io::{CountedDevice, write_all};
use rp_job::{InputForm, ProgramFault, Verdict, condition_clause, named_shape, seeded_hasher};
use rp_value::Table;
use rp_wording::Report;
use std::alloc::{AllocError, Global};

/// Looks at what there is: the columns, the clause and the condition over them, and the inputs, which are files or standard input. What is
/// found is printed.
pub fn run_check(rt: &HostRuntime, job: &CheckJob) -> Result<Verdict, ProgramFault> {
    let mut found = Found::new(rt.alloc(), job.files.len() > 1);
    look_at_all(rt, job, &mut found)?;
    print_found(rt, job.format, &found)?;
    Ok(found.verdict())
}

/// Looks at the columns, at the clause, at the condition and at the inputs, in turn.
fn look_at_all(rt: &HostRuntime, job: &CheckJob, found: &mut Found) -> Result<(), ProgramFault> {
    let form = InputForm::of(rt.alloc(), &job.input)?;
    let inputs = inputs_of(rt, job)?;
    look_at_columns(rt, job, &form, inputs.as_slice(), found)?;
    look_at_clause(rt.alloc(), job, found);
    look_at_condition(rt.alloc(), job, found);
    let told = units_told(found, &job.filter);
    found.note(told);
    let told = bare_dates_told(found, &job.clause, &job.filter);
    found.note(told);
    if inputs.is_empty() {
        tell_no_input(rt, found);
    }
    let hasher = seeded_hasher(rt)?;
    Ok(look_at_inputs(&form, inputs.as_slice(), &job.filter, hasher, found)?)
}

fn print_found(rt: &HostRuntime, format: ReportFormat, found: &Found) -> Result<(), ProgramFault> {
    let text = found.text.text()?;
    match format {
        ReportFormat::Text => print(rt, text.as_bytes()),
        ReportFormat::Json => print(rt, found.line()?.as_slice()),
    }
}

/// Says that no input was looked at where standard input is a pipe, which is empty then: some programs give one to those that they run.
fn tell_no_input(rt: &HostRuntime, found: &mut Found) {
    if is_pipe(rt) {
        found
            .text
            .push("no input was looked at: standard input is empty\n");
    }
}

/// The columns: those that are given, or that are proposed for the inputs.
fn look_at_columns(
    rt: &HostRuntime,
    job: &CheckJob,
    form: &InputForm,
    inputs: &[Input<'_>],
    found: &mut Found,
) -> Result<(), ProgramFault> {
    match named_shape(rt, &job.input, form) {
        Ok(Some(shape)) => {
            found.shape = Some(shape);
            Ok(())
        }
        Ok(None) => propose(rt, job, form, inputs, found),
        Err(fault) => {
            if blame_text(rt.alloc(), job, &fault, found) {
                Ok(())
            } else {
                Err(fault)
            }
        }
    }
}

/// Says what is wrong with the text of the columns, and whether a fault is one of that text.
fn blame_text(alloc: Global, job: &CheckJob, fault: &ProgramFault, found: &mut Found) -> bool {
    match (fault, &job.input.table, &job.input.columns) {
        (ProgramFault::Table(why), Some(text), _) => {
            found.blame("table", explain_table(alloc, text.as_str(), why));
        }
        (ProgramFault::Columns(why), _, Some(text)) => {
            found.blame("columns", explain_columns(alloc, text.as_str(), why));
        }
        (ProgramFault::Zone(name), _, Some(text)) => {
            found.blame("columns", explain_zone(alloc, text.as_str(), name.as_str()));
        }
        _ => return false,
    }
    true
}

/// What the clause does, or what is wrong with it.
fn look_at_clause(alloc: Global, job: &CheckJob, found: &mut Found) {
    found.look_in_none();
    let (Some(clause), Some(shape)) = (&job.clause, &found.shape) else {
        return;
    };
    match compile(alloc, clause.as_str(), shape.table()) {
        Ok(query) => found.take_query(query),
        Err(CompileFault::OutOfMemory) => found.blame_clause(Err(AllocError)),
        Err(fault) => {
            let explained = explain_text(alloc, shape.table(), clause.as_str(), &fault);
            found.blame_clause(explained);
        }
    }
}

/// What is wrong with the condition, if something is; else it says which rows the clause sees.
fn look_at_condition(alloc: Global, job: &CheckJob, found: &mut Found) {
    let (Some(condition), Some(shape)) = (&job.filter, &found.shape) else {
        return;
    };
    match read_filter(alloc, condition.as_str(), shape.table()) {
        Ok(filter) => found.seen = RowsSeen::Meeting(filter),
        Err(fault) => {
            let report = explain_filter(alloc, shape.table(), condition.as_str(), fault);
            found.seen = RowsSeen::Unknown;
            found.blame("where", report);
            if look_closer(alloc, condition.as_str(), found).is_err() {
                found.text.push_made(Err(AllocError));
            }
        }
    }
}

/// Looks at what a condition with a fault compares.
fn look_closer(alloc: Global, condition: &str, found: &mut Found) -> Result<(), AllocError> {
    let clause = condition_clause(alloc, condition)?;
    let (literal, numbers) = match &found.shape {
        Some(shape) => comparison(alloc, shape.table(), clause.as_str())?,
        None => (None, None),
    };
    if let Some(compared) = literal {
        found.tell_literal(&compared);
    }
    found.condition_as_numbers = numbers;
    Ok(())
}

/// The literal that a text compares with a column, and what it would be if columns of texts were numbers, where it is refused for either.
fn comparison(
    alloc: Global,
    table: &Table,
    clause: &str,
) -> Result<(Option<Compared>, Option<AsNumbers>), AllocError> {
    match compile(alloc, clause, table) {
        Ok(_) => Ok((None, None)),
        Err(CompileFault::OutOfMemory) => Err(AllocError),
        Err(fault) => {
            let literal = compared_literal(alloc, table, clause, &fault)?;
            Ok((literal, as_numbers(alloc, table, clause, &fault)?))
        }
    }
}

/// What is said of a text that is no condition of a row.
fn explain_filter(
    alloc: Global,
    table: &Table,
    condition: &str,
    fault: FilterFault,
) -> Result<Report, AllocError> {
    match fault {
        FilterFault::Condition(why) => explain_condition(alloc, table, condition, &why),
        FilterFault::OtherRows => explain_other_rows(alloc, table, condition, &fault),
        FilterFault::OutOfMemory => Err(AllocError),
    }
}

/// Prints the bytes whole.
fn print(rt: &HostRuntime, bytes: &[u8]) -> Result<(), ProgramFault> {
    let mut writer = CountedDevice::new(rt.stdout());
    match write_all(&mut writer, bytes) {
        Ok(()) => Ok(()),
        Err(_) => Err(ProgramFault::Write),
    }
}
