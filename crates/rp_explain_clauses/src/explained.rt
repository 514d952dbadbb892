//! All that is said of a clause that is refused.

use crate::clause::explain;
use crate::further::further;
use crate::literals::{Compared, compared_literal};
use crate::numbers::{AsNumbers, as_numbers};
use crate::passed::{pass_over, place_of};
use crate::statement::{Statement, statement_of};
use rp_compile::{CompileFault, compile};
use rp_grammar::ParseFault;
use rp_hints::sql_around;
use rp_place::Span;
use rp_query::Query;
use rp_value::Table;
use rp_wording::{Advice, Report, Source};
use std::alloc::{AllocError, Global};

/// So many faults of a clause are reported, at most.
const MOST: u32 = 5;

/// What is said of a text that is no clause.
#[derive(Drop)]
pub struct Explained {
    /// What is wrong: the fault for which it is refused, and others that are certain. There are five at most.
    pub reports: Vec<Report>,
    /// The query of what stands in MATCH_RECOGNIZE ( .. ), where that alone would be a clause without a fault.
    pub query: Option<Query>,
    /// What it would be if columns of texts were columns of whole numbers, where it is refused since it takes them for such.
    pub as_numbers: Option<AsNumbers>,
    /// The column of whole numbers and the literal that is none, for whose comparison it is refused.
    pub compared: Option<Compared>,
}

/// Explains why `compile` refuses a text over a table, by the fault that it gave, and what else can't stand in it. Of a
/// statement round MATCH_RECOGNIZE ( .. ) it is said once that it isn't read; the rest is of what stands in the
/// brackets.
///
/// The only error is that memory is out.
pub fn explain_text(
    alloc: Global,
    table: &Table,
    text: &str,
    fault: &CompileFault,
) -> Result<Explained, AllocError> {
    if let Some(statement) = statement_of(alloc, text)? {
        return of_statement(alloc, table, text, &statement, fault);
    }
    let mut reports = Vec::new(alloc);
    push_faults(alloc, &mut reports, table, Source::whole(text), fault, MOST)?;
    Ok(Explained {
        reports,
        query: None,
        as_numbers: as_numbers(alloc, table, text, fault)?,
        compared: compared_literal(alloc, table, text, fault)?,
    })
}

/// Explains a statement round a clause, and what is wrong in the clause.
fn of_statement(
    alloc: Global,
    table: &Table,
    text: &str,
    statement: &Statement,
    fault: &CompileFault,
) -> Result<Explained, AllocError> {
    match compile(alloc, statement.inside.as_str(), table) {
        Ok(query) => {
            let reports = outer_alone(alloc, table, text, statement)?;
            Ok(Explained {
                reports,
                query: Some(query),
                as_numbers: None,
                compared: None,
            })
        }
        Err(CompileFault::OutOfMemory) => Err(AllocError),
        Err(inner) => {
            let outer_first = statement.front.is_some() || statement.is_outside(fault);
            let reports = both(alloc, table, text, statement, &inner, outer_first)?;
            let inside = statement.inside.as_str();
            Ok(Explained {
                reports,
                query: None,
                as_numbers: as_numbers(alloc, table, inside, &inner)?,
                compared: compared_literal(alloc, table, inside, &inner)?,
            })
        }
    }
}

/// Explains what stands outside alone.
fn outer_alone(
    alloc: Global,
    table: &Table,
    text: &str,
    statement: &Statement,
) -> Result<Vec<Report>, AllocError> {
    let mut reports = Vec::new(alloc);
    push_outer(alloc, &mut reports, table, text, statement)?;
    Ok(reports)
}

/// Explains both what stands outside and the faults inside.
fn both(
    alloc: Global,
    table: &Table,
    text: &str,
    statement: &Statement,
    inner: &CompileFault,
    outer_first: bool,
) -> Result<Vec<Report>, AllocError> {
    let mut reports = Vec::new(alloc);
    let source = Source {
        shown: text,
        read: statement.inside.as_str(),
    };
    if outer_first {
        push_outer(alloc, &mut reports, table, text, statement)?;
    }
    push_faults(alloc, &mut reports, table, source, inner, MOST - 1)?;
    if !outer_first {
        push_outer(alloc, &mut reports, table, text, statement)?;
    }
    Ok(reports)
}

/// Explains what stands outside.
fn push_outer(
    alloc: Global,
    reports: &mut Vec<Report>,
    table: &Table,
    text: &str,
    statement: &Statement,
) -> Result<(), AllocError> {
    let source = Source {
        shown: text,
        read: statement.read.as_str(),
    };
    if let Some(fault) = statement.front {
        reports.push(front_report(alloc, table, text, statement, fault)?)?;
        return Ok(());
    }
    match statement.behind {
        Some(fault) => push_fault(alloc, reports, table, source, &fault),
        None => Ok(()),
    }
}

/// Explains what stands before MATCH_RECOGNIZE.
fn front_report(
    alloc: Global,
    table: &Table,
    text: &str,
    statement: &Statement,
    fault: CompileFault,
) -> Result<Report, AllocError> {
    let mut report = Report::new(alloc, "clause", &fault)?;
    let around = sql_around();
    let mut help = statement.help(alloc, text);
    help.push("\n");
    help.push(around.help);
    statement.push_filter(&mut help, table, text)?;
    let advice = Advice::with_help(alloc, around.what, help);
    let start = match fault {
        CompileFault::Parse(ParseFault::Expected(at)) => at,
        CompileFault::Lex(why) => place_of(why),
        _ => 0,
    };
    report.point("clause", text, word_at(text, start), &advice)?;
    Ok(report)
}

/// The letters, digits and `_` from an offset on, or the character there.
fn word_at(text: &str, start: usize) -> Span {
    let length = word_length(text.get(start..).unwrap_or("")).max(1);
    Span {
        start,
        end: start.saturating_add(length),
    }
}

/// How many letters, digits and `_` stand in front.
fn word_length(rest: &str) -> usize {
    let mut count = 0usize;
    for byte in rest.bytes() {
        if !byte.is_ascii_alphanumeric() && byte != b'_' {
            return count;
        }
        count = count.saturating_add(1);
    }
    count
}

/// Explains a fault, and further ones behind it: so many at most.
fn push_faults(
    alloc: Global,
    reports: &mut Vec<Report>,
    table: &Table,
    source: Source<'_>,
    fault: &CompileFault,
    most: u32,
) -> Result<(), AllocError> {
    push_fault(alloc, reports, table, source, fault)?;
    let passed = pass_over(alloc, source.read, MOST)?;
    let others = further(alloc, &passed, fault, most.saturating_sub(1))?;
    let source = Source {
        read: passed.read.as_str(),
        ..source
    };
    push_each(alloc, reports, table, source, others.as_slice())
}

/// Explains each of the faults.
fn push_each(
    alloc: Global,
    reports: &mut Vec<Report>,
    table: &Table,
    source: Source<'_>,
    faults: &[CompileFault],
) -> Result<(), AllocError> {
    for fault in faults {
        push_fault(alloc, reports, table, source, fault)?;
    }
    Ok(())
}

/// Explains a fault.
fn push_fault(
    alloc: Global,
    reports: &mut Vec<Report>,
    table: &Table,
    source: Source<'_>,
    fault: &CompileFault,
) -> Result<(), AllocError> {
    reports.push(explain(alloc, table, source, fault)?)?;
    Ok(())
}
