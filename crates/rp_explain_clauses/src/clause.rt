//! Why a clause is refused.

use crate::dates::of_typed_date;
use crate::meaning::meaning;
use rp_compile::CompileFault;
use rp_grammar::ParseFault;
use rp_hints::unexpected;
use rp_lexer::LexFault;
use rp_place::Span;
use rp_value::Table;
use rp_wording::{Advice, Part, Reading, Report, Source, TextReport, explain_lex, tokens_of};
use std::alloc::{AllocError, Global};

/// Explains why `compile` refuses a clause over a table, by the fault that it gave.
///
/// The first line is the fault's own, `clause: UnknownColumn at byte 129`; each line ends in LF. Where memory ran out that line is
/// all there is.
pub fn explain_clause(
    alloc: Global,
    table: &Table,
    clause: &str,
    fault: &CompileFault,
) -> Result<Report, AllocError> {
    explain(alloc, table, Source::whole(clause), fault)
}

/// Explains one fault of a clause.
pub(crate) fn explain(
    alloc: Global,
    table: &Table,
    source: Source<'_>,
    fault: &CompileFault,
) -> Result<Report, AllocError> {
    let mut report = TextReport::new(alloc, "clause", source, fault)?;
    explain_in(&mut report, table, fault)?;
    Ok(report.finish())
}

/// Adds where a fault is, and what to write.
fn explain_in(
    report: &mut TextReport<'_>,
    table: &Table,
    fault: &CompileFault,
) -> Result<(), AllocError> {
    match fault {
        CompileFault::Lex(why) => explain_bad(report, *why),
        CompileFault::Parse(ParseFault::Expected(at)) => explain_at(report, table, fault, *at),
        CompileFault::Parse(ParseFault::Deep(at)) => explain_at(report, table, fault, *at),
        CompileFault::Check(why) => explain_at(report, table, fault, why.offset),
        CompileFault::Parse(ParseFault::OutOfMemory) => Ok(()),
        CompileFault::OutOfMemory => Ok(()),
    }
}

/// Adds why the text has no tokens.
fn explain_bad(report: &mut TextReport<'_>, fault: LexFault) -> Result<(), AllocError> {
    let alloc = report.alloc();
    match measured_division(alloc, report.source, fault)? {
        Some(span) => {
            let help = "give both as two measures: LAST(p) AS a, FIRST(p) AS b";
            let advice = Advice::new(alloc, "there is no division", help);
            report.point(span, &advice)
        }
        None => explain_lex(report, fault),
    }
}

/// Where the sign of a division in MEASURES is, if a text has no tokens for it.
fn measured_division(
    alloc: Global,
    source: Source<'_>,
    fault: LexFault,
) -> Result<Option<Span>, AllocError> {
    let LexFault::BadChar(at) = fault else {
        return Ok(None);
    };
    let rest = source.shown.get(at..).unwrap_or("");
    if !rest.starts_with('/') || rest.starts_with("//") || rest.starts_with("/*") {
        return Ok(None);
    }
    let before = source.read.get(..at).unwrap_or("");
    let tokens = tokens_of(alloc, before)?;
    let reading = Reading::new(before, tokens.as_slice(), before.len());
    if reading.part() != Part::Measures {
        return Ok(None);
    }
    let end = at.saturating_add(1);
    Ok(Some(Span { start: at, end }))
}

/// Adds that a fault is at a token, and what to write there.
fn explain_at(
    report: &mut TextReport<'_>,
    table: &Table,
    fault: &CompileFault,
    offset: usize,
) -> Result<(), AllocError> {
    let tokens = report.tokens()?;
    let reading = Reading::new(report.source.shown, tokens.as_slice(), offset);
    let advice = advice_of(report.alloc(), table, &reading, fault)?;
    report.point(reading.span(), &advice)
}

/// What is wrong at the token of the reading, and what to write.
fn advice_of(
    alloc: Global,
    table: &Table,
    reading: &Reading<'_>,
    fault: &CompileFault,
) -> Result<Advice, AllocError> {
    match fault {
        CompileFault::Check(why) => meaning(alloc, table, reading, why.kind),
        CompileFault::Parse(ParseFault::Deep(_)) => {
            let what = "a hundred brackets are open before this one";
            let help = "leave out brackets that group nothing";
            Ok(Advice::new(alloc, what, help))
        }
        _ => unreadable(alloc, table, reading),
    }
}

/// What is wrong at a token that can't be here, and what to write.
fn unreadable(alloc: Global, table: &Table, reading: &Reading<'_>) -> Result<Advice, AllocError> {
    match of_typed_date(alloc, table, reading)? {
        Some(advice) => Ok(advice),
        None => unexpected(alloc, reading),
    }
}
