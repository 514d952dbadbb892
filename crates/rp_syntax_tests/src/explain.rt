//! What is told of a clause, a table and an input, where memory is refused in between too.
use crate::support::{PRICES, same, unless_refused_twice};
use rp_compile::{CompileFault, compile};
use rp_explain_clauses::{explain_clause, explain_table};
use rp_explain_inputs::explain_csv;
use rp_explain_queries::describe;
use rp_grammar::ParseFault;
use rp_input::CsvFault;
use rp_lexer::LexFault;
use rp_proposal::propose_columns;
use rp_query::Query;
use rp_resolution::{CheckKind, Fault};
use rp_syntax::{TableTextFault, read_table};
use rp_value::Table;
use rp_wording::Report;
use std::alloc::{AllocError, Global};
use std::process::Abort;
use std::test::Fail;

/// A clause over prices with a column that the table hasn't.
const CLAUSE: &str = "PATTERN (A) DEFINE A AS price > 1";

const CLAUSE_FAULTS: &[CompileFault] = &[
    CompileFault::Check(Fault {
        kind: CheckKind::UnknownColumn,
        offset: 24,
    }),
    CompileFault::Lex(LexFault::OutOfMemory),
    CompileFault::Parse(ParseFault::OutOfMemory),
    CompileFault::OutOfMemory,
];

const TABLE_FAULTS: &[TableTextFault] = &[
    TableTextFault::Expected(2),
    TableTextFault::Lex(LexFault::OutOfMemory),
    TableTextFault::OutOfMemory,
];

/// An input with a fraction.
const INPUT: &[u8] = b"sym,t,p\nx,1,2\nx,2,3.5\n";

/// A clause without a fault.
const FAULTLESS: &str = "MEASURES p AS q PATTERN (A B) DEFINE B AS p < PREV(p)";

const TOLD: &str = "\
clause: UnknownColumn at byte 24
  clause, line 1, column 25
   1 | PATTERN (A) DEFINE A AS price > 1
     |                         ^^^^^ the table has no column price
  help: the columns are sym, t, p
clause: out of memory
clause: out of memory
clause: out of memory
table: Expected at byte 2
  table, line 1, column 3
   1 | p float
     |   ^^^^^ there are no fractions
  help: write int, and let the file have a smaller unit, as cents
table: out of memory
table: out of memory
csv: Field at record 2
  csv, line 3, column 5
   3 | x,2,3.5
     |     ^^^ record 2, column p: `3.5` is no whole number
  help: there are no fractions: let the file have a smaller unit, as cents
  help: for any text the table has p text
sym text, t int, p text
output: q int
all rows are one partition (no PARTITION BY)
rows are taken in the order in which they come (no ORDER BY)
A has no definition and takes any row
B looks at its own row, 1 row back
up to 1 row before a match are read (PREV)
each condition looks at its own row and rows at fixed distances from it
where no match comes, the time grows in step with the rows
no condition waits for later rows
";

/// Adds what a report tells, if memory wasn't refused.
fn push_report(told: &mut String, report: Result<Report, AllocError>) -> Result<(), AllocError> {
    match report {
        Ok(report) => told.push_str(report.text.as_str()),
        Err(AllocError) => Err(AllocError),
    }
}

/// Adds what is told of each fault of the clause.
fn push_clause_faults(
    told: &mut String,
    alloc: Global,
    table: &Table,
    faults: &[CompileFault],
) -> Result<(), AllocError> {
    for fault in faults {
        push_report(told, explain_clause(alloc, table, CLAUSE, fault))?;
    }
    Ok(())
}

/// The same of a table of fractions.
fn push_table_faults(
    told: &mut String,
    alloc: Global,
    faults: &[TableTextFault],
) -> Result<(), AllocError> {
    for fault in faults {
        push_report(told, explain_table(alloc, "p float", fault))?;
    }
    Ok(())
}

/// Adds what is told of the input, and the columns that are proposed for it.
fn push_input(told: &mut String, alloc: Global, table: &Table) -> Result<(), AllocError> {
    push_report(told, explain_csv(alloc, table, INPUT, &CsvFault::Field(2)))?;
    let proposal = propose_columns(alloc, INPUT, b',', &[])?;
    told.push_str(proposal.columns.as_str())?;
    told.push('\n')
}

/// Adds all this, and what a query does.
fn push_all(
    told: &mut String,
    alloc: Global,
    table: &Table,
    query: &Query,
) -> Result<(), AllocError> {
    push_clause_faults(told, alloc, table, CLAUSE_FAULTS)?;
    push_table_faults(told, alloc, TABLE_FAULTS)?;
    push_input(told, alloc, table)?;
    let said = describe(alloc, query)?;
    told.push_str(said.as_str())
}

/// Asserts that it is what is wanted.
fn check_told(
    rt: &impl Abort,
    alloc: Global,
    table: &Table,
    query: &Query,
) -> Result<(), AllocError> {
    let mut told = String::new(alloc);
    push_all(&mut told, alloc, table, query)?;
    same(rt, told.as_str(), TOLD);
    Ok(())
}

fn check_reports(rt: &impl Abort, alloc: Global, table: &Table) -> Result<(), Fail> {
    let query = compile(alloc, FAULTLESS, table)?;
    unless_refused_twice(
        check_told(rt, alloc, table, &query).is_ok()
            || check_told(rt, alloc, table, &query).is_ok(),
    )
}

#[test]
fn refused_reports(rt: HostRuntime) -> Result<(), Fail> {
    let table = read_table(rt.alloc(), PRICES)?;
    check_reports(&rt, rt.alloc(), &table)
}
