//! All that was found.

use crate::clause::write_clause;
use crate::columns::write_columns;
use crate::fault::{FoundFault, write_faults};
use crate::input::{FoundInput, rows_of_all, write_inputs, write_kept, write_rows};
use crate::note::{FoundNote, write_notes};
use rp_json_line::JsonLine;
use rp_query::Query;
use rp_value::Table;
use std::alloc::{AllocError, Global};

/// What was found of the texts and of the inputs.
#[derive(Clone, Copy)]
pub struct Findings<'a> {
    /// The columns that a clause sees, where they have no fault.
    pub table: Option<&'a Table>,
    /// The query of the clause, where that has no fault.
    pub query: Option<&'a Query>,
    /// What was found of each input, in order.
    pub inputs: &'a [FoundInput],
    /// What is to be known of inputs that have no fault, in order.
    pub notes: &'a [FoundNote],
    /// What is wrong, in order.
    pub faults: &'a [FoundFault],
}

/// The object of what was found, as a line without its line end. The only error is that memory is out.
pub fn findings_line(alloc: Global, findings: &Findings<'_>) -> Result<Vec<u8>, AllocError> {
    let mut line = JsonLine::new(alloc);
    line.begin_object();
    if let Some(query) = findings.query {
        line.name("clause");
        write_clause(alloc, &mut line, query)?;
    }
    if let Some(table) = findings.table {
        line.name("columns");
        write_columns(&mut line, table.columns());
    }
    line.name("faults");
    write_faults(&mut line, findings.faults);
    write_inputs(&mut line, findings.inputs);
    let rows = rows_of_all(findings.inputs);
    write_kept(&mut line, rows);
    write_notes(&mut line, findings.notes);
    write_rows(&mut line, rows);
    line.end_object();
    line.finish()
}
