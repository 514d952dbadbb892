//! Texts that are refused since they take columns of texts for numbers.

use rp_compile::{CompileFault, compile};
use rp_query::Query;
use rp_resolution::{CheckKind, Fault};
use rp_value::{Kind, Table};
use rp_wording::{Reading, is_name, meant, operand_end, operand_start, tokens_of};
use std::alloc::{AllocError, Global};

/// What a text would be if some columns of texts were columns of whole numbers.
#[derive(Drop)]
pub struct AsNumbers {
    /// The query of the text then.
    pub query: Query,
    /// The numbers of these columns, from 1: no more than it takes.
    pub columns: Vec<usize>,
}

/// What a text that `compile` refuses over a table would be if the columns of texts that it adds, subtracts or compares with numbers were
/// columns of whole numbers. None where it would be refused then, too, or is refused for something else.
///
/// The only error is being out of memory.
pub fn as_numbers(
    alloc: Global,
    table: &Table,
    text: &str,
    fault: &CompileFault,
) -> Result<Option<AsNumbers>, AllocError> {
    let mut columns = Vec::new(alloc);
    let mut fault = *fault;
    for _column in 0..table.columns().len() {
        let taken = table_with(alloc, table, columns.as_slice())?;
        if !take_texts(alloc, &taken, text, fault, &mut columns)? {
            return Ok(None);
        }
        let taken = table_with(alloc, table, columns.as_slice())?;
        match compile(alloc, text, &taken) {
            Ok(query) => return Ok(Some(AsNumbers { query, columns })),
            Err(CompileFault::OutOfMemory) => return Err(AllocError),
            Err(why) => fault = why,
        }
    }
    Ok(None)
}

/// The table, of which the columns of these numbers have whole numbers.
fn table_with(alloc: Global, table: &Table, numbers: &[usize]) -> Result<Table, AllocError> {
    let mut columns = Vec::new(alloc);
    for (index, column) in table.columns().iter().enumerate() {
        let kind = if numbers.contains(&index.saturating_add(1)) {
            Kind::Int
        } else {
            column.kind
        };
        columns.push((String::from_str(alloc, column.name.as_str())?, kind))?;
    }
    // Its names are those of a table.
    match Table::new(alloc, columns) {
        Ok(changed) => Ok(changed),
        Err(_) => Err(AllocError),
    }
}

/// Adds the numbers of the columns of texts at the place of a fault, where a value is of another kind; and whether there is one.
fn take_texts(
    alloc: Global,
    table: &Table,
    text: &str,
    fault: CompileFault,
    numbers: &mut Vec<usize>,
) -> Result<bool, AllocError> {
    let CompileFault::Check(
        Fault {
            kind: CheckKind::KindMismatch,
            offset,
        },
    ) = fault
    else {
        return Ok(false);
    };
    let tokens = tokens_of(alloc, text)?;
    let reading = Reading::new(text, tokens.as_slice(), offset);
    let count = numbers.len();
    let behind = reading.at.saturating_add(1);
    let start = operand_start(&reading, reading.at);
    take_between(alloc, table, &reading, (start, reading.at), numbers)?;
    let end = operand_end(&reading, behind);
    take_between(alloc, table, &reading, (behind, end), numbers)?;
    Ok(numbers.len() > count)
}

/// Adds the numbers of the columns of texts that are named from a token on to before another.
fn take_between(
    alloc: Global,
    table: &Table,
    reading: &Reading<'_>,
    place: (usize, usize),
    numbers: &mut Vec<usize>,
) -> Result<(), AllocError> {
    for index in place.0..place.1 {
        let is_column = !matches!(reading.written(index.saturating_add(1)), "." | "(");
        if is_column && is_name(reading.kind(index)) {
            let name = meant(alloc, reading.written(index))?;
            take_column(table, name.as_str(), numbers)?;
        }
    }
    Ok(())
}

/// Adds the number of the column of texts of this name, where there is one.
fn take_column(table: &Table, name: &str, numbers: &mut Vec<usize>) -> Result<(), AllocError> {
    for (index, column) in table.columns().iter().enumerate() {
        let number = index.saturating_add(1);
        let is_it = column.kind == Kind::Text && column.name.as_str() == name;
        if is_it && !numbers.as_slice().contains(&number) {
            numbers.push(number)?;
        }
    }
    Ok(())
}
