//! The columns of the output.

ghost use Rattle.std.specs.Prelude.{◌≡◌, ◌+◌, ◌++◌, map, IfOk, OnOk};
ghost use Rattle.rp_query.specs.declared.query.Source.TheVariants as source;
ghost use Rattle.rp_tree.specs.Clauses.{clause_tree};
ghost use Rattle.rp_resolution.specs.Output.{texts, key_column, key_columns, other_column, other_columns, output_with};

use crate::lists::is_taken;
use crate::names::column_named;
use rp_grammar::Name;
use rp_query::{OutputColumn, Source};
use rp_tree::{Clause, Order, RowsPerMatch};
use rp_value::{Column, Kind, Text};
use std::alloc::{AllocError, Global};

/// A column of the table, as the output has it.
fn table_column(name: &Text, kind: Kind, number: usize) -> Result<OutputColumn, AllocError>
    ensures { IfOk result (λ o. o ≡ record { name = name.now; kind = kind; from = source.Column number }) }
{
    let name = name.share()?;
    let from = Source::Column(number);
    Ok(OutputColumn { name, kind, from })
}

/// A column of PARTITION BY or ORDER BY, by its name.
fn key_column(columns: &[Column], name: &Text) -> Result<OutputColumn, AllocError>
    ensures { IfOk result (λ o. o ≡ key_column columns.now name.now) }
{
    match column_named(name, columns) {
        Some(place) => table_column(name, columns[place].kind, place + 1),
        None => table_column(name, Kind::Text, 0),
    }
}

/// Adds the columns of PARTITION BY.
fn add_partition(
    output: &mut Vec<OutputColumn>,
    columns: &[Column],
    names: &[Name],
) -> Result<(), AllocError>
    ensures { OnOk result (output.new.items ≡ output.old.items ++ key_columns columns.now (texts names.now)) }
{
    for name in names {
        output.push(key_column(columns, &name.text)?)?;
    }
    Ok(())
}

/// Adds the columns of ORDER BY.
fn add_order(
    output: &mut Vec<OutputColumn>,
    columns: &[Column],
    order: &[Order],
) -> Result<(), AllocError>
    ensures { OnOk result (output.new.items
        ≡ output.old.items ++ key_columns columns.now (texts (map (λ o. o.name) order.now))) }
{
    for ordered in order {
        output.push(key_column(columns, &ordered.name.text)?)?;
    }
    Ok(())
}

/// Adds the column of the table of this number, unless PARTITION BY or ORDER BY has it.
fn add_other(
    output: &mut Vec<OutputColumn>,
    partition: &[Name],
    order: &[Order],
    number: usize,
    column: &Column,
) -> Result<(), AllocError>
    ensures { OnOk result (output.new.items ≡ output.old.items
        ++ other_column (texts partition.now) (texts (map (λ o. o.name) order.now)) number column.now) }
{
    if is_taken(&column.name, partition, order) {
        return Ok(());
    }
    output.push(table_column(&column.name, column.kind, number)?)?;
    Ok(())
}

/// Adds the columns of the table that neither PARTITION BY nor ORDER BY has.
fn add_others(
    output: &mut Vec<OutputColumn>,
    partition: &[Name],
    order: &[Order],
    columns: &[Column],
) -> Result<(), AllocError>
    ensures { OnOk result (output.new.items ≡ output.old.items
        ++ other_columns (texts partition.now) (texts (map (λ o. o.name) order.now)) 1 columns.now) }
{
    for i in 0..columns.len() {
        add_other(output, partition, order, i + 1, &columns[i])?;
    }
    Ok(())
}

/// The output columns of a clause whose measures are these.
pub fn output_of(
    alloc: Global,
    clause: &Clause,
    columns: &[Column],
    measures: Vec<OutputColumn>,
) -> Result<Vec<OutputColumn>, AllocError>
    ensures { IfOk result (λ output.
        output.items ≡ output_with (clause_tree clause.now) columns.now measures.items) }
{
    let mut output = Vec::new(alloc);
    let mut measures = measures;
    let partition = clause.partition.as_slice();
    let order = clause.order.as_slice();
    add_partition(&mut output, columns, partition)?;
    if clause.rows == RowsPerMatch::One {
        output.append(&mut measures)?;
        return Ok(output);
    }
    add_order(&mut output, columns, order)?;
    output.append(&mut measures)?;
    add_others(&mut output, partition, order, columns)?;
    Ok(output)
}
