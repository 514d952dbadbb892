//! The lists of names of a clause: unions, columns, definitions and measures.

ghost use Rattle.std.specs.Prelude.{◌≡◌, ◌++◌, ◌||◌, length, map, [], IfOk, OnOk, ◌∷◌, if◌then◌else◌, nat_eq, is_some, not};
ghost use Rattle.std.specs.List.{list_any};
ghost use Rattle.rp_tree.specs.Clauses.{union_tree, definition_tree, measure_tree};
ghost use Rattle.rp_resolution.specs.Context.{naming_of, column_named, is_name};
ghost use Rattle.rp_resolution.specs.Checked.{FirstFaultOr};
ghost use Rattle.rp_resolution.specs.PartFaults.{each, member_faults, union_faults, partition_faults, order_faults, defined_faults, output_faults, shown_names};
ghost use Rattle.rp_resolution.specs.ExprFaults.{unless};
ghost use Rattle.rp_resolution.specs.Queries.{order_column};
ghost use Rattle.rp_resolution.specs.Resolved.{number_at};
ghost use Rattle.rp_resolution.specs.Variables.{is_among, number_of, numbered, union_of, with_members};
ghost use Rattle.rp_resolution.specs.declared.fault.CheckKind.TheVariants.{UnknownColumn, UnknownVariable, DoubleName};

use crate::fault::{CheckFault, CheckKind};
use crate::names::{NamedSet, column_named};
use crate::pattern::number_of;
use crate::place::{fault, require};
use rp_grammar::Name;
use rp_query::OrderColumn;
use rp_tree::{Definition, Measure, Order, RowsPerMatch, Union};
use rp_value::{Column, Text};
use std::alloc::{AllocError, Global};

fn has_name(name: &Text, names: &[Name]) -> bool
    ensures { result ≡ list_any (λ x. is_name name.now x.text) names.now }
{
    names.iter().any(|other| other.text == *name)
}

/// Whether the name is among these.
fn is_among(name: &Text, names: &[Name]) -> bool
    ensures { result ≡ is_among name.now (map (λ n. n.text) names.now) }
{
    has_name(name, names)
}

/// The pattern variables as sets of one member.
pub fn variable_sets(alloc: Global, variables: &[Text]) -> Result<Vec<NamedSet>, AllocError>
    ensures { IfOk result (λ sets. map naming_of sets.items ≡ numbered 0 variables.now) }
{
    let mut sets = Vec::new(alloc);
    for i in 0..variables.len() {
        let set = single(alloc, &variables[i], i)?;
        sets.push(set)?;
    }
    Ok(sets)
}

/// A variable as a set of one member.
fn single(alloc: Global, name: &Text, number: usize) -> Result<NamedSet, AllocError>
    ensures { IfOk result (λ s. naming_of s ≡ record { name = name.now; members = number ∷ [] }) }
{
    let name = name.share()?;
    let mut members = Vec::new(alloc);
    members.push(number)?;
    Ok(NamedSet { name, members })
}

/// Whether a variable has the name.
fn is_variable(name: &Text, variables: &[Text]) -> bool
    ensures { result ≡ is_among name.now variables.now }
{
    variables.iter().any(|other| *other == *name)
}

/// The number of a variable.
fn member(variables: &[Text], name: &Name) -> Result<usize, CheckFault>
    ensures { FirstFaultOr (unless (is_among name.now.text variables.now) UnknownVariable name.now.at)
        (λ number. number ≡ number_of name.now.text variables.now) result }
{
    require(
        is_variable(&name.text, variables),
        CheckKind::UnknownVariable,
        name.at,
    )?;
    Ok(number_of(&name.text, variables))
}

/// A number behind those before it, unless it is one of them.
fn add_number(numbers: &mut Vec<usize>, number: usize) -> Result<(), AllocError>
    ensures { OnOk result (numbers.new.items
        ≡ (if list_any (λ k. nat_eq k number) numbers.old.items then numbers.old.items
        else (numbers.old.items ++ number ∷ []))) }
{
    if numbers.contains(&number) {
        return Ok(());
    }
    numbers.push(number)?;
    Ok(())
}

/// The numbers of a union's members, each once.
fn members(alloc: Global, variables: &[Text], names: &[Name]) -> Result<Vec<usize>, CheckFault>
    ensures { FirstFaultOr (each (member_faults variables.now) names.now)
        (λ numbers. numbers.items ≡ with_members variables.now [] names.now) result }
{
    let mut numbers = Vec::new(alloc);
    for i in 0..names.len() {
        let number = member(variables, &names[i])?;
        add_number(&mut numbers, number)?;
    }
    Ok(numbers)
}

fn has_union(name: &Text, unions: &[Union]) -> bool
    ensures { result ≡ list_any (λ x. is_name name.now x.name.text) unions.now }
{
    unions.iter().any(|union| union.name.text == *name)
}

/// Whether one of these unions has the name.
fn is_union(name: &Text, unions: &[Union]) -> bool
    ensures { result ≡ is_among name.now (map (λ u. u.name.text) (map union_tree unions.now)) }
{
    has_union(name, unions)
}

/// Whether a variable or one of these unions has the name.
fn is_known(name: &Text, variables: &[Text], unions: &[Union]) -> bool
    ensures { result ≡ (is_among name.now variables.now
        || is_among name.now (map (λ u. u.name.text) (map union_tree unions.now))) }
{
    is_variable(name, variables) || is_union(name, unions)
}

/// A union behind these.
fn union_set(
    alloc: Global,
    variables: &[Text],
    earlier: &[Union],
    union: &Union,
) -> Result<NamedSet, CheckFault>
    ensures { FirstFaultOr (union_faults variables.now (map union_tree earlier.now) (union_tree union.now))
        (λ s. naming_of s ≡ union_of variables.now (union_tree union.now)) result }
{
    let is_double = is_known(&union.name.text, variables, earlier);
    require(!is_double, CheckKind::DoubleName, union.name.at)?;
    let members = members(alloc, variables, union.members.as_slice())?;
    let name = union.name.text.share()?;
    Ok(NamedSet { name, members })
}

/// The unions, behind the sets before them.
pub fn add_unions(
    alloc: Global,
    variables: &[Text],
    sets: &mut Vec<NamedSet>,
    unions: &[Union],
) -> Result<(), CheckFault>
    ensures { FirstFaultOr (each (union_faults variables.now) (map union_tree unions.now))
        (λ u. map naming_of sets.new.items
        ≡ map naming_of sets.old.items ++ map (union_of variables.now) (map union_tree unions.now)) result }
{
    for i in 0..unions.len() {
        let set = union_set(alloc, variables, &unions[..i], &unions[i])?;
        sets.push(set)?;
    }
    Ok(())
}

/// The number of a column, from 1, which isn't listed twice.
fn listed_column(columns: &[Column], name: &Name, is_double: bool) -> Result<usize, CheckFault>
    ensures { FirstFaultOr (unless (is_some (column_named name.now.text columns.now)) UnknownColumn name.now.at
        ++ unless (not is_double) DoubleName name.now.at)
        (λ number. number ≡ number_at (column_named name.now.text columns.now)) result }
{
    match column_named(&name.text, columns) {
        Some(place) => {
            require(!is_double, CheckKind::DoubleName, name.at)?;
            Ok(place + 1)
        }
        None => Err(fault(CheckKind::UnknownColumn, name.at)),
    }
}

/// A column of PARTITION BY behind these.
fn partition_column(columns: &[Column], earlier: &[Name], name: &Name) -> Result<usize, CheckFault>
    ensures { FirstFaultOr (partition_faults columns.now earlier.now name.now)
        (λ number. number ≡ number_at (column_named name.now.text columns.now)) result }
{
    let is_double = is_among(&name.text, earlier);
    listed_column(columns, name, is_double)
}

/// The columns of PARTITION BY, by number from 1.
pub fn partition_columns(
    alloc: Global,
    columns: &[Column],
    partition: &[Name],
) -> Result<Vec<usize>, CheckFault>
    ensures { FirstFaultOr (each (partition_faults columns.now) partition.now)
        (λ numbers. numbers.items ≡ map (λ n. number_at (column_named n.text columns.now)) partition.now) result }
{
    let mut numbers = Vec::new(alloc);
    for i in 0..partition.len() {
        let number = partition_column(columns, &partition[..i], &partition[i])?;
        numbers.push(number)?;
    }
    Ok(numbers)
}

fn has_order(name: &Text, order: &[Order]) -> bool
    ensures { result ≡ list_any (λ x. is_name name.now x.name.text) order.now }
{
    order.iter().any(|other| other.name.text == *name)
}

/// Whether the rows are ordered by a column of this name.
fn is_ordered(name: &Text, order: &[Order]) -> bool
    ensures { result ≡ is_among name.now (map (λ n. n.text) (map (λ o. o.name) order.now)) }
{
    has_order(name, order)
}

/// Whether the partition or one of these has the column.
pub(crate) fn is_taken(name: &Text, partition: &[Name], order: &[Order]) -> bool
    ensures { result ≡ (is_among name.now (map (λ n. n.text) partition.now)
        || is_among name.now (map (λ n. n.text) (map (λ o. o.name) order.now))) }
{
    is_among(name, partition) || is_ordered(name, order)
}

/// A column of ORDER BY behind these.
fn ordered_by(
    columns: &[Column],
    partition: &[Name],
    earlier: &[Order],
    order: &Order,
) -> Result<OrderColumn, CheckFault>
    ensures { FirstFaultOr (order_faults columns.now partition.now (map (λ o. o.name) earlier.now) order.now.name)
        (λ o. o ≡ order_column columns.now order.now) result }
{
    let is_double = is_taken(&order.name.text, partition, earlier);
    let column = listed_column(columns, &order.name, is_double)?;
    let descending = order.descending;
    Ok(OrderColumn { column, descending })
}

/// The columns of ORDER BY, none of which is the partition's.
pub fn order_columns(
    alloc: Global,
    columns: &[Column],
    partition: &[Name],
    order: &[Order],
) -> Result<Vec<OrderColumn>, CheckFault>
    ensures { FirstFaultOr (each (order_faults columns.now partition.now) (map (λ o. o.name) order.now))
        (λ os. os.items ≡ map (order_column columns.now) order.now) result }
{
    let mut numbers = Vec::new(alloc);
    for i in 0..order.len() {
        let column = ordered_by(columns, partition, &order[..i], &order[i])?;
        numbers.push(column)?;
    }
    Ok(numbers)
}

fn has_definition(name: &Text, definitions: &[Definition]) -> bool
    ensures { result ≡ list_any (λ x. is_name name.now x.name.text) definitions.now }
{
    definitions.iter().any(|other| other.name.text == *name)
}

/// Whether one of these defines the variable.
fn is_defined(name: &Text, definitions: &[Definition]) -> bool
    ensures { result ≡ is_among name.now (map (λ d. d.name.text) (map definition_tree definitions.now)) }
{
    has_definition(name, definitions)
}

/// A definition is of a variable that isn't defined before.
fn allow_definition(
    variables: &[Text],
    earlier: &[Definition],
    definition: &Definition,
) -> Result<(), CheckFault>
    ensures { FirstFaultOr
        (defined_faults variables.now (map definition_tree earlier.now) (definition_tree definition.now))
        (λ u. Unit {0}) result }
{
    member(variables, &definition.name)?;
    let is_double = is_defined(&definition.name.text, earlier);
    require(!is_double, CheckKind::DoubleName, definition.name.at)
}

/// Each definition is of a variable, and of another.
pub fn allow_definitions(variables: &[Text], definitions: &[Definition]) -> Result<(), CheckFault>
    ensures { FirstFaultOr (each (defined_faults variables.now) (map definition_tree definitions.now))
        (λ u. Unit {0}) result }
{
    for i in 0..definitions.len() {
        allow_definition(variables, &definitions[..i], &definitions[i])?;
    }
    Ok(())
}

fn has_measure(name: &Text, measures: &[Measure]) -> bool
    ensures { result ≡ list_any (λ x. is_name name.now x.name.text) measures.now }
{
    measures.iter().any(|other| other.name.text == *name)
}

/// Whether a measure of these has the name.
fn is_measure(name: &Text, measures: &[Measure]) -> bool
    ensures { result ≡ is_among name.now (map (λ m. m.name.text) (map measure_tree measures.now)) }
{
    has_measure(name, measures)
}

fn has_column(name: &Text, columns: &[Column]) -> bool
    ensures { result ≡ list_any (λ x. is_name name.now x.name) columns.now }
{
    columns.iter().any(|column| column.name == *name)
}

/// Whether a column of the table has the name.
fn is_column(name: &Text, columns: &[Column]) -> bool
    ensures { result ≡ is_among name.now (map (λ c. c.name) columns.now) }
{
    has_column(name, columns)
}

/// Whether a column of the table that stands in the output has the name.
fn is_shown(name: &Text, rows: RowsPerMatch, partition: &[Name], columns: &[Column]) -> bool
    ensures { result ≡ is_among name.now (shown_names rows partition.now columns.now) }
{
    match rows {
        RowsPerMatch::One => is_among(name, partition),
        RowsPerMatch::AllShowEmpty => is_column(name, columns),
        RowsPerMatch::AllOmitEmpty => is_column(name, columns),
        RowsPerMatch::AllWithUnmatched => is_column(name, columns),
    }
}

/// A measure behind these has a name that nothing else in the output has.
fn allow_measure(
    rows: RowsPerMatch,
    partition: &[Name],
    columns: &[Column],
    earlier: &[Measure],
    measure: &Measure,
) -> Result<(), CheckFault>
    ensures { FirstFaultOr
        (output_faults (shown_names rows partition.now columns.now) (map measure_tree earlier.now)
        (measure_tree measure.now))
        (λ u. Unit {0}) result }
{
    let name = &measure.name;
    let is_double = is_given(&name.text, rows, partition, columns, earlier);
    require(!is_double, CheckKind::DoubleName, name.at)
}

/// Whether something else in the output has the name.
fn is_given(
    name: &Text,
    rows: RowsPerMatch,
    partition: &[Name],
    columns: &[Column],
    earlier: &[Measure],
) -> bool
    ensures { result ≡ (is_among name.now (shown_names rows partition.now columns.now)
        || is_among name.now (map (λ m. m.name.text) (map measure_tree earlier.now))) }
{
    is_shown(name, rows, partition, columns) || is_measure(name, earlier)
}

/// Each measure has a name that nothing else in the output has.
pub fn allow_measures(
    rows: RowsPerMatch,
    partition: &[Name],
    columns: &[Column],
    measures: &[Measure],
) -> Result<(), CheckFault>
    ensures { FirstFaultOr
        (each (output_faults (shown_names rows partition.now columns.now)) (map measure_tree measures.now))
        (λ u. Unit {0}) result }
{
    for i in 0..measures.len() {
        allow_measure(rows, partition, columns, &measures[..i], &measures[i])?;
    }
    Ok(())
}
