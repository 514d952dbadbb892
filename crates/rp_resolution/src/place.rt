//! Columns, navigations and aggregates.

ghost use Rattle.std.specs.Prelude.{◌≡◌, ◌++◌, true, map, length, Some, IsTrue, IfOk, IfErr, OnOk, nat_le};
ghost use Rattle.rp_tree.specs.Paths.{path_of, At, Move};
ghost use Rattle.rp_query.specs.Formulas.{members_of, plain_total};
ghost use Rattle.rp_resolution.specs.Context.{context_of, members_named};
ghost use Rattle.rp_resolution.specs.Sorts.{Valued, column_sort};
ghost use Rattle.rp_resolution.specs.ExprFaults.{unless, variable_faults, qualifier_faults, column_faults, scope_faults, nesting_faults, offset_faults, path_faults, counted_faults, sum_faults, function_faults, is_step, may_hold, scope_in};
ghost use Rattle.rp_resolution.specs.Resolved.{unqualified, members_meant, column_number, column_place, moved, rows_or, is_final, listing_total, rows_meant};
ghost use Rattle.rp_resolution.specs.Checked.{FirstFaultOr, IsTotalOf, Navigates};

use crate::fault::{CheckFault, CheckKind, Fault};
use crate::names::{Names, among, column_named, set_named};
use rp_grammar::Name;
use rp_query::{Edge, Function, Navigation, RowsOf, Step, Total, Variables};
use rp_tree::{AggregateFunction, Column, Counted, Movement, Navigation as Path, Offset, Scope};
use rp_value::Kind;
use std::alloc::Global;

/// The greatest offset of a navigation.
const MAX_OFFSET: u64 = 1000;

/// The fault of this kind at this offset.
pub(crate) fn fault(kind: CheckKind, offset: usize) -> CheckFault
    ensures { result ≡ CheckFault.Fault (record { kind = kind; offset = offset }) }
{
    CheckFault::Fault(Fault { kind, offset })
}

/// A fault unless the test holds.
pub(crate) fn require(test: bool, kind: CheckKind, offset: usize) -> Result<(), CheckFault>
    ensures { FirstFaultOr (unless test kind offset) (λ u. test ≡ true) result }
{
    if test {
        return Ok(());
    }
    Err(fault(kind, offset))
}

/// The rows of a pattern variable or a union.
pub(crate) fn variables(alloc: Global, names: &Names, name: &Name) -> Result<Variables, CheckFault>
    ensures { FirstFaultOr (variable_faults (context_of names.now) name.now)
        (λ v. members_of v ≡ members_named name.now.text (context_of names.now).sets) result }
{
    match set_named(&name.text, names.sets) {
        Some(set) => among(alloc, set),
        None => Err(fault(CheckKind::UnknownVariable, name.at)),
    }
}

/// The rows that a qualifier means.
fn qualified(
    alloc: Global,
    names: &Names,
    qualifier: &Option<Name>,
) -> Result<Variables, CheckFault>
    ensures { FirstFaultOr (qualifier_faults (context_of names.now) qualifier.now)
        (λ v. members_of v ≡ members_meant (context_of names.now) qualifier.now) result }
{
    match qualifier {
        Some(name) => variables(alloc, names, name),
        None => Ok(Variables::Universal),
    }
}

/// The number of a column, from 1, and its kind.
fn column_of(names: &Names, name: &Name) -> Result<(usize, Kind), CheckFault>
    ensures { let x = context_of names.now in
        FirstFaultOr (column_faults x (unqualified name.now))
        (λ c. (c.0 ≡ column_number x (unqualified name.now))
        × (column_sort x (unqualified name.now) ≡ Some (Valued c.1))) result }
{
    match column_named(&name.text, names.columns) {
        Some(k) => Ok((k + 1, names.columns[k].kind)),
        None => Err(fault(CheckKind::UnknownColumn, name.at)),
    }
}

/// Whose rows a column reference means, the column's number, and its kind.
fn column(
    alloc: Global,
    names: &Names,
    column: &Column,
) -> Result<(Variables, usize, Kind), CheckFault>
    ensures { let x = context_of names.now in
        FirstFaultOr (column_faults x column.now)
        (λ c. (members_of c.0 ≡ members_meant x column.now.qualifier)
        × (c.1 ≡ column_number x column.now) × (column_sort x column.now ≡ Some (Valued c.2))) result }
{
    let variables = qualified(alloc, names, &column.qualifier)?;
    let (number, kind) = column_of(names, &column.name)?;
    Ok((variables, number, kind))
}

/// FINAL may not stand in DEFINE.
pub(crate) fn allow_scope(names: &Names, scope: Option<Scope>) -> Result<(), CheckFault>
    ensures { FirstFaultOr (scope_faults (context_of names.now) scope) (λ u. Unit {0}) result }
{
    match scope {
        Some(scope) => {
            let allowed = !(scope.is_final && names.in_define);
            require(allowed, CheckKind::FinalInDefine, scope.at)?;
            Ok(())
        }
        None => Ok(()),
    }
}

/// RUNNING or FINAL before a navigation.
fn scope_in(movement: Movement) -> Option<Scope>
    ensures { result ≡ scope_in movement }
{
    match movement {
        Movement::Prev | Movement::Next => None,
        Movement::First(scope) => scope,
        Movement::Last(scope) => scope,
    }
}

/// Whether it goes over rows of the partition.
fn is_step(movement: Movement) -> bool
    ensures { result ≡ is_step movement }
{
    match movement {
        Movement::Prev | Movement::Next => true,
        Movement::First(_) | Movement::Last(_) => false,
    }
}

/// FIRST and LAST alone may stand in a navigation, and in PREV and NEXT alone.
fn allow_nesting(outer: Movement, argument: &Path) -> Result<(), CheckFault>
    ensures { FirstFaultOr (nesting_faults outer (path_of argument.now)) (λ u. Unit {0}) result }
{
    match argument {
        Path::Column(_) => Ok(()),
        Path::Move { movement, at, .. } => {
            let allowed = is_step(outer) && !is_step(*movement);
            require(allowed, CheckKind::NestedNavigation, *at)?;
            Ok(())
        }
    }
}

/// Offsets are at most 1,000.
fn allow_offset(offset: Option<Offset>) -> Result<(), CheckFault>
    ensures { FirstFaultOr (offset_faults offset) (λ u. Unit {0}) result }
{
    match offset {
        Some(offset) => require(offset.rows <= MAX_OFFSET, CheckKind::BadBounds, offset.at),
        None => Ok(()),
    }
}

fn rows_or(default: u64, offset: Option<Offset>) -> u64
    ensures { result ≡ rows_or default offset }
{
    match offset {
        Some(offset) => offset.rows,
        None => default,
    }
}

pub(crate) fn is_final(scope: Option<Scope>) -> bool
    ensures { result ≡ is_final scope }
{
    match scope {
        Some(scope) => scope.is_final,
        None => false,
    }
}

/// A navigation round what is in its brackets.
fn moved(movement: Movement, offset: Option<Offset>, inner: Navigation) -> Navigation
    ensures { result ≡ moved movement offset inner }
{
    match movement {
        Movement::Prev => Navigation {
            step: Step::Back(rows_or(1, offset)),
            ..inner
        },
        Movement::Next => Navigation {
            step: Step::Ahead(rows_or(1, offset)),
            ..inner
        },
        Movement::First(scope) => Navigation {
            edge: Edge::First,
            places: rows_or(0, offset),
            is_final: is_final(scope),
            ..inner
        },
        Movement::Last(scope) => Navigation {
            edge: Edge::Last,
            places: rows_or(0, offset),
            is_final: is_final(scope),
            ..inner
        },
    }
}

/// What is in the brackets of a navigation is resolved, and the navigation round it.
#[cycle(navigation)]
fn moved_path(
    alloc: Global,
    names: &Names,
    totals: &mut Vec<Total>,
    movement: Movement,
    argument: &Path,
    offset: Option<Offset>,
) -> Result<(Navigation, Kind), CheckFault>
    ensures { let path = Move movement 0 (path_of argument.now) offset in
        FirstFaultOr (path_faults (context_of names.now) path)
        (Navigates (context_of names.now) (map plain_total totals.old.items) path (map plain_total totals.new.items))
        result }
{
    allow_scope(names, scope_in(movement))?;
    allow_nesting(movement, argument)?;
    let (inner, kind) = navigation(alloc, names, totals, argument)?;
    allow_offset(offset)?;
    Ok((moved(movement, offset, inner), kind))
}

/// The rows among which a navigation goes. Those of named variables get a total that lists them.
fn rows_of(totals: &mut Vec<Total>, variables: Variables) -> Result<RowsOf, CheckFault>
    ensures rows { IfOk result
        (λ rows. rows ≡ rows_meant (length (map plain_total totals.old.items)) (members_of variables)) }
    ensures totals { OnOk result
        (map plain_total totals.new.items ≡ map plain_total totals.old.items ++ listing_total (members_of variables)) }
    ensures refused { IfErr result (λ e. e ≡ CheckFault.OutOfMemory) }
{
    match variables {
        Variables::Universal => Ok(RowsOf::Universal),
        Variables::Among(members) => {
            let number = totals.len();
            totals.push(Total {
                variables: Variables::Among(members),
                function: Function::Listed,
            })?;
            Ok(RowsOf::Listed(number))
        }
    }
}

/// A column alone: that of the last row.
fn plain(
    alloc: Global,
    names: &Names,
    totals: &mut Vec<Total>,
    reference: &Column,
) -> Result<(Navigation, Kind), CheckFault>
    ensures { FirstFaultOr (column_faults (context_of names.now) reference.now)
        (Navigates (context_of names.now) (map plain_total totals.old.items) (At reference.now)
        (map plain_total totals.new.items)) result }
{
    let (variables, column, kind) = column(alloc, names, reference)?;
    let rows_of = rows_of(totals, variables)?;
    let place = Navigation {
        rows_of,
        is_final: false,
        edge: Edge::Last,
        places: 0,
        step: Step::Ahead(0),
        column,
    };
    Ok((place, kind))
}

/// A navigation with its names resolved, and the kind of its column.
#[cycle(navigation)]
pub(crate) fn navigation(
    alloc: Global,
    names: &Names,
    totals: &mut Vec<Total>,
    path: &Path,
) -> Result<(Navigation, Kind), CheckFault>
    ensures { FirstFaultOr (path_faults (context_of names.now) (path_of path.now))
        (Navigates (context_of names.now) (map plain_total totals.old.items) (path_of path.now)
        (map plain_total totals.new.items)) result }
{
    match path {
        Path::Column(reference) => plain(alloc, names, totals, reference),
        Path::Move {
            movement,
            argument,
            offset,
            ..
        } => moved_path(alloc, names, totals, *movement, &**argument, *offset),
    }
}

/// The total of COUNT.
fn counted(alloc: Global, names: &Names, argument: &Counted) -> Result<(Total, Kind), CheckFault>
    ensures { let x = context_of names.now in
        FirstFaultOr (counted_faults x argument.now) (IsTotalOf x (AggregateFunction.Count argument.now)) result }
{
    match argument {
        Counted::Rows => {
            let variables = Variables::Universal;
            let function = Function::Rows;
            Ok((
                Total {
                    variables,
                    function,
                },
                Kind::Int,
            ))
        }
        Counted::RowsOf(name) => {
            let variables = variables(alloc, names, name)?;
            let function = Function::Rows;
            Ok((
                Total {
                    variables,
                    function,
                },
                Kind::Int,
            ))
        }
        Counted::Column(reference) => {
            let (variables, number, _) = column(alloc, names, reference)?;
            let function = Function::Count(number);
            Ok((
                Total {
                    variables,
                    function,
                },
                Kind::Int,
            ))
        }
    }
}

/// The total of SUM of a column, which must be of whole numbers.
fn summed(
    alloc: Global,
    names: &Names,
    at: usize,
    reference: &Column,
) -> Result<(Total, Kind), CheckFault>
    ensures { let x = context_of names.now in
        FirstFaultOr (sum_faults x at reference.now) (IsTotalOf x (AggregateFunction.Sum reference.now)) result }
{
    let (variables, number, kind) = column(alloc, names, reference)?;
    require(kind == Kind::Int, CheckKind::KindMismatch, at)?;
    let function = Function::Sum(number);
    Ok((
        Total {
            variables,
            function,
        },
        Kind::Int,
    ))
}

/// The total of MIN of a column, and the kind of the column.
fn least(alloc: Global, names: &Names, reference: &Column) -> Result<(Total, Kind), CheckFault>
    ensures { let x = context_of names.now in
        FirstFaultOr (column_faults x reference.now) (IsTotalOf x (AggregateFunction.Min reference.now)) result }
{
    let (variables, number, kind) = column(alloc, names, reference)?;
    let function = Function::Least(number);
    Ok((
        Total {
            variables,
            function,
        },
        kind,
    ))
}

/// The total of MAX of a column, and the kind of the column.
fn greatest(alloc: Global, names: &Names, reference: &Column) -> Result<(Total, Kind), CheckFault>
    ensures { let x = context_of names.now in
        FirstFaultOr (column_faults x reference.now) (IsTotalOf x (AggregateFunction.Max reference.now)) result }
{
    let (variables, number, kind) = column(alloc, names, reference)?;
    let function = Function::Greatest(number);
    Ok((
        Total {
            variables,
            function,
        },
        kind,
    ))
}

/// The total of an aggregate whose word stands at the offset, and the kind of its value.
pub(crate) fn totalled(
    alloc: Global,
    names: &Names,
    at: usize,
    function: &AggregateFunction,
) -> Result<(Total, Kind), CheckFault>
    ensures { FirstFaultOr (function_faults (context_of names.now) at function.now)
        (IsTotalOf (context_of names.now) function.now) result }
{
    match function {
        AggregateFunction::Count(argument) => counted(alloc, names, argument),
        AggregateFunction::Sum(reference) => summed(alloc, names, at, reference),
        AggregateFunction::Min(reference) => least(alloc, names, reference),
        AggregateFunction::Max(reference) => greatest(alloc, names, reference),
    }
}
