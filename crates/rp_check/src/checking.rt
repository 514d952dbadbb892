//! A clause is checked, and becomes a query.

ghost use Rattle.std.specs.Prelude.{◌≡◌, [], true, false, IfOk, IfErr};
ghost use Rattle.rp_query.specs.Sound.{IsSound};
ghost use Rattle.rp_tree.specs.Clauses.{clause_tree};
ghost use Rattle.rp_resolution.specs.Checked.{FirstFaultOr, Tells};
ghost use Rattle.rp_resolution.specs.Queries.{rows_shown};
ghost use Rattle.rp_resolution.specs.PartFaults.{each, union_faults};
ghost use Rattle.rp_check.specs.ClauseFaults.{faults, name_faults, listing_faults, expression_faults, shown_faults};
ghost use Rattle.rp_check.specs.QueryOf.{IsQueryOf};
ghost use Rattle.rp_check.specs.Checking.{AreSetsAndClasses, IsNamed, ArePlaces, IsPlanned, IsMadeOf, spoken};

use rp_query::{
    Condition, Expr, OrderColumn, OutputColumn, Plan, Query, QueryData, RowsPerMatch as RowsShown,
    SkipTo, Total,
};
use rp_resolution::{
    CheckFault, NamedSet, Names, add_unions, allow_definitions, allow_measures, allow_unmatched,
    classes, conditions, definition_places, measures, order_columns, output_of, partition_columns,
    read, skip_to, variable_sets, whole_reach,
};
use rp_tree::{Clause, RowsPerMatch};
use rp_value::{Column, Table, Text, Value};
use rp_words::Pattern;
use std::alloc::{AllocError, Global};
use std::mem;
use std::rc::Rc;

/// The pattern, and the names of variables and unions.
#[derive(Drop)]
pub(crate) struct Named {
    pub(crate) pattern: Pattern,
    pub(crate) variables: Vec<Text>,
    pub(crate) sets: Vec<NamedSet>,
    pub(crate) classes: Rc<Vec<Value>>,
}

/// The columns of PARTITION BY and ORDER BY, and the place of each variable's definition.
#[derive(Drop)]
pub(crate) struct Places {
    pub(crate) partition: Vec<usize>,
    pub(crate) order: Vec<OrderColumn>,
    pub(crate) definitions: Vec<Option<usize>>,
}

/// The expressions with names resolved.
#[derive(Drop)]
pub(crate) struct Planned {
    pub(crate) measures: Vec<Expr>,
    /// The measures as columns of the output.
    pub(crate) shown: Vec<OutputColumn>,
    pub(crate) conditions: Vec<Condition>,
    pub(crate) skip: SkipTo,
    pub(crate) totals: Rc<Vec<Total>>,
}

/// What the pattern and SUBSET name, or their first fault.
fn name_all(alloc: Global, clause: &Clause) -> Result<Box<Named>, CheckFault>
    ensures { FirstFaultOr (name_faults (clause_tree clause.now)) (λ n. IsNamed (clause_tree clause.now) n.value)
        result }
{
    let mut variables = Vec::new(alloc);
    let form = read(alloc, &mut variables, &clause.pattern)?;
    let (sets, classes) = sets_and_classes(alloc, variables.as_slice(), clause)?;
    let pattern = Pattern::new(form);
    let named = Box::new(
        alloc,
        Named {
            pattern,
            variables,
            sets,
            classes,
        },
    )?;
    Ok(named)
}

/// The sets of these variables and the unions of SUBSET, and what CLASSIFIER gives; or the first fault of SUBSET.
fn sets_and_classes(
    alloc: Global,
    variables: &[Text],
    clause: &Clause,
) -> Result<(Vec<NamedSet>, Rc<Vec<Value>>), CheckFault>
    ensures { let subsets = (clause_tree clause.now).subsets in
        FirstFaultOr (each (union_faults variables.now) subsets)
        (λ p. AreSetsAndClasses variables.now subsets p.0.items p.1.value.items) result }
{
    let mut sets = variable_sets(alloc, variables)?;
    add_unions(alloc, variables, &mut sets, clause.subsets.as_slice())?;
    let classes = classes(alloc, variables)?;
    let classes = Rc::new(alloc, classes)?;
    Ok((sets, classes))
}

/// Where the names of PARTITION BY, ORDER BY and DEFINE stand, or their first fault.
fn list_all(
    alloc: Global,
    variables: &[Text],
    columns: &[Column],
    clause: &Clause,
) -> Result<Box<Places>, CheckFault>
    ensures { FirstFaultOr (listing_faults variables.now columns.now (clause_tree clause.now))
        (λ l. ArePlaces variables.now columns.now (clause_tree clause.now) l.value) result }
{
    let partition = partition_columns(alloc, columns, clause.partition.as_slice())?;
    let order = order_columns(
        alloc,
        columns,
        clause.partition.as_slice(),
        clause.order.as_slice(),
    )?;
    allow_definitions(variables, clause.definitions.as_slice())?;
    let definitions = definition_places(alloc, variables, clause.definitions.as_slice())?;
    let places = Box::new(
        alloc,
        Places {
            partition,
            order,
            definitions,
        },
    )?;
    Ok(places)
}

/// The expressions of MEASURES and DEFINE and the skip's variable, resolved, or their first fault.
fn plan_all(
    alloc: Global,
    sets: &[NamedSet],
    columns: &[Column],
    classes: &Rc<Vec<Value>>,
    clause: &Clause,
) -> Result<Box<Planned>, CheckFault>
    ensures { let measuring = spoken sets.now columns.now classes.now false in
        let defining = spoken sets.now columns.now classes.now true in
        FirstFaultOr (expression_faults measuring defining (clause_tree clause.now))
        (λ p. IsPlanned measuring defining (clause_tree clause.now) p.value) result }
{
    let measuring = Names {
        sets,
        columns,
        in_define: false,
        classes,
    };
    let defining = Names {
        sets,
        columns,
        in_define: true,
        classes,
    };
    let mut totals = Vec::new(alloc);
    let mut shown = Vec::new(alloc);
    let measures = measures(
        alloc,
        &measuring,
        &mut totals,
        &mut shown,
        clause.measures.as_slice(),
    )?;
    let conditions = conditions(alloc, &defining, &mut totals, clause.definitions.as_slice())?;
    let totals = Rc::new(alloc, totals)?;
    let skip = skip_to(alloc, &measuring, &clause.skip)?;
    let planned = Box::new(
        alloc,
        Planned {
            measures,
            shown,
            conditions,
            skip,
            totals,
        },
    )?;
    Ok(planned)
}

/// What the output has is named once, and unmatched rows and exclusion don't stand together.
fn allow_output(columns: &[Column], clause: &Clause) -> Result<(), CheckFault>
    ensures { FirstFaultOr (shown_faults columns.now (clause_tree clause.now)) (λ u. Unit {0}) result }
{
    allow_unmatched(clause.rows, &clause.pattern)?;
    allow_measures(
        clause.rows,
        clause.partition.as_slice(),
        columns,
        clause.measures.as_slice(),
    )?;
    Ok(())
}

/// The query of a clause over a table, or the first of the clause's faults.
///
/// The faults are looked for in this order: the pattern's bounds and PERMUTEs; SUBSET; PARTITION BY and ORDER BY; the
/// names of DEFINE; the expressions of MEASURES and then of DEFINE; the skip's variable; exclusion with unmatched rows;
/// the names of measures. `OutOfMemory` may come before any of them.
pub fn check(alloc: Global, clause: Clause, table: &Table) -> Result<Query, CheckFault>
    ensures clean { IfOk result (λ query. faults (clause_tree clause) table.now ≡ []) }
    ensures query { IfOk result (λ query. IsQueryOf (clause_tree clause) clause.text table.now query) }
    ensures refused { IfErr result (λ fault. Tells fault (faults (clause_tree clause) table.now)) }
{
    query_of(alloc, &clause, table)
}

/// The same, of a clause that is lent.
fn query_of(alloc: Global, clause: &Clause, table: &Table) -> Result<Query, CheckFault>
    ensures { FirstFaultOr (faults (clause_tree clause.now) table.now)
        (λ query. IsQueryOf (clause_tree clause.now) clause.now.text table.now query) result }
{
    let data = checked(alloc, clause, table)?;
    let query = Query::new(alloc, data)?;
    Ok(query)
}

/// The data of the clause's query, or the first of the clause's faults.
fn checked(alloc: Global, clause: &Clause, table: &Table) -> Result<QueryData, CheckFault>
    ensures { FirstFaultOr (faults (clause_tree clause.now) table.now)
        (λ d. IsQueryOf (clause_tree clause.now) clause.now.text table.now d × IsSound d) result }
{
    let columns = table.columns();
    let named = name_all(alloc, clause)?;
    let known = &*named;
    let places = list_all(alloc, known.variables.as_slice(), columns, clause)?;
    let planned = plan_all(
        alloc,
        known.sets.as_slice(),
        columns,
        &known.classes,
        clause,
    )?;
    allow_output(columns, clause)?;
    let data = assembled(alloc, clause, table, named, places, planned)?;
    Ok(data)
}

/// Which rows a match gives.
fn rows_shown(rows: RowsPerMatch) -> RowsShown
    ensures { result ≡ rows_shown rows }
{
    match rows {
        RowsPerMatch::One => RowsShown::One,
        RowsPerMatch::AllShowEmpty => RowsShown::AllShowEmpty,
        RowsPerMatch::AllOmitEmpty => RowsShown::AllOmitEmpty,
        RowsPerMatch::AllWithUnmatched => RowsShown::AllWithUnmatched,
    }
}

/// The data of the query, of what was found.
fn assembled(
    alloc: Global,
    clause: &Clause,
    table: &Table,
    named: Box<Named>,
    places: Box<Places>,
    mut planned: Box<Planned>,
) -> Result<QueryData, AllocError>
    ensures { IfOk result
        (IsMadeOf (clause_tree clause.now) clause.now.text table.now named.value places.value planned.value) }
{
    let text = clause.text.share()?;
    let table = table.share()?;
    let shown = mem::replace(&mut planned.shown, Vec::new(alloc));
    let output = output_of(alloc, clause, table.columns(), shown)?;
    let named = Box::into_inner(named);
    let places = Box::into_inner(places);
    let planned = Box::into_inner(planned);
    let reach = whole_reach(planned.measures.as_slice(), planned.conditions.as_slice());
    let plan = Plan {
        measures: planned.measures,
        rows: rows_shown(clause.rows),
        skip: planned.skip,
        conditions: planned.conditions,
        definitions: places.definitions,
        totals: planned.totals,
    };
    Ok(QueryData {
        text,
        table,
        pattern: named.pattern,
        variables: named.variables,
        output,
        reach,
        partition: places.partition,
        order: places.order,
        plan,
    })
}
