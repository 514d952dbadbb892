//! The expressions of MEASURES and DEFINE, and the skip's variable.

ghost use Rattle.std.specs.Prelude.{◌≡◌, map, IfOk};
ghost use Rattle.rp_tree.specs.Terms.{term_of};
ghost use Rattle.rp_tree.specs.Clauses.{measure_tree, definition_tree};
ghost use Rattle.rp_query.specs.Formulas.{value_formula, condition_formula};
ghost use Rattle.rp_resolution.specs.Context.{context_of};
ghost use Rattle.rp_resolution.specs.PartFaults.{each, value_faults, condition_faults, measure_faults, definition_faults, skip_faults};
ghost use Rattle.rp_resolution.specs.Queries.{AreFound, AreMeasured, IsFound, IsMeasured, terms_of_definitions, rule_meant};
ghost use Rattle.rp_query.specs.SkipRules.{rule_of};
ghost use Rattle.rp_resolution.specs.Checked.{FirstFaultOr, sort_known};
ghost use Rattle.rp_resolution.specs.Output.{value_kind};
ghost use Rattle.rp_query.specs.declared.query.Source.TheVariants as source;

use crate::expr::resolve;
use crate::fault::{CheckFault, CheckKind};
use crate::names::Names;
use crate::place::{fault, variables};
use crate::resolved::Resolved;
use rp_grammar::Name;
use rp_query::{Condition, Expr, OutputColumn, SkipTo, Source, Total};
use rp_tree::{Definition, Expr as Written, Measure, Skip};
use rp_value::Kind;
use std::alloc::{AllocError, Global};

/// A value of the clause, its names resolved.
#[derive(Drop)]
struct TypedExpr {
    expr: Expr,
    kind: Kind,
}

/// The kind of a value.
fn kind_in(operand: &Resolved) -> Kind
    ensures { result ≡ value_kind (sort_known operand.now) }
{
    match operand {
        Resolved::Value(_, kind) => *kind,
        Resolved::Condition(_) => Kind::Text,
    }
}

/// A measure's expression, which begins at the offset and must be a value, and its kind.
fn measured(
    alloc: Global,
    names: &Names,
    totals: &mut Vec<Total>,
    at: usize,
    expr: &Written,
) -> Result<TypedExpr, CheckFault>
    ensures { FirstFaultOr (value_faults (context_of names.now) (term_of expr.now) at)
        (λ e. IsMeasured (context_of names.now) totals.old.items totals.new.items (term_of expr.now)
        (value_formula e.expr) e.kind) result }
{
    let found = resolve(alloc, names, totals, expr)?;
    let kind = kind_in(&found);
    match found.into_value() {
        Some(expr) => Ok(TypedExpr {
            expr: Box::into_inner(expr),
            kind,
        }),
        None => Err(fault(CheckKind::KindMismatch, at)),
    }
}

/// A definition's expression, which begins at the offset and must be a condition.
fn defined(
    alloc: Global,
    names: &Names,
    totals: &mut Vec<Total>,
    at: usize,
    expr: &Written,
) -> Result<Condition, CheckFault>
    ensures { FirstFaultOr (condition_faults (context_of names.now) (term_of expr.now) at)
        (λ c. IsFound (context_of names.now) totals.old.items totals.new.items (term_of expr.now)
        (condition_formula c)) result }
{
    let found = resolve(alloc, names, totals, expr)?;
    match found.into_condition() {
        Some(condition) => Ok(Box::into_inner(condition)),
        None => Err(fault(CheckKind::KindMismatch, at)),
    }
}

/// The measures, with names resolved. Their totals are put behind those before them, and each is shown in the output.
pub fn measures(
    alloc: Global,
    names: &Names,
    totals: &mut Vec<Total>,
    shown: &mut Vec<OutputColumn>,
    written: &[Measure],
) -> Result<Vec<Expr>, CheckFault>
    ensures { FirstFaultOr (each (measure_faults (context_of names.now)) (map measure_tree written.now))
        (λ es. AreMeasured (context_of names.now) totals.old.items totals.new.items (map measure_tree written.now)
        (map value_formula es.items) shown.old.items shown.new.items) result }
{
    let mut exprs = Vec::new(alloc);
    for i in 0..written.len() {
        let measure = &written[i];
        let typed = measured(alloc, names, totals, measure.at, &measure.expr)?;
        let column = shown_as(&measure.name, typed.kind, i)?;
        exprs.push(typed.expr)?;
        shown.push(column)?;
    }
    Ok(exprs)
}

/// The measure at this place, as a column of the output.
fn shown_as(name: &Name, kind: Kind, place: usize) -> Result<OutputColumn, AllocError>
    ensures { IfOk result (λ o. o ≡ record { name = name.now.text; kind = kind; from = source.Measure place }) }
{
    let name = name.text.share()?;
    let from = Source::Measure(place);
    Ok(OutputColumn { name, kind, from })
}

/// The conditions of DEFINE, with names resolved. Their totals are put behind those before them.
pub fn conditions(
    alloc: Global,
    names: &Names,
    totals: &mut Vec<Total>,
    written: &[Definition],
) -> Result<Vec<Condition>, CheckFault>
    ensures { FirstFaultOr (each (definition_faults (context_of names.now)) (map definition_tree written.now))
        (λ cs. AreFound (context_of names.now) totals.old.items totals.new.items
        (terms_of_definitions (map definition_tree written.now)) (map condition_formula cs.items)) result }
{
    let mut conditions = Vec::new(alloc);
    for i in 0..written.len() {
        let definition = &written[i];
        let condition = defined(alloc, names, totals, definition.at, &definition.expr)?;
        conditions.push(condition)?;
    }
    Ok(conditions)
}

/// The skip rule, with its name resolved.
pub fn skip_to(alloc: Global, names: &Names, skip: &Skip) -> Result<SkipTo, CheckFault>
    ensures { FirstFaultOr (skip_faults (context_of names.now) skip.now)
        (λ s. rule_of s ≡ rule_meant (context_of names.now) skip.now) result }
{
    match skip {
        Skip::PastLastRow => Ok(SkipTo::PastLastRow),
        Skip::ToNextRow => Ok(SkipTo::NextRow),
        Skip::ToFirst(name) => Ok(SkipTo::First(variables(alloc, names, name)?)),
        Skip::ToLast(name) => Ok(SkipTo::Last(variables(alloc, names, name)?)),
    }
}
