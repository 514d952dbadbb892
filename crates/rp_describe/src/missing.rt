//! A variable that a condition looks at, and that has no row then.
ghost use Rattle.std.specs.Prelude.{◌≡◌, IfSome, Some, true, option_copied};
ghost use Rattle.std.specs.List.{AllByRecursion};
ghost use Rattle.rp_words.specs.PatternForm.{form_of};
ghost use Rattle.rp_query.specs.QueryView.{totals_in};
ghost use Rattle.rp_query.specs.Definitions.{definition_of};
ghost use Rattle.rp_query.specs.Formulas.{condition_formula, value_formula};
ghost use Rattle.rp_query.specs.declared.plan.Condition.{Condition as Defined};
ghost use Rattle.rp_describe.specs.Missing.{AreMissing, IsMissing, LooksAtMissing, goes_among, members_in};

use crate::looks::{Looker, goes_from_first_row, looker_of};
use crate::precedes::may_precede;
use rp_query::{Condition, Expr, Navigation, Query, RowsOf, Total, Variables, goes_from_own_row};

/// A variable whose rows the condition of another looks at, and of which none comes before the other's in any word of the
/// pattern. The first of a union, where that holds of each.
pub fn missing_variable(query: &Query, variable: usize) -> Option<usize>
    ensures { IfSome result (λ other. (c : Defined) → definition_of query.now.plan variable ≡ Some c →
        LooksAtMissing (form_of query.now.pattern) (totals_in query.now) variable
        (condition_formula c) other) }
{
    let condition = query.definition(variable)?;
    missing_of(condition, &looker_of(query, variable))
}

/// The first in a condition.
fn missing_of(condition: &Condition, looker: &Looker<'_>) -> Option<usize>
    ensures { IfSome result
        (LooksAtMissing looker.now.form.now looker.now.totals.now looker.now.variable
        (condition_formula condition.now)) }
{
    match condition {
        Condition::Compare(_, left, right) => {
            missing_in(left, looker).or(missing_in(right, looker))
        }
        Condition::IsNull(operand) => missing_in(operand, looker),
        Condition::Not(inner) => missing_of(&**inner, looker),
        Condition::And(left, right) => {
            missing_of(&**left, looker).or(missing_of(&**right, looker))
        }
        Condition::Or(left, right) => {
            missing_of(&**left, looker).or(missing_of(&**right, looker))
        }
    }
}

/// The first in an expression.
fn missing_in(expr: &Expr, looker: &Looker<'_>) -> Option<usize>
    ensures { IfSome result
        (LooksAtMissing looker.now.form.now looker.now.totals.now looker.now.variable (value_formula expr.now)) }
{
    match expr {
        Expr::Navigation(navigation) => missing_by(navigation, looker),
        Expr::Arithmetic(_, left, right) => {
            missing_in(&**left, looker).or(missing_in(&**right, looker))
        }
        Expr::Aggregate { .. } | Expr::Literal(_) | Expr::MatchNumber | Expr::Classifier(_) => None,
    }
}

/// The first of the variables among whose rows a navigation goes.
fn missing_by(navigation: &Navigation, looker: &Looker<'_>) -> Option<usize>
    ensures { IfSome result
        (AreMissing looker.now.form.now looker.now.variable
        (goes_among looker.now.totals.now navigation.now.rows_of)) }
{
    if goes_from_own_row(navigation, looker.totals, looker.variable) {
        return None;
    }
    if goes_from_first_row(navigation, looker) {
        return None;
    }
    match navigation.rows_of {
        RowsOf::Universal => None,
        RowsOf::Listed(number) => missing_among(looker.totals.get(number), looker),
    }
}

/// The first of the variables whose rows a total is of.
fn missing_among(total: Option<&Total>, looker: &Looker<'_>) -> Option<usize>
    ensures { IfSome result
        (AreMissing looker.now.form.now looker.now.variable (members_in (option_copied total.entry))) }
{
    match &total?.variables {
        Variables::Universal => None,
        Variables::Among(members) => first_missing(members.as_slice(), looker),
    }
}

/// The first of some variables, where each is missing.
fn first_missing(members: &[usize], looker: &Looker<'_>) -> Option<usize>
    ensures { IfSome result (AreMissing looker.now.form.now looker.now.variable (Some members.now)) }
{
    if !are_missing(members, looker) {
        return None;
    }
    members.first().copied()
}

/// Whether each of some variables is missing.
fn are_missing(members: &[usize], looker: &Looker<'_>) -> bool
    ensures { result ≡ true → AllByRecursion (IsMissing looker.now.form.now looker.now.variable) members.now }
{
    for member in members {
        if *member == looker.variable {
            return false;
        }
        if may_precede(looker.form, *member, looker.variable) {
            return false;
        }
    }
    true
}
