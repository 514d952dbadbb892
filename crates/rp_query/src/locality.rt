//! What conditions depend on: on the row that is judged alone, or also on the first row of the match, which a variable may name.
ghost use Rattle.std.specs.Prelude.{◌≡◌, ◌↔◌, IfSome, IsTrue, nat_eq, option_copied, slice_get};
ghost use Rattle.std.specs.List.{list_all};
ghost use Rattle.rp_words.specs.PatternForm.{form_of};
ghost use Rattle.rp_query.specs.Formulas.{value_formula, condition_formula};
ghost use Rattle.rp_query.specs.Locality.{ConditionsAreLocal, IsLeaderOf, judges_locally, is_local, navigates_in, navigates_in_span, aggregates_in, goes_from_own_row, goes_from_leader, has_own_row, has_no_other, is_first, is_last, is_of_every_row, is_of_only, is_only, lists_rows_of};

use crate::plan::{Condition, Edge, Expr, Function, Navigation, RowsOf, Total, Variables};
use crate::query::{Plan, Query, QueryData};

/// Which rows of a match a condition may depend on. Rows of the partition are told by their distance from these.
#[derive(Clone, Copy)]
pub enum Locality {
    /// The row that is judged, which is mapped to the variable whose condition it is.
    Row,
    /// Every row from the match's first to the one that is judged, but not which of them are mapped to which variable.
    Span,
    /// The same of matches whose first row is mapped to this variable, and no other row where it stands alone. So a condition
    /// may also name the first row by it.
    Led {
        /// The variable that each match begins with.
        variable: usize,
        /// Whether no other row is mapped to it.
        alone: bool,
    },
}

/// A variable that each match begins with.
#[derive(Clone, Copy)]
pub struct Leader {
    /// Its number.
    pub variable: usize,
    /// Whether no other row is mapped to it.
    pub alone: bool,
}

impl Query {
    /// Whether no condition of DEFINE depends on more.
    pub fn is_local(&self, locality: Locality) -> bool
        ensures { IsTrue result ↔ ConditionsAreLocal locality self.now.plan }
    {
        self.plan().is_local(locality)
    }
}

impl Plan {
    /// Whether no condition of DEFINE depends on more.
    pub(crate) fn is_local(&self, locality: Locality) -> bool
        ensures { IsTrue result ↔ ConditionsAreLocal locality self.now }
    {
        for variable in 0..self.definitions.len() {
            if !judges_locally(self, locality, variable) {
                return false;
            }
        }
        true
    }
}

/// A variable that each match begins with. None: no such variable is known.
pub(crate) fn leader_of(parts: &QueryData) -> Option<Leader>
    ensures { IfSome result (IsLeaderOf (form_of parts.now.pattern)) }
{
    let form = parts.pattern.form();
    for variable in 0..parts.plan.definitions.len() {
        if form.leads(variable) {
            return Some(Leader {
                variable,
                alone: form.stands_once(variable),
            });
        }
    }
    None
}

fn judges_locally(plan: &Plan, locality: Locality, variable: usize) -> bool
    ensures { result ≡ judges_locally locality plan.now variable }
{
    match plan.definition(variable) {
        None => true,
        Some(condition) => {
            condition_is_local(condition, locality, plan.totals.as_slice(), variable)
        }
    }
}

/// Whether a condition of this variable depends on no more.
pub fn condition_is_local(
    condition: &Condition,
    locality: Locality,
    totals: &[Total],
    variable: usize,
) -> bool
    ensures { result ≡ is_local locality totals.now variable (condition_formula condition.now) }
{
    match condition {
        Condition::Compare(_, left, right) => {
            expr_is_local(left, locality, totals, variable)
                && expr_is_local(right, locality, totals, variable)
        }
        Condition::IsNull(operand) => expr_is_local(operand, locality, totals, variable),
        Condition::Not(inner) => condition_is_local(&**inner, locality, totals, variable),
        Condition::And(left, right) => {
            condition_is_local(&**left, locality, totals, variable)
                && condition_is_local(&**right, locality, totals, variable)
        }
        Condition::Or(left, right) => {
            condition_is_local(&**left, locality, totals, variable)
                && condition_is_local(&**right, locality, totals, variable)
        }
    }
}

fn expr_is_local(expr: &Expr, locality: Locality, totals: &[Total], variable: usize) -> bool
    ensures { result ≡ is_local locality totals.now variable (value_formula expr.now) }
{
    match expr {
        Expr::Navigation(navigation) => navigates_in(navigation, locality, totals, variable),
        Expr::Aggregate { number, .. } => aggregates_in(*number, locality, totals),
        Expr::Arithmetic(_, left, right) => {
            expr_is_local(&**left, locality, totals, variable)
                && expr_is_local(&**right, locality, totals, variable)
        }
        Expr::Literal(_) | Expr::MatchNumber | Expr::Classifier(_) => true,
    }
}

fn navigates_in(
    navigation: &Navigation,
    locality: Locality,
    totals: &[Total],
    variable: usize,
) -> bool
    ensures { result ≡ navigates_in locality totals.now variable navigation.now }
{
    match locality {
        Locality::Row => goes_from_own_row(navigation, totals, variable),
        Locality::Span => navigates_in_span(navigation, totals, variable),
        Locality::Led {
            variable: leader,
            alone,
        } => {
            navigates_in_span(navigation, totals, variable)
                || goes_from_leader(navigation, leader, alone, totals)
        }
    }
}

fn aggregates_in(number: usize, locality: Locality, totals: &[Total]) -> bool
    ensures { result ≡ aggregates_in locality (slice_get totals.now number) }
{
    match locality {
        Locality::Row => false,
        Locality::Span => is_of_every_row(totals.get(number)),
        Locality::Led { .. } => is_of_every_row(totals.get(number)),
    }
}

fn navigates_in_span(navigation: &Navigation, totals: &[Total], variable: usize) -> bool
    ensures { result ≡ navigates_in_span totals.now variable navigation.now }
{
    goes_from_own_row(navigation, totals, variable)
        || matches!(navigation.rows_of, RowsOf::Universal)
}

/// Whether it goes from the first row of a match that begins with this variable.
pub fn goes_from_leader(
    navigation: &Navigation,
    variable: usize,
    alone: bool,
    totals: &[Total],
) -> bool
    ensures { result ≡ goes_from_leader variable alone totals.now navigation.now }
{
    has_own_row(navigation.rows_of, totals, variable)
        && (is_first(navigation.edge, navigation.places)
            || alone
                && navigation.places == 0
                && has_no_other(navigation.rows_of, totals, variable))
}

fn is_first(edge: Edge, places: u64) -> bool
    ensures { result ≡ is_first edge places }
{
    match edge {
        Edge::First => places == 0,
        Edge::Last => false,
    }
}

fn has_no_other(rows_of: RowsOf, totals: &[Total], variable: usize) -> bool
    ensures { result ≡ has_no_other totals.now variable rows_of }
{
    match rows_of {
        RowsOf::Universal => false,
        RowsOf::Listed(number) => is_of_only(totals.get(number), variable),
    }
}

fn is_of_only(total: Option<&Total>, variable: usize) -> bool
    ensures { result ≡ is_of_only variable (option_copied total.entry) }
{
    match total {
        None => false,
        Some(total) => is_only(&total.variables, variable),
    }
}

fn is_only(variables: &Variables, variable: usize) -> bool
    ensures { result ≡ is_only variable variables.now }
{
    match variables {
        Variables::Universal => false,
        Variables::Among(members) => are_all(members.as_slice(), variable),
    }
}

fn are_all(members: &[usize], variable: usize) -> bool
    ensures { result ≡ list_all (nat_eq variable) members.now }
{
    for member in members {
        if variable != *member {
            return false;
        }
    }
    true
}

/// Whether it goes from the row that is judged, which is mapped to the variable.
pub fn goes_from_own_row(navigation: &Navigation, totals: &[Total], variable: usize) -> bool
    ensures { result ≡ goes_from_own_row totals.now variable navigation.now }
{
    is_last(navigation.edge, navigation.places) && has_own_row(navigation.rows_of, totals, variable)
}

fn is_last(edge: Edge, places: u64) -> bool
    ensures { result ≡ is_last edge places }
{
    match edge {
        Edge::First => false,
        Edge::Last => places == 0,
    }
}

fn has_own_row(rows_of: RowsOf, totals: &[Total], variable: usize) -> bool
    ensures { result ≡ has_own_row totals.now variable rows_of }
{
    match rows_of {
        RowsOf::Universal => true,
        RowsOf::Listed(number) => lists_rows_of(totals.get(number), variable),
    }
}

fn lists_rows_of(total: Option<&Total>, variable: usize) -> bool
    ensures { result ≡ lists_rows_of variable (option_copied total.entry) }
{
    match total {
        None => false,
        Some(total) => {
            matches!(total.function, Function::Listed) && total.variables.includes(variable)
        }
    }
}

fn is_of_every_row(total: Option<&Total>) -> bool
    ensures { result ≡ is_of_every_row (option_copied total.entry) }
{
    match total {
        None => false,
        Some(total) => matches!(total.variables, Variables::Universal),
    }
}
