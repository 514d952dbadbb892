//! Which rows a condition looks at.
ghost use Rattle.std.specs.Prelude.{◌≡◌, ℕ, IfSome, None, Some};
ghost use Rattle.rp_query.specs.Definitions.{definition_of};
ghost use Rattle.rp_query.specs.Formulas.{condition_formula, value_formula};
ghost use Rattle.rp_query.specs.Locality.{IsLeaderOf};
ghost use Rattle.rp_query.specs.QueryView.{totals_in};
ghost use Rattle.rp_words.specs.PatternForm.{form_of};
ghost use Rattle.rp_query.specs.declared.plan.Condition.{Condition as Defined};
ghost use Rattle.rp_describe.specs.Looks.{together, looks_of, looks_by, looks_from, leads_to};
ghost use Rattle.rp_describe.specs.Said.{IsSaidOf, ConditionsAreSaid};

use rp_eval::{law_conditions, law_locality};
use rp_query::{
    Condition, Expr, Leader, Navigation, Query, Step, Total, goes_from_leader, goes_from_own_row,
};
use rp_words::{Form, law_leaders};

/// Which rows a condition looks at.
#[derive(Clone, Copy, PartialEq, Eq)]
pub struct Looks {
    /// So many rows before its own, at most.
    pub back: u64,
    /// So many rows behind its own or behind another, at most: it waits for them.
    pub ahead: u64,
    /// Whether it looks at the first row of the match, by the variable that each match begins with.
    pub first: bool,
    /// Whether it looks at other rows of the match.
    pub elsewhere: bool,
}

/// What a condition looks at that looks at its own row alone.
pub const OWN_ROW: Looks = Looks {
    back: 0,
    ahead: 0,
    first: false,
    elsewhere: false,
};

/// A variable whose condition is looked through, and what there is of its query.
#[derive(Clone, Copy)]
pub(crate) struct Looker<'a> {
    /// The number of the variable.
    pub(crate) variable: usize,
    /// The variable that each match begins with, if there is one.
    pub(crate) leader: Option<Leader>,
    /// What the plan keeps.
    pub(crate) totals: &'a [Total],
    /// The pattern.
    pub(crate) form: &'a Form,
}

impl Looks {
    /// What both look at.
    fn and(self, other: Looks) -> Looks
        ensures { result ≡ together self other }
    {
        Looks {
            back: self.back.max(other.back),
            ahead: self.ahead.max(other.ahead),
            first: self.first || other.first,
            elsewhere: self.elsewhere || other.elsewhere,
        }
    }
}

/// Which rows the condition of a variable looks at; none: it has no condition.
pub fn looks_at(query: &Query, variable: usize) -> Option<Looks>
    ensures undefined { result ≡ None → definition_of query.now.plan variable ≡ None }
    ensures said { IfSome result (λ looks.
        (c : Defined) → definition_of query.now.plan variable ≡ Some c →
        IsSaidOf query.now variable c looks) }
{
    law_leaders();
    law_locality();
    law_conditions();
    let condition = query.definition(variable)?;
    Some(looks_of(condition, &looker_of(query, variable)))
}

/// Which rows all conditions look at together.
pub fn all_looks(query: &Query) -> Looks
    ensures { ConditionsAreSaid query.now result }
{
    let mut all = OWN_ROW;
    for number in 0..query.plan().definitions.len() {
        all = with_variable(query, number, all);
    }
    all
}

/// Which rows the condition of a variable looks at together with others.
fn with_variable(query: &Query, variable: usize, others: Looks) -> Looks
    ensures kept { (v : ℕ) (c : Defined) →
        IsSaidOf query.now v c others → IsSaidOf query.now v c result }
    ensures said { (c : Defined) → definition_of query.now.plan variable ≡ Some c →
        IsSaidOf query.now variable c result }
{
    match looks_at(query, variable) {
        None => others,
        Some(looks) => others.and(looks),
    }
}

/// What there is of a query, for the condition of a variable.
pub(crate) fn looker_of(query: &Query, variable: usize) -> Looker<'_>
    ensures variable { result.variable ≡ variable }
    ensures leader { IfSome result.leader (IsLeaderOf (form_of query.now.pattern)) }
    ensures totals { result.totals.now ≡ totals_in query.now }
    ensures form { result.form.now ≡ form_of query.now.pattern }
{
    Looker {
        variable,
        leader: query.lead(),
        totals: query.totals().as_slice(),
        form: query.pattern().form(),
    }
}

/// Which rows a condition looks at.
fn looks_of(condition: &Condition, looker: &Looker<'_>) -> Looks
    ensures { result ≡
        looks_of looker.now.leader looker.now.totals.now looker.now.variable (condition_formula condition.now) }
{
    match condition {
        Condition::Compare(_, left, right) => looks_in(left, looker).and(looks_in(right, looker)),
        Condition::IsNull(operand) => looks_in(operand, looker),
        Condition::Not(inner) => looks_of(&**inner, looker),
        Condition::And(left, right) => looks_of(&**left, looker).and(looks_of(&**right, looker)),
        Condition::Or(left, right) => looks_of(&**left, looker).and(looks_of(&**right, looker)),
    }
}

/// Which rows an expression looks at.
fn looks_in(expr: &Expr, looker: &Looker<'_>) -> Looks
    ensures { result ≡ looks_of looker.now.leader looker.now.totals.now looker.now.variable (value_formula expr.now) }
{
    match expr {
        Expr::Navigation(navigation) => looks_by(navigation, looker),
        Expr::Aggregate { .. } => Looks {
            back: 0,
            ahead: 0,
            first: false,
            elsewhere: true,
        },
        Expr::Arithmetic(_, left, right) => {
            looks_in(&**left, looker).and(looks_in(&**right, looker))
        }
        Expr::Literal(_) | Expr::MatchNumber | Expr::Classifier(_) => OWN_ROW,
    }
}

/// Which rows a navigation looks at.
fn looks_by(navigation: &Navigation, looker: &Looker<'_>) -> Looks
    ensures { result ≡ looks_by looker.now.leader looker.now.totals.now looker.now.variable navigation.now }
{
    let own = goes_from_own_row(navigation, looker.totals, looker.variable);
    let first = goes_from_first_row(navigation, looker);
    looks_from(own, first, navigation.step)
}

/// Which rows are looked at by so many rows from its own row, from the first one, or from another.
fn looks_from(own: bool, first: bool, step: Step) -> Looks
    ensures { result ≡ looks_from own first step }
{
    let (back, ahead) = match step {
        Step::Back(rows) => (rows, 0),
        Step::Ahead(rows) => (0, rows),
    };
    Looks {
        back: if own { back } else { 0 },
        ahead,
        first: !own && first,
        elsewhere: !own && !first,
    }
}

/// Whether a navigation goes from the first row of the match, by the variable that each match begins with.
pub(crate) fn goes_from_first_row(navigation: &Navigation, looker: &Looker<'_>) -> bool
    ensures { result ≡ leads_to looker.now.leader looker.now.totals.now navigation.now }
{
    match looker.leader {
        None => false,
        Some(leader) => goes_from_leader(navigation, leader.variable, leader.alone, looker.totals),
    }
}
