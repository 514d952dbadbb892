//! How long a refusal lasts: from which start rows on the same row is refused as well.
ghost use Rattle.std.specs.Prelude.{◌≡◌, ◌≢◌, ◌+◌, ◌≤◌, true, length, IfSome};
ghost use Rattle.rp_value.specs.declared.truth.Judged.TheVariants.{Told};
ghost use Rattle.rp_value.specs.declared.truth.Tri.TheVariants.{True};
ghost use Rattle.rp_eval.specs.Entered.{plan_of};
ghost use Rattle.rp_eval.specs.Found.{found_cell};
ghost use Rattle.rp_eval.specs.Locality.{FoundBetween, GoneBetween, JudgedBetween, RefusesAt, RefusesBelow, RefusesUntil};
ghost use Rattle.rp_eval.specs.Looks.{setting_of, Looks};

use crate::find::{Found, calculate, go};
use crate::judge::{compare, is_null, judge};
use crate::laws::law_locality;
use crate::{Rows, View};
use rp_query::{
    Condition, Expr, Leader, Locality, Navigation, Total, condition_is_local, goes_from_leader,
    goes_from_own_row,
};
use rp_value::{Judged, Tri};
use std::alloc::AllocError;

/// A look at the row that is judged from a first row, whatever is mapped between.
pub(crate) struct Ends<'a, R: Rows> {
    rows: &'a R,
    totals: &'a [Total],
    variable: usize,
    leader: Leader,
    number: u64,
    first: u64,
    own: u64,
}

impl<'a, R: Rows> Clone for Ends<'a, R> {
    fn clone(&self) -> Result<Ends<'a, R>, AllocError> {
        Ok(*self)
    }
}

impl<'a, R: Rows> Copy for Ends<'a, R> {}

/// The start row below which the row that is judged is refused: the view's own where none is known. Where a variable is known to lead,
/// so many start rows are looked at, at most, the view's own counted.
pub fn refused_until<'a, R: Rows>(
    condition: &'a Condition,
    view: &View<'a, R>,
    totals: &'a [Total],
    lead: Option<Leader>,
    most: u64,
) -> u64
    requires looks { Looks R.known view.now }
    requires last { view.now.start + length view.now.labels.now ≡ view.now.current + 1 }
    requires totals { totals.now ≡ plan_of view.now.totals.now }
    ensures { RefusesUntil lead (setting_of R.known R.ending view.now) condition.now result }
{
    match condition {
        Condition::And(left, right) => {
            let until = refused_until(&**left, &*view, totals, lead, most);
            if until == u64::MAX {
                return until;
            }
            let other = refused_until(&**right, &*view, totals, lead, most);
            if other < until { until } else { other }
        }
        _ => term_refuses_until(condition, view, totals, lead, most),
    }
}

fn term_refuses_until<'a, R: Rows>(
    term: &'a Condition,
    view: &View<'a, R>,
    totals: &'a [Total],
    lead: Option<Leader>,
    most: u64,
) -> u64
    requires looks { Looks R.known view.now }
    requires last { view.now.start + length view.now.labels.now ≡ view.now.current + 1 }
    requires totals { totals.now ≡ plan_of view.now.totals.now }
    ensures { RefusesUntil lead (setting_of R.known R.ending view.now) term.now result }
{
    law_locality();
    if !refuses(judge(term, view)) {
        return view.start;
    }
    if view.labels.is_empty() {
        return view.start;
    }
    let variable = view.labels[view.labels.len() - 1].var;
    if condition_is_local(term, Locality::Row, totals, variable) {
        return u64::MAX;
    }
    let Some(leader) = lead else {
        return view.start;
    };
    let locality = Locality::Led {
        variable: leader.variable,
        alone: leader.alone,
    };
    if !condition_is_local(term, locality, totals, variable) {
        return view.start;
    }
    let ends = Ends {
        rows: view.rows,
        totals,
        variable,
        leader,
        number: view.number,
        first: view.start,
        own: view.current,
    };
    refuses_from(term, &ends, most)
}

/// Looks at the start rows from the next one on, until the term doesn't refuse the row: the first of those that it doesn't know of. So
/// many are looked at, at most, with the one that was.
fn refuses_from<'a, R: Rows>(term: &'a Condition, ends: &Ends<'a, R>, most: u64) -> u64
    requires known { ends.now.own ≤ length (R.known ends.now.rows.now) }
    requires from_one { 1 ≤ ends.now.first }
    requires some { ends.now.first ≤ ends.now.own }
    ensures { RefusesBelow R.known R.ending ends.now term.now result }
{
    let mut at = ends.first + 1;
    let mut left = most;
    'rows: while at <= ends.own {
        if left <= 1 {
            return at;
        }
        left -= 1;
        if !is_refused_from(term, ends, at) {
            return at;
        }
        at += 1;
    }
    at
}

fn is_refused_from<'a, R: Rows>(term: &'a Condition, ends: &Ends<'a, R>, first: u64) -> bool
    requires known { ends.now.own ≤ length (R.known ends.now.rows.now) }
    requires from_one { 1 ≤ first }
    requires some { first ≤ ends.now.own }
    ensures { result ≡ true → RefusesAt R.known R.ending ends.now term.now first }
{
    let there = Ends {
        rows: ends.rows,
        totals: ends.totals,
        variable: ends.variable,
        leader: ends.leader,
        number: ends.number,
        first,
        own: ends.own,
    };
    match judge_between(term, &there) {
        None => false,
        Some(judged) => refuses(judged),
    }
}

fn refuses(judged: Judged) -> bool
    ensures { result ≡ true → judged ≢ Told True }
{
    match judged {
        Judged::Told(Tri::True) => false,
        Judged::Told(_) => true,
        Judged::Open => false,
    }
}

/// What a term says, where it depends on the first row and the one that is judged alone. None: it isn't known to.
fn judge_between<'a, R: Rows>(term: &'a Condition, ends: &Ends<'a, R>) -> Option<Judged>
    requires known { ends.now.own ≤ length (R.known ends.now.rows.now) }
    requires from_one { 1 ≤ ends.now.first }
    requires some { ends.now.first ≤ ends.now.own }
    ensures { IfSome result (λ judgement. JudgedBetween R.known R.ending ends.now judgement term.now) }
{
    match term {
        Condition::Compare(comparison, left, right) => {
            let left = find_between(left, ends)?;
            let right = find_between(right, ends)?;
            Some(compare(*comparison, &left, &right))
        }
        Condition::IsNull(operand) => {
            let operand = find_between(operand, ends)?;
            Some(is_null(&operand))
        }
        Condition::Not(inner) => {
            let inner = judge_between(&**inner, &*ends)?;
            Some(inner.not())
        }
        Condition::And(left, right) => {
            let left = judge_between(&**left, &*ends)?;
            let right = judge_between(&**right, &*ends)?;
            Some(left.and(right))
        }
        Condition::Or(left, right) => {
            let left = judge_between(&**left, &*ends)?;
            let right = judge_between(&**right, &*ends)?;
            Some(left.or(right))
        }
    }
}

fn find_between<'a, R: Rows>(expr: &'a Expr, ends: &Ends<'a, R>) -> Option<Found<'a>>
    requires known { ends.now.own ≤ length (R.known ends.now.rows.now) }
    requires from_one { 1 ≤ ends.now.first }
    requires some { ends.now.first ≤ ends.now.own }
    ensures { IfSome result (λ found. FoundBetween R.known R.ending ends.now (found_cell found) expr.now) }
{
    match expr {
        Expr::Literal(value) => Some(Found::Lent(value)),
        Expr::Navigation(navigation) => navigate_between(navigation, ends),
        Expr::Arithmetic(operation, left, right) => {
            let left = find_between(&**left, &*ends)?;
            let right = find_between(&**right, &*ends)?;
            Some(calculate(*operation, &left, &right))
        }
        Expr::Aggregate { .. } | Expr::MatchNumber | Expr::Classifier(_) => None,
    }
}

fn navigate_between<'a, R: Rows>(navigation: &Navigation, ends: &Ends<'a, R>) -> Option<Found<'a>>
    requires known { ends.now.own ≤ length (R.known ends.now.rows.now) }
    requires from_one { 1 ≤ ends.now.first }
    requires some { ends.now.first ≤ ends.now.own }
    ensures { IfSome result (λ found. GoneBetween R.known R.ending ends.now (found_cell found) navigation.now) }
{
    if goes_from_own_row(navigation, ends.totals, ends.variable) {
        return Some(go(ends.rows, ends.own, navigation.step, navigation.column));
    }
    if goes_from_leader(
        navigation,
        ends.leader.variable,
        ends.leader.alone,
        ends.totals,
    ) {
        return Some(go(ends.rows, ends.first, navigation.step, navigation.column));
    }
    None
}
