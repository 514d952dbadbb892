//! Expressions.

ghost use Rattle.std.specs.Prelude.{◌≡◌, true, Some, map, pos, List};
ghost use Rattle.rp_value.specs.Arithmetic.{fitted};
ghost use Rattle.rp_tree.specs.Paths.{path_of};
ghost use Rattle.rp_tree.specs.Terms.{Term, Number, Literal, Navigation, Aggregated, MatchNumber, Classifier, Negative, Not, IsNull, Operate, term_of, from_left, from_right, operand_of};
ghost use Rattle.rp_query.specs.Formulas.{PlainTotal, plain_total, value_formula};
ghost use Rattle.rp_query.specs.Formulas as formula;
ghost use Rattle.rp_resolution.specs.Context.{Context, context_of};
ghost use Rattle.rp_resolution.specs.Grouping.{AreLefts, wrapped};
ghost use Rattle.rp_resolution.specs.Checked.{Checks, Resolves};

use crate::fault::{CheckFault, CheckKind};
use crate::names::Names;
use crate::operand::{inverted, negative, null_test, operated, valued};
use crate::place::{allow_scope, is_final, navigation, require, totalled};
use crate::resolved::Resolved;
use rp_query::{Expr, Total};
use rp_tree::{Aggregate as Computed, Expr as Written, Navigation as Path, Operation};
use rp_value::{Kind, Text, Value};
use std::alloc::Global;

/// The literal of a number, which is null where it is no whole number of 64 bits with sign.
fn number_literal(value: u64) -> Expr
    ensures { value_formula result ≡ formula.Literal (fitted (pos value)) }
{
    match i64::try_from(value) {
        Ok(number) => Expr::Literal(Value::Int(number)),
        Err(_) => Expr::Literal(Value::Null),
    }
}

/// A number.
fn number(
    alloc: Global,
    names: &Names,
    totals: &Vec<Total>,
    at: usize,
    value: u64,
) -> Result<Resolved, CheckFault>
    ensures { Checks (context_of names.now) (map plain_total totals.now.items) (Number at value)
        result (map plain_total totals.now.items) }
{
    valued(alloc, number_literal(value), Kind::Int)
}

/// A text.
fn text_literal(
    alloc: Global,
    names: &Names,
    totals: &Vec<Total>,
    at: usize,
    text: &Text,
) -> Result<Resolved, CheckFault>
    ensures { Checks (context_of names.now) (map plain_total totals.now.items) (Literal at text.now)
        result (map plain_total totals.now.items) }
{
    let text = text.share()?;
    valued(alloc, Expr::Literal(Value::Text(text)), Kind::Text)
}

/// A column or a navigation.
fn placed(
    alloc: Global,
    names: &Names,
    totals: &mut Vec<Total>,
    path: &Path,
) -> Result<Resolved, CheckFault>
    ensures { Checks (context_of names.now) (map plain_total totals.old.items) (Navigation (path_of path.now))
        result (map plain_total totals.new.items) }
{
    let (place, kind) = navigation(alloc, names, totals, path)?;
    valued(alloc, Expr::Navigation(place), kind)
}

/// The aggregate of this number.
fn numbered(number: usize, is_final: bool) -> Expr
    ensures { value_formula result ≡ formula.Aggregated number is_final }
{
    Expr::Aggregate { number, is_final }
}

/// An aggregate, whose total is put behind those before it.
fn aggregate(
    alloc: Global,
    names: &Names,
    totals: &mut Vec<Total>,
    written: &Computed,
) -> Result<Resolved, CheckFault>
    ensures { Checks (context_of names.now) (map plain_total totals.old.items) (Aggregated written.now)
        result (map plain_total totals.new.items) }
{
    allow_scope(names, written.scope)?;
    let (total, kind) = totalled(alloc, names, written.at, &written.function)?;
    let number = totals.len();
    let is_final = is_final(written.scope);
    totals.push(total)?;
    valued(alloc, numbered(number, is_final), kind)
}

/// `MATCH_NUMBER()`
fn match_number(
    alloc: Global,
    names: &Names,
    totals: &Vec<Total>,
    at: usize,
) -> Result<Resolved, CheckFault>
    ensures { Checks (context_of names.now) (map plain_total totals.now.items) (MatchNumber at)
        result (map plain_total totals.now.items) }
{
    require(!names.in_define, CheckKind::MeasureOnly, at)?;
    valued(alloc, Expr::MatchNumber, Kind::Int)
}

/// `CLASSIFIER()`
fn classifier(
    alloc: Global,
    names: &Names,
    totals: &Vec<Total>,
    at: usize,
) -> Result<Resolved, CheckFault>
    ensures { Checks (context_of names.now) (map plain_total totals.now.items) (Classifier at)
        result (map plain_total totals.now.items) }
{
    require(!names.in_define, CheckKind::MeasureOnly, at)?;
    let classes = names.classes.clone()?;
    valued(alloc, Expr::Classifier(classes), Kind::Text)
}

/// Operands with operators between them, grouped from the right. The nearest on the left stands last.
fn grouped(
    alloc: Global,
    lefts: Vec<(Resolved, Operation)>,
    last: Resolved,
) -> Result<Resolved, CheckFault>
    ensures { (x : Context) (before : List PlainTotal) (ps : List (Term × Operation)) (mid : List PlainTotal)
        (t : Term) (now : List PlainTotal) → AreLefts x before ps lefts.items mid
        → Resolves x mid t last now → Checks x before (wrapped ps t) result now }
{
    let mut lefts = lefts;
    let mut right = last;
    while let Some((left, operation)) = lefts.pop() {
        right = operated(alloc, operation, left, right)?;
    }
    Ok(right)
}

/// An expression with its names resolved, or its first fault. Its aggregates are put behind those before it.
pub(crate) fn resolve(
    alloc: Global,
    names: &Names,
    totals: &mut Vec<Total>,
    expr: &Written,
) -> Result<Resolved, CheckFault>
    ensures { Checks (context_of names.now) (map plain_total totals.old.items) (term_of expr.now)
        result (map plain_total totals.new.items) }
{
    match expr {
        Written::Number { at, value } => number(alloc, names, totals, *at, *value),
        Written::Text { at, text } => text_literal(alloc, names, totals, *at, text),
        Written::Navigation(path) => placed(alloc, names, totals, path),
        Written::Aggregate(written) => aggregate(alloc, names, totals, written),
        Written::MatchNumber(at) => match_number(alloc, names, totals, *at),
        Written::Classifier(at) => classifier(alloc, names, totals, *at),
        Written::Negative { at, body } => {
            let body = resolve(alloc, names, totals, &**body)?;
            negative(alloc, *at, body)
        }
        Written::Not { at, body } => {
            let body = resolve(alloc, names, totals, &**body)?;
            inverted(alloc, *at, body)
        }
        Written::IsNull { at, body, negated } => {
            let body = resolve(alloc, names, totals, &**body)?;
            null_test(alloc, *at, *negated, body)
        }
        Written::Comparison {
            left,
            operation,
            right,
        } => {
            let left = resolve(alloc, names, totals, &**left)?;
            let right = resolve(alloc, names, totals, &**right)?;
            operated(alloc, *operation, left, right)
        }
        Written::FromLeft { first, rest } => {
            let mut sum = resolve(alloc, names, totals, &**first)?;
            'sums: for (operation, operand) in rest {
                let right = resolve(alloc, names, totals, operand)?;
                sum = operated(alloc, *operation, sum, right)?;
            }
            Ok(sum)
        }
        Written::FromRight { first, rest } => {
            let mut last = resolve(alloc, names, totals, &**first)?;
            let mut lefts = Vec::new(alloc);
            'lasts: for (operation, operand) in rest {
                lefts.push((last, *operation))?;
                last = resolve(alloc, names, totals, operand)?;
            }
            grouped(alloc, lefts, last)
        }
    }
}
