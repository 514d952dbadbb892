//! Comparisons of values, arithmetic and exact sums.
use super::support::{holds, same, text};
use rp_value::{
    Cells, Comparison, RunningSum, Tri, Value, law_sum, law_told_stays, law_value_order, total,
};
use std::alloc::{AllocError, Global};
use std::cmp::Ordering;
use std::process::Abort;
use std::test::Fail;

const LEAST: i64 = -9_223_372_036_854_775_808;

const GREATEST: i64 = 9_223_372_036_854_775_807;

/// Whether texts compare so.
fn compare_so(
    rt: &impl Abort,
    alloc: Global,
    texts: &[(&str, &str, Ordering)],
) -> Result<(), Fail> {
    for (left, right, expected) in texts {
        let order = text(alloc, left)?.compare(&text(alloc, right)?);
        assert_eq!(rt; order, Some(*expected), "{left} {right}");
    }
    Ok(())
}

#[test]
fn comparisons(rt: HostRuntime) -> Result<(), Fail> {
    let alloc = rt.alloc();
    let one = Value::Int(1);
    same(&rt, one.compare(&Value::Null), None);
    same(&rt, one.compare(&text(alloc, "1")?), None);
    same(&rt, one.compare(&Value::Int(-2)), Some(Ordering::Greater));
    let texts = [
        ("a", "B", Ordering::Greater),
        ("ab", "b", Ordering::Less),
        ("", "a", Ordering::Less),
        ("z", "é", Ordering::Less),
        ("é", "é", Ordering::Equal),
    ];
    compare_so(&rt, alloc, &texts)
}

/// What a comparison is with a lesser, an equal and a greater value on its left.
type Compared = (Comparison, Tri, Tri, Tri);

/// Whether comparisons of numbers and texts have these truth values, and comparisons with null or across kinds none.
fn are_compared_so(rt: &impl Abort, word: &Value, comparisons: &[Compared]) {
    let five = Value::Int(5);
    let null = Value::Null;
    for (comparison, less, equal, greater) in comparisons {
        let comparison = *comparison;
        same(
            rt,
            Value::Int(-5).comparison_truth(comparison, &five),
            *less,
        );
        same(rt, five.comparison_truth(comparison, &five), *equal);
        same(rt, word.comparison_truth(comparison, word), *equal);
        same(
            rt,
            five.comparison_truth(comparison, &Value::Int(4)),
            *greater,
        );
        same(rt, five.comparison_truth(comparison, &null), Tri::Unknown);
        same(rt, null.comparison_truth(comparison, &null), Tri::Unknown);
        same(rt, word.comparison_truth(comparison, &five), Tri::Unknown);
    }
}

#[test]
fn judged_comparisons(rt: HostRuntime) -> Result<(), Fail> {
    let comparisons = [
        (Comparison::Equal, Tri::False, Tri::True, Tri::False),
        (Comparison::NotEqual, Tri::True, Tri::False, Tri::True),
        (Comparison::Less, Tri::True, Tri::False, Tri::False),
        (Comparison::LessOrEqual, Tri::True, Tri::True, Tri::False),
        (Comparison::Greater, Tri::False, Tri::False, Tri::True),
        (Comparison::GreaterOrEqual, Tri::False, Tri::True, Tri::True),
    ];
    are_compared_so(&rt, &text(rt.alloc(), "5")?, &comparisons);
    Ok(())
}

/// Values, each before the next one.
fn ascending(alloc: Global) -> Result<Vec<Value>, AllocError> {
    let mut values = vec![in alloc; Value::Int(LEAST), Value::Int(2)]?;
    for letters in ["", "B", "a", "é"] {
        values.push(text(alloc, letters)?)?;
    }
    values.push(Value::Null)?;
    Ok(values)
}

fn are_in_order(rt: &impl Abort, values: &[Value]) {
    for (lower, higher) in values.iter().zip(values.iter().skip(1)) {
        same(rt, lower.cmp(higher), Ordering::Less);
        same(rt, higher.cmp(lower), Ordering::Greater);
        same(rt, lower.cmp(lower), Ordering::Equal);
        holds(rt, lower < higher);
    }
}

#[test]
fn values_in_order(rt: HostRuntime) -> Result<(), Fail> {
    are_in_order(&rt, ascending(rt.alloc())?.as_slice());
    Ok(())
}

#[test]
fn cells_in_order(rt: HostRuntime) -> Result<(), Fail> {
    let alloc = rt.alloc();
    let front = Cells::new(vec![in alloc; Value::Int(1)]?);
    let long = Cells::new(vec![in alloc; Value::Int(1), Value::Null]?);
    let high = Cells::new(vec![in alloc; Value::Int(2)]?);
    same(&rt, front.cmp(&long), Ordering::Less);
    same(&rt, high.cmp(&long), Ordering::Greater);
    holds(&rt, front < high);
    Ok(())
}

/// The value of a whole number, or null.
fn number(number: Option<i64>) -> Value {
    number.map_or(Value::Null, Value::Int)
}

/// Two numbers with their sum, difference and product, None where that is null.
type Computed = (i64, i64, Option<i64>, Option<i64>, Option<i64>);

fn are_computed_so(rt: &impl Abort, numbers: &[Computed]) {
    for (left, right, sum, difference, product) in numbers {
        let left = Value::Int(*left);
        let right = Value::Int(*right);
        same(rt, left.plus(&right), number(*sum));
        same(rt, left.minus(&right), number(*difference));
        same(rt, left.times(&right), number(*product));
    }
}

#[test]
fn arithmetic(rt: HostRuntime) -> Result<(), Fail> {
    let numbers = [
        (GREATEST, 1, None, Some(GREATEST - 1), Some(GREATEST)),
        (LEAST, -1, None, Some(LEAST + 1), None),
        (LEAST, 1, Some(LEAST + 1), None, Some(LEAST)),
        (5, -7, Some(-2), Some(12), Some(-35)),
    ];
    are_computed_so(&rt, &numbers);
    same(&rt, Value::Int(5).minus(&Value::Null), Value::Null);
    same(
        &rt,
        Value::Int(5).plus(&text(rt.alloc(), "1")?),
        Value::Null,
    );
    Ok(())
}

#[test]
fn totals(rt: HostRuntime) {
    same(&rt, total(&[GREATEST, 1, -1]), Value::Int(GREATEST));
    same(&rt, total(&[GREATEST, 1]), Value::Null);
    same(&rt, total(&[]), Value::Int(0));
}

#[test]
fn a_sum_of_nothing(rt: HostRuntime) {
    let sum = RunningSum::default();
    same(&rt, sum.sum_or_null(), Value::Null);
    same(&rt, sum.count(), 0);
}

/// A sum that goes below the least number comes back, and a copy of it stays as it is.
#[test]
fn sums_are_exact(rt: HostRuntime) {
    let mut sum = RunningSum::default();
    sum.add(LEAST);
    let half_way = sum;
    sum.add(-1);
    same(&rt, sum.value(), Value::Null);
    sum.add(1);
    same(&rt, sum.value(), Value::Int(LEAST));
    same(&rt, sum.count(), 3);
    is_least(&rt, &half_way);
}

/// Whether a sum is of the least number alone.
fn is_least(rt: &impl Abort, sum: &RunningSum) {
    same(rt, sum.value(), Value::Int(LEAST));
    same(rt, sum.count(), 1);
    same(rt, sum.sum_or_null(), Value::Int(LEAST));
}

/// Calls of the laws do nothing.
#[test]
fn laws(_rt: HostRuntime) {
    law_sum();
    law_told_stays();
    law_value_order();
}
