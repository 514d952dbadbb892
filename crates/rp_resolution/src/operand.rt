//! Operators.

ghost use Rattle.std.specs.Prelude.{◌≡◌, MatchResult, pos};
ghost use Rattle.rp_value.specs.declared.value.Value.TheVariants as value;
ghost use Rattle.rp_value.specs.declared.value.Kind.TheVariants as kind_as;
ghost use Rattle.rp_query.specs.Formulas.{value_formula, condition_formula};
ghost use Rattle.rp_query.specs.Formulas as formula;
ghost use Rattle.rp_resolution.specs.Sorts.{Valued, Truth, may_be_number, may_be_text, may_be_value, may_be_condition, numbers, conditions, comparable, takes, operator_sort};
ghost use Rattle.rp_resolution.specs.ExprFaults.{unless};
ghost use Rattle.rp_resolution.specs.Resolved.{operated, nullness};
ghost use Rattle.rp_resolution.specs.Checked.{FirstFaultOr, Is, formula_in, sort_known};
ghost use Rattle.rp_resolution.specs.declared.fault.CheckKind.TheVariants.{KindMismatch};
ghost use Rattle.rp_query.specs.declared.plan.Operation.TheVariants.{Minus};

use crate::fault::{CheckFault, CheckKind};
use crate::place::fault;
use crate::resolved::Resolved;
use rp_query::{Condition, Expr, Operation};
use rp_tree::{Operation as Sign, Operator};
use rp_value::{Comparison, Kind, Value};
use std::alloc::Global;

/// An expression of this kind.
pub(crate) fn valued(alloc: Global, expr: Expr, kind: Kind) -> Result<Resolved, CheckFault>
    ensures { MatchResult result (Is (Valued kind) (value_formula expr)) (λ e. e ≡ CheckFault.OutOfMemory) }
{
    let expr = Box::new(alloc, expr)?;
    Ok(Resolved::Value(expr, kind))
}

/// A condition.
fn truth(alloc: Global, condition: Condition) -> Result<Resolved, CheckFault>
    ensures { MatchResult result (Is Truth (condition_formula condition)) (λ e. e ≡ CheckFault.OutOfMemory) }
{
    let condition = Box::new(alloc, condition)?;
    Ok(Resolved::Condition(condition))
}

fn calculated(operation: Operation, left: Box<Expr>, right: Box<Expr>) -> Expr
    ensures { value_formula result
        ≡ formula.Arithmetic operation (value_formula left.value) (value_formula right.value) }
{
    Expr::Arithmetic(operation, left, right)
}

fn negated(body: Box<Condition>) -> Condition
    ensures { condition_formula result ≡ formula.Not (condition_formula body.value) }
{
    Condition::Not(body)
}

fn both(left: Box<Condition>, right: Box<Condition>) -> Condition
    ensures { condition_formula result ≡ formula.And (condition_formula left.value) (condition_formula right.value) }
{
    Condition::And(left, right)
}

fn either(left: Box<Condition>, right: Box<Condition>) -> Condition
    ensures { condition_formula result ≡ formula.Or (condition_formula left.value) (condition_formula right.value) }
{
    Condition::Or(left, right)
}

fn weighed(comparison: Comparison, left: Box<Expr>, right: Box<Expr>) -> Condition
    ensures { condition_formula result
        ≡ formula.Compare comparison (value_formula left.value) (value_formula right.value) }
{
    Condition::Compare(comparison, Box::into_inner(left), Box::into_inner(right))
}

fn is_null(body: Box<Expr>) -> Condition
    ensures { condition_formula result ≡ formula.IsNull (value_formula body.value) }
{
    Condition::IsNull(Box::into_inner(body))
}

/// A calculation with two whole numbers.
fn arithmetic(
    alloc: Global,
    at: usize,
    operation: Operation,
    left: Resolved,
    right: Resolved,
) -> Result<Resolved, CheckFault>
    ensures { FirstFaultOr (unless (numbers (sort_known left) (sort_known right)) KindMismatch at)
        (Is (Valued kind_as.Int) (formula.Arithmetic operation (formula_in left) (formula_in right)))
        result }
{
    let Some(left) = left.into_number() else {
        return Err(fault(CheckKind::KindMismatch, at));
    };
    let Some(right) = right.into_number() else {
        return Err(fault(CheckKind::KindMismatch, at));
    };
    valued(alloc, calculated(operation, left, right), Kind::Int)
}

/// AND of two conditions.
fn conjunction(
    alloc: Global,
    at: usize,
    left: Resolved,
    right: Resolved,
) -> Result<Resolved, CheckFault>
    ensures { FirstFaultOr (unless (conditions (sort_known left) (sort_known right)) KindMismatch at)
        (Is Truth (formula.And (formula_in left) (formula_in right)))
        result }
{
    let Some(left) = left.into_condition() else {
        return Err(fault(CheckKind::KindMismatch, at));
    };
    let Some(right) = right.into_condition() else {
        return Err(fault(CheckKind::KindMismatch, at));
    };
    truth(alloc, both(left, right))
}

/// OR of two conditions.
fn disjunction(
    alloc: Global,
    at: usize,
    left: Resolved,
    right: Resolved,
) -> Result<Resolved, CheckFault>
    ensures { FirstFaultOr (unless (conditions (sort_known left) (sort_known right)) KindMismatch at)
        (Is Truth (formula.Or (formula_in left) (formula_in right)))
        result }
{
    let Some(left) = left.into_condition() else {
        return Err(fault(CheckKind::KindMismatch, at));
    };
    let Some(right) = right.into_condition() else {
        return Err(fault(CheckKind::KindMismatch, at));
    };
    truth(alloc, either(left, right))
}

fn is_number(operand: &Resolved) -> bool
    ensures { result ≡ may_be_number (sort_known operand.now) }
{
    match operand {
        Resolved::Value(_, Kind::Int) => true,
        Resolved::Value(_, Kind::Text) => false,
        Resolved::Condition(_) => false,
    }
}

fn is_text(operand: &Resolved) -> bool
    ensures { result ≡ may_be_text (sort_known operand.now) }
{
    match operand {
        Resolved::Value(_, Kind::Int) => false,
        Resolved::Value(_, Kind::Text) => true,
        Resolved::Condition(_) => false,
    }
}

/// Whether both are whole numbers, or both texts.
fn are_comparable(left: &Resolved, right: &Resolved) -> bool
    ensures { result ≡ comparable (sort_known left.now) (sort_known right.now) }
{
    (is_number(left) && is_number(right)) || (is_text(left) && is_text(right))
}

/// A comparison of two whole numbers or two texts.
fn compared(
    alloc: Global,
    at: usize,
    comparison: Comparison,
    left: Resolved,
    right: Resolved,
) -> Result<Resolved, CheckFault>
    ensures { FirstFaultOr (unless (comparable (sort_known left) (sort_known right)) KindMismatch at)
        (Is Truth (formula.Compare comparison (formula_in left) (formula_in right)))
        result }
{
    if !are_comparable(&left, &right) {
        return Err(fault(CheckKind::KindMismatch, at));
    }
    let Some(left) = left.into_value() else {
        return Err(fault(CheckKind::KindMismatch, at));
    };
    let Some(right) = right.into_value() else {
        return Err(fault(CheckKind::KindMismatch, at));
    };
    truth(alloc, weighed(comparison, left, right))
}

/// An operator between two operands.
pub(crate) fn operated(
    alloc: Global,
    operation: Sign,
    left: Resolved,
    right: Resolved,
) -> Result<Resolved, CheckFault>
    ensures { FirstFaultOr
        (unless (takes operation.operator (sort_known left) (sort_known right)) KindMismatch operation.at)
        (Is (operator_sort operation.operator) (operated operation.operator (formula_in left) (formula_in right)))
        result }
{
    match operation.operator {
        Operator::Or => disjunction(alloc, operation.at, left, right),
        Operator::And => conjunction(alloc, operation.at, left, right),
        Operator::Equals => compared(alloc, operation.at, Comparison::Equal, left, right),
        Operator::NotEquals => compared(alloc, operation.at, Comparison::NotEqual, left, right),
        Operator::Less => compared(alloc, operation.at, Comparison::Less, left, right),
        Operator::LessOrEquals => compared(
            alloc,
            operation.at,
            Comparison::LessOrEqual,
            left,
            right,
        ),
        Operator::Greater => compared(alloc, operation.at, Comparison::Greater, left, right),
        Operator::GreaterOrEquals => compared(
            alloc,
            operation.at,
            Comparison::GreaterOrEqual,
            left,
            right,
        ),
        Operator::Plus => arithmetic(alloc, operation.at, Operation::Plus, left, right),
        Operator::Minus => arithmetic(alloc, operation.at, Operation::Minus, left, right),
        Operator::Times => arithmetic(alloc, operation.at, Operation::Times, left, right),
    }
}

/// Zero less the operand.
pub(crate) fn negative(alloc: Global, at: usize, body: Resolved) -> Result<Resolved, CheckFault>
    ensures { FirstFaultOr (unless (may_be_number (sort_known body)) KindMismatch at)
        (Is (Valued kind_as.Int) (formula.Arithmetic Minus (formula.Literal (value.Int (pos 0))) (formula_in body)))
        result }
{
    let Some(body) = body.into_number() else {
        return Err(fault(CheckKind::KindMismatch, at));
    };
    let zero = Box::new(alloc, Expr::Literal(Value::Int(0)))?;
    valued(alloc, calculated(Operation::Minus, zero, body), Kind::Int)
}

/// NOT of a condition.
pub(crate) fn inverted(alloc: Global, at: usize, body: Resolved) -> Result<Resolved, CheckFault>
    ensures { FirstFaultOr (unless (may_be_condition (sort_known body)) KindMismatch at)
        (Is Truth (formula.Not (formula_in body))) result }
{
    let Some(body) = body.into_condition() else {
        return Err(fault(CheckKind::KindMismatch, at));
    };
    truth(alloc, negated(body))
}

/// IS NULL or IS NOT NULL of a value.
pub(crate) fn null_test(
    alloc: Global,
    at: usize,
    negate: bool,
    body: Resolved,
) -> Result<Resolved, CheckFault>
    ensures { FirstFaultOr (unless (may_be_value (sort_known body)) KindMismatch at)
        (Is Truth (nullness negate (formula_in body))) result }
{
    let Some(body) = body.into_value() else {
        return Err(fault(CheckKind::KindMismatch, at));
    };
    let test = Box::new(alloc, is_null(body))?;
    if negate {
        return truth(alloc, negated(test));
    }
    Ok(Resolved::Condition(test))
}
