//! Values, and their order, comparison and arithmetic.
ghost use Rattle.std.specs.Prelude.{◌≡◌, ◌+ℤ◌, ◌-ℤ◌, ◌*ℤ◌, IfOk};
ghost use Rattle.std.specs.Option.{option_map_or};
ghost use Rattle.rp_value.specs.Arithmetic.{on_numbers};
ghost use Rattle.rp_value.specs.Compared.{comparable_order, comparison_truth};
ghost use Rattle.rp_value.specs.Order.{value_order, OrderIsComparison, NullIsLast, ExchangedIsReversed};
ghost use Rattle.rp_value.specs.Rows.{admits};

use crate::{Comparison, Text, Tri};
use std::alloc::AllocError;
use std::cmp::Ordering;

/// The kind of a column.
#[derive(Clone, Copy, Debug, PartialEq, Eq, Hash)]
pub enum Kind {
    /// Whole numbers of 64 bits with sign.
    Int,
    /// Texts of any length.
    Text,
}

impl Kind {
    /// Whether a column of this kind may hold a value: null, or a value of this kind.
    pub fn admits(self, value: &Value) -> bool
        ensures { result ≡ admits self value.now }
    {
        match (self, value) {
            (_, Value::Null) | (Kind::Int, Value::Int(_)) | (Kind::Text, Value::Text(_)) => true,
            _ => false,
        }
    }
}

/// A cell of a row, or the result of an expression.
///
/// `==` and the hash are those of a key of a map, in which null equals null. The order is that of ORDER BY, ascending:
/// whole numbers are below texts, and null is last. None of these is SQL's comparison: what a condition asks is `comparison_truth`.
// The derived order goes by the variants from the first on.
#[derive(Debug, PartialEq, Eq, PartialOrd, Ord, Hash)]
pub enum Value {
    /// A whole number.
    Int(i64),
    /// A text, which may be empty: that is another value than null.
    Text(Text),
    /// No value. A column of any kind may hold it.
    Null,
}

/// It is let go of by a call, wherever it is held.
impl Drop for Value {
    fn drop(self) {
        match self {
            Value::Int(_) => {}
            Value::Text(_) => {}
            Value::Null => {}
        }
    }
}

impl Value {
    /// The order of two values: of whole numbers by size, of texts by their UTF-8 bytes,
    /// so that `'B'` is before `'a'`. None for null and for values of different kinds.
    pub fn compare(&self, other: &Value) -> Option<Ordering>
        ensures { result ≡ comparable_order self.now other.now }
    {
        match (self, other) {
            (Value::Int(left), Value::Int(right)) => Some(left.cmp(right)),
            (Value::Text(left), Value::Text(right)) => Some(left.cmp(right)),
            _ => None,
        }
    }

    /// The truth value of a comparison with another value, as `p < 5` has it. A comparison with null is unknown, `=` with
    /// null on both sides too; and so is one of a whole number with a text.
    pub fn comparison_truth(&self, comparison: Comparison, other: &Value) -> Tri
        ensures { result ≡ comparison_truth comparison self.now other.now }
    {
        match self.compare(other) {
            Some(order) if comparison.holds(order) => Tri::True,
            Some(_) => Tri::False,
            None => Tri::Unknown,
        }
    }

    /// The sum of two whole numbers. Null for null, for a text, and where the sum is
    /// outside 64 bits with sign.
    pub fn plus(&self, other: &Value) -> Value
        ensures { result ≡ on_numbers ◌+ℤ◌ self.now other.now }
    {
        match (self, other) {
            (Value::Int(left), Value::Int(right)) => null_if_none(left.checked_add(*right)),
            _ => Value::Null,
        }
    }

    /// The difference of two whole numbers. Null for null, for a text, and where it is
    /// outside 64 bits with sign.
    pub fn minus(&self, other: &Value) -> Value
        ensures { result ≡ on_numbers ◌-ℤ◌ self.now other.now }
    {
        match (self, other) {
            (Value::Int(left), Value::Int(right)) => null_if_none(left.checked_sub(*right)),
            _ => Value::Null,
        }
    }

    /// The product of two whole numbers. Null for null, for a text, and where it is
    /// outside 64 bits with sign.
    pub fn times(&self, other: &Value) -> Value
        ensures { result ≡ on_numbers ◌*ℤ◌ self.now other.now }
    {
        match (self, other) {
            (Value::Int(left), Value::Int(right)) => null_if_none(left.checked_mul(*right)),
            _ => Value::Null,
        }
    }

    /// An equal value. Nothing is copied: a text gets a further owner, and the error says that the count of its owners is
    /// full.
    pub fn share(&self) -> Result<Value, AllocError>
        ensures { IfOk result (λ value. value ≡ self.now) }
    {
        match self {
            Value::Null => Ok(Value::Null),
            Value::Int(number) => Ok(Value::Int(*number)),
            Value::Text(text) => Ok(Value::Text(text.share()?)),
        }
    }
}

/// The law of the order of values: whole numbers by their size, then texts by their bytes, then null. So a column sorted
/// by it is in the order of ORDER BY, ascending; the reverse is that of DESC, in which null is first.
pub fn law_value_order()
    ensures order { (a b : Value) → ⟦<Value as Ord>⟧.cmp a b ≡ value_order a b }
    ensures compared { OrderIsComparison }
    ensures null_last { NullIsLast }
    ensures exchanged { ExchangedIsReversed }
{}

/// A whole number, or null where there is none.
pub(crate) fn null_if_none(number: Option<i64>) -> Value
    ensures { result ≡ option_map_or Value.Int number Value.Null }
{
    number.map_or(Value::Null, Value::Int)
}
