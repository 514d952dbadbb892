//! A running sum that no partial sum can overflow.
ghost use Rattle.std.specs.Prelude.{◌≡◌, ◌+◌, ◌<◌, pos, ◌+ℤ◌};
ghost use Rattle.rp_value.specs.Sums.{total, most_numbers, sum_value, sum_or_null, SumsAgree};

use crate::Value;
use crate::value::null_if_none;
use std::marker::Model;

/// The exact sum of the whole numbers added so far, and how many they are.
///
/// Adding 9223372036854775807, 1 and -1 gives 9223372036854775807, though the sum of the
/// first two is outside 64 bits.
#[derive(Clone, Copy)]
pub struct RunningSum {
    count: u64,
    sum: i128,
}

impl Model for RunningSum {
    ghost use Rattle.std.specs.Prelude.{◌*◌, pos, neg_ℤ, ◌≤ℤ◌};
    ghost use Rattle.rp_value.specs.Arithmetic.{signed_bound};
    ghost use Rattle.rp_value.specs.Sums.{Summed};

    ghost Value = { Summed };

    ghost view = { λ r. record { count = r.count; sum = r.sum } };

    ghost invariant = { λ r.
        (neg_ℤ (pos (r.count * signed_bound)) ≤ℤ r.sum) × (r.sum ≤ℤ pos (r.count * signed_bound)) };

    ghost inverse = { λ s. record { count = s.count; sum = s.sum } };
}

impl Default for RunningSum {
    ghost is_default = { λ s. s ≡ record { count = 0; sum = pos 0 } };

    fn default() -> RunningSum {
        RunningSum::new()
    }
}

impl RunningSum {
    /// The sum of no number.
    pub fn new() -> RunningSum
        ensures { result ≡ record { count = 0; sum = pos 0 } }
    {
        RunningSum { count: 0, sum: 0 }
    }

    /// Adds one more number.
    pub fn add(&mut self, number: i64)
        requires room { self.old.count < most_numbers }
        ensures added { self.new
            ≡ record { count = self.old.count + 1; sum = self.old.sum +ℤ number } }
    {
        self.count += 1;
        self.sum += i128::from(number);
    }

    /// How many numbers were added.
    pub fn count(&self) -> u64
        ensures { result ≡ self.now.count }
    {
        self.count
    }

    /// The sum as a value: null where it is outside 64 bits with sign, and 0 for no number. SUM is `sum_or_null`, which differs
    /// from it for no number alone.
    pub fn value(&self) -> Value
        ensures { result ≡ sum_value self.now }
    {
        null_if_none(i64::try_from(self.sum).ok())
    }

    /// SUM of the numbers: null for no number, and where the sum is outside 64 bits with sign. COUNT of no number is 0
    /// all the same, so that `count` tells the two nulls apart.
    pub fn sum_or_null(&self) -> Value
        ensures { result ≡ sum_or_null self.now }
    {
        if self.count == 0 {
            return Value::Null;
        }
        self.value()
    }
}

/// The law that SUM by what a running sum keeps of numbers is SUM of the numbers.
pub fn law_sum()
    ensures { SumsAgree }
{}

/// The exact sum of whole numbers as a value: null where it is outside 64 bits with sign,
/// whatever the partial sums are, and 0 for no number.
pub fn total(numbers: &[i64]) -> Value
    ensures { result ≡ total numbers.now }
{
    let mut sum = RunningSum::new();
    for number in numbers {
        sum.add(*number);
    }
    sum.value()
}
