//! Decimal numbers.
ghost use Rattle.std.specs.Prelude.{◌≡◌, ◌==◌, ◌&&◌, [], MatchOption, true, false, not, ℕ, length, drop};
ghost use Rattle.std.specs.Int.Digits.{number_from_digits_after};
ghost use Rattle.rp_columns.specs.Decimals as spec;
ghost use Rattle.rp_columns.specs.Fronts.{leading_digits, placed};
ghost use Rattle.rp_columns.specs.Holding.{Holds, TakesGroup};

use crate::fault::ReadingFault;
use crate::fronts::{
    Digits, are_blanks, begins_with, begins_with_digit, leading_digits, placed, pushed,
    without_blanks,
};
use crate::reading::Marks;

/// What follows the whole part of a number: its fraction, if it has one.
#[derive(Clone, Copy)]
struct Fraction<'a> {
    /// The whole part and the first places of the fraction, as a number. None from 2^64 on.
    value: Option<u64>,
    /// Whether the fraction has a digit.
    has_digits: bool,
    /// Whether the digits behind those places are zeros.
    is_exact: bool,
    rest: &'a [u8],
}

/// A decimal number in units of its last place.
pub(crate) fn decimal(marks: Marks, places: u8, bytes: &[u8]) -> Result<i64, ReadingFault>
    ensures { result ≡ spec.decimal_of marks places bytes.now }
{
    let number = without_blanks(bytes);
    let first = leading_digits(Some(0), without_sign(number));
    let (more, rest) = groups(marks.thousands, first);
    let fraction = fraction_of(marks.point, places, more, rest);
    if !are_blanks(fraction.rest) {
        return Err(ReadingFault::Form);
    }
    if has_no_digits(first.count, fraction.has_digits) {
        return Err(ReadingFault::Form);
    }
    if !fraction.is_exact {
        return Err(ReadingFault::Places);
    }
    in_range(begins_with(number, b'-'), fraction.value)
}

/// Whether neither part has a digit.
fn has_no_digits(count: usize, has_fraction: bool) -> bool
    ensures { result ≡ ((count == 0) && not has_fraction) }
{
    count == 0 && !has_fraction
}

/// The bytes behind a sign, if they begin with one.
fn without_sign(bytes: &[u8]) -> &[u8]
    ensures { result.now ≡ spec.without_sign bytes.now }
{
    match bytes {
        [b'-' | b'+', rest @ ..] => rest,
        _ => bytes,
    }
}

/// The further digits of a number that stand in groups.
fn groups<'a>(mark: Option<u8>, first: Digits<'a>) -> (Option<u64>, &'a [u8])
    ensures value { (n : ℕ) → Holds first.entry.value n
        → Holds result.0 (number_from_digits_after 10 n (spec.groups mark first.entry.count first.entry.rest.now).0) }
    ensures rest { result.1.now ≡ (spec.groups mark first.entry.count first.entry.rest.now).1 }
{
    match mark {
        Some(mark) if 0 < first.count && first.count < 4 => groups_behind(
            mark,
            first.value,
            first.rest,
        ),
        _ => (first.value, first.rest),
    }
}

/// Groups of three digits, each behind a mark.
fn groups_behind(mark: u8, before: Option<u64>, bytes: &[u8]) -> (Option<u64>, &[u8])
    ensures value { (n : ℕ) → Holds before n
        → Holds result.0 (number_from_digits_after 10 n (spec.groups_behind mark bytes.now).0) }
    ensures rest { result.1.now ≡ (spec.groups_behind mark bytes.now).1 }
{
    let mut value = before;
    let mut rest = bytes;
    'groups: while let Some((more, behind)) = group(mark, value, rest) {
        value = more;
        rest = behind;
    }
    (value, rest)
}

/// A mark and three digits, behind those of a number.
#[tactic(auto, unfolding(crate::specs::Decimals::groups_behind))]
fn group(mark: u8, before: Option<u64>, bytes: &[u8]) -> Option<(Option<u64>, &[u8])>
    ensures { MatchOption result (spec.groups_behind mark bytes.now ≡ ([], bytes.now)) (λ p. TakesGroup mark before bytes.now p.0 p.1.now) }
{
    match bytes {
        [
            first,
            a @ b'0'..=b'9',
            b @ b'0'..=b'9',
            c @ b'0'..=b'9',
            rest @ ..,
        ] if *first == mark => {
            Some((
                pushed(pushed(pushed(before, *a - b'0'), *b - b'0'), *c - b'0'),
                rest,
            ))
        }
        _ => None,
    }
}

/// The fraction behind a point, or none.
fn fraction_of(point: Option<u8>, places: u8, before: Option<u64>, bytes: &[u8]) -> Fraction<'_>
    ensures value { (n : ℕ) → Holds before n
        → Holds result.value (number_from_digits_after 10 n (placed places (spec.behind_point point bytes.now).0)) }
    ensures some { result.has_digits ≡ not (length (spec.behind_point point bytes.now).0 == 0) }
    ensures exact { result.is_exact ≡ spec.is_worthless (drop places (spec.behind_point point bytes.now).0) }
    ensures rest { result.rest.now ≡ (spec.behind_point point bytes.now).1 }
{
    match behind_point(point, bytes) {
        Some(behind) => fraction_behind(places, before, behind),
        None => {
            let (value, _) = placed(before, places, b"");
            Fraction {
                value,
                has_digits: false,
                is_exact: true,
                rest: bytes,
            }
        }
    }
}

/// The fraction of these digits.
#[tactic(auto, unfolding(crate::specs::Fronts::leading_digits))]
fn fraction_behind(places: u8, before: Option<u64>, bytes: &[u8]) -> Fraction<'_>
    ensures value { (n : ℕ) → Holds before n
        → Holds result.value (number_from_digits_after 10 n (placed places (leading_digits bytes.now).0)) }
    ensures some { result.has_digits ≡ not (length (leading_digits bytes.now).0 == 0) }
    ensures exact { result.is_exact ≡ spec.is_worthless (drop places (leading_digits bytes.now).0) }
    ensures rest { result.rest.now ≡ (leading_digits bytes.now).1 }
{
    let (value, left) = placed(before, places, bytes);
    let left = leading_digits(Some(0), left);
    Fraction {
        value,
        has_digits: begins_with_digit(bytes),
        is_exact: is_nothing(left.value),
        rest: left.rest,
    }
}

/// Whether a number is 0.
fn is_nothing(value: Option<u64>) -> bool
    ensures { (n : ℕ) → Holds value n → result ≡ (n == 0) }
{
    match value {
        Some(value) => value == 0,
        None => false,
    }
}

/// What follows the point that comes first. None where none does.
fn behind_point(point: Option<u8>, bytes: &[u8]) -> Option<&[u8]>
    ensures { MatchOption result (spec.begins_with_mark point bytes.now ≡ false)
        (λ rest. (spec.begins_with_mark point bytes.now ≡ true) × (rest.now ≡ drop 1 bytes.now)) }
{
    match (point, bytes) {
        (Some(point), [first, rest @ ..]) if *first == point => Some(rest),
        _ => None,
    }
}

/// The number with its sign, where 64 bits hold it.
fn in_range(negative: bool, value: Option<u64>) -> Result<i64, ReadingFault>
    ensures { (n : ℕ) → Holds value n → result ≡ spec.in_range negative n }
{
    let Some(value) = value else {
        return Err(ReadingFault::Range);
    };
    let signed = if negative {
        -(value as i128)
    } else {
        value as i128
    };
    match i64::try_from(signed) {
        Ok(number) => Ok(number),
        Err(_) => Err(ReadingFault::Range),
    }
}
