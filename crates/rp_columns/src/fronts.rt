//! Readers of the fronts of some bytes.
ghost use Rattle.std.specs.Prelude.{◌≡◌, ◌<◌, ◌≤◌, ◌+◌, ◌*◌, ◌^◌, ℕ, IfOk, MatchOption, [], length};
ghost use Rattle.std.specs.Int.Digits.{number_from_digits_after};
ghost use Rattle.rp_columns.specs.Fronts as spec;
ghost use Rattle.rp_columns.specs.Holding.{Holds, TakesDigit};

use crate::fault::ReadingFault;

/// Digits at a front: the number that they make with those before them, how many they are, and what follows.
#[derive(Clone, Copy)]
pub(crate) struct Digits<'a> {
    /// None from 2^64 on.
    pub(crate) value: Option<u64>,
    pub(crate) count: usize,
    pub(crate) rest: &'a [u8],
}

/// Two digits, as their number.
#[tactic(auto, unfolding(crate::specs::Fronts::two_digits))]
pub(crate) fn two_digits(bytes: &[u8]) -> Result<(u32, &[u8]), ReadingFault>
    ensures value { spec.front_view result ≡ spec.two_digits bytes.now }
    ensures bound { IfOk result (λ p. p.0 < 100) }
{
    match bytes {
        [high @ b'0'..=b'9', low @ b'0'..=b'9', rest @ ..] => {
            Ok(((*high - b'0') as u32 * 10 + (*low - b'0') as u32, rest))
        }
        _ => Err(ReadingFault::Form),
    }
}

/// Four digits, as their number.
#[tactic(auto, unfolding(crate::specs::Fronts::four_digits))]
pub(crate) fn four_digits(bytes: &[u8]) -> Result<(u32, &[u8]), ReadingFault>
    ensures value { spec.front_view result ≡ spec.four_digits bytes.now }
    ensures bound { IfOk result (λ p. p.0 < 10000) }
{
    let (high, rest) = two_digits(bytes)?;
    let (low, rest) = two_digits(rest)?;
    Ok((high * 100 + low, rest))
}

/// Whether the bytes begin with this one.
pub(crate) fn begins_with(bytes: &[u8], byte: u8) -> bool
    ensures { result ≡ spec.begins_with byte bytes.now }
{
    match bytes {
        [first, ..] => *first == byte,
        [] => false,
    }
}

/// Whether the bytes begin with a digit.
pub(crate) fn begins_with_digit(bytes: &[u8]) -> bool
    ensures { result ≡ spec.begins_with_digit bytes.now }
{
    match bytes {
        [first, ..] => first.is_ascii_digit(),
        [] => false,
    }
}

/// What follows this byte, which comes first.
pub(crate) fn after(bytes: &[u8], byte: u8) -> Result<&[u8], ReadingFault>
    ensures { spec.rest_view result ≡ spec.after byte bytes.now }
{
    match bytes {
        [first, rest @ ..] if *first == byte => Ok(rest),
        _ => Err(ReadingFault::Form),
    }
}

/// Two digits, as their number, behind this byte where it has to come first.
#[tactic(auto, unfolding(crate::specs::Fronts::two_digits_after))]
pub(crate) fn two_digits_after(
    bytes: &[u8],
    wanted: bool,
    byte: u8,
) -> Result<(u32, &[u8]), ReadingFault>
    ensures value { spec.front_view result ≡ spec.two_digits_after wanted byte bytes.now }
    ensures bound { IfOk result (λ p. p.0 < 100) }
{
    if wanted {
        return two_digits(after(bytes, byte)?);
    }
    two_digits(bytes)
}

/// The bytes behind the blanks that they begin with.
#[tactic(auto, unfolding(crate::specs::Fronts::without_blanks))]
pub(crate) fn without_blanks(bytes: &[u8]) -> &[u8]
    ensures { result.now ≡ spec.without_blanks bytes.now }
{
    let mut rest = bytes;
    'blanks: while let [b' ' | b'\t', behind @ ..] = rest {
        rest = behind;
    }
    rest
}

/// Whether the bytes are blanks, or nothing.
pub(crate) fn are_blanks(bytes: &[u8]) -> bool
    ensures { result ≡ spec.are_blanks bytes.now }
{
    without_blanks(bytes).is_empty()
}

/// The digit that comes first, and what follows it. None where none does.
#[tactic(auto, unfolding(crate::specs::Fronts::leading_digits))]
fn first_digit(bytes: &[u8]) -> Option<(u8, &[u8])>
    ensures { MatchOption result (spec.leading_digits bytes.now ≡ ([], bytes.now))
        (λ p. TakesDigit bytes.now p.0 p.1.now) }
{
    match bytes {
        [digit @ b'0'..=b'9', rest @ ..] => Some((*digit - b'0', rest)),
        _ => None,
    }
}

/// The digits that the bytes begin with, behind those of a number.
pub(crate) fn leading_digits(before: Option<u64>, bytes: &[u8]) -> Digits<'_>
    ensures value { (n : ℕ) → Holds before n
        → Holds result.value (number_from_digits_after 10 n (spec.leading_digits bytes.now).0) }
    ensures count { result.count ≡ length (spec.leading_digits bytes.now).0 }
    ensures rest { result.rest.now ≡ (spec.leading_digits bytes.now).1 }
{
    let mut value = before;
    let mut count = 0usize;
    let mut rest = bytes;
    'digits: while let Some((digit, behind)) = first_digit(rest) {
        value = pushed(value, digit);
        count += 1;
        rest = behind;
    }
    Digits { value, count, rest }
}

/// A number with one more digit behind it. None from 2^64 on.
pub(crate) fn pushed(value: Option<u64>, digit: u8) -> Option<u64>
    ensures { (n : ℕ) → Holds value n → Holds result (n * 10 + digit) }
{
    match value {
        Some(value) => match value.checked_mul(10) {
            Some(value) => value.checked_add(digit as u64),
            None => None,
        },
        None => None,
    }
}

/// The digit that comes first, or 0 where none does, and what follows it.
fn next_place(bytes: &[u8]) -> (u8, &[u8])
    ensures { (result.0, result.1.now) ≡ spec.next_place bytes.now }
{
    match bytes {
        [digit @ b'0'..=b'9', rest @ ..] => (*digit - b'0', rest),
        _ => (0, bytes),
    }
}

/// The first digits of a fraction, with zeros where it has fewer, behind those of a number, and what follows them: maybe more digits.
#[tactic(auto, unfolding(crate::specs::Fronts::placed, crate::specs::Fronts::leading_digits))]
pub(crate) fn placed(before: Option<u64>, places: u8, bytes: &[u8]) -> (Option<u64>, &[u8])
    ensures value { (n : ℕ) → Holds before n
        → Holds result.0 (number_from_digits_after 10 n (spec.placed places (spec.leading_digits bytes.now).0)) }
    ensures rest { spec.leading_digits result.1.now ≡ spec.behind_places places (spec.leading_digits bytes.now) }
{
    let mut value = before;
    let mut rest = bytes;
    for place in 0..places {
        let (digit, behind) = next_place(rest);
        value = pushed(value, digit);
        rest = behind;
    }
    (value, rest)
}
