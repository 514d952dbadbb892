//! A comparison with a fraction, as one of whole numbers.

use rp_lexer::TokenKind;
use rp_wording::{
    Advice, Pieces, Reading, begins_condition, column_end, ends_condition, is_comparison,
    is_one_of, short_text, value_start, whole_operand,
};
use std::alloc::Global;

/// The most digits on each side of a point that are written as a quotient.
const DIGITS: usize = 6;

/// A fraction as a quotient of whole numbers.
#[derive(Clone, Copy)]
struct Quotient {
    over: u64,
    under: u64,
}

/// What a comparison with a fraction is where both sides are multiplied: p > 1.5 * AVG(q). The place is its point.
pub(crate) fn of_fraction(alloc: Global, reading: &Reading<'_>) -> Option<Advice> {
    let sign = reading.at.checked_sub(2)?;
    let start = reading.at.saturating_add(3);
    let left = value_start(reading, sign)?;
    if !is_product(reading, sign) || whole_operand(reading, left)? != sign {
        return None;
    }
    if !begins_condition(reading, left) {
        return None;
    }
    let value = short_text(reading, left, sign)?;
    let quotient = reduced(reading.back(1), reading.next(1));
    let help = match average(reading, start) {
        Some(column) => over_average(alloc, reading, value, column, quotient),
        None => multiplied(alloc, reading, value, factor(reading, start)?, quotient),
    };
    Some(Advice::with_help(alloc, "there are no fractions", help))
}

/// What a comparison of a column with a fraction is: p > 9.75. The place is its point.
pub(crate) fn of_amount(alloc: Global, reading: &Reading<'_>) -> Option<Advice> {
    let sign = reading.at.checked_sub(2)?;
    let name = sign.checked_sub(1)?;
    let left = value_start(reading, sign)?;
    if !is_amount(reading, sign) || column_end(reading, left)? != sign {
        return None;
    }
    if !begins_condition(reading, left) || reading.kind(name) != Some(TokenKind::Name) {
        return None;
    }
    let value = short_text(reading, left, sign)?;
    let help = in_small_units(alloc, reading, value, reading.written(name));
    Some(Advice::with_help(alloc, "there are no fractions", help))
}

/// Whether a fraction is compared by this sign, and the condition ends behind it.
fn is_amount(reading: &Reading<'_>, sign: usize) -> bool {
    let number = Some(TokenKind::Number);
    is_comparison(reading.written(sign))
        && reading.kind_back(1) == number
        && reading.kind(reading.at.saturating_add(1)) == number
        && reading.back(1).len() <= DIGITS
        && reading.next(1).len() <= DIGITS
        && ends_condition(reading, reading.at.saturating_add(2))
}

/// The comparison with a whole number: where the column is read in a smaller unit, and where it has whole numbers.
fn in_small_units(alloc: Global, reading: &Reading<'_>, value: &str, column: &str) -> Pieces {
    let digits = reading.next(1).len().max(2);
    let form = "where {} has fractions, write with --columns '{} = decimal({}, ";
    let mut help = Pieces::filled(alloc, form, &[column, column, column]);
    help.push_count(digits);
    help.push_filled(")' {} {} ", &[value, reading.back(2)]);
    help.push_number(in_unit(reading, digits));
    help.push_filled("\nwhere it has whole numbers, {} * ", &[value]);
    help.push_number(power_of_ten(digits));
    help.push_filled(" {} ", &[reading.back(2)]);
    help.push_number(in_unit(reading, digits));
    help
}

/// The fraction at the place in a unit of which one has so many digits behind its point, at least as many as are written.
fn in_unit(reading: &Reading<'_>, digits: usize) -> u64 {
    let (whole, fraction) = (reading.back(1), reading.next(1));
    let added = power_of_ten(digits.saturating_sub(fraction.len()));
    value_of(whole)
        .saturating_mul(power_of_ten(digits))
        .saturating_add(value_of(fraction).saturating_mul(added))
}

/// The operand that begins with a token, where the condition ends behind it.
fn factor<'a>(reading: &Reading<'a>, start: usize) -> Option<&'a str> {
    let end = whole_operand(reading, start)?;
    if !ends_condition(reading, end) {
        return None;
    }
    short_text(reading, start, end)
}

/// The column of the average that begins with a token, where the condition ends behind it.
fn average<'a>(reading: &Reading<'a>, start: usize) -> Option<&'a str> {
    let first = start.saturating_add(2);
    let close = column_end(reading, first)?;
    if !is_one_of(reading.written(start), "AVG MEAN AVERAGE")
        || reading.written(start.saturating_add(1)) != "("
        || reading.written(close) != ")"
        || !ends_condition(reading, close.saturating_add(1))
    {
        return None;
    }
    short_text(reading, first, close)
}

/// Whether a fraction is compared by this sign and multiplied by what follows it.
fn is_product(reading: &Reading<'_>, sign: usize) -> bool {
    let number = Some(TokenKind::Number);
    is_comparison(reading.written(sign))
        && reading.kind_back(1) == number
        && reading.kind(reading.at.saturating_add(1)) == number
        && reading.back(1).len() <= DIGITS
        && reading.next(1).len() <= DIGITS
        && reading.next(2) == "*"
}

/// The comparison of a value with an average, with both sides multiplied.
fn over_average<'a>(
    alloc: Global,
    reading: &Reading<'a>,
    value: &str,
    column: &'a str,
    quotient: Quotient,
) -> Pieces {
    let mut help = Pieces::filled(alloc, "multiply both sides: write {} * ", &[value]);
    help.push_number(quotient.under);
    help.push_filled(" * COUNT({}) {} ", &[column, reading.back(2)]);
    help.push_number(quotient.over);
    help.push_filled(" * SUM({})", &[column]);
    help
}

/// The comparison with another operand, with both sides multiplied.
fn multiplied(
    alloc: Global,
    reading: &Reading<'_>,
    value: &str,
    factor: &str,
    quotient: Quotient,
) -> Pieces {
    let form = "take a smaller unit, as cents, or multiply both sides: write {} * ";
    let mut help = Pieces::filled(alloc, form, &[value]);
    help.push_number(quotient.under);
    help.push_filled(" {} ", &[reading.back(2)]);
    help.push_number(quotient.over);
    help.push_filled(" * {}", &[factor]);
    help
}

/// The quotient in lowest terms of the digits before and behind a point.
fn reduced(whole: &str, fraction: &str) -> Quotient {
    let under = power_of_ten(fraction.len());
    let over = value_of(whole)
        .saturating_mul(under)
        .saturating_add(value_of(fraction));
    let divisor = common_divisor(over, under);
    Quotient {
        over: over.checked_div(divisor).unwrap_or(over),
        under: under.checked_div(divisor).unwrap_or(under),
    }
}

/// The value of digits.
fn value_of(digits: &str) -> u64 {
    let mut value = 0u64;
    for byte in digits.bytes() {
        let digit = u64::from(byte.saturating_sub(b'0'));
        value = value.saturating_mul(10).saturating_add(digit);
    }
    value
}

/// Ten to this power.
fn power_of_ten(exponent: usize) -> u64 {
    let mut power = 1u64;
    for _ in 0..exponent {
        power = power.saturating_mul(10);
    }
    power
}

/// The greatest common divisor, by Euclid's algorithm, which is done in fewer than a hundred steps.
fn common_divisor(one: u64, other: u64) -> u64 {
    let mut greater = one;
    let mut less = other;
    for _ in 0..100u32 {
        let Some(rest) = greater.checked_rem(less) else {
            return greater;
        };
        greater = less;
        less = rest;
    }
    greater
}
