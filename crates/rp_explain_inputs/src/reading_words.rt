//! What is wrong with a field by the reading of its column, and what to write.

use crate::number_cells::{of_comma_point, of_known_fraction, of_number, of_sign};
use crate::quote_notes::of_quote;
use rp_columns::{Reading, ReadingFault};
use rp_wording::{are_digits, count_digits};

/// What is wrong with a field, behind the field.
pub(crate) fn wrong(reading: &Reading, why: ReadingFault) -> &'static str {
    match why {
        ReadingFault::NoSuchTime => "is a time that the calendar or the clock doesn't have",
        ReadingFault::NoOffset => "has no offset from UTC",
        ReadingFault::Gap => "is a time that clocks of the column's time zone skip",
        ReadingFault::Fold => "is a time that clocks of the column's time zone show twice",
        ReadingFault::Places => "has more digits after the point than the column",
        ReadingFault::Range => "is outside of 64 bits",
        ReadingFault::NotText => "isn't UTF-8",
        _ => match reading {
            Reading::Int => "is no whole number",
            Reading::Decimal(_, _) => "is no decimal number of this form",
            Reading::Day => "is no date",
            Reading::Instant(_, _) => "is no date with a time",
            Reading::Formatted(_, _, _) | Reading::FormattedDay(_) => {
                "doesn't have the column's format"
            }
            _ => "is no value of this column",
        },
    }
}

/// What to write for such a field.
pub(crate) fn to_write(reading: &Reading, why: ReadingFault, field: &str) -> &'static str {
    match why {
        ReadingFault::NoSuchTime => of_no_time(reading, field),
        ReadingFault::NoOffset => {
            "say where clocks show the times of this column: seconds(Time, 'Europe/Berlin'), seconds(Time, '+01:00'), or 'UTC'"
        }
        ReadingFault::Gap | ReadingFault::Fold => of_change(reading),
        ReadingFault::Places =>
            "nothing is rounded: give the column as many places, as decimal(Amount, 4)",
        ReadingFault::Range => of_range(field),
        ReadingFault::NotText => "UTF-8 is read: iconv -f WINDOWS-1252 -t UTF-8 FILE | rowmatch ..",
        _ => of_form(reading, field),
    }
}

/// What to write for a time that there isn't.
fn of_no_time(reading: &Reading, field: &str) -> &'static str {
    match reading {
        Reading::Formatted(_, _, _) | Reading::FormattedDay(_) => {
            "months are 1 to 12 and have 28 to 31 days, hours are 0 to 23, minutes and seconds 0 to 59: are day and month in the format as they are in the field?"
        }
        _ if is_count(field) => {
            "digits alone that count the seconds since 1970, or parts of them, are read as they are: int(C)"
        }
        _ =>
            "months are 1 to 12 and have 28 to 31 days, hours are 0 to 23, minutes and seconds 0 to 59",
    }
}

/// Whether it may count seconds since 1970, or thousandths, millionths or billionths of them.
fn is_count(field: &str) -> bool {
    let digits = field.trim();
    matches!(digits.len(), 10 | 13 | 16 | 19) && are_digits(digits)
}

/// What to write for a time that clocks skip, or show twice.
fn of_change(reading: &Reading) -> &'static str {
    match reading {
        Reading::Formatted(_, _, _) => {
            "a field may have an offset of its own, as +0100, which %z reads; a fixed one for the column, as '+01:00', is right only where all its times are in it, those of summer and of winter"
        }
        _ => {
            "a field may have an offset of its own, as 2024-10-27T02:30:00+01:00; a fixed one for the column, as seconds(Time, '+01:00'), is right only where all its times are in it, those of summer and of winter"
        }
    }
}

/// What to write for a number that is too large: with 18 digits it fits where the column has no more places than the number.
fn of_range(field: &str) -> &'static str {
    if count_digits(field) > 18 {
        return "read it as text";
    }
    "read it as text, or in a greater unit: by fewer places, as decimal(C, 2)"
}

/// What to write for a field that hasn't the form of its reading.
fn of_form(reading: &Reading, field: &str) -> &'static str {
    if let Some(help) = of_quote(field.as_bytes()) {
        return help;
    }
    match reading {
        Reading::Int => of_int(field),
        Reading::Decimal(_, _) => of_decimal(field),
        Reading::Day => {
            "dates as 2024-01-05 and 20240105 are read; for others give their format: date(C, '%d.%m.%Y')"
        }
        Reading::Instant(_, _) => {
            "times as 2024-01-05T10:03:20+01:00, 2024-01-05 10:03:20.5 UTC and 20240105-09:30:00.123 are read; for others give their format: seconds(C, '%d/%m/%Y %H:%M:%S', 'UTC')"
        }
        Reading::Formatted(_, _, _) | Reading::FormattedDay(_) => of_format(field),
        _ => "",
    }
}

/// What to write for a field that hasn't its column's format.
fn of_format(field: &str) -> &'static str {
    if has_pairs(field) {
        return "each field has the format's parts and the text between them; a year of two digits is read by %y";
    }
    "each field has the format's parts and the text between them"
}

/// Whether two digits stand side by side in it, and never more: then its year has two of them at most.
fn has_pairs(field: &str) -> bool {
    let parts = field.as_bytes().split(|byte| !byte.is_ascii_digit());
    parts.map(|part| part.len()).max() == Some(2)
}

/// What to write for a field that is no whole number.
fn of_int(field: &str) -> &'static str {
    if let Some(help) = of_known_fraction(field.trim()) {
        return help;
    }
    if let Some(help) = of_comma_point(field.trim()) {
        return help;
    }
    if of_sign(field.trim()).is_none() && (field.contains('.') || field.contains(',')) {
        return "read it by decimal(C, 2) where it has fractions, or by decimal(C, 0, ',') where it has signs between thousands";
    }
    of_number(field)
}

/// What to write for a field that is no decimal number of its column's form.
fn of_decimal(field: &str) -> &'static str {
    match of_sign(field.trim()) {
        Some(help) => help,
        None => {
            "signs between thousands are named, and so is the point where it is no full stop: decimal(C, 2, ',') reads 1,234.56, and decimal(C, 2, '.', ',') reads 1.234,56"
        }
    }
}
