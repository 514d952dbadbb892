//! What is told of how a field is read.
use rp_columns::{Marks, Reading, Unit, Zone};
use std::alloc::{AllocError, Global};

/// The text of a reading: `Text`, `Int`, `Day`, `Instant(Second, Europe/Berlin)`, `Decimal(2, point 46, thousands 44)` and the like.
pub(crate) fn reading_text(alloc: Global, reading: &Reading) -> Result<String, AllocError> {
    match reading {
        Reading::Decimal(places, marks) => decimal_text(alloc, *places, *marks),
        Reading::Instant(unit, zone) => instant_text(alloc, "Instant", *unit, zone),
        Reading::Formatted(unit, _, zone) => instant_text(alloc, "Formatted", *unit, zone),
        other => String::from_str(alloc, plain_word(other)),
    }
}

/// The word of a reading of which nothing more is told.
fn plain_word(reading: &Reading) -> &'static str {
    match reading {
        Reading::Text => "Text",
        Reading::Lower => "Lower",
        Reading::Int => "Int",
        Reading::Day => "Day",
        Reading::Record => "Record",
        Reading::FormattedDay(_) => "FormattedDay",
        Reading::Decimal(..) => "Decimal",
        Reading::Instant(..) => "Instant",
        Reading::Formatted(..) => "Formatted",
    }
}

/// The text of a decimal number's reading, with its signs as the numbers of their bytes.
fn decimal_text(alloc: Global, places: u8, marks: Marks) -> Result<String, AllocError> {
    let mut text = format!(in alloc; "Decimal({places}")?;
    if let Some(point) = marks.point {
        text.push_str(format!(in alloc; ", point {point}")?.as_str())?;
    }
    if let Some(thousands) = marks.thousands {
        text.push_str(format!(in alloc; ", thousands {thousands}")?.as_str())?;
    }
    text.push(')')?;
    Ok(text)
}

/// The text of an instant's reading: its unit, and its zone where it has one.
fn instant_text(
    alloc: Global,
    word: &str,
    unit: Unit,
    zone: &Option<Zone>,
) -> Result<String, AllocError> {
    let unit = unit_word(unit);
    match zone {
        None => format!(in alloc; "{word}({unit})"),
        Some(Zone::Fixed(seconds)) => format!(in alloc; "{word}({unit}, {seconds})"),
        Some(Zone::Region(region)) => {
            let name = region.name.as_str();
            format!(in alloc; "{word}({unit}, {name})")
        }
    }
}

/// The word of a unit.
fn unit_word(unit: Unit) -> &'static str {
    match unit {
        Unit::Second => "Second",
        Unit::Millisecond => "Millisecond",
        Unit::Microsecond => "Microsecond",
    }
}
