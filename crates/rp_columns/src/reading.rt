//! How the fields of a column are read.
ghost use Rattle.std.specs.Prelude.{◌≡◌, IfOk, option_map};
ghost use Rattle.rp_columns.specs.Headings.{reading_of};
ghost use Rattle.rp_columns.specs.Loaded.{reading_with, zone_of};
ghost use Rattle.rp_columns.specs.Readings.{kind_of, reads_field};

use crate::formats::Format;
use crate::zone::{Rules, Zone, zone_shared, zone_with};
use rp_value::Kind;
use std::alloc::AllocError;

/// The signs inside a decimal number, each an ASCII character.
#[derive(Clone, Copy)]
pub struct Marks {
    /// What may stand between thousands, as in `1,234,567`; none: nothing may.
    pub thousands: Option<u8>,
    /// What stands before the fraction; none: there is no fraction.
    pub point: Option<u8>,
}

/// The unit of an instant.
#[derive(Clone, Copy)]
pub enum Unit {
    Second,
    Millisecond,
    Microsecond,
}

/// How a field becomes a value: what it means is `value_of` of `specs/Readings`.
pub enum Reading {
    /// The field as it is.
    Text,
    /// The field with small letters for the capital ones of ASCII.
    Lower,
    /// A whole number.
    Int,
    /// A decimal number, in units of its last place: so many places, and the signs inside it. Of two places, `12.5` is 1250.
    Decimal(u8, Marks),
    /// A date and a time, as units since 1970-01-01 00:00 UTC, cut downward. Where the field has no offset, clocks of the
    /// zone show it; none: that is a fault.
    Instant(Unit, Option<Zone>),
    /// A date, as days since 1970-01-01.
    Day,
    /// An instant as `Instant` has it, of a field of this format.
    Formatted(Unit, Format, Option<Zone>),
    /// A date as `Day` has it, of a field of this format.
    FormattedDay(Format),
    /// The number of the record, from 1 on, and no field.
    Record,
}

/// It is let go of by a call, wherever it is held.
impl Drop for Reading {
    fn drop(self) {
        match self {
            Reading::Text => {}
            Reading::Lower => {}
            Reading::Int => {}
            Reading::Decimal(_, _) => {}
            Reading::Instant(_, _) => {}
            Reading::Day => {}
            Reading::Formatted(_, _, _) => {}
            Reading::FormattedDay(_) => {}
            Reading::Record => {}
        }
    }
}

impl Reading {
    /// What the column may hold beside null.
    pub fn kind(&self) -> Kind
        ensures { result ≡ kind_of self.now }
    {
        match self {
            Reading::Text | Reading::Lower => Kind::Text,
            _ => Kind::Int,
        }
    }

    /// Whether the values come from fields: all but the numbers of records do.
    pub fn reads_field(&self) -> bool
        ensures { result ≡ reads_field self.now }
    {
        match self {
            Reading::Record => false,
            _ => true,
        }
    }

    /// The zone of fields without an offset, where the reading names one.
    pub fn zone(&self) -> Option<&Zone>
        ensures { option_map (λ z. z.now) result ≡ zone_of self.now }
    {
        match self {
            Reading::Instant(_, Some(zone)) | Reading::Formatted(_, _, Some(zone)) => Some(zone),
            _ => None,
        }
    }

    /// An equal reading, which shares its format and the rules of its zone.
    pub fn share(&self) -> Result<Reading, AllocError>
        ensures { IfOk result (λ reading. reading ≡ self.now) }
    {
        match self {
            Reading::Text => Ok(Reading::Text),
            Reading::Lower => Ok(Reading::Lower),
            Reading::Int => Ok(Reading::Int),
            Reading::Decimal(places, marks) => Ok(Reading::Decimal(*places, *marks)),
            Reading::Instant(unit, zone) => Ok(Reading::Instant(*unit, zone_shared(zone)?)),
            Reading::Day => Ok(Reading::Day),
            Reading::Formatted(unit, format, zone) => {
                let format = format.share()?;
                Ok(Reading::Formatted(*unit, format, zone_shared(zone)?))
            }
            Reading::FormattedDay(format) => Ok(Reading::FormattedDay(format.share()?)),
            Reading::Record => Ok(Reading::Record),
        }
    }

    /// The reading with these rules for its zone, where that is the region of this name. It shares all else.
    pub(crate) fn with_rules(&self, name: &str, rules: &Rules) -> Result<Reading, AllocError>
        ensures { IfOk result (λ reading. reading ≡ reading_with name.now rules.now self.now) }
    {
        match self {
            Reading::Instant(unit, zone) => {
                Ok(Reading::Instant(*unit, zone_with(zone, name, rules)?))
            }
            Reading::Formatted(unit, format, zone) => {
                let format = format.share()?;
                let zone = zone_with(zone, name, rules)?;
                Ok(Reading::Formatted(*unit, format, zone))
            }
            _ => self.share(),
        }
    }

    /// How fields of a kind are read, where nothing more is said.
    pub(crate) fn of_kind(kind: Kind) -> Reading
        ensures { result ≡ reading_of kind }
    {
        match kind {
            Kind::Text => Reading::Text,
            Kind::Int => Reading::Int,
        }
    }
}
