//! Why a line or a packet is refused, and the text of that.
ghost use Rattle.std.specs.Prelude.{◌≡◌, IfOk, string_bytes};
ghost use Rattle.rp_protocol.specs.Refusals.{refusal_text, refusal_word};

use std::alloc::{AllocError, Global};

/// Why a node refuses a line or a packet.
#[derive(Clone, Copy, Debug, PartialEq, Eq)]
pub enum Refusal {
    /// The line has more than 65,536 bytes.
    TooLong,
    /// The line isn't an object of JSON.
    NotJson,
    /// This field of the line is missing or of another form, or another one is there.
    BadField(Field),
    /// The row or the key has more or fewer values than it has columns.
    BadRowWidth,
    /// A value is neither null nor of its column's kind: the column of the table, or the position in the key, from 1.
    BadRowKind(u64),
    /// The number is 0, or the number or the count is above the greatest one.
    NumberRange,
    /// The number is above the count of the close.
    PastClose,
    /// The row was taken with other cells.
    Conflict,
    /// The number is too far above the front.
    TooFar,
    /// The partition was closed with another count.
    CloseDiffers,
    /// A row above the count was taken.
    CloseBelow,
    /// No packet of this partition was taken.
    UnknownPartition,
}

/// A field of a request's line.
#[derive(Clone, Copy, Debug, PartialEq, Eq)]
pub enum Field {
    /// A row's number.
    Row,
    /// A row's cells.
    Cells,
    /// A close's count.
    Close,
    /// The key of a close.
    Key,
    /// The key of a poll.
    Poll,
    /// The turns of a poll.
    Budget,
    /// Any further one.
    Other,
}

impl Refusal {
    /// What its text begins with: all of it but the column of `BadRowKind`.
    pub fn word(self) -> &'static str
        ensures { result.now ≡ refusal_word self }
    {
        match self {
            Refusal::TooLong => "TooLong",
            Refusal::NotJson => "NotJson",
            Refusal::BadField(field) => field_word(field),
            Refusal::BadRowWidth => "BadRow width",
            Refusal::BadRowKind(_) => "BadRow kind ",
            Refusal::NumberRange => "NumberRange",
            Refusal::PastClose => "PastClose",
            Refusal::Conflict => "Conflict",
            Refusal::TooFar => "TooFar",
            Refusal::CloseDiffers => "CloseDiffers",
            Refusal::CloseBelow => "CloseBelow",
            Refusal::UnknownPartition => "UnknownPartition",
        }
    }
}

fn field_word(field: Field) -> &'static str
    ensures { result.now ≡ refusal_word (Refusal.BadField field) }
{
    match field {
        Field::Row => "BadField row",
        Field::Cells => "BadField cells",
        Field::Close => "BadField close",
        Field::Key => "BadField key",
        Field::Poll => "BadField poll",
        Field::Budget => "BadField budget",
        Field::Other => "BadField other",
    }
}

/// The text of a refusal.
pub(crate) fn refusal_text(alloc: Global, refusal: Refusal) -> Result<String, AllocError>
    ensures { IfOk result (λ s. string_bytes s ≡ refusal_text refusal) }
{
    match refusal {
        Refusal::BadRowKind(column) => kind_text(alloc, column),
        _ => String::from_str(alloc, refusal.word()),
    }
}

fn kind_text(alloc: Global, column: u64) -> Result<String, AllocError>
    ensures { IfOk result (λ s. string_bytes s ≡ refusal_text (Refusal.BadRowKind column)) }
{
    let mut text = String::from_str(alloc, "BadRow kind ")?;
    let mut buffer = itoa::Buffer::new();
    text.push_str(buffer.format(column))?;
    Ok(text)
}
