//! The refusals of texts.
ghost use Rattle.std.specs.Prelude.{◌≡◌};
ghost use Rattle.rp_protocol.specs.Refusals.{refusal_word};
ghost use Rattle.rp_json.specs.Forms.{named};
ghost use Rattle.rp_protocol.specs.RefusalTexts.{column_of, plain_refusals, refusal_of};

use crate::{Field, Refusal};
use rp_json::short_digits_of;

/// The refusal of a text.
pub(crate) fn refusal_of(text: &str) -> Option<Refusal>
    ensures { result ≡ refusal_of text.now }
{
    if let Some(digits) = text.as_bytes().strip_prefix(b"BadRow kind ") {
        return column_of(digits).map(Refusal::BadRowKind);
    }
    plain_refusal(text)
}

/// The column of a text of digits. Columns count from 1.
fn column_of(digits: &[u8]) -> Option<u64>
    ensures { result ≡ column_of digits.now }
{
    let column = short_digits_of(digits)?;
    if column == 0 { None } else { Some(column) }
}

fn plain_refusal(text: &str) -> Option<Refusal>
    ensures { result ≡ named refusal_word plain_refusals text.now }
{
    let all = [
        Refusal::TooLong,
        Refusal::NotJson,
        Refusal::BadField(Field::Row),
        Refusal::BadField(Field::Cells),
        Refusal::BadField(Field::Close),
        Refusal::BadField(Field::Key),
        Refusal::BadField(Field::Poll),
        Refusal::BadField(Field::Budget),
        Refusal::BadField(Field::Other),
        Refusal::BadRowWidth,
        Refusal::NumberRange,
        Refusal::PastClose,
        Refusal::Conflict,
        Refusal::TooFar,
        Refusal::CloseDiffers,
        Refusal::CloseBelow,
        Refusal::UnknownPartition,
    ];
    first_named(&all, text)
}

/// The first of a list that has this text.
fn first_named(all: &[Refusal], text: &str) -> Option<Refusal>
    ensures { result ≡ named refusal_word all.now text.now }
{
    for refusal in all {
        if refusal.word() == text {
            return Some(*refusal);
        }
    }
    None
}
