//! Numbers as texts of digits.
ghost use Rattle.std.specs.Prelude.{◌≡◌};
ghost use Rattle.rp_json.specs.Digits.{digits_of, short_digits_of};

use itoa::Buffer;

/// The number that has this text: its digits with no zero in front.
pub fn digits_of(text: &str) -> Option<u128>
    ensures { result ≡ digits_of text.now }
{
    // `parse` takes a sign and zeros in front; the number written anew has neither.
    let Ok(number) = text.parse::<u128>() else {
        return None;
    };
    let mut buffer = Buffer::new();
    if text == buffer.format(number) {
        Some(number)
    } else {
        None
    }
}

/// The number below 2^64 that has this text.
pub fn short_digits_of(text: &[u8]) -> Option<u64>
    ensures { result ≡ short_digits_of text.now }
{
    let Ok(text) = std::str::from_utf8(text) else {
        return None;
    };
    let number = digits_of(text)?;
    u64::try_from(number).ok()
}
