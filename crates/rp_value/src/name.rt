//! The form of names that stand without quotes.

ghost use Rattle.std.specs.Prelude.{◌≡◌, ◌↔◌, IsTrue, IfOk, IfSome, IfNone};
ghost use Rattle.std.specs.String.{string_bytes};
ghost use Rattle.rp_value.specs.Names.{is_name_start, is_name_byte, IsIdentifier, IsUpperCaseName};

use std::alloc::{AllocError, Global};

/// The upper-case form of a text that has the form of a name: an ASCII letter or `_`, and then such letters, digits and `_`. None for
/// any other text. Reserved words have that form, so `order` gives ORDER: it is for names that stand alone, as in the header
/// of a file, where nothing could be taken for a word of a clause.
pub fn upper_case_name(alloc: Global, text: &str) -> Result<Option<String>, AllocError>
    ensures name { IfOk result (λ found. IfSome found (λ name. IsUpperCaseName text.now (string_bytes name))) }
    ensures no_name { IfOk result (λ found. IfNone found (IsIdentifier text.now → ⊥)) }
{
    if !is_identifier(text.as_bytes()) {
        return Ok(None);
    }
    let mut form = String::from_str(alloc, text)?;
    form.make_ascii_uppercase();
    Ok(Some(form))
}

/// Whether the byte may stand in a name: an ASCII letter, a digit or `_`.
pub fn is_name_byte(byte: u8) -> bool
    ensures { result ≡ is_name_byte byte }
{
    byte.is_ascii_alphanumeric() || byte == b'_'
}

/// Whether a name may begin with the byte.
fn is_name_start(byte: u8) -> bool
    ensures { result ≡ is_name_start byte }
{
    byte.is_ascii_alphabetic() || byte == b'_'
}

/// Whether the bytes have the form of a name.
fn is_identifier(bytes: &[u8]) -> bool
    ensures { IsTrue result ↔ IsIdentifier bytes.now }
{
    match bytes.first() {
        Some(first) => is_name_start(*first) && bytes.iter().all(|byte| is_name_byte(*byte)),
        None => false,
    }
}
