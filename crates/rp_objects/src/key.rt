//! Whether a key names a part of a path.
ghost use Rattle.std.specs.Prelude.{◌≡◌, ◌==◌, map};
ghost use Rattle.std.specs.Char.{to_ascii_uppercase};
ghost use Rattle.std.specs.Str.{bytes_eq};
ghost use Rattle.std.specs.List.{list_all};
ghost use Rattle.rp_value.specs.Names.{is_name_byte, is_name_start};
ghost use Rattle.rp_objects.specs.Paths.{is_name, names_part};

use rp_value::is_name_byte;

/// Whether the key is the part, or has the form of a name whose upper-case form that is.
pub(crate) fn names_part(part: &[u8], key: &[u8]) -> bool
    ensures { result ≡ names_part part.now key.now }
{
    key == part || (is_name(key) && is_upper_case_of(part, key))
}

/// Whether the key has the form of a name: an ASCII letter or `_`, and then such letters, digits and `_`.
fn is_name(key: &[u8]) -> bool
    ensures { result ≡ is_name key.now }
{
    let Some(first) = key.first() else {
        return false;
    };
    is_name_start(*first) && are_name_bytes(key)
}

/// Whether each byte may stand in a name.
fn are_name_bytes(key: &[u8]) -> bool
    ensures { result ≡ list_all is_name_byte key.now }
{
    key.iter().all(|byte| is_name_byte(*byte))
}

/// Whether a name may begin with the byte.
fn is_name_start(byte: u8) -> bool
    ensures { result ≡ is_name_start byte }
{
    byte.is_ascii_alphabetic() || byte == b'_'
}

/// Whether the part is the key with capital letters.
fn is_upper_case_of(part: &[u8], key: &[u8]) -> bool
    ensures { result ≡ bytes_eq (map to_ascii_uppercase key.now) part.now }
{
    if part.len() != key.len() {
        return false;
    }
    for index in 0..key.len() {
        if key[index].to_ascii_uppercase() != part[index] {
            return false;
        }
    }
    true
}
