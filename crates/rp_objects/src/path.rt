//! What a value of JSON has under a path of names.
ghost use Rattle.std.specs.Prelude.{◌≡◌, ◌<◌, ◌∷◌, length, IfSome};
ghost use Rattle.json.specs.Value.{members_view, value_view};
ghost use Rattle.rp_objects.specs.Paths as spec;
ghost use Rattle.rp_objects.specs.Seen.{parts_behind, seen_among, seen_field, seen_value};

use crate::fault::FieldFault;
use crate::key::names_part;
use json::Value;

/// Where a part of a path stands among the members of an object.
#[derive(Clone, Copy)]
enum Among<'v, 'a> {
    Nowhere,
    Once(&'v Value<'a>),
    Twice,
}

/// The field under a path: none where there is no such key, or null on the way.
pub(crate) fn field_under<'a>(
    value: &Value<'a>,
    path: &[u8],
) -> Result<Option<&'a [u8]>, FieldFault>
    ensures { seen_field result ≡ spec.field_under (spec.path_of path.now) (value_view value.now) }
{
    let (part, behind) = first_part(path);
    let next = match inside(value, part) {
        Ok(Some(next)) => next,
        Ok(None) => return Ok(None),
        Err(why) => return Err(why),
    };
    match behind {
        Some(rest) => field_under(next, rest),
        None => field_of(next),
    }
}

/// What a value has under a part of a path, if anything.
fn inside<'v, 'a>(value: &'v Value<'a>, part: &[u8]) -> Result<Option<&'v Value<'a>>, FieldFault>
    ensures { seen_value result ≡ spec.inside part.now (value_view value.now) }
{
    match value {
        Value::Null => Ok(None),
        Value::Object(members) => match find_part(members.as_slice(), part) {
            Among::Nowhere => Ok(None),
            Among::Once(next) => Ok(Some(next)),
            Among::Twice => Err(FieldFault::Double),
        },
        _ => Err(FieldFault::Nested),
    }
}

/// The field that a value stands for.
fn field_of<'a>(value: &Value<'a>) -> Result<Option<&'a [u8]>, FieldFault>
    ensures { seen_field result ≡ spec.field_of (value_view value.now) }
{
    match value {
        Value::Null => Ok(None),
        Value::Bool(true) => Ok(Some(b"true")),
        Value::Bool(false) => Ok(Some(b"false")),
        Value::Number(digits) => Ok(Some(digits.as_bytes())),
        Value::String(text) => Ok(Some(text.as_bytes())),
        Value::Array(_) | Value::Object(_) => Err(FieldFault::Nested),
    }
}

/// The first name of a path, and what is behind its dot, if there is one.
fn first_part(path: &[u8]) -> (&[u8], Option<&[u8]>)
    ensures parts { spec.path_of path.now ≡ result.0.now ∷ parts_behind result.1 }
    ensures shorter { IfSome result.1 (λ rest. length rest.now < length path.now) }
{
    for (at, byte) in path.iter().enumerate() {
        if *byte == b'.' {
            return (&path[..at], Some(&path[at + 1..]));
        }
    }
    (path, None)
}

/// Where a part stands among members.
fn find_part<'v, 'a>(members: &'v [(&'a str, Value<'a>)], part: &[u8]) -> Among<'v, 'a>
    ensures { seen_among result ≡ spec.among part.now (members_view members.now) }
{
    let mut found = Among::Nowhere;
    let mut left = members.len();
    while left > 0 {
        left -= 1;
        let member = &members[left];
        found = with_member(names_part(part, member.0.as_bytes()), &member.1, found);
    }
    found
}

/// Where a part stands, with one more member in front, whose key names it or doesn't.
fn with_member<'v, 'a>(named: bool, value: &'v Value<'a>, later: Among<'v, 'a>) -> Among<'v, 'a>
    ensures { seen_among result ≡ spec.with_member named (value_view value.now) (seen_among later.entry) }
{
    if !named {
        return later;
    }
    match later {
        Among::Nowhere => Among::Once(value),
        _ => Among::Twice,
    }
}
