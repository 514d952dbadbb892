//! Lines that ask something: compact ones, which need no tree of JSON, beside what the tree gives of them.
use crate::chance::Chance;
use crate::lines::request_anew;
use crate::support::holds;
use rp_protocol::{LineFault, compact_request, request_line};
use std::alloc::{AllocError, Global};
use std::test::Fail;

/// Lines, and whether they need no tree. Those that do the tree has to read or to refuse.
const LINES: [(&str, bool); 26] = [
    (r#"{"cells":["x",1,10],"row":12}"#, true),
    (r#"{"cells":[],"row":0}"#, true),
    (
        "{\"cells\":[null,\"\u{e9}~\u{7f}\",-9223372036854775808,0],\"row\":18446744073709551615}",
        true,
    ),
    (r#"{"close":1099511627776,"key":[]}"#, true),
    (r#"{"close":0,"key":["x",null]}"#, true),
    (r#"{"budget":4294967295,"poll":[-1]}"#, true),
    ("", false),
    ("{}", false),
    (r#"{"cells":[1]}"#, false),
    (r#"{"cells":[1],"row":1"#, false),
    (r#"{"cells":[1],"row":1} "#, false),
    (r#"{"cells":[1],"row":01}"#, false),
    (r#"{"cells":[1],"row":+1}"#, false),
    (r#"{"cells":[1],"row":18446744073709551616}"#, false),
    (r#"{"cells":[1],"row":1,"x":1}"#, false),
    (r#"{"cells":[-0],"row":1}"#, false),
    (r#"{"cells":[1.5],"row":1}"#, false),
    (r#"{"cells":[1,],"row":1}"#, false),
    (r#"{"cells":[,1],"row":1}"#, false),
    (r#"{"cells":[9223372036854775808],"row":1}"#, false),
    (r#"{"cells":["\n"],"row":1}"#, false),
    ("{\"cells\":[\"\u{1f}\"],\"row\":1}", false),
    (r#"{"cells":["],"row":1}"#, false),
    (r#"{"row":1,"cells":[1]}"#, false),
    (r#"{"budget":4294967296,"poll":[]}"#, false),
    (r#"{"close":1,"key":[[]]}"#, false),
];

/// What a line asks that needs no tree, written anew; of another line nothing.
fn compact_anew(alloc: Global, line: &[u8]) -> Result<Vec<u8>, AllocError> {
    match compact_request(alloc, line)? {
        Some(request) => request_line(alloc, &request),
        None => Ok(Vec::new(alloc)),
    }
}

#[test]
fn lines_without_a_tree(rt: HostRuntime) -> Result<(), Fail> {
    let alloc = rt.alloc();
    let lines: &[(&str, bool)] = &LINES;
    for (line, is_compact) in lines {
        let again = compact_anew(alloc, line.as_bytes())?;
        let wanted = if *is_compact { *line } else { "" };
        holds(&rt, line, again.as_slice() == wanted.as_bytes());
    }
    Ok(())
}

/// What is put into a line to alter it.
const MARKS: [&[u8]; 16] = [
    b"0",
    b"-",
    b"9",
    b"+",
    b".",
    b" ",
    b",",
    b"\"",
    b"\\",
    b"[",
    b"]",
    b"}",
    b"null",
    b"\x1f",
    b"\xc3",
    b"\xc3\xa9",
];

/// A line with a mark put in at a place, or put in place of the byte there.
fn altered(alloc: Global, line: &[u8], chance: &mut Chance) -> Result<Vec<u8>, Fail> {
    let place = chance.place(line.len());
    let mark = MARKS.get(chance.place(MARKS.len())).ok_or("a mark")?;
    let passed = place.saturating_add(chance.place(2));
    let mut bytes = Vec::from_slice(alloc, line.get(..place).unwrap_or(line))?;
    bytes.extend_from_slice(mark)?;
    bytes.extend_from_slice(line.get(passed..).unwrap_or(line))?;
    Ok(bytes)
}

/// Whether both ways agree on a line: where it needs no tree, the tree gives the same. A space behind the line leaves it to the tree.
fn agree(alloc: Global, line: &[u8]) -> Result<bool, Fail> {
    let compact = compact_anew(alloc, line)?;
    if compact.is_empty() {
        return Ok(true);
    }
    let mut spaced = Vec::from_slice(alloc, line)?;
    spaced.push(b' ')?;
    if !compact_anew(alloc, spaced.as_slice())?.is_empty() {
        return Ok(false);
    }
    match request_anew(alloc, spaced.as_slice()) {
        Ok(again) => Ok(again.as_slice() == compact.as_slice()),
        Err(LineFault::OutOfMemory) => Err(Fail::from(LineFault::OutOfMemory)),
        Err(_) => Ok(false),
    }
}

/// What a line may ask, in the signs of `Chance::filled`.
const REQUESTS: [&str; 3] = [
    r#"{"cells":*,"row":$}"#,
    r#"{"close":$,"key":*}"#,
    r#"{"budget":%,"poll":*}"#,
];

/// Requests that look random, there and back, and altered ones.
#[test]
fn random_requests(rt: HostRuntime) -> Result<(), Fail> {
    let alloc = rt.alloc();
    let mut chance = Chance::new(1);
    for _ in 0..7_500 {
        let form = chance.one_of(&REQUESTS);
        let text = chance.filled(alloc, form)?;
        let line = text.as_str().as_bytes();
        let again = request_anew(alloc, line)?;
        holds(&rt, form, again.as_slice() == line);
        holds(&rt, form, agree(alloc, line)?);
        let other = altered(alloc, line, &mut chance)?;
        holds(&rt, form, agree(alloc, other.as_slice())?);
    }
    Ok(())
}
