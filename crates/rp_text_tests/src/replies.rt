//! Lines that reply something.
use crate::chance::Chance;
use crate::lines::reply_anew;
use crate::support::{holds, refused_twice, text};
use rp_feed::Taken;
use rp_protocol::{Field, Refusal, Reply, push_item_line, push_reply_line};
use rp_query::{Item, SkipFault};
use rp_value::{Cells, Value};
use std::alloc::Global;
use std::test::Fail;

/// What a line may reply, in the signs of `Chance::filled`. The number of a column begins with 9, so that it isn't 0.
const REPLIES: [&str; 8] = [
    r#"{"taken":"repeat"}"#,
    r#"{"idle":*}"#,
    r#"{"paused":*}"#,
    r#"{"refused":"BadRow kind 9%"}"#,
    r#"{"end":true,"key":*,"place":"&"}"#,
    r#"{"fault":"SkipNoRow","key":*,"place":"&"}"#,
    r#"{"cells":*,"key":*,"number":null,"place":"&"}"#,
    r#"{"cells":*,"key":*,"number":$,"place":"&"}"#,
];

#[test]
fn random_replies(rt: HostRuntime) -> Result<(), Fail> {
    let alloc = rt.alloc();
    let mut chance = Chance::new(2);
    for _ in 0..1_000 {
        let form = chance.one_of(&REPLIES);
        let line = chance.filled(alloc, form)?;
        let again = reply_anew(alloc, line.as_str().as_bytes())?;
        holds(&rt, form, again.as_slice() == line.as_str().as_bytes());
    }
    Ok(())
}

/// The lines of the replies of `refused_replies`.
const LINES: &str = r#"{"taken":"new"}
{"taken":"repeat"}
{"taken":"old"}
{"idle":["x",null]}
{"paused":[]}
{"refused":"TooFar"}
{"refused":"BadField key"}
{"refused":"BadField budget"}
{"refused":"BadRow kind 18446744073709551615"}
{"end":true,"key":[],"place":"2"}
{"fault":"SkipSame","key":[],"place":"2"}
{"fault":"SkipNoRow","key":[],"place":"2"}
{"cells":[],"key":[],"number":null,"place":"2"}
{"cells":[-9223372036854775808,null,"a\"\\\n\u0001é"],"key":[],"number":18446744073709551615,"place":"340282366920938463463374607431768211455"}
"#;

/// Replies of each kind go into one buffer.
#[test]
fn refused_replies(rt: HostRuntime) -> Result<(), Fail> {
    let alloc = rt.alloc();
    let key = vec![in alloc; text(alloc, "x")?, Value::Null]?;
    let cells = vec![in alloc;
        Value::Int(i64::MIN),
        Value::Null,
        text(alloc, "a\"\\\n\u{1}é")?,
    ]?;
    let replies = [
        Reply::Taken(Taken::New),
        Reply::Taken(Taken::Repeat),
        Reply::Taken(Taken::Old),
        Reply::Idle(Cells::new(key)),
        Reply::Paused(Cells::new(Vec::new(alloc))),
        Reply::Refused(Refusal::TooFar),
        Reply::Refused(Refusal::BadField(Field::Key)),
        Reply::Refused(Refusal::BadField(Field::Budget)),
        Reply::Refused(Refusal::BadRowKind(u64::MAX)),
        item(alloc, 2, Item::End),
        item(alloc, 2, Item::Fault(SkipFault::SkipSame)),
        item(alloc, 2, Item::Fault(SkipFault::SkipNoRow)),
        item(alloc, 2, row(None, Vec::new(alloc))),
        item(alloc, u128::MAX, row(Some(u64::MAX), cells)),
    ];
    let lines = lines_of(alloc, &replies)?;
    holds(&rt, "replies", lines.as_slice() == LINES.as_bytes());
    Ok(())
}

fn row(number: Option<u64>, cells: Vec<Value>) -> Item {
    let cells = Cells::new(cells);
    Item::Row { number, cells }
}

/// An item of the partition without a key.
fn item(alloc: Global, place: u128, item: Item) -> Reply {
    let key = Cells::new(Vec::new(alloc));
    Reply::Item { key, place, item }
}

fn lines_of(alloc: Global, replies: &[Reply]) -> Result<Vec<u8>, Fail> {
    let mut lines = Vec::new(alloc);
    for reply in replies {
        push_again(alloc, &mut lines, reply)?;
        lines.push(b'\n')?;
    }
    Ok(lines)
}

/// Adds the line of a reply. A buffer that is refused room for it stays as it is, and then takes it.
fn push_again(alloc: Global, lines: &mut Vec<u8>, reply: &Reply) -> Result<(), Fail> {
    let len = lines.len();
    if push_reply_line(alloc, lines, reply).is_ok() {
        return Ok(());
    }
    if lines.len() != len {
        return Err(Fail::from("a part of a reply was written"));
    }
    match push_reply_line(alloc, lines, reply) {
        Ok(()) => Ok(()),
        Err(_) => Err(refused_twice()),
    }
}

/// A buffer that is refused room for an item may have a part of its line behind what it had.
#[test]
fn refused_items(rt: HostRuntime) -> Result<(), Fail> {
    let alloc = rt.alloc();
    let key = Cells::new(vec![in alloc; Value::Int(7)]?);
    let row = row(Some(1), vec![in alloc; Value::Int(7), text(alloc, "y")?]?);
    let lines = lines_of_items(alloc, &key, &row)?;
    holds(&rt, "items", lines.as_slice() == ITEMS.as_bytes());
    Ok(())
}

/// What a buffer has once the lines of a row and of the end were added.
const ITEMS: &str = r#"x
{"cells":[7,"y"],"key":[7],"number":1,"place":"1"}
{"end":true,"key":[7],"place":"2"}"#;

fn lines_of_items(alloc: Global, key: &Cells, row: &Item) -> Result<Vec<u8>, Fail> {
    let mut lines = Vec::from_slice(alloc, b"x\n")?;
    push_item_again(alloc, &mut lines, key, 1, row)?;
    lines.push(b'\n')?;
    push_item_again(alloc, &mut lines, key, 2, &Item::End)?;
    Ok(lines)
}

fn push_item_again(
    alloc: Global,
    lines: &mut Vec<u8>,
    key: &Cells,
    place: u128,
    item: &Item,
) -> Result<(), Fail> {
    let len = lines.len();
    if push_item_line(alloc, lines, key, place, item).is_ok() {
        return Ok(());
    }
    lines.truncate(len);
    match push_item_line(alloc, lines, key, place, item) {
        Ok(()) => Ok(()),
        Err(_) => Err(refused_twice()),
    }
}
