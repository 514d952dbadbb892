//! Lines of replies, written a token at a time.
ghost use Rattle.std.specs.Prelude.{◌≡◌, ℕ, List, ◌++◌, ◌∷◌, [], IfOk, OnOk, codes, decimal, string_bytes};
ghost use Rattle.json.specs.Token.{key, string};
ghost use Rattle.rp_protocol.specs.Refusals.{refusal_text};
ghost use Rattle.rp_protocol.specs.ReplyLines.{reply_text, item_text, name_of_fault, name_of_taken};
ghost use Rattle.rp_protocol.specs.Tokens.{item_tokens, key_tokens, list_tokens, number_token, reply_tokens, value_token, values_tokens, word_tokens};
ghost use Rattle.rp_protocol.specs.Within.{AreCells, IsCell, IsCount, IsRefusal, IsWithin};

use crate::refusal::refusal_text;
use crate::{Refusal, Reply};
use json::Writer;
use rp_feed::Taken;
use rp_query::{Item, SkipFault};
use rp_value::{Cells, Value};
use std::alloc::{AllocError, Global};
use std::mem;

/// How many bytes a line has room for before it takes more.
pub(crate) const ROOM: usize = 128;

/// The line of a reply, without its line feed.
pub fn reply_line(alloc: Global, reply: &Reply) -> Result<String, AllocError>
    ensures text { IfOk result (λ line. string_bytes line ≡ reply_text reply.now) }
    ensures within { IfOk result (λ _. IsWithin reply.now) }
{
    let line = reply_bytes(alloc, reply)?;
    string_of(line)
}

/// Adds the line of a reply to a text, without its line feed. The line is made apart from the text, so that it costs no
/// more where the text is long. Where memory is refused, the text stays as it is, or has the whole line.
pub fn push_reply_line(alloc: Global, text: &mut Vec<u8>, reply: &Reply) -> Result<(), AllocError>
    ensures text { OnOk result (text.new.items ≡ text.old.items ++ reply_text reply.now) }
    ensures within { OnOk result (IsWithin reply.now) }
    ensures kept { (added : List ℕ) × (text.new.items ≡ text.old.items ++ added) }
{
    let line = reply_bytes(alloc, reply)?;
    text.extend_from_slice(line.as_slice())
}

fn reply_bytes(alloc: Global, reply: &Reply) -> Result<Vec<u8>, AllocError>
    ensures text { IfOk result (λ line. line.items ≡ reply_text reply.now) }
    ensures within { IfOk result (λ _. IsWithin reply.now) }
{
    let mut writer = Writer::new(Vec::with_capacity(alloc, ROOM)?);
    write_reply(alloc, &mut writer, reply)?;
    Ok(writer.into_inner())
}

/// Adds the line of an item of a partition's answer to a text, without its line feed. The key is lent, since all items
/// of a partition have it. It costs as much as the room that the text has: a short text of its own is best. Where memory is
/// refused, some bytes may be added.
pub fn push_item_line(
    alloc: Global,
    text: &mut Vec<u8>,
    key: &Cells,
    place: u128,
    item: &Item,
) -> Result<(), AllocError>
    ensures ok { OnOk result (text.new.items ≡ text.old.items ++ item_text key.now place item.now) }
    ensures kept { (added : List ℕ) × (text.new.items ≡ text.old.items ++ added) }
{
    let earlier = mem::replace(text, Vec::new(alloc));
    let mut writer = Writer::new(earlier);
    let written = write_item(&mut writer, key, place, item);
    *text = writer.into_inner();
    written
}

fn string_of(bytes: Vec<u8>) -> Result<String, AllocError>
    ensures { IfOk result (λ text. string_bytes text ≡ bytes.items) }
{
    match String::from_utf8(bytes) {
        Ok(text) => Ok(text),
        Err(_) => Err(AllocError),
    }
}

fn write_reply(alloc: Global, writer: &mut Writer, reply: &Reply) -> Result<(), AllocError>
    ensures ok { OnOk result (writer.new.tokens ≡ writer.old.tokens ++ reply_tokens reply.now) }
    ensures within { OnOk result (IsWithin reply.now) }
    ensures before { writer.new.before ≡ writer.old.before }
{
    match reply {
        Reply::Taken(taken) => write_word(writer, "taken", taken_name(*taken)),
        Reply::Item { key, place, item } => write_item(writer, key, *place, item),
        Reply::Idle(key) => write_values_alone(writer, "idle", key),
        Reply::Paused(key) => write_values_alone(writer, "paused", key),
        Reply::Refused(refusal) => write_refusal(alloc, writer, *refusal),
    }
}

/// An object with this text alone.
fn write_word(writer: &mut Writer, name: &str, word: &str) -> Result<(), AllocError>
    ensures ok { OnOk result (writer.new.tokens ≡ writer.old.tokens ++ word_tokens name.now word.now) }
    ensures before { writer.new.before ≡ writer.old.before }
{
    writer.begin_object()?;
    writer.key(name)?;
    writer.string(word)?;
    writer.end_object()
}

/// An object with these values alone.
fn write_values_alone(writer: &mut Writer, name: &str, values: &Cells) -> Result<(), AllocError>
    ensures ok { OnOk result (writer.new.tokens ≡ writer.old.tokens ++ list_tokens name.now values.now) }
    ensures within { OnOk result (AreCells values.now) }
    ensures before { writer.new.before ≡ writer.old.before }
{
    writer.begin_object()?;
    writer.key(name)?;
    write_values(writer, values.as_slice())?;
    writer.end_object()
}

fn taken_name(taken: Taken) -> &'static str
    ensures { result.now ≡ name_of_taken taken }
{
    match taken {
        Taken::New => "new",
        Taken::Repeat => "repeat",
        Taken::Old => "old",
    }
}

fn write_refusal(alloc: Global, writer: &mut Writer, refusal: Refusal) -> Result<(), AllocError>
    ensures ok { OnOk result
        (writer.new.tokens ≡ writer.old.tokens ++ word_tokens (codes "refused") (refusal_text refusal)) }
    ensures within { OnOk result (IsRefusal refusal) }
    ensures before { writer.new.before ≡ writer.old.before }
{
    let text = refusal_text(alloc, refusal)?;
    write_word(writer, "refused", text.as_str())
}

fn write_item(writer: &mut Writer, key: &Cells, place: u128, item: &Item) -> Result<(), AllocError>
    ensures ok { OnOk result (writer.new.tokens ≡ writer.old.tokens ++ item_tokens key.now place item.now) }
    ensures within { OnOk result (IsWithin (Reply.Item key.now place item.now)) }
    ensures before { writer.new.before ≡ writer.old.before }
{
    match item {
        Item::Row { number, cells } => write_row(writer, key, place, *number, cells),
        Item::Fault(fault) => write_fault(writer, key, place, *fault),
        Item::End => write_end(writer, key, place),
    }
}

fn write_row(
    writer: &mut Writer,
    key: &Cells,
    place: u128,
    number: Option<u64>,
    cells: &Cells,
) -> Result<(), AllocError>
    ensures ok { OnOk result
        (writer.new.tokens ≡ writer.old.tokens ++ item_tokens key.now place (Item.Row number cells.now)) }
    ensures within { OnOk result (IsWithin (Reply.Item key.now place (Item.Row number cells.now))) }
    ensures before { writer.new.before ≡ writer.old.before }
{
    writer.begin_object()?;
    writer.key("cells")?;
    write_values(writer, cells.as_slice())?;
    write_key(writer, key)?;
    writer.key("number")?;
    write_number(writer, number)?;
    write_place(writer, place)?;
    writer.end_object()
}

fn write_fault(
    writer: &mut Writer,
    key: &Cells,
    place: u128,
    fault: SkipFault,
) -> Result<(), AllocError>
    ensures ok { OnOk result (writer.new.tokens ≡ writer.old.tokens ++ item_tokens key.now place (Item.Fault fault)) }
    ensures within { OnOk result (IsWithin (Reply.Item key.now place (Item.Fault fault))) }
    ensures before { writer.new.before ≡ writer.old.before }
{
    writer.begin_object()?;
    writer.key("fault")?;
    writer.string(fault_name(fault))?;
    write_key(writer, key)?;
    write_place(writer, place)?;
    writer.end_object()
}

fn write_end(writer: &mut Writer, key: &Cells, place: u128) -> Result<(), AllocError>
    ensures ok { OnOk result (writer.new.tokens ≡ writer.old.tokens ++ item_tokens key.now place Item.End) }
    ensures within { OnOk result (IsWithin (Reply.Item key.now place Item.End)) }
    ensures before { writer.new.before ≡ writer.old.before }
{
    writer.begin_object()?;
    writer.key("end")?;
    writer.boolean(true)?;
    write_key(writer, key)?;
    write_place(writer, place)?;
    writer.end_object()
}

pub(crate) fn fault_name(fault: SkipFault) -> &'static str
    ensures { result.now ≡ name_of_fault fault }
{
    match fault {
        SkipFault::SkipNoRow => "SkipNoRow",
        SkipFault::SkipSame => "SkipSame",
    }
}

fn write_number(writer: &mut Writer, number: Option<u64>) -> Result<(), AllocError>
    ensures ok { OnOk result (writer.new.tokens ≡ writer.old.tokens ++ number_token number ∷ []) }
    ensures within { OnOk result (IsCount number) }
    ensures before { writer.new.before ≡ writer.old.before }
{
    match number {
        Some(number) => writer.u64(number),
        None => writer.null(),
    }
}

fn write_place(writer: &mut Writer, place: u128) -> Result<(), AllocError>
    ensures ok { OnOk result
        (writer.new.tokens ≡ writer.old.tokens ++ key (codes "place") ∷ string (decimal place) ∷ []) }
    ensures before { writer.new.before ≡ writer.old.before }
{
    writer.key("place")?;
    let mut buffer = itoa::Buffer::new();
    writer.string(buffer.format(place))
}

fn write_key(writer: &mut Writer, key: &Cells) -> Result<(), AllocError>
    ensures ok { OnOk result (writer.new.tokens ≡ writer.old.tokens ++ key_tokens key.now) }
    ensures within { OnOk result (AreCells key.now) }
    ensures before { writer.new.before ≡ writer.old.before }
{
    writer.key("key")?;
    write_values(writer, key.as_slice())
}

pub(crate) fn write_values(writer: &mut Writer, values: &[Value]) -> Result<(), AllocError>
    ensures ok { OnOk result (writer.new.tokens ≡ writer.old.tokens ++ values_tokens values.now) }
    ensures within { OnOk result (AreCells values.now) }
    ensures before { writer.new.before ≡ writer.old.before }
{
    writer.begin_array()?;
    for value in values {
        write_value(writer, value)?;
    }
    writer.end_array()
}

pub(crate) fn write_value(writer: &mut Writer, value: &Value) -> Result<(), AllocError>
    ensures ok { OnOk result (writer.new.tokens ≡ writer.old.tokens ++ value_token value.now ∷ []) }
    ensures within { OnOk result (IsCell value.now) }
    ensures before { writer.new.before ≡ writer.old.before }
{
    match value {
        Value::Null => writer.null(),
        Value::Int(number) => writer.i64(*number),
        Value::Text(text) => writer.string(text.as_str()),
    }
}
