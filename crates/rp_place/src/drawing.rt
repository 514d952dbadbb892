//! The drawing of a place: its line, with marks under what is meant.
ghost use Rattle.std.specs.Prelude.{◌≡◌, ◌++◌, false, codes, decimal, encode_utf8_all, length, max, replicate, string_bytes, IfOk, OnErr, OnOk};
ghost use Rattle.rp_place.specs.Drawn.{drawing, heading, help_lines, place_line, right_aligned, said};
ghost use Rattle.rp_place.specs.Shown.{blank, caret, shown_front, shown_part};
ghost use Rattle.unicode_width.specs.Width.{str_width};

use crate::place::Place;
use crate::shown::{push_behind, push_front, push_part};
use itoa::Buffer;
use std::alloc::{AllocError, Global};
use std::iter;

/// So many columns a line's number takes, and more where it has more digits.
const NUMBER: usize = 4;

/// How many columns the parts of a line take.
#[derive(Clone, Copy)]
struct Widths {
    number: usize,
    front: usize,
    part: usize,
}

/// Adds where a place is, its line, and marks under what is meant, with what is said of it. What the text is called and
/// what is said stand as they are: a line end in them is one in the drawing.
pub fn draw(out: &mut String, name: &str, place: &Place<'_>, what: &str) -> Result<(), AllocError>
    ensures drawn { OnOk result (string_bytes out.new ≡ string_bytes out.old ++ drawing name.now place.now what.now) }
    ensures unchanged { OnErr result (string_bytes out.new ≡ string_bytes out.old) }
{
    let drawn = drawing_of(*out.allocator(), name, place, what)?;
    out.push_str(drawn.as_str())
}

/// Adds each line of a help behind `  help: `.
pub fn push_help(out: &mut String, help: &str) -> Result<(), AllocError>
    ensures added { OnOk result (string_bytes out.new ≡ string_bytes out.old ++ help_lines help.now) }
    ensures unchanged { OnErr result (string_bytes out.new ≡ string_bytes out.old) }
{
    let lines = lines_of_help(*out.allocator(), help)?;
    out.push_str(lines.as_str())
}

/// A drawing, made apart from the text that it is for: so that text has the whole of it or nothing.
fn drawing_of(
    alloc: Global,
    name: &str,
    place: &Place<'_>,
    what: &str,
) -> Result<String, AllocError>
    ensures { IfOk result (λ drawn. string_bytes drawn ≡ drawing name.now place.now what.now) }
{
    let mut drawn = String::new(alloc);
    push_heading(&mut drawn, name, place)?;
    let widths = push_line(&mut drawn, place)?;
    push_marks(&mut drawn, widths)?;
    push_said(&mut drawn, what)?;
    Ok(drawn)
}

/// The lines of a help, made apart likewise.
fn lines_of_help(alloc: Global, help: &str) -> Result<String, AllocError>
    ensures { IfOk result (λ lines. string_bytes lines ≡ help_lines help.now) }
{
    let mut lines = String::new(alloc);
    for line in help.lines() {
        lines.push_str("  help: ")?;
        lines.push_str(line)?;
        lines.push('\n')?;
    }
    Ok(lines)
}

/// Adds the line that tells where the place is.
fn push_heading(out: &mut String, name: &str, place: &Place<'_>) -> Result<(), AllocError>
    ensures { OnOk result (string_bytes out.new ≡ string_bytes out.old ++ heading name.now place.now) }
{
    out.push_str("  ")?;
    out.push_str(name)?;
    out.push_str(", line ")?;
    push_decimal(out, place.line)?;
    out.push_str(", column ")?;
    push_decimal(out, place.column())?;
    out.push('\n')
}

/// Adds the line of the place, and says how many columns its parts take.
fn push_line(out: &mut String, place: &Place<'_>) -> Result<Widths, AllocError>
    ensures text { OnOk result (string_bytes out.new ≡ string_bytes out.old ++ place_line place.now) }
    ensures number { IfOk result (λ widths. widths.number ≡ length (right_aligned place.now.line)) }
    ensures front { IfOk result (λ widths. widths.front ≡ str_width false (shown_front place.now.front.now)) }
    ensures part { IfOk result (λ widths. widths.part ≡ str_width false (shown_part place.now.part.now)) }
{
    let number = push_number(out, place.line)?;
    out.push_str(" | ")?;
    let front = push_front(out, place.front)?;
    let part = push_part(out, place.part)?;
    push_behind(out, place.part, place.behind)?;
    out.push('\n')?;
    Ok(Widths {
        number,
        front,
        part,
    })
}

/// Adds the marks' line as far as the last mark.
fn push_marks(out: &mut String, widths: Widths) -> Result<(), AllocError>
    ensures { OnOk result (string_bytes out.new ≡ string_bytes out.old
        ++ (encode_utf8_all (replicate widths.number blank) ++ codes " | "
        ++ encode_utf8_all (replicate widths.front blank) ++ encode_utf8_all (replicate (max 1 widths.part) caret))) }
{
    push_times(out, ' ', widths.number)?;
    out.push_str(" | ")?;
    push_times(out, ' ', widths.front)?;
    push_times(out, '^', widths.part.max(1))
}

/// Adds what is said, behind a blank, and ends the line.
fn push_said(out: &mut String, what: &str) -> Result<(), AllocError>
    ensures { OnOk result (string_bytes out.new ≡ string_bytes out.old ++ (said what.now ++ codes "\n")) }
{
    if what.is_empty() {
        return out.push('\n');
    }
    out.push(' ')?;
    out.push_str(what)?;
    out.push('\n')
}

/// Adds a number behind blanks, and says how many columns that takes.
fn push_number(out: &mut String, number: usize) -> Result<usize, AllocError>
    ensures text { OnOk result (string_bytes out.new ≡ string_bytes out.old
        ++ encode_utf8_all (right_aligned number)) }
    ensures width { IfOk result (λ width. width ≡ length (right_aligned number)) }
{
    let mut buffer = Buffer::new();
    let digits = buffer.format(number);
    let blanks = NUMBER.saturating_sub(digits.len());
    push_times(out, ' ', blanks)?;
    out.push_str(digits)?;
    Ok(blanks + digits.len())
}

/// Adds the digits of a number.
fn push_decimal(out: &mut String, number: usize) -> Result<(), AllocError>
    ensures { OnOk result (string_bytes out.new ≡ string_bytes out.old ++ decimal number) }
{
    out.push_str(Buffer::new().format(number))
}

/// Adds a character so many times.
fn push_times(out: &mut String, character: char, times: usize) -> Result<(), AllocError>
    ensures { OnOk result (string_bytes out.new ≡ string_bytes out.old
        ++ encode_utf8_all (replicate times character)) }
{
    out.extend(iter::repeat_n(character, times))
}
