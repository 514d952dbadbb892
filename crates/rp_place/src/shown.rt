//! Characters as they are shown, and how many columns they take.
ghost use Rattle.std.specs.Prelude.{◌≡◌, ◌-◌, ◌++◌, false, chars, drop, encode_utf8_all, length, string_bytes, take, IfOk, OnOk};
ghost use Rattle.std.specs.Str.{IsCharBoundary};
ghost use Rattle.unicode_width.specs.Width.{str_width};
ghost use Rattle.rp_place.specs.Shown.{longest_rest, shown, shown_character, shown_front, shown_part};

use crate::place::character_count;
use std::alloc::AllocError;
use unicode_width::UnicodeWidthStr;

/// A front of so many characters or more is cut.
const LONG: usize = 70;

/// So many characters of a front that is cut are shown.
const KEPT: usize = 50;

/// So many characters are shown from the place on.
const BEHIND: usize = 80;

/// What is shown for a character: a blank for a tab, and `?` for any other that controls the terminal. So a drawing stays
/// in its lines, and takes the columns that are counted.
pub fn shown_character(character: char) -> char
    ensures { result ≡ shown_character character }
{
    if character == '\t' {
        return ' ';
    }
    if character.is_control() {
        return '?';
    }
    character
}

/// Adds the front of a line, and says how many columns it takes.
pub(crate) fn push_front(out: &mut String, front: &str) -> Result<usize, AllocError>
    ensures text { OnOk result (string_bytes out.new ≡ string_bytes out.old
        ++ encode_utf8_all (shown_front front.now)) }
    ensures width { IfOk result (λ width. width ≡ str_width false (shown_front front.now)) }
{
    let start = out.len();
    push_cut(out, front)?;
    Ok(width_from(out.as_str(), start))
}

/// Adds a front, without its first characters where it is long.
fn push_cut(out: &mut String, front: &str) -> Result<(), AllocError>
    ensures { OnOk result (string_bytes out.new ≡ string_bytes out.old ++ encode_utf8_all (shown_front front.now)) }
{
    let length = character_count(front);
    if length < LONG {
        return push_from(out, front, 0);
    }
    out.push_str("..")?;
    push_from(out, front, length - KEPT)
}

/// Adds what is meant, as far as it is shown, and says how many columns it takes.
pub(crate) fn push_part(out: &mut String, part: &str) -> Result<usize, AllocError>
    ensures text { OnOk result (string_bytes out.new ≡ string_bytes out.old
        ++ encode_utf8_all (shown_part part.now)) }
    ensures width { IfOk result (λ width. width ≡ str_width false (shown_part part.now)) }
{
    let start = out.len();
    push_up_to(out, part, BEHIND)?;
    Ok(width_from(out.as_str(), start))
}

/// Adds what stands behind a part of so many characters, as far as it is shown.
pub(crate) fn push_behind(out: &mut String, part: &str, behind: &str) -> Result<(), AllocError>
    ensures { OnOk result (string_bytes out.new ≡ string_bytes out.old
        ++ encode_utf8_all (take (longest_rest - length (shown part.now)) (shown behind.now))) }
{
    push_up_to(out, behind, BEHIND.saturating_sub(character_count(part)))
}

/// Adds a text as it is shown, without its first characters.
fn push_from(out: &mut String, text: &str, skipped: usize) -> Result<(), AllocError>
    ensures { OnOk result (string_bytes out.new ≡ string_bytes out.old
        ++ encode_utf8_all (drop skipped (shown text.now))) }
{
    out.extend(text.chars().skip(skipped).map(shown_character))
}

/// Adds at most so many characters of a text, as they are shown.
fn push_up_to(out: &mut String, text: &str, most: usize) -> Result<(), AllocError>
    ensures { OnOk result (string_bytes out.new ≡ string_bytes out.old
        ++ encode_utf8_all (take most (shown text.now))) }
{
    out.extend(text.chars().take(most).map(shown_character))
}

/// How many columns a text takes from an offset on, where it may be cut.
fn width_from(text: &str, start: usize) -> usize
    requires { IsCharBoundary text.now start }
    ensures { result ≡ str_width false (chars (drop start text.now)) }
{
    text[start..].width()
}
