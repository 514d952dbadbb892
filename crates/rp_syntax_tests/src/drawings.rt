//! What is drawn of parts of texts, also of parts that begin or end inside a character or behind the text. The marks were set by hand, by
//! the columns that a terminal gives each character. What `check` draws of faults is in cases/drawings.cases.
use crate::support::{same, unless_refused_twice};
use rp_place::{Place, Span, draw, law_lines, law_marks, push_help};
use std::alloc::{AllocError, Global};
use std::process::Abort;
use std::test::Fail;

/// A text, a part of it by its offsets, and the drawing of the part's place.
type Case = (&'static str, usize, usize, &'static str);

const DRAWINGS: &[Case] = &[
    (
        "ab\ncd ef gh\r\nij",
        6,
        8,
        "  clause, line 2, column 4
   2 | cd ef gh
     |    ^^ here
",
    ),
    (
        "ab\ncd ef gh\r\nij",
        6,
        14,
        "  clause, line 2, column 4
   2 | cd ef gh
     |    ^^^^^ here
",
    ),
    (
        "ab\ncd ef gh\r\nij",
        11,
        12,
        "  clause, line 2, column 9
   2 | cd ef gh
     |         ^ here
",
    ),
    (
        "PATTERN (A B)\nDEFINE B",
        21,
        22,
        "  clause, line 2, column 8
   2 | DEFINE B
     |        ^ here
",
    ),
    (
        "ab\ncd",
        2,
        3,
        "  clause, line 1, column 3
   1 | ab
     |   ^ here
",
    ),
    (
        "A B C",
        4,
        2,
        "  clause, line 1, column 5
   1 | A B C
     |     ^ here
",
    ),
    (
        "A B",
        3,
        3,
        "  clause, line 1, column 4
   1 | A B
     |    ^ here
",
    ),
    (
        "A B",
        7,
        9,
        "  clause, line 1, column 4
   1 | A B
     |    ^ here
",
    ),
    (
        "aéb",
        usize::MAX,
        usize::MAX,
        "  clause, line 1, column 4
   1 | aéb
     |    ^ here
",
    ),
    // The two bytes of é stand at 1 and 2.
    (
        "aéb",
        2,
        3,
        "  clause, line 1, column 2
   1 | aéb
     |  ^ here
",
    ),
    (
        "aéb",
        0,
        2,
        "  clause, line 1, column 1
   1 | aéb
     | ^ here
",
    ),
    (
        "",
        0,
        0,
        "  clause, line 1, column 1\n   1 | \n     | ^ here\n",
    ),
    (
        "A\n",
        2,
        2,
        "  clause, line 2, column 1\n   2 | \n     | ^ here\n",
    ),
    (
        "a\r\nb",
        4,
        4,
        "  clause, line 2, column 2\n   2 | b\n     |  ^ here\n",
    ),
    (
        "\n\n\n",
        3,
        3,
        "  clause, line 4, column 1\n   4 | \n     | ^ here\n",
    ),
];

/// The drawing of a part of a text called `clause`, of which `here` is said.
fn drawn(alloc: Global, text: &str, start: usize, end: usize) -> Result<String, AllocError> {
    let mut out = String::new(alloc);
    let place = Place::of(text, Span { start, end });
    draw(&mut out, "clause", &place, "here")?;
    Ok(out)
}

/// Asserts that each part's drawing is this.
fn check_drawings(rt: &impl Abort, alloc: Global, cases: &[Case]) -> Result<(), AllocError> {
    for (text, start, end, wanted) in cases {
        let out = drawn(alloc, text, *start, *end)?;
        same(rt, out.as_str(), wanted);
    }
    Ok(())
}

#[test]
fn drawings(rt: HostRuntime) -> Result<(), Fail> {
    law_marks();
    law_lines();
    Ok(check_drawings(&rt, rt.alloc(), DRAWINGS)?)
}

/// A place that is put together from texts, with characters that would control a terminal.
const PLACE: Place<'static> = Place {
    line: 12,
    front: "1,",
    part: "\u{fffd}",
    behind: ",a \t\n\u{1f}~\u{7f}\u{9f}\u{a0}値",
};

const DRAWN: &str = "\
before
  csv, line 12, column 3
  12 | 1,\u{fffd},a  ??~??\u{a0}値
     |   ^
";

/// Adds the drawing of the place, of which nothing is said; again where memory is refused, which adds nothing.
fn draw_at_last(rt: &impl Abort, out: &mut String) -> bool {
    if draw(out, "csv", &PLACE, "").is_ok() {
        return true;
    }
    same(rt, out.as_str(), "before\n");
    draw(out, "csv", &PLACE, "").is_ok()
}

#[test]
fn refused_drawing(rt: HostRuntime) -> Result<(), Fail> {
    let mut out = String::from_str(rt.alloc(), "before\n")?;
    let is_drawn = draw_at_last(&rt, &mut out);
    same(&rt, out.as_str(), DRAWN);
    unless_refused_twice(is_drawn)
}

/// Adds a help of two lines behind an empty one, which has none; again where memory is refused, which adds nothing.
fn push_help_at_last(rt: &impl Abort, out: &mut String) -> bool {
    let help = "write price\nor add a column";
    if push_help(out, "").is_ok() && push_help(out, help).is_ok() {
        return true;
    }
    same(rt, out.as_str(), "before\n");
    push_help(out, help).is_ok()
}

#[test]
fn refused_help(rt: HostRuntime) -> Result<(), Fail> {
    let mut out = String::from_str(rt.alloc(), "before\n")?;
    let is_pushed = push_help_at_last(&rt, &mut out);
    let wanted = "before\n  help: write price\n  help: or add a column\n";
    same(&rt, out.as_str(), wanted);
    unless_refused_twice(is_pushed)
}
