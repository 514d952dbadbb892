//! What to write in place of a form that no clause has, with the words of the clause itself.

use crate::columns::variables;
use crate::fractions::{of_amount, of_fraction};
use crate::intervals::of_interval;
use rp_lexer::{Keyword, TokenKind};
use rp_wording::{
    Advice, Part, Pieces, Reading, begins_condition, ends_condition, is_behind_not, is_comparison,
    is_name, is_one_of, is_short, operand_end, operand_start, short_text, text_of, value_end,
    value_start, whole_operand,
};
use std::alloc::{AllocError, Global};

/// The most groups of three digits behind the second one of a number.
const GROUPS: u32 = 5;

/// What to write in place of what stands at the place, where that can be said in the clause's own words.
pub(crate) fn instead(alloc: Global, reading: &Reading<'_>) -> Result<Option<Advice>, AllocError> {
    match reading.part() {
        Part::Measures | Part::Define => Ok(in_values(alloc, reading)),
        Part::Pattern => Ok(in_pattern(alloc, reading)),
        Part::Skip => in_skip(alloc, reading),
        _ => Ok(None),
    }
}

/// The same in MEASURES and DEFINE.
fn in_values(alloc: Global, reading: &Reading<'_>) -> Option<Advice> {
    match reading.here() {
        "(" => in_call(alloc, reading),
        "." if reading.back(1) == ")" => point(alloc, reading),
        "." => fraction(alloc, reading),
        "," | "*" | "+" | "-" => in_arguments(alloc, reading),
        sign if is_comparison(sign) => chained(alloc, reading),
        word if is_one_of(word, "DISTINCT") => distinct(alloc, reading),
        _ if is_thousands(reading) => Some(thousands(alloc, reading)),
        _ => of_interval(alloc, reading),
    }
}

/// Whether three digits stand at the place, behind a comma and digits without a gap: 1,000.
fn is_thousands(reading: &Reading<'_>) -> bool {
    let number = Some(TokenKind::Number);
    let comma = Reading {
        at: reading.at.saturating_sub(1),
        ..*reading
    };
    reading.kind_here() == number
        && reading.here().len() == 3
        && reading.back(1) == ","
        && reading.kind_back(2) == number
        && reading.touches()
        && comma.touches()
}

/// What to write in place of a number with a comma before the digits at the place, and perhaps with more commas behind them.
fn thousands(alloc: Global, reading: &Reading<'_>) -> Advice {
    let mut help = Pieces::filled(alloc, "write {}{}", &[reading.back(2), reading.here()]);
    let mut last = *reading;
    for _ in 0..GROUPS {
        last.at = last.at.saturating_add(2);
        if !is_thousands(&last) {
            break;
        }
        help.push(last.here());
    }
    Advice::with_help(alloc, "a number has no comma between its digits", help)
}

/// A comparison with a fraction.
fn fraction(alloc: Global, reading: &Reading<'_>) -> Option<Advice> {
    if let Some(advice) = of_fraction(alloc, reading) {
        return Some(advice);
    }
    of_amount(alloc, reading)
}

/// Advice with a form in which words of the clause stand.
pub(crate) fn told(alloc: Global, what: &str, form: &str, values: &[&str]) -> Option<Advice> {
    let help = Pieces::filled(alloc, form, values);
    Some(Advice::with_help(alloc, what, help))
}

/// The same in place of the function whose name stands before the place.
fn told_of_function(
    alloc: Global,
    reading: &Reading<'_>,
    form: &str,
    values: &[&str],
) -> Option<Advice> {
    Some(Advice::of_pieces(
        Pieces::filled(alloc, "there is no function {}", &[reading.back(1)]),
        Pieces::filled(alloc, form, values),
    ))
}

/// A function that there isn't, at its bracket.
fn in_call(alloc: Global, reading: &Reading<'_>) -> Option<Advice> {
    match reading.back(1) {
        name if is_one_of(name, "ISNULL IS_NULL") => null_test(alloc, reading, "IS NULL"),
        name if is_one_of(name, "NOTNULL ISNOTNULL IS_NOT_NULL") => {
            null_test(alloc, reading, "IS NOT NULL")
        }
        name if is_one_of(name, "ABS") => absolute(alloc, reading),
        name if is_one_of(name, "MATCH_ROWTIME FIRST_ROWTIME") => row_time(alloc, reading),
        _ => None,
    }
}

/// ISNULL of one value.
fn null_test(alloc: Global, reading: &Reading<'_>, test: &str) -> Option<Advice> {
    let start = reading.at.saturating_add(1);
    let end = operand_end(reading, start);
    let value = text_of(reading, start, end);
    if reading.written(end) != ")" || !is_short(value) {
        return None;
    }
    told_of_function(alloc, reading, "write {} {}", &[value, test])
}

/// The time of a match, which is that of its last row.
fn row_time(alloc: Global, reading: &Reading<'_>) -> Option<Advice> {
    let function = if is_one_of(reading.back(1), "MATCH_ROWTIME") {
        "LAST"
    } else {
        "FIRST"
    };
    let column = first_order_column(reading);
    told_of_function(alloc, reading, "write {}({})", &[function, column])
}

/// The first column of ORDER BY; `t` where there is none.
fn first_order_column<'a>(reading: &Reading<'a>) -> &'a str {
    for (index, token) in reading.tokens.iter().enumerate() {
        if token.kind == TokenKind::Keyword(Keyword::Order) {
            return reading.written(index.saturating_add(2));
        }
    }
    "t"
}

/// ABS of a difference that is compared.
fn absolute(alloc: Global, reading: &Reading<'_>) -> Option<Advice> {
    let start = reading.at.checked_sub(1)?;
    let first = reading.at.saturating_add(1);
    let minus = whole_operand(reading, first)?;
    let second = minus.saturating_add(1);
    let close = whole_operand(reading, second)?;
    let sign = close.saturating_add(1);
    let end = value_end(reading, sign.saturating_add(1))?;
    if reading.written(minus) != "-" || reading.written(close) != ")" {
        return None;
    }
    if !begins_condition(reading, start) || !ends_condition(reading, end) {
        return None;
    }
    let one = short_text(reading, first, minus)?;
    let other = short_text(reading, second, close)?;
    let limit = short_text(reading, sign, end)?;
    let form = bounded(reading.written(sign), is_behind_not(reading, start))?;
    told(
        alloc,
        "there is no function ABS",
        form,
        &[one, other, limit, other, one, limit],
    )
}

/// How the amount of a difference is compared by a sign.
fn bounded(sign: &str, is_behind_not: bool) -> Option<&'static str> {
    match sign {
        ">" | ">=" => Some("write ({} - {} {} OR {} - {} {})"),
        "<" | "<=" if is_behind_not => Some("write ({} - {} {} AND {} - {} {})"),
        "<" | "<=" => Some("write {} - {} {} AND {} - {} {}"),
        _ => None,
    }
}

/// A point behind the call of a navigation: PREV(B).p.
fn point(alloc: Global, reading: &Reading<'_>) -> Option<Advice> {
    let function = reading.back(4);
    let functions = "PREV NEXT FIRST LAST COUNT SUM MIN MAX";
    if reading.back(3) != "(" || !is_one_of(function, functions) {
        return None;
    }
    let variable = reading.back(2);
    let column = reading.next(1);
    if !is_name(reading.kind_back(2)) || !is_name(reading.kind(reading.at.saturating_add(1))) {
        return None;
    }
    told(
        alloc,
        "a point can't follow a bracket",
        "write {}({}.{}) in place of {}({}).{}",
        &[function, variable, column, function, variable, column],
    )
}

/// More than one column in the brackets of MIN, MAX, FIRST, LAST, PREV or NEXT.
fn in_arguments(alloc: Global, reading: &Reading<'_>) -> Option<Advice> {
    let function = reading.function();
    if is_one_of(function, "MIN MAX") {
        let column = whole_argument(reading);
        return told(
            alloc,
            "an aggregate goes over one column",
            "write {}({}); to compare columns let one more column of the file have the value",
            &[function, column],
        );
    }
    if is_one_of(function, "PREV NEXT FIRST LAST") && reading.back(1) != "," {
        let column = name_before(reading, "p");
        let what = "a navigation is of one column, and perhaps a number";
        return told(
            alloc,
            what,
            "write {}({}), {}(A.{}, 2), or {}(p) + {}(q) in place of {}(p + q)",
            &[
                function, column, function, column, function, function, function,
            ],
        );
    }
    None
}

/// The name before the place, or another where there is none.
fn name_before<'a>(reading: &Reading<'a>, other: &'a str) -> &'a str {
    if is_name(reading.kind_back(1)) {
        return reading.back(1);
    }
    other
}

/// The column before the place, with its variable, if there is one; `p` where there is none.
fn whole_argument<'a>(reading: &Reading<'a>) -> &'a str {
    if is_name(reading.kind_back(1)) {
        return text_of(reading, operand_start(reading, reading.at), reading.at);
    }
    "p"
}

/// A comparison of what is compared already: 5 < p < 10.
fn chained(alloc: Global, reading: &Reading<'_>) -> Option<Advice> {
    let middle = value_start(reading, reading.at)?;
    let sign = middle.checked_sub(1)?;
    if !is_comparison(reading.written(sign)) {
        return None;
    }
    if let Some(advice) = split(alloc, reading, middle, sign) {
        return Some(advice);
    }
    Some(Advice::new(
        alloc,
        "a comparison has two sides",
        "write AND between two of them, as in 5 < p AND p < 10; conditions aren't compared with one another",
    ))
}

/// Two comparisons with AND between, of a chain with this value in its middle and this sign before it.
fn split(alloc: Global, reading: &Reading<'_>, middle: usize, sign: usize) -> Option<Advice> {
    let left = value_start(reading, sign)?;
    let end = value_end(reading, reading.at.saturating_add(1))?;
    if !begins_condition(reading, left) || !ends_condition(reading, end) {
        return None;
    }
    if !is_one_way(reading.written(sign), reading.here()) {
        return None;
    }
    let one = short_text(reading, left, reading.at)?;
    let other = short_text(reading, middle, end)?;
    let form = if is_behind_not(reading, left) {
        "write ({} AND {})"
    } else {
        "write {} AND {}"
    };
    told(alloc, "a comparison has two sides", form, &[one, other])
}

/// Whether two signs go the same way, as those of a chain that is meant as one.
fn is_one_way(one: &str, other: &str) -> bool {
    match one {
        "<" | "<=" => is_one_of(other, "< <="),
        ">" | ">=" => is_one_of(other, "> >="),
        sign => sign == "=" && other == "=",
    }
}

/// IS DISTINCT FROM and IS NOT DISTINCT FROM.
fn distinct(alloc: Global, reading: &Reading<'_>) -> Option<Advice> {
    let is_same = is_one_of(reading.back(1), "NOT");
    let is = reading
        .at
        .checked_sub(1)?
        .saturating_sub(usize::from(is_same));
    if !is_one_of(reading.next(1), "FROM") || !is_one_of(reading.written(is), "IS") {
        return None;
    }
    if let Some(advice) = told_apart(alloc, reading, is, is_same) {
        return Some(advice);
    }
    let form = apart(is_same, has_not(reading, is));
    let mut help = Pieces::filled(alloc, form, &["x", "y", "x", "y", "x", "y", "x", "y"]);
    help.push(", with what is compared in place of x and y");
    Some(Advice::with_help(alloc, "there is no DISTINCT", help))
}

/// The same with what is compared before and behind the IS at this index.
fn told_apart(alloc: Global, reading: &Reading<'_>, is: usize, is_same: bool) -> Option<Advice> {
    let left = value_start(reading, is)?;
    let start = reading.at.saturating_add(2);
    let end = value_end(reading, start)?;
    if !begins_condition(reading, left) || !ends_condition(reading, end) {
        return None;
    }
    let one = short_text(reading, left, is)?;
    let other = short_text(reading, start, end)?;
    told(
        alloc,
        "there is no DISTINCT",
        apart(is_same, has_not(reading, left)),
        &[one, other, one, other, one, other, one, other],
    )
}

/// How values are told apart, null among them. Where a NOT is before, it has to be false and not unknown where one of them is null.
fn apart(is_same: bool, is_negated: bool) -> &'static str {
    match (is_same, is_negated) {
        (true, false) => "write ({} = {} OR {} IS NULL AND {} IS NULL)",
        (true, true) =>
            "write ({} = {} AND {} IS NOT NULL AND {} IS NOT NULL OR {} IS NULL AND {} IS NULL)",
        (false, false) =>
            "write ({} <> {} OR {} IS NULL AND {} IS NOT NULL OR {} IS NOT NULL AND {} IS NULL)",
        (false, true) =>
            "write ({} <> {} AND {} IS NOT NULL AND {} IS NOT NULL OR {} IS NULL AND {} IS NOT NULL OR {} IS NOT NULL AND {} IS NULL)",
    }
}

/// Whether a NOT stands in the definition before a token.
fn has_not(reading: &Reading<'_>, end: usize) -> bool {
    let mut has = false;
    for token in reading.tokens.iter().take(end) {
        has = match token.kind {
            TokenKind::Keyword(Keyword::Not) => true,
            TokenKind::Keyword(Keyword::As) => false,
            _ => has,
        };
    }
    has
}

/// A point in a pattern that isn't one between a variable and a column: .* and ...
fn in_pattern(alloc: Global, reading: &Reading<'_>) -> Option<Advice> {
    if is_digit_name(reading) {
        let name = text_of(reading, reading.at, reading.at.saturating_add(2));
        return told(
            alloc,
            "a name begins with a letter or _",
            "write it with a letter or _ in front, as _{}, in DEFINE too",
            &[name],
        );
    }
    if reading.here() != "." || is_name(reading.kind(reading.at.saturating_add(1))) {
        return None;
    }
    let before = name_before(reading, "A");
    let after = name_behind(reading);
    told(
        alloc,
        "a point means no row in a pattern",
        "for any rows between write {} ANY*? {}: ANY has no definition, and takes any row",
        &[before, after],
    )
}

/// Whether a number stands at the place, and letters behind it without a gap.
fn is_digit_name(reading: &Reading<'_>) -> bool {
    let next = Reading {
        at: reading.at.saturating_add(1),
        ..*reading
    };
    reading.kind_here() == Some(TokenKind::Number) && next.is_name() && next.touches()
}

/// The first name behind the place, a few tokens on; `B` where there is none.
fn name_behind<'a>(reading: &Reading<'a>) -> &'a str {
    for count in 1..5usize {
        let index = reading.at.saturating_add(count);
        if is_name(reading.kind(index)) {
            return reading.written(index);
        }
    }
    "B"
}

/// SKIP TO without a variable.
fn in_skip(alloc: Global, reading: &Reading<'_>) -> Result<Option<Advice>, AllocError> {
    let names = variables(alloc, reading)?;
    Ok(match names.last() {
        Some(name) => skip_to(alloc, reading, name.as_str()),
        None => skip_to(alloc, reading, "B"),
    })
}

/// The same with one of the variables.
fn skip_to(alloc: Global, reading: &Reading<'_>, name: &str) -> Option<Advice> {
    let back = reading.back(1);
    let what = "a variable is missing here";
    if is_one_of(back, "FIRST LAST") && is_one_of(reading.back(2), "TO") {
        let form = "write AFTER MATCH SKIP TO {} {}";
        return told(alloc, what, form, &[back, name]);
    }
    if is_one_of(back, "TO") {
        let form = "write AFTER MATCH SKIP TO {}, or SKIP TO NEXT ROW";
        return told(alloc, what, form, &[name]);
    }
    None
}
