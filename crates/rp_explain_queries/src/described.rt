//! What a clause without a fault does.

use crate::costs::{is_boundless, is_too_large, push_boundless, push_cost};
use rp_describe::{Looks, OWN_ROW, all_looks, looks_at, missing_variable};
use rp_query::{Query, SkipTo};
use rp_value::Text;
use rp_wording::{Pieces, kind_word, noun, shown_text};
use std::alloc::{AllocError, Global};

/// Says what a query gives and looks at: its output columns with their kinds; that there is no PARTITION BY or no ORDER BY, which may have
/// been forgotten; of each pattern variable which rows it looks at, or that it has no definition and takes any row; that AFTER MATCH SKIP
/// goes to where each match begins, which is a fault; how far before a match rows are read; what rows cost that are read without a match,
/// and which variables may take any number of them; whether a condition waits for later rows.
///
/// Each line ends in LF.
pub fn describe(alloc: Global, query: &Query) -> Result<String, AllocError> {
    let mut out = Pieces::new(alloc);
    push_output(&mut out, query);
    push_arrangement(&mut out, query);
    push_variables(&mut out, query);
    push_skip(&mut out, query);
    push_reach(&mut out, query.reach());
    let all = all_looks(query);
    push_locality(&mut out, all);
    push_cost(&mut out, all, is_too_large(alloc, query.pattern())?);
    push_boundless(&mut out, boundless(alloc, query)?.text()?, all);
    push_waiting(&mut out, all);
    shown_text(alloc, out.text()?)
}

/// Writes the output columns with their kinds.
fn push_output(out: &mut Pieces, query: &Query) {
    out.push("output: ");
    for (index, column) in query.output().iter().enumerate() {
        if index > 0 {
            out.push(", ");
        }
        out.push_name(column.name.as_str());
        out.push(" ");
        out.push(kind_word(column.kind));
    }
    if query.output().is_empty() {
        out.push("no columns");
    }
    out.push("\n");
}

/// Writes how rows are taken that no PARTITION BY groups, or no ORDER BY orders.
fn push_arrangement(out: &mut Pieces, query: &Query) {
    if query.partition().is_empty() {
        out.push("all rows are one partition (no PARTITION BY)\n");
    }
    if query.order().is_empty() {
        out.push("rows are taken in the order in which they come (no ORDER BY)\n");
    }
}

/// Writes a line for each pattern variable.
fn push_variables(out: &mut Pieces, query: &Query) {
    for (number, name) in query.variables().iter().enumerate() {
        let name = name.as_str();
        match looks_at(query, number) {
            Some(looks) => push_looks(out, name, looks),
            None => out.push_filled("{} has no definition and takes any row\n", &[name]),
        }
        push_missing(
            out,
            name,
            missing_variable(query, number),
            query.variables(),
        );
    }
}

/// Writes which rows the condition of a variable looks at.
fn push_looks(out: &mut Pieces, name: &str, looks: Looks) {
    out.push_filled("{} looks at its own row", &[name]);
    if looks == OWN_ROW {
        return out.push(" alone\n");
    }
    push_distance(out, looks.back, "back");
    push_distance(out, looks.ahead, "ahead");
    if looks.elsewhere {
        out.push(", and at other rows of the match");
    } else if looks.first {
        out.push(", and at the first row of the match");
    }
    out.push("\n");
}

/// Writes how many rows from its own a condition looks at, and in which direction.
fn push_distance(out: &mut Pieces, count: u64, direction: &'static str) {
    if count > 0 {
        out.push(", ");
        out.push_number(count);
        out.push_filled(" {} {}", &[rows(count), direction]);
    }
}

/// Writes that a variable whose rows are looked at has none then.
fn push_missing(out: &mut Pieces, name: &str, missing: Option<usize>, names: &[Text]) {
    let Some(number) = missing else {
        return;
    };
    let Some(other) = names.get(number) else {
        return;
    };
    out.push_filled(
        "{} looks at {}, which has no row before {}: what is compared is null\n",
        &[name, other.as_str(), name],
    );
}

/// The word for so many rows.
fn rows(count: u64) -> &'static str {
    noun(usize::try_from(count).unwrap_or(2), "row", "rows")
}

/// Writes that AFTER MATCH SKIP goes to the first row of each match, which is a fault that ends a partition's answer.
fn push_skip(out: &mut Pieces, query: &Query) {
    let Some(leader) = query.lead() else {
        return;
    };
    let SkipTo::First(variables) = &query.plan().skip else {
        return;
    };
    if !variables.includes(leader.variable) {
        return;
    }
    if let Some(name) = query.variables().get(leader.variable) {
        out.push_filled(
            "each match begins with {}, and AFTER MATCH SKIP can't go there: each partition ends after its first match\n",
            &[name.as_str()],
        );
    }
}

/// Writes how far before a match rows are read.
fn push_reach(out: &mut Pieces, reach: u64) {
    if reach == 0 {
        return out.push("no row before a match is read\n");
    }
    out.push("up to ");
    out.push_number(reach);
    out.push_filled(" {} before a match are read (PREV)\n", &[rows(reach)]);
}

/// Which rows the condition of each variable looks at; a variable without one looks at its own.
fn each_looks(alloc: Global, query: &Query) -> Result<Vec<Looks>, AllocError> {
    let mut each = Vec::new(alloc);
    for number in 0..query.variables().len() {
        each.push(looks_at(query, number).unwrap_or(OWN_ROW))?;
    }
    Ok(each)
}

/// The names of the variables that nothing bounds, with commas between.
fn boundless(alloc: Global, query: &Query) -> Result<Pieces, AllocError> {
    let each = each_looks(alloc, query)?;
    let form = query.pattern().form();
    let mut list = Pieces::new(alloc);
    for (number, name) in query.variables().iter().enumerate() {
        if is_boundless(form, number, each.as_slice()) {
            push_behind(&mut list, name.as_str());
        }
    }
    Ok(list)
}

/// Writes a name behind those before.
fn push_behind(list: &mut Pieces, name: &str) {
    if !list.is_empty() {
        list.push(", ");
    }
    list.push(name);
}

/// Writes whether a condition waits for later rows.
fn push_waiting(out: &mut Pieces, all: Looks) {
    if all.ahead == 0 {
        return out.push("no condition waits for later rows\n");
    }
    out.push("a condition waits for ");
    out.push_number(all.ahead);
    out.push_filled(
        " later {} (NEXT): an answer may be held back until then\n",
        &[rows(all.ahead)],
    );
}

/// Writes whether conditions look at their own row alone, at the match's first row too, or at more: how often a row is looked at goes
/// by that.
fn push_locality(out: &mut Pieces, all: Looks) {
    if all == OWN_ROW {
        return out.push("each condition looks at its own row alone\n");
    }
    if all.elsewhere {
        return out.push(
            "a condition looks at other rows of the match, so a row may be looked at again for each way to come to it\n",
        );
    }
    if all.first {
        return out.push(
            "each condition looks at its own row and the match's first, and rows at fixed distances from them\n",
        );
    }
    out.push("each condition looks at its own row and rows at fixed distances from it\n");
}
