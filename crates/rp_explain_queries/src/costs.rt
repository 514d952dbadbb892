//! What a search costs that finds nothing, by which rows the conditions look at, and which variables may take any number of rows.

use rp_describe::{Looks, has_variable};
use rp_program::Program;
use rp_wording::Pieces;
use rp_words::{Form, Pattern};
use std::alloc::{AllocError, Global};

/// The most places of a pattern for which searches remember where they failed: `MOST_PLACES` of rp_pattern.
const MOST_PLACES: u32 = 4096;

/// Whether a pattern is too large for searches to remember where they failed.
pub(crate) fn is_too_large(alloc: Global, pattern: &Pattern) -> Result<bool, AllocError> {
    match Program::compile(alloc, pattern, MOST_PLACES)? {
        Some(_) => Ok(false),
        None => Ok(true),
    }
}

/// Writes what rows cost that are read without a match, by which rows all conditions look at, and whether the pattern is too large to
/// remember where a search failed.
pub(crate) fn push_cost(out: &mut Pieces, all: Looks, is_large: bool) {
    if all.elsewhere || is_large {
        out.push(
            "where no match comes, each way to take the rows is tried: one row more may double the time\n",
        );
        return push_size(out, all, is_large);
    }
    if all.first {
        return out.push(
            "where no match comes, a row may be read again for each first row whose bound lets it in\n",
        );
    }
    out.push("where no match comes, the time grows in step with the rows\n");
}

/// Writes that the time is so because of the pattern's size, where no condition would do the same.
fn push_size(out: &mut Pieces, all: Looks, is_large: bool) {
    if is_large && !all.elsewhere {
        out.push(
            "the pattern is too large to remember where a search failed: it has more than 4,096 places, each part counted as often as a bound or PERMUTE repeats it\n",
        );
    }
}

/// Whether nothing bounds how many rows a variable takes: a quantifier without an upper bound goes over it, and no condition of what
/// is repeated looks at other rows of the match. `looks` has for each variable which rows its condition looks at.
pub(crate) fn is_boundless(form: &Form, variable: usize, looks: &[Looks]) -> bool {
    match form {
        Form::Variable(_) | Form::Empty | Form::PartitionStart | Form::PartitionEnd => false,
        Form::Concatenation(first, second) | Form::Alternation(first, second) => {
            is_boundless(first, variable, looks) || is_boundless(second, variable, looks)
        }
        Form::Permute(parts) => {
            for part in parts {
                if is_boundless(part, variable, looks) {
                    return true;
                }
            }
            false
        }
        Form::Exclusion(body) => is_boundless(body, variable, looks),
        Form::Quantified { body, upper, .. } => {
            upper.is_none() && has_variable(body, variable) && !is_bounded(body, looks)
                || is_boundless(body, variable, looks)
        }
    }
}

/// Whether a condition of the form's variables may bound how many rows it takes: it looks at other rows of the match.
fn is_bounded(form: &Form, looks: &[Looks]) -> bool {
    for (number, one) in looks.iter().enumerate() {
        if (one.first || one.elsewhere) && has_variable(form, number) {
            return true;
        }
    }
    false
}

/// Writes that nothing bounds how many rows the variables of a list take, and what to do where that may cost much.
pub(crate) fn push_boundless(out: &mut Pieces, list: &str, all: Looks) {
    if list.is_empty() {
        return;
    }
    out.push_filled("nothing bounds how many rows {} may take", &[list]);
    if all.elsewhere {
        out.push(": bound them by a time, or by a number as {0,100}");
    }
    out.push("\n");
}
