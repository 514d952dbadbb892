//! Which variables may have rows before others in a match.
ghost use Rattle.std.specs.Prelude.{◌≡◌, ◌⊎◌, false};
ghost use Rattle.rp_words.specs.Leading.{iterates_once};
ghost use Rattle.rp_describe.specs.Precedes.{HasNoRow, NeverPrecedes};

use rp_words::Form;

/// Whether a row of one variable may come before a row of another in a match of the pattern. Of PERMUTE, and of a part that is
/// repeated, it may where both have rows there.
pub(crate) fn may_precede(form: &Form, earlier: usize, later: usize) -> bool
    ensures { result ≡ false → NeverPrecedes earlier later form.now }
{
    match form {
        Form::Variable(_) | Form::Empty | Form::PartitionStart | Form::PartitionEnd => false,
        Form::Concatenation(first, second) => {
            if are_apart(first, second, earlier, later) {
                return true;
            }
            may_precede(first, earlier, later) || may_precede(second, earlier, later)
        }
        Form::Alternation(first, second) => {
            may_precede(first, earlier, later) || may_precede(second, earlier, later)
        }
        Form::Permute(_) => has_both(form, earlier, later),
        Form::Exclusion(body) => may_precede(body, earlier, later),
        Form::Quantified {
            body,
            lower,
            upper,
            ..
        } => {
            if iterates_once(*lower, *upper) {
                return may_precede(body, earlier, later);
            }
            has_both(form, earlier, later)
        }
    }
}

/// Whether the first part names the earlier variable, and the second the later one.
fn are_apart(first: &Form, second: &Form, earlier: usize, later: usize) -> bool
    ensures { result ≡ false → HasNoRow earlier first.now ⊎ HasNoRow later second.now }
{
    has_variable(first, earlier) && has_variable(second, later)
}

/// Whether the form names both variables.
fn has_both(form: &Form, earlier: usize, later: usize) -> bool
    ensures { result ≡ false → NeverPrecedes earlier later form.now }
{
    has_variable(form, earlier) && has_variable(form, later)
}

/// Whether a quantifier with these bounds iterates once at most.
fn iterates_once(lower: u32, upper: Option<u32>) -> bool
    ensures { result ≡ iterates_once lower upper }
{
    match upper {
        None => false,
        Some(upper) => lower <= 1 && upper <= 1,
    }
}

/// Whether the form names the variable.
pub fn has_variable(form: &Form, variable: usize) -> bool
    ensures { result ≡ false → HasNoRow variable form.now }
{
    match form {
        Form::Variable(number) => *number == variable,
        Form::Empty | Form::PartitionStart | Form::PartitionEnd => false,
        Form::Concatenation(first, second) => has_variable(first, variable)
            || has_variable(second, variable),
        Form::Alternation(first, second) => has_variable(first, variable)
            || has_variable(second, variable),
        Form::Permute(parts) => {
            for part in parts {
                if has_variable(part, variable) {
                    return true;
                }
            }
            false
        }
        Form::Exclusion(body) => has_variable(body, variable),
        Form::Quantified { body, .. } => has_variable(body, variable),
    }
}
