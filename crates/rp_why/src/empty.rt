//! Whether a pattern can match no row.

use rp_words::Form;

/// Whether one of the words of a pattern takes no row. An anchor may still forbid it in most places.
pub(crate) fn may_be_empty(form: &Form) -> bool {
    match form {
        Form::Variable(_) => false,
        Form::Empty | Form::PartitionStart | Form::PartitionEnd => true,
        Form::Concatenation(first, second) => may_be_empty(first) && may_be_empty(second),
        Form::Alternation(first, second) => may_be_empty(first) || may_be_empty(second),
        Form::Permute(parts) => {
            for part in parts {
                if !may_be_empty(part) {
                    return false;
                }
            }
            true
        }
        Form::Exclusion(body) => may_be_empty(body),
        Form::Quantified { body, lower, .. } => *lower == 0 || may_be_empty(body),
    }
}
