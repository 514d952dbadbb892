//! What may not be meant in a clause without a fault.

use rp_query::Query;
use rp_words::Form;

/// A line on what may not be meant in a query, which ends in LF; nothing where there is no such thing.
pub fn doubt(query: &Query) -> &'static str {
    if has_lone_permute(query.pattern().form()) {
        return "a PERMUTE of one part permutes nothing: its parts have commas between, as PERMUTE(A, B)\n";
    }
    ""
}

/// Whether a PERMUTE of the pattern has one part.
fn has_lone_permute(form: &Form) -> bool {
    match form {
        Form::Variable(_) | Form::Empty | Form::PartitionStart | Form::PartitionEnd => false,
        Form::Concatenation(first, second) => has_lone_permute(first) || has_lone_permute(second),
        Form::Alternation(first, second) => has_lone_permute(first) || has_lone_permute(second),
        Form::Permute(parts) => {
            if parts.len() == 1 {
                return true;
            }
            for part in parts {
                if has_lone_permute(part) {
                    return true;
                }
            }
            false
        }
        Form::Exclusion(body) => has_lone_permute(body),
        Form::Quantified { body, .. } => has_lone_permute(body),
    }
}
