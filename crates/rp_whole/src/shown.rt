//! Numbers as people read them.
use std::alloc::{AllocError, Global};

/// A number with a comma before each three digits, as `1,200,000`.
pub fn shown_number(alloc: Global, number: u64) -> Result<String, AllocError> {
    let digits = format!(in alloc; "{number}")?;
    let mut shown = String::new(alloc);
    let mut left = digits.len();
    for digit in digits.as_str().chars() {
        if left < digits.len() && left.is_multiple_of(3) {
            shown.push(',')?;
        }
        shown.push(digit)?;
        left = left.saturating_sub(1);
    }
    Ok(shown)
}
