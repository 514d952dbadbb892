//! What was told since the last arrow: words, each after a space where it isn't the first.
use std::alloc::AllocError;

/// Adds a word.
pub fn tell(told: &mut String, word: &str) -> Result<(), AllocError> {
    if !told.is_empty() {
        told.push(' ')?;
    }
    told.push_str(word)
}
