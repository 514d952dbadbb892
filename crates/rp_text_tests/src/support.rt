//! How a test ends: where a text isn't the one that is wanted, where something doesn't hold, and where a call that was refused memory
//! is refused it once more.
use rp_value::{Text, Value};
use std::alloc::{AllocError, Global};
use std::process::Abort;
use std::test::Fail;

/// How a test ends of which a call was refused memory, and then refused it again.
pub fn refused_twice() -> Fail {
    Fail::from("memory was refused twice")
}

/// Ends a test in which a case comes to another text than the one that is wanted. (In an `assert_eq!` of its own a test would have
/// the text of its failure to prove as well.)
pub fn same(rt: &impl Abort, case: &str, came: &str, wanted: &str) {
    assert_eq!(rt; came, wanted, "{case}");
}

/// Ends a test in which something doesn't hold of a case.
pub fn holds(rt: &impl Abort, case: &str, is_so: bool) {
    assert!(rt; is_so, "{case}");
}

/// A text as a value.
pub fn text(alloc: Global, text: &str) -> Result<Value, AllocError> {
    let string = String::from_str(alloc, text)?;
    Ok(Value::Text(Text::new(alloc, string)?))
}

/// Five numbers, with a space between.
pub fn numbers_of(text: &str) -> Result<[u64; 5], Fail> {
    let mut numbers = [0u64; 5];
    for (number, word) in numbers.iter_mut().zip(text.split(' ')) {
        *number = word.parse::<u64>()?;
    }
    Ok(numbers)
}
