//! How tests compare texts, and how they end.
use std::process::Abort;
use std::test::Fail;

/// The text of a table of prices.
pub const PRICES: &str = "sym text, t int, p int";

/// How a test ends that goes through its calls again where one of them was refused memory.
pub fn unless_refused_twice(went_well: bool) -> Result<(), Fail> {
    if went_well {
        return Ok(());
    }
    Err(Fail::from("memory was refused twice"))
}

/// Ends a test in which a text isn't the one that is wanted. (In an `assert_eq!` of its own a test would have the text of its failure to
/// prove as well.)
pub fn same(rt: &impl Abort, came: &str, wanted: &str) {
    assert_eq!(rt; came, wanted);
}

/// Ends a test in which a text doesn't have the part that is wanted.
pub fn shows(rt: &impl Abort, came: &str, wanted: &str) {
    assert!(rt; came.contains(wanted), "{came}\nhasn't\n{wanted}");
}
