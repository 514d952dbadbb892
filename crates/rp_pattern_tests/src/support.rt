//! What the tests of several modules use.
ghost use Rattle.std.specs.Prelude.{◌≡◌, true};

use rp_reference::Dice;
use rp_words::Form;
use std::alloc::{AllocError, Global};
use std::fmt;
use std::process::Abort;
use std::test::Fail;

/// A call was refused memory, was made again while memory was ample, and was refused once more.
pub fn refused_twice() -> Fail {
    Fail::from("memory was refused twice")
}

/// Ends a test in which a value isn't the one that is wanted. (In an `assert_eq!` of its own a test would have the text of its failure
/// to prove as well.)
pub fn same<T: PartialEq + fmt::Debug + Drop>(rt: &impl Abort, came: T, wanted: T) {
    assert_eq!(rt; came, wanted);
}

/// Ends a test in which something doesn't hold. Where it goes on, that is known to hold.
pub fn holds(rt: &impl Abort, is_so: bool)
    ensures { is_so ≡ true }
{
    assert!(rt; is_so);
}

/// A form of so many levels at most, of variables A and B.
pub fn some_form(alloc: Global, dice: &mut Dice, levels: u64) -> Result<Form, AllocError> {
    if levels == 0 || dice.below(7) == 0 {
        return Ok(Form::variable(dice.below(2)));
    }
    match dice.below(12) {
        0..=2 => {
            let first = some_form(alloc, dice, levels - 1)?;
            Form::concatenation(alloc, first, some_form(alloc, dice, levels - 1)?)
        }
        3..=4 => {
            let first = some_form(alloc, dice, levels - 1)?;
            Form::alternation(alloc, first, some_form(alloc, dice, levels - 1)?)
        }
        5..=8 => {
            let body = some_form(alloc, dice, levels - 1)?;
            quantified(alloc, dice, body)
        }
        9 => {
            let body = some_form(alloc, dice, levels - 1)?;
            Form::exclusion(alloc, body)
        }
        10 => {
            let first = some_form(alloc, dice, levels - 1)?;
            let second = some_form(alloc, dice, levels - 1)?;
            Form::permute(alloc, vec![in alloc; first, second]?)
        }
        _ => Ok(edge(dice)),
    }
}

fn quantified(alloc: Global, dice: &mut Dice, body: Form) -> Result<Form, AllocError> {
    let least = dice.below(3) as u32;
    let most = match dice.below(3) {
        0 => Some(least.saturating_add(dice.below(3) as u32)),
        _ => None,
    };
    Form::quantified(alloc, body, least, most, dice.below(4) == 0)
}

fn edge(dice: &mut Dice) -> Form {
    match dice.below(3) {
        0 => Form::Empty,
        1 => Form::PartitionStart,
        _ => Form::PartitionEnd,
    }
}
