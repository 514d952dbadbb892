//! All words of a pattern, up to a given number of them.
ghost use Rattle.std.specs.Prelude.{◌≡◌, ℕ, ◌+◌, ◌<◌, ◌≤◌, [], ◌∷◌, ◌++◌, length, IfOk, OnOk};
ghost use Rattle.rp_pattern.specs.Choices.{HasTop, entered, kept, remaining, turns_left, below, turns_left_below};
ghost use Rattle.rp_pattern.specs.Ways.{IsNumbered};
ghost use Rattle.rp_words.specs.declared.word.End.{End};
ghost use Rattle.rp_word_lists.specs.Listing.{ListsNext};
ghost use Rattle.rp_words.specs.Mapping.{marked};
ghost use Rattle.rp_words.specs.Numbers.{most_u64};
ghost use Rattle.rp_words.specs.PatternForm.{form_of};
ghost use Rattle.rp_words.specs.Words.{words};
ghost use Rattle.rp_word_lists.specs.declared.list.ListFault.TheVariants.{OutOfMemory};

use rp_pattern::{Choices, Taken};
use rp_words::{End, Mark, Pattern, Word};
use std::alloc::{AllocError, AllocFailed, Global};
use thiserror::Error;

/// Why the words of a pattern aren't listed.
#[derive(Clone, Copy, Debug, PartialEq, Eq, Error)]
pub enum ListFault {
    /// There are more than the caller asked for.
    #[error("TooMany")]
    TooMany,
    /// Memory was refused.
    #[error("out of memory")]
    OutOfMemory,
}

impl From<AllocError> for ListFault {
    ghost from_gives = { λ _ fault. fault ≡ OutOfMemory };

    fn from(_: AllocError) -> ListFault {
        ListFault::OutOfMemory
    }
}

impl<T: Drop> From<AllocFailed<T>> for ListFault {
    ghost from_gives = { λ _ fault. fault ≡ OutOfMemory };

    fn from(_: AllocFailed<T>) -> ListFault {
        ListFault::OutOfMemory
    }
}

/// All words of the pattern from row `row` on, over the rows 1 to `last` and that end, in preferment order. Equal words
/// that the pattern lists more than once stand there as often. `TooMany` where there are more than `cap`: the listing
/// stops at the first word beyond them, and doesn't go through the others. How many turns it takes to come to a word
/// isn't bounded by `cap`.
pub fn list_words(
    alloc: Global,
    pattern: &Pattern,
    row: u64,
    last: u64,
    end: End,
    cap: usize,
) -> Result<Vec<Word>, ListFault>
    requires from_one { 1 ≤ row }
    requires known { row ≤ last + 1 }
    requires fits { last < most_u64 }
    ensures words { IfOk result (λ list. list.items ≡ words last end (form_of pattern.now) row) }
    ensures few { IfOk result (λ list. length list.items ≤ cap) }
    ensures many { result ≡ Err ListFault.TooMany → cap < length (words last end (form_of pattern.now) row) }
{
    let mut choices = Choices::linked(alloc, pattern, row)?;
    let mut list = Vec::new(alloc);
    while list_next(alloc, &mut choices, last, end, &mut list)? {
        if list.len() > cap {
            return Err(ListFault::TooMany);
        }
    }
    Ok(list)
}

/// Takes up the preferred choice, and lists it where it is a word. Says whether there was one.
fn list_next(
    alloc: Global,
    choices: &mut Choices,
    last: u64,
    end: End,
    list: &mut Vec<Word>,
) -> Result<bool, AllocError>
    requires known { last < most_u64 }
    requires linked { IsNumbered (kept choices.old) → ⊥ }
    ensures lists { IfOk result (λ more. ListsNext choices.old choices.new last end list.old.items list.new.items more) }
    ensures keeps { kept choices.new ≡ kept choices.old }
{
    match choices.take_up(last, end)? {
        Taken::Row => {
            choices.admit()?;
            Ok(true)
        }
        Taken::Split => Ok(true),
        Taken::Full => {
            list_word(alloc, choices, Mark::Full, list)?;
            Ok(true)
        }
        Taken::Open => {
            list_word(alloc, choices, Mark::Open, list)?;
            Ok(true)
        }
        Taken::Nothing => Ok(false),
    }
}

/// Lists the labels of the preferred choice, and gives it up.
fn list_word(
    alloc: Global,
    choices: &mut Choices,
    mark: Mark,
    list: &mut Vec<Word>,
) -> Result<(), AllocError>
    requires { HasTop choices.old }
    ensures list { OnOk result (list.new.items ≡ list.old.items ++ marked mark (entered choices.old) ∷ []) }
    ensures remaining { OnOk result ((n : ℕ) (e : End) → remaining choices.new n e ≡ below choices.old n e) }
    ensures left { OnOk result ((n : ℕ) (e : End) → turns_left choices.new n e ≡ turns_left_below choices.old n e) }
    ensures keeps { kept choices.new ≡ kept choices.old }
{
    let labels = Vec::from_slice(alloc, choices.labels())?;
    list.push(Word { labels, mark })?;
    choices.give_up();
    Ok(())
}
