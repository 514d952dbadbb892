//! Random patterns behind a row of A. Over few rows, over more of them, and then over a closed partition, an outlook over
//! what would follow that row is taken up until it is decided. What it comes to is compared with the words that are
//! listed from the next row on, and its turns with those of choices that are taken up one by one.
ghost use Rattle.std.specs.Prelude.{◌≤◌};

use crate::notation::form_of;
use crate::support::{holds, refused_twice, same, some_form};
use rp_pattern::{Choices, Outlook, Sight, Taken};
use rp_reference::Dice;
use rp_word_lists::{ListFault, list_words};
use rp_words::{End, Form, Pattern};
use std::alloc::{AllocError, Global};
use std::test::Fail;

/// A case that takes more turns than so many is left out.
const MOST_TURNS: u32 = 6_000;

/// An outlook remembers nothing of its first turns: so many.
const FIRST_TURNS: u32 = 1_000;

fn edge(dice: &mut Dice) -> Form {
    match dice.below(2) {
        0 => Form::PartitionStart,
        _ => Form::PartitionEnd,
    }
}

/// Some iterations, and then mostly an edge of the partition, so that each may fail.
fn some_case(alloc: Global, dice: &mut Dice) -> Result<Form, AllocError> {
    let body = some_form(alloc, dice, 3)?;
    let least = dice.below(3) as u32;
    let most = least.saturating_add(dice.below(7) as u32);
    let rows = Form::quantified(alloc, body, least, Some(most), dice.below(4) == 0)?;
    let last = match dice.below(3) {
        0 => some_form(alloc, dice, 2)?,
        _ => edge(dice),
    };
    Form::concatenation(alloc, rows, last)
}

/// What came of cases.
#[derive(Clone, Copy, PartialEq, Eq, Debug)]
struct Told {
    /// So many were played.
    played: u64,
    /// In so many an outlook came to something else than the list of words says.
    wrong: u64,
    /// In so many it took more turns than the choices.
    longer: u64,
    /// In so many it took fewer, of which it remembered some.
    shorter: u64,
}

impl Told {
    fn new() -> Told {
        Told {
            played: 0,
            wrong: 0,
            longer: 0,
            shorter: 0,
        }
    }

    fn count(&mut self, is_listed: bool, outlook: u32, choices: u32) {
        self.played = self.played.saturating_add(1);
        if !is_listed {
            self.wrong = self.wrong.saturating_add(1);
        }
        if outlook > choices {
            self.longer = self.longer.saturating_add(1);
        }
        if FIRST_TURNS < outlook && outlook < choices {
            self.shorter = self.shorter.saturating_add(1);
        }
    }
}

/// What would follow the row of A in A and then this form, at row 2. None where that isn't allowed.
fn behind_a(alloc: Global, form: &Form) -> Result<Option<Outlook>, AllocError> {
    let whole = Form::concatenation(alloc, Form::variable(0), form.share(alloc)?)?;
    if !whole.is_allowed() {
        return Ok(None);
    }
    let mut choices = Choices::new(alloc, &Pattern::new(whole), 1)?;
    match choices.take_up(1, End::Open)? {
        Taken::Row => Ok(Some(choices.after_row()?)),
        _ => Ok(None),
    }
}

/// Whether a word follows, and in how many turns that was found. None where it would be more than so many.
fn looked(
    outlook: &mut Outlook,
    rows: u64,
    end: End,
    most: u32,
) -> Result<Option<(bool, u32)>, AllocError>
    requires { rows ≤ 1000 }
{
    for turn in 0..most {
        match outlook.take_up(rows, end)? {
            Sight::Further => {}
            Sight::Word => return Ok(Some((true, turn))),
            Sight::Nothing => return Ok(Some((false, turn))),
        }
    }
    Ok(None)
}

/// The same of the choices of a pattern from row 2 on, of which each row is mapped.
fn chosen(
    alloc: Global,
    pattern: &Pattern,
    rows: u64,
    end: End,
) -> Result<Option<(bool, u32)>, AllocError>
    requires { rows ≤ 1000 }
{
    let mut choices = Choices::new(alloc, pattern, 2)?;
    for turn in 0..MOST_TURNS {
        match choices.take_up(rows, end)? {
            Taken::Split => {}
            Taken::Row => choices.admit()?,
            Taken::Full | Taken::Open => return Ok(Some((true, turn))),
            Taken::Nothing => return Ok(Some((false, turn))),
        }
    }
    Ok(None)
}

/// Whether there are words from row 2 on.
fn is_some_listed(alloc: Global, pattern: &Pattern, rows: u64, end: End) -> Result<bool, AllocError>
    requires some { 1 ≤ rows }
    requires few { rows ≤ 1000 }
{
    match list_words(alloc, pattern, 2, rows, end, 0) {
        Ok(words) => Ok(!words.is_empty()),
        Err(ListFault::TooMany) => Ok(true),
        Err(ListFault::OutOfMemory) => Err(AllocError),
    }
}

/// An outlook over so many rows and that end. It answers whether the case goes on.
fn one_stage(
    alloc: Global,
    pattern: &Pattern,
    outlook: &mut Outlook,
    rows: u64,
    end: End,
    told: &mut Told,
) -> Result<bool, AllocError>
    requires some { 1 ≤ rows }
    requires few { rows ≤ 1000 }
{
    let Some((some, turns)) = chosen(alloc, pattern, rows, end)? else {
        return Ok(false);
    };
    let Some((follows, taken)) = looked(outlook, rows, end, MOST_TURNS)? else {
        told.count(false, MOST_TURNS, turns);
        return Ok(false);
    };
    let is_listed = follows == is_some_listed(alloc, pattern, rows, end)? && follows == some;
    told.count(is_listed, taken, turns);
    Ok(follows)
}

/// Few rows, more of them, and then the close.
fn one_case(alloc: Global, dice: &mut Dice, told: &mut Told) -> Result<(), AllocError> {
    let form = some_case(alloc, dice)?;
    let few = dice.below(6) as u64 + 1;
    let more = few + dice.below(7) as u64;
    match behind_a(alloc, &form)? {
        Some(mut outlook) if form.is_allowed() => {
            let pattern = Pattern::new(form);
            all_stages(alloc, &pattern, &mut outlook, few, more, told)
        }
        _ => Ok(()),
    }
}

/// An outlook over few rows, more of them, and then the close.
fn all_stages(
    alloc: Global,
    pattern: &Pattern,
    outlook: &mut Outlook,
    few: u64,
    more: u64,
    told: &mut Told,
) -> Result<(), AllocError>
    requires some { 1 ≤ few }
    requires rising { few ≤ more }
    requires few { more ≤ 1000 }
{
    if one_stage(alloc, pattern, outlook, few, End::Open, told)?
        && one_stage(alloc, pattern, outlook, more, End::Open, told)?
    {
        one_stage(alloc, pattern, outlook, more, End::Closed, told)?;
    }
    Ok(())
}

fn told_of(alloc: Global, seed: u64, cases: u64) -> Result<Told, AllocError> {
    let mut dice = Dice::new(seed);
    let mut told = Told::new();
    for _case in 0..cases {
        one_case(alloc, &mut dice, &mut told)?;
    }
    Ok(told)
}

#[test]
fn random_outlooks(rt: HostRuntime) -> Result<(), Fail> {
    let told = told_of(rt.alloc(), 1, 1_000)?;
    same(&rt, (told.wrong, told.longer), (0, 0));
    holds(&rt, told.played >= 2_000 && told.shorter >= 20);
    Ok(())
}

/// What an outlook over `(A | B){12} $` comes to over 20 rows, and in how many turns.
fn dead_ends(alloc: Global, form: &Form) -> Result<Option<(bool, u32)>, AllocError> {
    let Some(mut outlook) = behind_a(alloc, form)? else {
        return Ok(None);
    };
    looked(&mut outlook, 20, End::Open, 100_000)
}

/// The same, once more where memory was refused.
fn dead_ends_again(alloc: Global, form: &Form) -> Result<Option<(bool, u32)>, Fail> {
    match dead_ends(alloc, form) {
        Ok(found) => Ok(found),
        Err(_) => match dead_ends(alloc, form) {
            Ok(found) => Ok(found),
            Err(_) => Err(refused_twice()),
        },
    }
}

/// Without what it remembers it takes t(12) turns, where t(r) are those of r rows: the choice of two, each row, and behind
/// it t(r - 1). So t(0) = 1 and t(r) = 3 + 2 t(r - 1), which is 4 * 2^r - 3, so 16,381. Where memory is refused for what
/// it remembers, it goes on without.
#[test]
fn refused_memory_of_dead_ends(rt: HostRuntime) -> Result<(), Fail> {
    let form = form_of(rt.alloc(), "A B or {12,12} $ then")?;
    let (follows, turns) = dead_ends_again(rt.alloc(), &form)?.unwrap_or((true, u32::MAX));
    holds(&rt, !follows);
    holds(&rt, turns > FIRST_TURNS && turns < 16_381);
    Ok(())
}
