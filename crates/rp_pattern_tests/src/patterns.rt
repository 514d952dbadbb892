//! Tests of patterns and permutations.
ghost use Rattle.std.specs.Prelude.{◌≡◌, ◌≤◌, ◌<◌, length, IfOk, IfSome};
ghost use Rattle.rp_words.specs.Words.{words};

use crate::notation::{form_of, pattern_of};
use crate::support::{holds, refused_twice, same};
use rp_pattern::{Choices, Outlook, Sight, Taken};
use rp_word_lists::{ListFault, list_words};
use rp_words::{End, Form, Pattern, law_labels, law_words, permutations};
use std::alloc::{AllocError, Global};
use std::process::Abort;
use std::test::Fail;

/// All permutations, asked for again where memory is refused once.
fn orders_of(alloc: Global, k: usize) -> Result<Vec<Vec<usize>>, Fail>
    requires { k ≤ 8 }
{
    match permutations(alloc, k) {
        Ok(orders) => Ok(orders),
        Err(_) => match permutations(alloc, k) {
            Ok(orders) => Ok(orders),
            Err(_) => Err(refused_twice()),
        },
    }
}

/// Numbers of parts, and all orders of so many.
const ORDERS: [(usize, &str); 3] = [(0, " "), (1, "0 "), (3, "012 021 102 120 201 210 ")];

#[test]
fn orders_of_few_parts(rt: HostRuntime) -> Result<(), Fail> {
    all_ordered(&rt, rt.alloc(), &ORDERS)
}

fn all_ordered(rt: &impl Abort, alloc: Global, cases: &[(usize, &str)]) -> Result<(), Fail> {
    for (count, wanted) in cases {
        holds(rt, *count <= 8);
        let mut text = String::new(alloc);
        for order in &orders_of(alloc, *count)? {
            write_order(&mut text, order)?;
        }
        same(rt, text.as_str(), wanted);
    }
    Ok(())
}

fn write_order(text: &mut String, order: &[usize]) -> Result<(), AllocError> {
    for place in order {
        write!(text, "{place}")?;
    }
    text.push(' ')
}

#[test]
fn orders_of_eight(rt: HostRuntime) -> Result<(), Fail> {
    let orders = orders_of(rt.alloc(), 8)?;
    same(&rt, orders.len(), 40320);
    let mut ends = String::new(rt.alloc());
    for order in orders.first().into_iter().chain(orders.last()) {
        write_order(&mut ends, order)?;
    }
    same(&rt, ends.as_str(), "01234567 76543210 ");
    Ok(())
}

/// Trees, and whether they are patterns: PERMUTE takes one part to eight, and bounds are in order and at most 1,000.
const TREES: [(&str, bool); 10] = [
    ("&0", false),
    ("A &1", true),
    ("A A A A A A A A &8", true),
    ("A A A A A A A A A &9", false),
    ("A {0,0}", true),
    ("A {1000,1000}", true),
    ("A {1000,}", true),
    ("A {2,1}", false),
    ("A {0,1001}", false),
    ("A {1001,}", false),
];

#[test]
fn trees_that_are_allowed(rt: HostRuntime) -> Result<(), Fail> {
    all_judged(&rt, rt.alloc(), &TREES)
}

fn all_judged(rt: &impl Abort, alloc: Global, trees: &[(&str, bool)]) -> Result<(), Fail> {
    for (text, is_allowed) in trees {
        let form = form_of(alloc, text)?;
        assert!(rt; form.is_allowed() == *is_allowed, "{text}");
    }
    Ok(())
}

#[test]
fn variables_are_below(rt: HostRuntime) -> Result<(), Fail> {
    let form = form_of(rt.alloc(), "A A &2 C then")?;
    holds(&rt, form.are_below(3));
    holds(&rt, !form.are_below(2));
    Ok(())
}

/// Calls of the laws do nothing.
#[test]
fn laws(_rt: HostRuntime) {
    law_words();
    law_labels();
}

#[test]
fn pattern_keeps_its_tree(rt: HostRuntime) -> Result<(), Fail> {
    let pattern = pattern_of(&rt, rt.alloc(), "A {1,2}")?;
    let is_kept = match pattern.form() {
        Form::Quantified {
            body,
            lower: 1,
            upper: Some(2),
            reluctant: false,
        } => matches!(**body, Form::Variable(0)),
        _ => false,
    };
    holds(&rt, is_kept);
    Ok(())
}

/// What follows the row of A in `A B`, at row 2.
fn behind_first(alloc: Global) -> Result<Option<Outlook>, AllocError> {
    let form = Form::concatenation(alloc, Form::Variable(0), Form::Variable(1))?;
    if !form.is_allowed() {
        return Ok(None);
    }
    behind_row(&mut Choices::new(alloc, &Pattern::new(form), 1)?)
}

/// What follows the row of the second choice.
fn behind_row(choices: &mut Choices) -> Result<Option<Outlook>, AllocError> {
    let _split = choices.take_up(1, End::Open)?;
    match choices.take_up(1, End::Open)? {
        Taken::Row => Ok(Some(choices.after_row()?)),
        _ => Ok(None),
    }
}

/// What two turns of an outlook come to.
fn looked_ahead(alloc: Global, rows: u64, end: End) -> Result<Option<(Sight, Sight)>, AllocError>
    requires { rows ≤ 2 }
{
    let Some(mut outlook) = behind_first(alloc)? else {
        return Ok(None);
    };
    let first = outlook.take_up(rows, end)?;
    let second = outlook.take_up(rows, end)?;
    Ok(Some((first, second)))
}

/// The row of B is passed over where it is known, and waited for where it may come.
#[test]
fn refused_outlook(rt: HostRuntime) -> Result<(), Fail> {
    let alloc = rt.alloc();
    let waits = Some((Sight::Word, Sight::Word));
    let ends = Some((Sight::Further, Sight::Nothing));
    let passes = Some((Sight::Further, Sight::Word));
    same(&rt, sights(alloc, 1, End::Open)?, waits);
    same(&rt, sights(alloc, 1, End::Closed)?, ends);
    same(&rt, sights(alloc, 2, End::Open)?, passes);
    same(&rt, sights(alloc, 2, End::Closed)?, passes);
    Ok(())
}

/// The same, once more where memory was refused.
fn sights(alloc: Global, rows: u64, end: End) -> Result<Option<(Sight, Sight)>, Fail>
    requires { rows ≤ 2 }
{
    match looked_ahead(alloc, rows, end) {
        Ok(sights) => Ok(sights),
        Err(_) => match looked_ahead(alloc, rows, end) {
            Ok(sights) => Ok(sights),
            Err(_) => Err(refused_twice()),
        },
    }
}

/// How many ways there are to map the rows of a closed partition to a form from row 1 on, as a caller asks for it. None
/// where the form isn't allowed, or there are more than 100.
fn count_ways(alloc: Global, form: Form, rows: u64) -> Result<Option<usize>, AllocError>
    requires { rows < 1000 }
    ensures { IfOk result (λ count. IfSome count (λ k. k ≡ length (words rows End.Closed form 1))) }
{
    if !form.is_allowed() {
        return Ok(None);
    }
    let pattern = Pattern::new(form);
    match list_words(alloc, &pattern, 1, rows, End::Closed, 100) {
        Ok(list) => Ok(Some(list.len())),
        Err(ListFault::TooMany) => Ok(None),
        Err(ListFault::OutOfMemory) => Err(AllocError),
    }
}

/// `A*` maps the first three, two or one of three rows, or none.
#[test]
fn ways_of_a_loop(rt: HostRuntime) -> Result<(), Fail> {
    let form = form_of(rt.alloc(), "A *")?;
    same(&rt, count_ways(rt.alloc(), form, 3)?, Some(4));
    let form = form_of(rt.alloc(), "A {2,1}")?;
    same(&rt, count_ways(rt.alloc(), form, 3)?, None);
    Ok(())
}

/// Whether a row's letter is the one of its variable.
fn is_admitted(var: usize, letter: Option<u8>) -> bool {
    matches!(
        (var, letter),
        (0, Some(b'a')) | (1, Some(b'b')) | (2, Some(b'c'))
    )
}

/// One turn over the letters of a closed partition, as a sign: `s` for a split, `.` for a word, `-` where nothing is left,
/// and the variable of a row, small where its letter refuses it.
fn turn(choices: &mut Choices, letters: &[u8]) -> Result<char, AllocError>
    requires { length letters.now < 100 }
{
    match choices.take_up(letters.len() as u64, End::Closed)? {
        Taken::Row => {
            let place = choices.labels().len();
            let letter = if place == 0 {
                None
            } else {
                letters.get(place - 1).copied()
            };
            let var = choices.labels().last().map_or(3, |label| label.var);
            if !is_admitted(var, letter) {
                choices.give_up();
                return Ok(small(var));
            }
            choices.admit()?;
            Ok(capital(var))
        }
        Taken::Split => Ok('s'),
        Taken::Full => Ok('.'),
        _ => Ok('-'),
    }
}

fn capital(var: usize) -> char {
    match var {
        0 => 'A',
        1 => 'B',
        _ => 'C',
    }
}

fn small(var: usize) -> char {
    match var {
        0 => 'a',
        1 => 'b',
        _ => 'c',
    }
}

/// The turns that docs/WALK.md tells of.
#[test]
fn walked_turns(rt: HostRuntime) -> Result<(), Fail> {
    let alloc = rt.alloc();
    let pattern = pattern_of(&rt, alloc, "A B then A or * C then")?;
    let mut choices = Choices::new(alloc, &pattern, 1)?;
    let signs = turns(alloc, &mut choices, b"abac", 15)?;
    same(&rt, signs.as_str(), "ssABssAbAssaaC.");
    Ok(())
}

/// So many turns, as signs.
fn turns(
    alloc: Global,
    choices: &mut Choices,
    letters: &[u8],
    count: u64,
) -> Result<String, AllocError>
    requires { length letters.now < 100 }
{
    let mut signs = String::new(alloc);
    for _turn in 0..count {
        signs.push(turn(choices, letters)?)?;
    }
    Ok(signs)
}
