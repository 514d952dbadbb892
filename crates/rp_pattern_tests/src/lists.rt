//! Tests of word lists. What is expected is worked out by hand.
use crate::notation::pattern_of;
use crate::support::{holds, refused_twice, same};
use rp_word_lists::{ListFault, list_words};
use rp_words::{End, Label, Mark, Pattern, Word};
use std::alloc::{AllocError, Global};
use std::process::Abort;
use std::test::Fail;

/// Patterns, the last known row, the end, and the words from row 1 on: a letter for each row, small where it is excluded, and `?` behind
/// an open word.
const LISTS: [(&str, u64, End, &str); 17] = [
    ("A * *", 3, End::Closed, "AAA AAA AA AAA AAA AA A  "),
    ("A {0,1}? *", 3, End::Closed, "AAA AA A  "),
    // An iteration beyond the least number takes a row, so that the side of no row is never taken.
    ("() A or *", 2, End::Closed, "AA A  "),
    // The required iterations may take none, so that here that side is preferred.
    ("() A or {2,2}", 2, End::Closed, " A A AA "),
    ("A * * $ then", 3, End::Closed, "AAA AAA AAA AAA "),
    ("A {0,1}? * $ then", 3, End::Closed, "AAA "),
    ("A {1,2}", 2, End::Closed, "AA A "),
    ("A {1,2}?", 2, End::Closed, "A AA "),
    ("A {0,0}", 2, End::Closed, " "),
    ("A {-} B then", 2, End::Closed, "aB "),
    ("^ A $ then then", 2, End::Closed, ""),
    ("A ^ then", 2, End::Closed, ""),
    ("A *", 1, End::Open, "A?A  "),
    ("A B C &3", 3, End::Closed, "ABC ACB BAC BCA CAB CBA "),
    ("A *", 3, End::Closed, "AAA AA A  "),
    ("A {2,3}", 1, End::Closed, ""),
    ("A B or {2,2}", 2, End::Closed, "AA AB BA BB "),
];

#[test]
fn words_are_listed(rt: HostRuntime) -> Result<(), Fail> {
    all_listed(&rt, rt.alloc(), &LISTS)
}

fn all_listed(
    rt: &impl Abort,
    alloc: Global,
    lists: &[(&str, u64, End, &str)],
) -> Result<(), Fail> {
    for (text, last, end, wanted) in lists {
        let words = shown(rt, alloc, text, *last, *end)?;
        assert!(rt; words.as_str() == *wanted, "{text}: {words}");
    }
    Ok(())
}

/// The words of a pattern from row 1 on as texts.
fn shown(rt: &impl Abort, alloc: Global, text: &str, last: u64, end: End) -> Result<String, Fail> {
    holds(rt, last < 1000);
    let pattern = pattern_of(rt, alloc, text)?;
    let words = list_words(alloc, &pattern, 1, last, end, 100)?;
    let mut shown = String::new(alloc);
    for word in &words {
        write_word(&mut shown, word)?;
    }
    Ok(shown)
}

fn write_word(text: &mut String, word: &Word) -> Result<(), AllocError> {
    for label in &word.labels {
        text.push(letter(*label))?;
    }
    text.push(if word.mark == Mark::Open { '?' } else { ' ' })
}

fn letter(label: Label) -> char {
    match (label.var, label.excluded) {
        (0, false) => 'A',
        (0, true) => 'a',
        (1, false) => 'B',
        (1, true) => 'b',
        _ => 'C',
    }
}

/// Eight words are listed up to that many, and the words over very many rows are given up at the cap.
#[test]
fn words_up_to_the_cap(rt: HostRuntime) -> Result<(), Fail> {
    holds(&rt, !is_too_many(&rt, rt.alloc(), "A * *", 3, 8)?);
    holds(&rt, is_too_many(&rt, rt.alloc(), "A * *", 3, 7)?);
    holds(&rt, is_too_many(&rt, rt.alloc(), "A *?", 1 << 40, 10)?);
    Ok(())
}

/// Whether there are more than `cap` words over the rows 1 to `last` of a closed partition.
fn is_too_many(
    rt: &impl Abort,
    alloc: Global,
    text: &str,
    last: u64,
    cap: usize,
) -> Result<bool, Fail> {
    holds(rt, last < 1 << 50);
    let pattern = pattern_of(rt, alloc, text)?;
    match list_words(alloc, &pattern, 1, last, End::Closed, cap) {
        Ok(_) => Ok(false),
        Err(ListFault::TooMany) => Ok(true),
        Err(ListFault::OutOfMemory) => Err(AllocError.into()),
    }
}

/// A list that is refused memory, asked for again, is what it is with ample memory.
#[test]
fn refused_list(rt: HostRuntime) -> Result<(), Fail> {
    let pattern = pattern_of(&rt, rt.alloc(), "A * *")?;
    let list = match list_words(rt.alloc(), &pattern, 1, 3, End::Closed, 8) {
        Err(ListFault::OutOfMemory) => listed_again(rt.alloc(), &pattern)?,
        other => other?,
    };
    same(&rt, list.len(), 8);
    Ok(())
}

/// A list that was refused memory.
fn listed_again(alloc: Global, pattern: &Pattern) -> Result<Vec<Word>, Fail> {
    match list_words(alloc, pattern, 1, 3, End::Closed, 8) {
        Err(ListFault::OutOfMemory) => Err(refused_twice()),
        listed => Ok(listed?),
    }
}
