//! Tests of compiled patterns: their instructions, as a person lists them.
ghost use Rattle.rp_program.specs.Programs.{IsPlace};

use crate::notation::pattern_of;
use crate::support::{refused_twice, same};
use rp_program::{Instruction, Program};
use rp_words::Pattern;
use std::alloc::{AllocError, Global};
use std::process::Abort;
use std::test::Fail;

/// Patterns, how many instructions their programs may have at most, and these instructions from place 0 on, and behind them the place
/// that a search begins with: `2>0` is a row of variable 2 and then place 0, `2->0` an excluded one, `3|1` a choice of places, `3+1` one
/// of places that take a row, `^>0` and `$>0` an edge of the partition. `none` is what has more instructions.
const PROGRAMS: [(&str, u32, &str); 12] = [
    // The match, C, the loop, B, A.
    ("A B * C then then", 5, "match 2>0 3|1 1>2 0>2 4"),
    // An iteration that takes no row leads nowhere.
    (
        "A * B * then * C then",
        100,
        "match 2>0 7|1 4|2 1>3 6|3 0>5 6|4 2",
    ),
    ("() A or {0,1}?", 100, "match 0>0 0|1 0|1 3"),
    // An end of the partition that can't be followed.
    ("$ *", 100, "match 2|0 $ $>1 1"),
    ("^ *", 100, "match 0"),
    ("A {2,2} {-} ^ then", 100, "match ^>0 0->1 0->2 3"),
    // B alone, A alone, B and then A, A and then B, and either of these.
    ("A B &2", 100, "match 1>0 0>0 1>2 0>1 4+3 5"),
    // The sets C, B, BC, A, AC, AB and ABC.
    (
        "A B C &3",
        100,
        "match 2>0 1>0 2>2 1>1 4+3 0>0 2>6 0>1 8+7 1>6 0>2 11+10 2>12 1>9 14+13 0>5 16+15 17",
    ),
    // A part that is no variable, so one order after another.
    ("A () * &2", 100, "match 0>0 0>0 2|1 3"),
    // What is too large isn't compiled, and that is soon known.
    ("A * B * C * D * E * F * G * H * &8", 100_000, "none"),
    ("A {1000,1000} {1000,1000} {1000,1000}", 10_000, "none"),
    ("() {1000,1000} {1000,1000} {1000,1000}", 10_000, "none"),
];

#[test]
fn patterns_are_compiled(rt: HostRuntime) -> Result<(), Fail> {
    all_compiled(&rt, rt.alloc(), &PROGRAMS)
}

fn all_compiled(
    rt: &impl Abort,
    alloc: Global,
    programs: &[(&str, u32, &str)],
) -> Result<(), Fail> {
    for (text, most, wanted) in programs {
        let listed = listed(&pattern_of(rt, alloc, text)?, alloc, *most)?;
        assert!(rt; listed.as_str() == *wanted, "{text}: {listed}");
    }
    Ok(())
}

/// The instructions of a pattern's program, and the place that a search begins with.
fn listed(pattern: &Pattern, alloc: Global, most: u32) -> Result<String, AllocError> {
    let mut text = String::new(alloc);
    let Some(program) = Program::compile(alloc, pattern, most)? else {
        text.push_str("none")?;
        return Ok(text);
    };
    for place in 0..program.size() {
        if let Ok(place) = u32::try_from(place) {
            list_one(&program, place, &mut text)?;
        }
    }
    write!(text, "{}", program.first())?;
    Ok(text)
}

fn list_one(program: &Program, place: u32, text: &mut String) -> Result<(), AllocError>
    requires { IsPlace program.now place }
{
    match program.instruction(place) {
        Instruction::Match => text.push_str("match "),
        Instruction::Row {
            var,
            excluded,
            next,
        } => {
            let mark = if excluded { "-" } else { "" };
            write!(text, "{var}{mark}>{next} ")
        }
        Instruction::Split { preferred, other } => write!(text, "{preferred}|{other} "),
        Instruction::RowSplit { preferred, other } => write!(text, "{preferred}+{other} "),
        Instruction::PartitionStart { next } => write!(text, "^>{next} "),
        Instruction::PartitionEnd { next: Some(next) } => write!(text, "$>{next} "),
        Instruction::PartitionEnd { next: None } => text.push_str("$ "),
    }
}

/// `PERMUTE` of eight variables has a place for each variable of each set, one more for each further variable of a set, and the match.
#[test]
fn eight_variables(rt: HostRuntime) -> Result<(), Fail> {
    let pattern = pattern_of(&rt, rt.alloc(), "A B C D E F G H &8")?;
    same(&rt, size_of(&pattern, rt.alloc(), 1794)?, 1794);
    same(&rt, size_of(&pattern, rt.alloc(), 1793)?, 0);
    Ok(())
}

/// How many places a pattern's program has. 0: it would have more than so many.
fn size_of(pattern: &Pattern, alloc: Global, most: u32) -> Result<usize, AllocError> {
    match Program::compile(alloc, pattern, most)? {
        Some(program) => Ok(program.size()),
        None => Ok(0),
    }
}

/// Where memory is refused, the pattern is compiled again.
#[test]
fn refused_program(rt: HostRuntime) -> Result<(), Fail> {
    let pattern = pattern_of(&rt, rt.alloc(), "A B or")?;
    let size = match size_of(&pattern, rt.alloc(), 10) {
        Ok(size) => size,
        Err(_) => match size_of(&pattern, rt.alloc(), 10) {
            Ok(size) => size,
            Err(_) => return Err(refused_twice()),
        },
    };
    same(&rt, size, 4);
    Ok(())
}
