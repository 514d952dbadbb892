//! Runs of `trace` over devices that fail or take pieces, its calls with refused memory, and the texts of its faults. Replies and
//! patterns are in cases/trace.cases.
ghost use Rattle.std.specs.Prelude.{◌≡◌, ◌≤◌, length, true};
ghost use Rattle.rp_words.specs.PatternForm.{form_of};
ghost use Rattle.rp_words.specs.Variables.{are_below};
ghost use Rattle.rp_trace.specs.Limits.{letter_count};

use crate::support::{holds, refused_twice, same};
use rp_io::{CountedDevice, MemoryInput, MemoryOutput, READS};
use rp_trace::{BUDGET, TraceFault, TracePatternFault, run_trace, trace_pattern};
use rp_words::Pattern;
use std::alloc::{AllocError, Global};
use std::fmt::Display;
use std::process::Abort;
use std::test::Fail;

/// No call has this number.
const NEVER: u64 = 0;

const PATTERN: &str = "(A B | A)* C";

const LINES: &str = "abac\naab\nc\n\nab1\n";

const REPLIES: &str = "ABAC\nnone\nC\nnone\nrefused\n";

/// What a run came to, and what it wrote.
#[derive(Drop)]
struct Ran {
    result: Result<(), TraceFault>,
    calls: u64,
    sink: MemoryOutput,
}

/// Which calls of the devices fail, and how many reads are allowed.
#[derive(Clone, Copy)]
struct Limits {
    read: u64,
    write: u64,
    reads: u64,
}

const ALL: Limits = Limits {
    read: NEVER,
    write: NEVER,
    reads: 10_000,
};

/// Three bytes are read at a call, and two written.
fn run_once(
    alloc: Global,
    pattern: &Pattern,
    lines: &[u8],
    limits: Limits,
) -> Result<Ran, AllocError>
    requires { are_below letter_count (form_of pattern.now) ≡ true }
{
    let mut source = MemoryInput::new(lines, 3, limits.read);
    let mut sink = MemoryOutput::new(alloc, 10_000, 2, limits.write)?;
    let result = run_trace(alloc, &mut source, &mut sink, pattern, limits.reads);
    let calls = source.calls();
    Ok(Ran {
        result,
        calls,
        sink,
    })
}

/// A run that was refused memory is made again.
fn run_lines(alloc: Global, pattern: &Pattern, lines: &[u8], limits: Limits) -> Result<Ran, Fail>
    requires { are_below letter_count (form_of pattern.now) ≡ true }
{
    let ran = run_once(alloc, pattern, lines, limits)?;
    if ran.result == Err(TraceFault::OutOfMemory) {
        return run_again(alloc, pattern, lines, limits);
    }
    Ok(ran)
}

fn run_again(alloc: Global, pattern: &Pattern, lines: &[u8], limits: Limits) -> Result<Ran, Fail>
    requires { are_below letter_count (form_of pattern.now) ≡ true }
{
    let ran = run_once(alloc, pattern, lines, limits)?;
    if ran.result == Err(TraceFault::OutOfMemory) {
        return Err(refused_twice());
    }
    Ok(ran)
}

/// A pattern that was refused memory is read again.
fn pattern_of(alloc: Global, text: &str) -> Result<Pattern, Fail>
    ensures { (pattern : Pattern) → result ≡ Ok pattern → are_below letter_count (form_of pattern) ≡ true }
{
    match trace_pattern(alloc, text) {
        Ok(pattern) => Ok(pattern),
        Err(TracePatternFault::OutOfMemory) => pattern_again(alloc, text),
        Err(fault) => Err(Fail::from(fault)),
    }
}

/// A second refusal is a fault, since only one call for memory is refused in a run.
fn pattern_again(alloc: Global, text: &str) -> Result<Pattern, Fail>
    ensures { (pattern : Pattern) → result ≡ Ok pattern → are_below letter_count (form_of pattern) ≡ true }
{
    match trace_pattern(alloc, text) {
        Ok(pattern) => Ok(pattern),
        Err(_) => Err(refused_twice()),
    }
}

/// A line of 300,000 letters, and another one.
fn long_lines(alloc: Global) -> Result<Vec<u8>, AllocError> {
    let mut lines = Vec::new(alloc);
    lines.resize(300_000, b'a')?;
    lines.extend_from_slice(b"\nc\n")?;
    Ok(lines)
}

/// A line of any length is read in chunks of 65,536 bytes: 300,000 letters and the rest take five reads, and one more
/// tells the end.
#[test]
fn long_line(rt: HostRuntime) -> Result<(), Fail> {
    let lines = long_lines(rt.alloc())?;
    let pattern = pattern_of(rt.alloc(), "A* | C")?;
    let mut source = MemoryInput::new(lines.as_slice(), 100_000, NEVER);
    let mut sink = MemoryOutput::new(rt.alloc(), 100, 100, NEVER)?;
    let result = run_trace(rt.alloc(), &mut source, &mut sink, &pattern, 6);
    if result != Err(TraceFault::OutOfMemory) {
        same(&rt, result, Ok(()));
        same(&rt, source.calls(), 6);
    }
    Ok(())
}

/// A text `times` times.
fn repeated(alloc: Global, text: &[u8], times: usize) -> Result<Vec<u8>, AllocError>
    requires times { times ≤ 50000 }
    requires short { length text.now ≤ 8 }
{
    let mut all = Vec::with_capacity(alloc, times * text.len())?;
    for _time in 0..times {
        all.extend_from_slice(text)?;
    }
    Ok(all)
}

/// 9,000 replies of 8 bytes are more than a block, and more than the device takes at a call.
#[test]
fn blocks(rt: HostRuntime) -> Result<(), Fail> {
    let pattern = pattern_of(rt.alloc(), "C")?;
    let lines = repeated(rt.alloc(), b"1\n", 9_000)?;
    let mut source = MemoryInput::new(lines.as_slice(), 100_000, NEVER);
    let mut sink = MemoryOutput::new(rt.alloc(), 100_000, 7_000, NEVER)?;
    let result = run_trace(rt.alloc(), &mut source, &mut sink, &pattern, 2);
    if result != Err(TraceFault::OutOfMemory) {
        same(&rt, result, Ok(()));
        let wanted = repeated(rt.alloc(), b"refused\n", 9_000)?;
        holds(&rt, sink.bytes() == wanted.as_slice());
    }
    Ok(())
}

/// The replies to the first chunk are more than a block: they are written before the next chunk is read.
#[test]
fn first_block(rt: HostRuntime) -> Result<(), Fail> {
    let pattern = pattern_of(rt.alloc(), "C")?;
    let lines = repeated(rt.alloc(), b"1\n", 50_000)?;
    let mut source = MemoryInput::new(lines.as_slice(), 100_000, NEVER);
    let mut sink = MemoryOutput::new(rt.alloc(), 100_000, 100_000, 1)?;
    let result = run_trace(rt.alloc(), &mut source, &mut sink, &pattern, 10);
    if result != Err(TraceFault::OutOfMemory) {
        same(&rt, result, Err(TraceFault::Write));
        same(&rt, source.calls(), 1);
    }
    Ok(())
}

#[test]
fn failed_reads(rt: HostRuntime) -> Result<(), Fail> {
    let pattern = pattern_of(rt.alloc(), PATTERN)?;
    for read in 1..8 {
        let limits = Limits {
            read,
            write: NEVER,
            reads: 100,
        };
        let ran = run_lines(rt.alloc(), &pattern, LINES.as_bytes(), limits)?;
        same(&rt, ran.result, Err(TraceFault::Read));
        holds(&rt, REPLIES.as_bytes().starts_with(ran.sink.bytes()));
    }
    Ok(())
}

#[test]
fn failed_writes(rt: HostRuntime) -> Result<(), Fail> {
    let pattern = pattern_of(rt.alloc(), PATTERN)?;
    for write in 1..14 {
        let limits = Limits {
            read: NEVER,
            write,
            reads: 100,
        };
        let ran = run_lines(rt.alloc(), &pattern, LINES.as_bytes(), limits)?;
        same(&rt, ran.result, Err(TraceFault::Write));
        holds(&rt, REPLIES.as_bytes().starts_with(ran.sink.bytes()));
    }
    Ok(())
}

#[test]
fn reads_allowed(rt: HostRuntime) -> Result<(), Fail> {
    let pattern = pattern_of(rt.alloc(), PATTERN)?;
    for reads in 0..8 {
        let limits = Limits {
            read: NEVER,
            write: NEVER,
            reads,
        };
        let ran = run_lines(rt.alloc(), &pattern, LINES.as_bytes(), limits)?;
        let wanted = if reads < 7 {
            Err(TraceFault::Turns)
        } else {
            Ok(())
        };
        same(&rt, ran.result, wanted);
        same(&rt, ran.calls, reads);
    }
    Ok(())
}

/// The last part of an input, how many reads are allowed, and what the run comes to.
const LAST_PARTS: [(&str, u64, Result<(), TraceFault>); 4] = [
    ("", 0, Err(TraceFault::Turns)),
    ("", 1, Ok(())),
    ("abac", 2, Err(TraceFault::Turns)),
    ("abac", 3, Ok(())),
];

/// Whether each run comes to this, by as many reads as are allowed.
fn all_read(
    rt: &impl Abort,
    alloc: Global,
    cases: &[(&str, u64, Result<(), TraceFault>)],
) -> Result<(), Fail> {
    let pattern = pattern_of(alloc, PATTERN)?;
    for (lines, reads, wanted) in cases {
        let limits = Limits {
            read: NEVER,
            write: NEVER,
            reads: *reads,
        };
        let ran = run_lines(alloc, &pattern, lines.as_bytes(), limits)?;
        assert!(rt; ran.result == *wanted, "{lines} in {reads}");
        same(rt, ran.calls, *reads);
    }
    Ok(())
}

/// Of a last part without LF nothing is read once the end was told.
#[test]
fn reads_of_last_part(rt: HostRuntime) -> Result<(), Fail> {
    all_read(&rt, rt.alloc(), &LAST_PARTS)
}

/// A pattern that is refused memory can be read again.
#[test]
fn refused_pattern(rt: HostRuntime) -> Result<(), Fail> {
    let _pattern = pattern_of(rt.alloc(), "((A)*|B)C")?;
    Ok(())
}

/// A run that is refused memory has written a front of the replies.
#[test]
fn refused_run(rt: HostRuntime) -> Result<(), Fail> {
    let pattern = pattern_of(rt.alloc(), PATTERN)?;
    let mut ran = run_once(rt.alloc(), &pattern, LINES.as_bytes(), ALL)?;
    if ran.result == Err(TraceFault::OutOfMemory) {
        holds(&rt, REPLIES.as_bytes().starts_with(ran.sink.bytes()));
        ran = run_again(rt.alloc(), &pattern, LINES.as_bytes(), ALL)?;
    }
    same(&rt, ran.result, Ok(()));
    same(&rt, ran.sink.bytes(), REPLIES.as_bytes());
    Ok(())
}

#[test]
fn streams(rt: HostRuntime) -> Result<(), Fail> {
    let pattern = pattern_of(rt.alloc(), PATTERN)?;
    let mut bytes = Vec::with_capacity(rt.alloc(), 100)?;
    let mut reader = CountedDevice::new(LINES.as_bytes());
    let mut writer = CountedDevice::new(&mut bytes);
    run_trace(rt.alloc(), &mut reader, &mut writer, &pattern, 2)?;
    same(&rt, (reader.calls, reader.failures), (2, 0));
    holds(&rt, reader.ended);
    same(&rt, (writer.calls, writer.failures), (1, 0));
    same(&rt, bytes.as_slice(), REPLIES.as_bytes());
    Ok(())
}

/// How often the program reads, and the turns of one run of a search.
#[test]
fn numbers_of_the_program(rt: HostRuntime) {
    same(&rt, READS, 1_000_000_000);
    same(&rt, BUDGET, 100_000);
}

/// Faults of a run, and what is told of each.
const RUN_TEXTS: [(TraceFault, &str); 4] = [
    (TraceFault::Read, "device: read"),
    (TraceFault::Write, "device: write"),
    (TraceFault::Turns, "too many turns"),
    (TraceFault::OutOfMemory, "out of memory"),
];

/// Faults of a pattern, and what is told of each.
const PATTERN_TEXTS: [(TracePatternFault, &str); 2] = [
    (
        TracePatternFault::Expected(12),
        "pattern: Expected at byte 12",
    ),
    (TracePatternFault::OutOfMemory, "out of memory"),
];

/// Whether each fault is told so.
fn all_told<F: Display>(rt: &impl Abort, alloc: Global, cases: &[(F, &str)]) -> Result<(), Fail> {
    for (fault, want) in cases {
        let text = format!(in alloc; "{fault}")?;
        assert!(rt; text.as_str() == *want, "{text}");
    }
    Ok(())
}

#[test]
fn texts_of_runs(rt: HostRuntime) -> Result<(), Fail> {
    all_told(&rt, rt.alloc(), &RUN_TEXTS)
}

#[test]
fn texts_of_patterns(rt: HostRuntime) -> Result<(), Fail> {
    all_told(&rt, rt.alloc(), &PATTERN_TEXTS)
}
