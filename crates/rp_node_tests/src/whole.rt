//! Runs of `whole` over devices in memory that fail or take pieces or are refused memory, who is told how a run goes on, and the texts of
//! faults. Answers are in cases/whole.cases, records.cases, objects.cases and limits.cases.
use crate::support::{V, fixed_hasher, holds, query_of, refused_twice, same};
use rp_input::CsvFault;
use rp_io::{MemoryInput, MemoryOutput};
use rp_query::Query;
use rp_value::Cells;
use rp_whole::{Watch, WholeFault, run_whole, run_whole_csv, shown_number};
use std::alloc::{AllocError, Global};
use std::fmt::Write;
use std::test::Fail;

/// How answers are written.
#[derive(Clone, Copy)]
enum Form {
    Lines,
    Records,
}

/// What a run answers, its whole answer, and its devices: a read gives so many bytes at most, and a write takes so many. The read and the
/// write of these numbers fail, from 1, and none where that is 0.
#[derive(Clone, Copy)]
struct Run<'a> {
    form: Form,
    clause: &'a str,
    input: &'a str,
    answer: &'a str,
    read_size: usize,
    failing_read: u64,
    /// How many reads are allowed.
    reads: u64,
    write_size: usize,
    failing_write: u64,
}

/// The input of 51 bytes comes in seven reads of at most eight bytes, and its end in another.
const LINES: Run<'static> = Run {
    form: Form::Lines,
    clause: V,
    input: "sym,t,p\nx,2,8\ny,1,5\nx,1,10\nx,3,6\nx,4,7\nx,6,9\nx,5,9\n",
    answer: "\
{\"cells\":[\"x\",1,10,6,9],\"key\":[\"x\"],\"number\":1,\"place\":\"1\"}
{\"end\":true,\"key\":[\"x\"],\"place\":\"2\"}
{\"end\":true,\"key\":[\"y\"],\"place\":\"1\"}
",
    read_size: 8,
    failing_read: 0,
    reads: 8,
    write_size: 7,
    failing_write: 0,
};

const RECORDS: Run<'static> = Run {
    form: Form::Records,
    answer: "SYM,N,A,LO,HI\nx,1,10,6,9\n",
    ..LINES
};

/// More bytes than any of the answers has.
const ROOM: usize = 500_000;

/// How a run ended, after how many reads, and whether the last one told the end; how many bytes of the answer were written, and what the
/// watch was told.
#[derive(Clone, Copy)]
struct Ended {
    came: Result<usize, WholeFault>,
    reads: u64,
    is_read: bool,
    written: usize,
    counts: Counts,
}

/// The end of a run, which is made again where memory was refused. All that was written is a front of the answer.
fn end_of(alloc: Global, run: &Run<'_>) -> Result<Ended, Fail> {
    let query = query_of(alloc, run.clause)?;
    for _attempt in 0..2 {
        let mut counts = Counts::NOTHING;
        let mut source = MemoryInput::new(run.input.as_bytes(), run.read_size, run.failing_read);
        let mut sink = MemoryOutput::new(alloc, ROOM, run.write_size, run.failing_write)?;
        let came = answered(alloc, run, &query, &mut source, &mut sink, &mut counts);
        let is_front = run.answer.as_bytes().starts_with(sink.bytes());
        holds(is_front, "other bytes than the answer's")?;
        if came != Err(WholeFault::OutOfMemory) {
            return Ok(Ended {
                came,
                reads: source.calls(),
                is_read: source.ended(),
                written: sink.bytes().len(),
                counts,
            });
        }
    }
    Err(refused_twice())
}

/// A run ends so, after so many reads, with so many bytes of the answer written.
fn ends(
    alloc: Global,
    run: &Run<'_>,
    wanted: Result<usize, WholeFault>,
    reads: u64,
    written: usize,
) -> Result<(), Fail> {
    let ended = end_of(alloc, run)?;
    holds(ended.came == wanted, "another end")?;
    holds(ended.reads == reads, "another number of reads")?;
    holds(ended.is_read != is_unread(wanted), "the end of the input")?;
    holds(ended.written == written, "another number of bytes")
}

/// Answers a query, and says how many partitions' answers were ended by the fault of a skip.
fn answered(
    alloc: Global,
    run: &Run<'_>,
    query: &Query,
    source: &mut MemoryInput,
    sink: &mut MemoryOutput,
    counts: &mut Counts,
) -> Result<usize, WholeFault> {
    let (query, hasher) = (query.share()?, fixed_hasher()?);
    match run.form {
        Form::Lines => {
            run_whole(alloc, query, source, sink, counts, run.reads, hasher)?;
            Ok(0)
        }
        Form::Records => {
            let stopped = run_whole_csv(alloc, query, source, sink, counts, run.reads, hasher)?;
            Ok(stopped.len())
        }
    }
}

/// Whether a run ended so before its input did.
fn is_unread(wanted: Result<usize, WholeFault>) -> bool {
    matches!(
        wanted,
        Err(WholeFault::Csv(CsvFault::Read | CsvFault::Turns))
    )
}

/// Counts what it is told.
#[derive(Clone, Copy)]
struct Counts {
    partitions: u64,
    pauses: u64,
    /// The row of the last pause.
    row: u64,
    /// How often a pause had other turns than 100,000, or a row below that of the pause before.
    odd: u64,
}

impl Counts {
    const NOTHING: Counts = Counts {
        partitions: 0,
        pauses: 0,
        row: 0,
        odd: 0,
    };
}

impl Watch for Counts {
    fn begins(&mut self, _key: &Cells) {
        self.partitions = self.partitions.saturating_add(1);
    }

    fn pauses(&mut self, _key: &Cells, row: u64, turns: u32) {
        self.pauses = self.pauses.saturating_add(1);
        if turns != 100_000 || row < self.row {
            self.odd = self.odd.saturating_add(1);
        }
        self.row = row;
    }
}

/// Each read fails once, and then it is one too many.
#[test]
fn each_read(rt: HostRuntime) -> Result<(), Fail> {
    let failed = Err(WholeFault::Csv(CsvFault::Read));
    let refused = Err(WholeFault::Csv(CsvFault::Turns));
    for reads in 0..8u64 {
        let failing_read = reads.saturating_add(1);
        let failing = Run {
            failing_read,
            ..LINES
        };
        ends(rt.alloc(), &failing, failed, failing_read, 0)?;
        let few = Run { reads, ..LINES };
        ends(rt.alloc(), &few, refused, reads, 0)?;
    }
    Ok(())
}

/// An input without a byte has no header.
#[test]
fn empty_input(rt: HostRuntime) -> Result<(), Fail> {
    let empty = Run {
        input: "",
        reads: 1,
        ..LINES
    };
    let no_header = Err(WholeFault::Csv(CsvFault::Header));
    ends(rt.alloc(), &empty, no_header, 1, 0)
}

/// Each write fails once: the 134 bytes of lines go in twenty writes of at most seven, and the 25 of records in four.
#[test]
fn each_write(rt: HostRuntime) -> Result<(), Fail> {
    each_write_fails(rt.alloc(), &LINES, 20)?;
    each_write_fails(rt.alloc(), &RECORDS, 4)
}

/// A write that fails leaves what those before it took.
fn each_write_fails(alloc: Global, run: &Run<'_>, writes: u8) -> Result<(), Fail> {
    for before in 0..writes {
        let failing = Run {
            failing_write: u64::from(before) + 1,
            ..*run
        };
        let written = 7 * usize::from(before);
        ends(alloc, &failing, Err(WholeFault::Write), 8, written)?;
    }
    Ok(())
}

/// Runs that are refused memory.
#[test]
fn refused_runs(rt: HostRuntime) -> Result<(), Fail> {
    ends(rt.alloc(), &LINES, Ok(0), 8, 134)?;
    ends(rt.alloc(), &RECORDS, Ok(0), 8, 25)
}

/// Partition `a` is answered at once. In `b`, whose last part never comes, each start row has twice as many words to be
/// refused as the row after it: far more turns in all than a poll takes. Its test counts what is mapped before, so that no refusal
/// is remembered.
const SLOW: Run<'static> = Run {
    clause: "PARTITION BY sym MEASURES COUNT(*) AS c PATTERN ((A | B)* C) DEFINE C AS p = 0 * COUNT(A.*)",
    input: "sym,t,p\na,1,1\na,2,0\n\
        b,1,1\nb,2,1\nb,3,1\nb,4,1\nb,5,1\nb,6,1\nb,7,1\nb,8,1\nb,9,1\nb,10,1\nb,11,1\nb,12,1\nb,13,1\nb,14,1\nb,15,1\n",
    answer: "\
{\"cells\":[\"a\",2],\"key\":[\"a\"],\"number\":1,\"place\":\"1\"}
{\"end\":true,\"key\":[\"a\"],\"place\":\"2\"}
{\"end\":true,\"key\":[\"b\"],\"place\":\"1\"}
",
    read_size: 1_000,
    write_size: 1_000,
    ..LINES
};

/// What was found in `a` is written before the search in `b` is over. Both partitions are told, and pauses of the second one, whose first
/// row takes more turns than all others.
#[test]
fn found_is_written_early(rt: HostRuntime) -> Result<(), Fail> {
    let failing = Run {
        failing_write: 2,
        ..SLOW
    };
    ends(rt.alloc(), &failing, Err(WholeFault::Write), 2, 90)?;
    let ended = end_of(rt.alloc(), &SLOW)?;
    holds(ended.came == Ok(0), "another end")?;
    let counts = ended.counts;
    holds(counts.partitions == 2, "two partitions")?;
    holds(counts.pauses > 0 && counts.row > 0, "a pause")?;
    holds(counts.odd == 0, "an odd pause")
}

/// Many rows, and the answers of a match for each.
#[derive(Drop)]
struct Many {
    input: String,
    lines: String,
    records: String,
}

impl Many {
    fn new(alloc: Global) -> Result<Many, AllocError> {
        Ok(Many {
            input: String::from_str(alloc, "sym,t,p\n")?,
            lines: String::new(alloc),
            records: String::from_str(alloc, "S,N,Q\n")?,
        })
    }

    fn add(&mut self, row: u64) -> Result<(), AllocError> {
        write!(self.input, "\"x,\",{row},7\n")?;
        write!(self.records, "\"x,\",{row},7\n")?;
        write!(
            self.lines,
            "{{\"cells\":[\"x,\",{row},7],\"key\":[],\"number\":{row},\"place\":\"{row}\"}}\n"
        )
    }

    fn add_all(&mut self) -> Result<(), AllocError> {
        for row in 1..8_001 {
            self.add(row)?;
        }
        self.lines
            .push_str("{\"end\":true,\"key\":[],\"place\":\"8001\"}\n")
    }
}

/// Answers of more than a block. A read has room for 65,536 bytes, so that two give the input, and one more the end.
#[test]
fn more_than_a_block(rt: HostRuntime) -> Result<(), Fail> {
    let mut many = Many::new(rt.alloc())?;
    many.add_all()?;
    let lines = Run {
        clause: "MEASURES sym AS s, t AS n, p AS q PATTERN (A) DEFINE A AS 1 = 1",
        input: many.input.as_str(),
        answer: many.lines.as_str(),
        read_size: 1_000_000,
        write_size: 1_000_000,
        ..LINES
    };
    second_block_fails(rt.alloc(), &lines)?;
    let records = Run {
        form: Form::Records,
        answer: many.records.as_str(),
        ..lines
    };
    second_block_fails(rt.alloc(), &records)
}

/// Where the second block can't be written, the first one stays.
fn second_block_fails(alloc: Global, run: &Run<'_>) -> Result<(), Fail> {
    ends(alloc, run, Ok(0), 3, run.answer.len())?;
    let failing = Run {
        failing_write: 2,
        ..*run
    };
    let ended = end_of(alloc, &failing)?;
    holds(ended.came == Err(WholeFault::Write), "a second write")?;
    holds(ended.written >= 65_536, "a block")
}

/// Faults of a run and of its input, and what is told of each.
const FAULTS: &[(WholeFault, &str)] = &[
    (WholeFault::Csv(CsvFault::Header), "csv: Header"),
    (
        WholeFault::Csv(CsvFault::Record(2)),
        "csv: Record at record 2",
    ),
    (
        WholeFault::Csv(CsvFault::Field(3)),
        "csv: Field at record 3",
    ),
    (WholeFault::Csv(CsvFault::Read), "csv: device: read"),
    (WholeFault::Csv(CsvFault::Turns), "csv: too many turns"),
    (WholeFault::Csv(CsvFault::OutOfMemory), "csv: out of memory"),
    (WholeFault::Write, "device: write"),
    (WholeFault::OutOfMemory, "out of memory"),
];

/// Numbers, and their digits in threes from the end.
const NUMBERS: &[(u64, &str)] = &[
    (0, "0"),
    (999, "999"),
    (1_000, "1,000"),
    (1_020_300, "1,020,300"),
    (u64::MAX, "18,446,744,073,709,551,615"),
];

#[test]
fn texts_of_faults_and_numbers(rt: HostRuntime) -> Result<(), Fail> {
    faults_are_told(rt.alloc(), FAULTS)?;
    numbers_are_shown(rt.alloc(), NUMBERS)
}

fn faults_are_told(alloc: Global, faults: &[(WholeFault, &str)]) -> Result<(), Fail> {
    for (fault, wanted) in faults {
        let text = format!(in alloc; "{fault}")?;
        same(alloc, text.as_str(), *wanted)?;
    }
    Ok(())
}

fn numbers_are_shown(alloc: Global, numbers: &[(u64, &str)]) -> Result<(), Fail> {
    for (number, wanted) in numbers {
        let text = shown_number(alloc, *number)?;
        same(alloc, text.as_str(), *wanted)?;
    }
    Ok(())
}
