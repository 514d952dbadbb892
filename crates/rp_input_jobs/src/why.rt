//! `why`: what is in the way of a match, partition by partition.
use rp_command::{ReportFormat, WhyJob};
use rp_io::{CountedDevice, write_all};
use rp_job::{
    Asked, InputLayout, JobInputs, ProgramFault, Verdict, seeded_hasher, shown_key, tell,
};
use rp_json::cells_of;
use rp_near_misses::absent_texts;
use rp_numbering::{Part, order_rows, partitions};
use rp_query::Query;
use rp_value::{Cells, Row};
use rp_why::{Finding, Inquiry, Wanted, object_line, told};
use rp_wording::{shown_line, shown_text};
use serde_json::Value as Json;
use std::alloc::{AllocError, Global};

/// The most turns of the searches of a clause, where no number is given.
const MOST_TURNS: u32 = 10_000_000;

/// Prints for each partition, or for that of the key that is given, its first match, or what is in the way of one.
pub fn run_why(rt: &HostRuntime, job: &WhyJob) -> Result<Verdict, ProgramFault> {
    let key = key_of(rt.alloc(), job)?;
    let asked = Asked {
        input: &job.input,
        clause: job.clause.as_str(),
        filter: &job.filter,
        files: job.files.as_slice(),
    };
    let (layout, ready) = asked.layout(rt, &mut None)?;
    tell_question(rt, job, asked, &layout, ready, &key)
}

/// Prints what is found of each partition that is asked about, of the rows of inputs that are read so. Where one has no match, texts of the
/// clause that no row has are reported.
fn tell_question<'a>(
    rt: &'a HostRuntime,
    job: &WhyJob,
    asked: Asked<'a>,
    layout: &'a InputLayout,
    ready: Vec<Vec<u8>>,
    key: &Option<Cells>,
) -> Result<Verdict, ProgramFault> {
    let question = asked.question(rt.alloc(), layout)?;
    let rows = JobInputs::new(rt, asked, layout, &question.query, ready, None).rows(&question)?;
    let absent = absent_texts(rt.alloc(), &question.query, rows.as_slice())?;
    let verdict = tell_rows(rt, job, &question.query, key, rows)?;
    if !matches!(verdict, Verdict::Clean) {
        tell_absent(rt, absent.as_slice())?;
    }
    Ok(verdict)
}

/// Reports texts of the clause that no row has.
fn tell_absent(rt: &HostRuntime, notes: &[String]) -> Result<(), AllocError> {
    for note in notes {
        tell(rt, &shown_line(rt.alloc(), note.as_str())?);
    }
    Ok(())
}

/// Prints for these rows what is found of each partition that is asked about.
fn tell_rows(
    rt: &HostRuntime,
    job: &WhyJob,
    query: &Query,
    key: &Option<Cells>,
    rows: Vec<Row>,
) -> Result<Verdict, ProgramFault> {
    let parts = partitions(rt.alloc(), query, rows, seeded_hasher(rt)?)?;
    match (tell_parts(rt, job, query, key, parts)?, key) {
        (Some(verdict), _) => Ok(verdict),
        (None, None) => tell_no_rows(rt, job),
        (None, Some(key)) => Err(no_partition(rt.alloc(), key)?),
    }
}

/// Prints that there is no row, in which no match can be.
fn tell_no_rows(rt: &HostRuntime, job: &WhyJob) -> Result<Verdict, ProgramFault> {
    print(rt, no_rows_told(job).as_bytes())?;
    Ok(Verdict::Findings)
}

/// What is said where there is no row, and so no partition.
fn no_rows_told(job: &WhyJob) -> &'static str {
    match (job.format, &job.filter) {
        (ReportFormat::Json, _) => "{\"match\":null,\"rows\":0}\n",
        (ReportFormat::Text, None) => "there are no rows\n",
        (ReportFormat::Text, Some(_)) => "no row meets the condition of --where\n",
    }
}

/// Prints what is found of each partition that is asked about, and gives how the worst of them ended; None where none is.
fn tell_parts(
    rt: &HostRuntime,
    job: &WhyJob,
    query: &Query,
    key: &Option<Cells>,
    parts: Vec<Part>,
) -> Result<Option<Verdict>, ProgramFault> {
    let inquiry = Inquiry::new(rt.alloc(), query)?;
    let mut verdict = None;
    for Part { key: of_part, rows } in parts {
        if is_asked(key, &of_part) {
            let one = tell_partition(rt, job, query, &inquiry, &of_part, rows)?;
            verdict = Some(worse(verdict, one));
        }
    }
    Ok(verdict)
}

/// The key that is asked about; None where each is.
fn key_of(alloc: Global, job: &WhyJob) -> Result<Option<Cells>, ProgramFault> {
    let Some(text) = &job.key else {
        return Ok(None);
    };
    match cells_in(alloc, text.as_str())? {
        Some(key) => Ok(Some(key)),
        None => Err(ProgramFault::Usage(
            "--key is a list of JSON, of whole numbers, texts and null, as '[\"eve\"]'",
        )),
    }
}

/// The cells that a text lists as JSON; None where it is no such list.
fn cells_in(alloc: Global, text: &str) -> Result<Option<Cells>, AllocError> {
    match Json::from_slice(alloc, text.as_bytes()) {
        Ok(json) => cells_of(alloc, &json),
        Err(error) if error.is_memory() => Err(AllocError),
        Err(_) => Ok(None),
    }
}

/// Whether a partition is asked about.
fn is_asked(key: &Option<Cells>, found: &Cells) -> bool {
    match key {
        Some(key) => key.same(found),
        None => true,
    }
}

/// The fault that the input has no row of a key.
fn no_partition(alloc: Global, key: &Cells) -> Result<ProgramFault, ProgramFault> {
    let key = shown_key(alloc, key)?;
    let text = format!(in alloc; "key: the input has no row of {key}")?;
    Ok(ProgramFault::Input(text))
}

/// Prints what is found of a partition.
fn tell_partition(
    rt: &HostRuntime,
    job: &WhyJob,
    query: &Query,
    inquiry: &Inquiry<'_>,
    key: &Cells,
    rows: Vec<Row>,
) -> Result<Verdict, ProgramFault> {
    let count = rows.len() as u64;
    let mut rows = rows;
    order_rows(query, &mut rows)?;
    let finding = inquiry.why(rows, wanted(job, count))?;
    print_finding(rt, job, query, key, count, &finding)?;
    Ok(verdict_of(&finding))
}

/// Prints what is found of a partition of so many rows.
fn print_finding(
    rt: &HostRuntime,
    job: &WhyJob,
    query: &Query,
    key: &Cells,
    count: u64,
    finding: &Finding,
) -> Result<(), ProgramFault> {
    let bytes = match job.format {
        ReportFormat::Text => lines_of(rt.alloc(), job, query, key, count, finding)?,
        ReportFormat::Json => object_of(rt.alloc(), query, key, count, finding)?,
    };
    print(rt, bytes.as_slice())
}

/// Prints the bytes whole.
fn print(rt: &HostRuntime, bytes: &[u8]) -> Result<(), ProgramFault> {
    match write_all(&mut CountedDevice::new(rt.stdout()), bytes) {
        Ok(()) => Ok(()),
        Err(_) => Err(ProgramFault::Write),
    }
}

/// What is found of a partition of so many rows, in lines for people.
fn lines_of(
    alloc: Global,
    job: &WhyJob,
    query: &Query,
    key: &Cells,
    count: u64,
    finding: &Finding,
) -> Result<Vec<u8>, AllocError> {
    let shown = shown_key(alloc, key)?;
    let text = told(
        alloc,
        query,
        shown.as_str(),
        count,
        most_turns(job),
        finding,
    )?;
    Ok(shown_text(alloc, text.as_str())?.into_bytes())
}

/// The same as an object of JSON, on a line.
fn object_of(
    alloc: Global,
    query: &Query,
    key: &Cells,
    count: u64,
    finding: &Finding,
) -> Result<Vec<u8>, AllocError> {
    let mut line = object_line(alloc, query, key.as_slice(), count, finding)?;
    line.push(b'\n')?;
    Ok(line)
}

/// Which matches are looked for, in a partition of so many rows.
fn wanted(job: &WhyJob, count: u64) -> Wanted {
    let (first, last) = match job.row {
        Some(row) => (u64::from(row), u64::from(row)),
        None => (1, count),
    };
    Wanted {
        first,
        last,
        with_rows: true,
        most_turns: most_turns(job),
    }
}

/// How many turns the searches for a match may take.
fn most_turns(job: &WhyJob) -> u32 {
    job.most_turns.unwrap_or(MOST_TURNS)
}

/// How a partition's part of the job ended.
fn verdict_of(finding: &Finding) -> Verdict {
    match finding {
        Finding::Matched(_) => Verdict::Clean,
        Finding::Unmatched(_) | Finding::NoRow(_) => Verdict::Findings,
        Finding::GivenUp => Verdict::GivenUp,
    }
}

/// The worse of two verdicts.
fn worse(one: Option<Verdict>, other: Verdict) -> Verdict {
    match (one, other) {
        (Some(Verdict::GivenUp), _) | (_, Verdict::GivenUp) => Verdict::GivenUp,
        (Some(Verdict::Findings), _) | (_, Verdict::Findings) => Verdict::Findings,
        _ => Verdict::Clean,
    }
}
