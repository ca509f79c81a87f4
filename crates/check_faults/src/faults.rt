//! A command whose every read fails in turn, and every write; and one over ends that never fail.
ghost use Rattle.std.specs.Prelude.{◌≡◌, IfOk, Some, map};
ghost use Rattle.std.specs.String.{string_bytes};
ghost use Rattle.trace_lines.specs.Input.{ended, input_of};
ghost use Rattle.trace_run.specs.Report.{IsDone};
ghost use Rattle.command_words.specs.Job.{job_of};
ghost use Rattle.command_words.specs.declared.jobs.Job.TheVariants.{Solo};

use crate::call::Call;
use crate::ends::push_octets;
use crate::telling::push_told;
use pc_outside::{MemSink, MemSource, SureSink, SureSource};
use pepc::{Status, run_plain, run_words};
use std::alloc::{AllocError, Global};
use std::sync::Wait;
use std::thread::Threads;

// More than a run here writes.
const ROOM: usize = 0x20_0000;

// More calls than a run here makes.
const MOST_CALLS: u64 = 1_000;

/// How a run ended, and what it wrote.
#[derive(Drop)]
struct EndedRun {
    status: Status,
    written: Vec<u8>,
}

// A run of the words over this input, given and taken in pieces. The calls of these numbers fail.
fn run<R: Threads + Wait + Sync>(
    rt: &R,
    alloc: Global,
    words: &[String],
    octets: &[u8],
    piece: usize,
    failing_reads: &[u64],
    failing_writes: &[u64],
) -> Result<EndedRun, AllocError> {
    let octets = Vec::from_slice(alloc, octets)?;
    let mut source = MemSource::new(octets, piece.max(1), Vec::from_slice(alloc, failing_reads)?)?;
    let mut sink = MemSink::new(
        alloc,
        ROOM,
        piece.max(1),
        Vec::from_slice(alloc, failing_writes)?,
    )?;
    let status = run_words(rt, alloc, words, &mut source, &mut sink);
    Ok(EndedRun {
        status,
        written: Vec::from_slice(alloc, sink.written())?,
    })
}

// The lines that a newline ends.
fn whole_lines(octets: &[u8]) -> &[u8] {
    match octets.iter().rposition(|octet| *octet == b'\n') {
        Some(at) => octets.get(..=at).unwrap_or_default(),
        None => &[],
    }
}

// How many pieces of an audit's input are whole, each with the line behind it.
fn pieces_in(octets: &[u8]) -> usize {
    whole_lines(octets)
        .split(|octet| *octet == b'\n')
        .filter(|line| *line == b"TRACE".as_slice())
        .count()
}

// So many first lines.
fn first_lines(alloc: Global, octets: &[u8], count: usize) -> Result<Vec<u8>, AllocError> {
    let mut lines = Vec::new(alloc);
    for line in octets.split(|octet| *octet == b'\n').take(count) {
        lines.extend_from_slice(line)?;
        lines.push(b'\n')?;
    }
    Ok(lines)
}

// What is due where a read fails behind so many octets: of a trace the answer to its whole lines, of a capture that to
// all octets, of an audit, of planned moves and of a state nothing; of an audit in pieces what is said of each of those
// that `TRACE` ends.
fn due<R: Threads + Wait + Sync>(
    rt: &R,
    alloc: Global,
    row: &Call,
    words: &[String],
    input: &[u8],
    octets: usize,
) -> Result<Vec<u8>, AllocError> {
    let taken = input.get(..octets).unwrap_or(input);
    if row.word(4) == b"--along".as_slice() {
        let whole = run(rt, alloc, words, input, octets, &[], &[])?;
        return first_lines(alloc, &whole.written, pieces_in(taken));
    }
    let given = match row.word(3) {
        b"audit" | b"balance" | b"save" => return Ok(Vec::new(alloc)),
        b"import" => taken,
        _ => whole_lines(taken),
    };
    Ok(run(rt, alloc, words, given, octets, &[], &[])?.written)
}

// The command that a row names.
fn push_command(text: &mut String, row: &Call) -> Result<(), AllocError> {
    push_octets(row.word(3), text)
}

fn push_ended(text: &mut String, ended: &EndedRun) -> Result<(), AllocError> {
    push_told(text, ": status ", &ended.status.code())?;
    push_told(text, ", ", &ended.written.len())?;
    text.push_str(" octets")
}

/// `reads PIECE INPUT WORD..`: how the run ends where each read fails, and whether it wrote what is due, until no read
/// fails.
pub fn reads<R: Threads + Wait + Sync>(
    rt: &R,
    alloc: Global,
    row: &Call,
    input: &[u8],
    text: &mut String,
) -> Result<(), AllocError> {
    for failing in 0..MOST_CALLS {
        if !read_fails(rt, alloc, row, input, failing, text)? {
            return Ok(());
        }
    }
    text.push_str("each read fails\n")
}

// The same of one read; whether it fails.
fn read_fails<R: Threads + Wait + Sync>(
    rt: &R,
    alloc: Global,
    row: &Call,
    input: &[u8],
    failing: u64,
    text: &mut String,
) -> Result<bool, AllocError> {
    let words = row.texts(alloc, 3)?;
    let piece = row.number(1) as usize;
    let ended = run(rt, alloc, &words, input, piece, &[failing], &[])?;
    push_command(text, row)?;
    if ended.status != Status::ReadFault {
        push_told(text, ": no read ", &failing)?;
        push_ended(text, &ended)?;
        text.push('\n')?;
        return Ok(false);
    }
    let due = due(
        rt,
        alloc,
        row,
        &words,
        input,
        piece.saturating_mul(failing as usize),
    )?;
    push_told(text, ", read ", &failing)?;
    text.push_str(" fails")?;
    push_ended(text, &ended)?;
    let is_due = due.as_slice() == ended.written.as_slice();
    text.push_str(if is_due {
        ", as is due\n"
    } else {
        ", not as is due\n"
    })?;
    Ok(true)
}

/// `writes PIECE INPUT WORD..`: how the run ends where each write fails, and whether what it wrote is a prefix of what
/// it writes where none does, until no write fails.
pub fn writes<R: Threads + Wait + Sync>(
    rt: &R,
    alloc: Global,
    row: &Call,
    input: &[u8],
    text: &mut String,
) -> Result<(), AllocError> {
    let words = row.texts(alloc, 3)?;
    let piece = row.number(1) as usize;
    let whole = run(rt, alloc, &words, input, piece, &[], &[])?;
    for failing in 0..MOST_CALLS {
        if !write_fails(rt, alloc, row, input, &whole.written, failing, text)? {
            return Ok(());
        }
    }
    text.push_str("each write fails\n")
}

// The same of one write, against what is written where none fails; whether it fails.
fn write_fails<R: Threads + Wait + Sync>(
    rt: &R,
    alloc: Global,
    row: &Call,
    input: &[u8],
    whole: &[u8],
    failing: u64,
    text: &mut String,
) -> Result<bool, AllocError> {
    let words = row.texts(alloc, 3)?;
    let ended = run(
        rt,
        alloc,
        &words,
        input,
        row.number(1) as usize,
        &[],
        &[failing],
    )?;
    push_command(text, row)?;
    if ended.status != Status::WriteFault {
        push_told(text, ": no write ", &failing)?;
        push_ended(text, &ended)?;
        text.push('\n')?;
        return Ok(false);
    }
    push_told(text, ", write ", &failing)?;
    text.push_str(" fails")?;
    push_ended(text, &ended)?;
    let is_prefix = whole.starts_with(&ended.written);
    text.push_str(if is_prefix {
        ", a prefix\n"
    } else {
        ", no prefix\n"
    })?;
    Ok(true)
}

/// `runs PIECE READS WRITES INPUT WORD..`: the status and the text where these reads and writes fail.
pub fn runs<R: Threads + Wait + Sync>(
    rt: &R,
    alloc: Global,
    row: &Call,
    input: &[u8],
    text: &mut String,
) -> Result<(), AllocError> {
    let words = row.texts(alloc, 5)?;
    let reads = row.numbers(alloc, 2)?;
    let writes = row.numbers(alloc, 3)?;
    let given = if input.is_empty() {
        row.octets(alloc, 4)?
    } else {
        Vec::from_slice(alloc, input)?
    };
    let piece = row.number(1) as usize;
    let ended = run(rt, alloc, &words, &given, piece, &reads, &writes)?;
    push_status(text, ended.status)?;
    push_octets(&ended.written, text)?;
    match ended.written.last() {
        None | Some(b'\n') => Ok(()),
        Some(_) => text.push('\n'),
    }
}

fn push_status(text: &mut String, status: Status) -> Result<(), AllocError> {
    push_told(text, "status ", &status.code())?;
    text.push('\n')
}

/// A run over a source and a sink whose counts of faults never rise. By the contract of `run_plain` alone a trace that
/// stops at its end has its whole report, or memory ran out.
pub fn surely(alloc: Global, words: &[String], octets: Vec<u8>) -> Result<Status, AllocError>
    ensures { job_of (map string_bytes words.now) ≡ Some Solo → (input_of octets.items).stop ≡ ended
        → IfOk result IsDone }
{
    let mut source = SureSource::new(octets)?;
    let mut sink = SureSink::new(alloc, 0)?;
    Ok(run_plain(alloc, words, &mut source, &mut sink))
}

/// `surely INPUT WORD..`: the status of such a run.
pub fn sure_status(
    alloc: Global,
    row: &Call,
    input: &[u8],
    text: &mut String,
) -> Result<(), AllocError> {
    let words = row.texts(alloc, 2)?;
    let status = surely(alloc, words.as_slice(), Vec::from_slice(alloc, input)?)?;
    push_status(text, status)
}
