//! Command lines, draws, generated lines, counts and statuses.
use crate::call::Call;
use crate::ends::push_octets;
use crate::telling::push_told;
use command_words::{AskedTurns, Job, Lanes, TurnList, job};
use pepc::Status;
use report_lines::{EntryCounts, push_summary};
use std::alloc::{AllocError, Global};
use trace_lines::TraceLine;
use trace_maker::{Draws, Maker, made_line};

/// `words WORD..`: the job that the words ask for.
pub fn words(alloc: Global, row: &Call, text: &mut String) -> Result<(), AllocError> {
    let words = row.texts(alloc, 1)?;
    match job(alloc, words.as_slice())? {
        None => text.push_str("none")?,
        Some(asked) => push_job(asked, text)?,
    }
    text.push('\n')
}

fn push_job(asked: Job, text: &mut String) -> Result<(), AllocError> {
    match asked {
        Job::Solo => text.push_str("solo"),
        Job::Drive {
            lanes,
            turns,
            places,
        } => {
            push_lanes(text, "drive: ", lanes)?;
            push_turns(turns, text)?;
            push_told(text, ", places ", &places)
        }
        Job::Replay {
            lanes,
            patience,
            linger,
            places,
        } => {
            push_lanes(text, "replay: ", lanes)?;
            push_told(text, ", patience ", &patience)?;
            push_told(text, ", linger ", &linger)?;
            push_told(text, ", places ", &places)
        }
        Job::Import => text.push_str("import"),
        Job::Export => text.push_str("export"),
        Job::Save => text.push_str("save"),
        Job::Resume => text.push_str("resume"),
        Job::Make {
            seed,
            subs,
            lines,
            summary,
        } => push_make(text, seed, [subs, lines], summary),
        Job::Audit {
            solo,
            slices,
            room,
            lane,
            why,
        } => push_audit(text, "audit", solo, Lanes { slices, room, lane }, why),
        Job::Along {
            solo,
            slices,
            room,
            lane,
            why,
        } => push_audit(text, "audit along", solo, Lanes { slices, room, lane }, why),
        Job::Balance { slices, most } => {
            push_told(text, "balance: ", &slices)?;
            push_told(text, " slices, at most ", &most)
        }
    }
}

fn push_make(
    text: &mut String,
    seed: u64,
    counts: [u32; 2],
    summary: bool,
) -> Result<(), AllocError> {
    push_told(text, "make: seed ", &seed)?;
    push_told(text, ", ", &counts[0])?;
    push_told(text, " subscribers, ", &counts[1])?;
    push_told(text, " lines, summary ", &summary)
}

fn push_lanes(text: &mut String, command: &str, lanes: Lanes) -> Result<(), AllocError> {
    push_told(text, command, &lanes.slices)?;
    push_told(text, " slices, room ", &lanes.room)?;
    push_told(text, ", lane ", &lanes.lane)
}

fn push_audit(
    text: &mut String,
    command: &str,
    solo: bool,
    lanes: Lanes,
    why: bool,
) -> Result<(), AllocError> {
    text.push_str(command)?;
    push_told(text, ": solo ", &solo)?;
    push_lanes(text, ", ", lanes)?;
    push_told(text, ", why ", &why)
}

fn push_turns(turns: AskedTurns, text: &mut String) -> Result<(), AllocError> {
    match turns {
        AskedTurns::NoTurns => text.push_str(", no turns"),
        AskedTurns::Listed(list) => push_list(list, text),
        AskedTurns::Drawn { seed, per } => {
            push_told(text, ", ", &per)?;
            push_told(text, " turns drawn from ", &seed)
        }
    }
}

fn push_list(list: TurnList, text: &mut String) -> Result<(), AllocError> {
    text.push_str(", turns")?;
    for turn in list.into_vec() {
        push_told(text, " ", &turn)?;
    }
    Ok(())
}

/// `draws SEED`: the first three draws below 2^31 − 1.
pub fn draws(row: &Call, text: &mut String) -> Result<(), AllocError> {
    let mut draws = Draws::new(row.number(1));
    for _ in 0..3 {
        let number = draws.draw(0x7fff_ffff);
        push_told(text, "", &number)?;
        text.push('\n')?;
    }
    Ok(())
}

/// `made SEED SUBS LINES`: the lines that are made one by one, until none is and none is again.
pub fn made(alloc: Global, row: &Call, text: &mut String) -> Result<(), AllocError> {
    let subs = (row.number(2) % 65_533) as u32;
    let lines = (row.number(3) % 100_001) as u32;
    let mut maker = Maker::new(row.number(1), subs.max(1), lines);
    for _ in 0..100 {
        let Some(line) = made_line(alloc, &mut maker)? else {
            let none = made_line(alloc, &mut maker)?.is_none();
            return text.push_str(if none {
                "none, and none again\n"
            } else {
                "none, and one again\n"
            });
        };
        push_made(alloc, &line, text)?;
    }
    text.push_str("and more\n")
}

fn push_made(alloc: Global, line: &TraceLine, text: &mut String) -> Result<(), AllocError> {
    push_told(text, "", &line.number)?;
    text.push_str(": ")?;
    let octets = trace_lines::text(alloc, line)?;
    push_octets(octets.as_slice(), text)?;
    text.push('\n')
}

/// `counts LINES ENTRIES`: the summary of a trace of so many lines whose report is these entries and two empty lines.
pub fn counts(
    alloc: Global,
    row: &Call,
    entries: &[u8],
    text: &mut String,
) -> Result<(), AllocError> {
    let mut counts = EntryCounts::new();
    for line in entries.split(|octet| *octet == b'\n') {
        counts.add(line);
    }
    counts.add(b"\n");
    let mut summary = Vec::new(alloc);
    push_summary(&mut summary, row.number(1), &counts)?;
    push_octets(&summary, text)
}

/// `statuses`: the number of each, and its line on standard error, as which it prints.
pub fn statuses(text: &mut String) -> Result<(), AllocError> {
    let all = [
        Status::Ok,
        Status::Usage,
        Status::ReadFault,
        Status::WriteFault,
        Status::NoMemory,
        Status::BadLine,
        Status::LineLong,
        Status::TooLong,
        Status::Refuted,
        Status::BadCapture,
        Status::BadState,
        Status::BadReport,
    ];
    for status in all {
        push_told(text, "", &status.code())?;
        push_told(text, " ", &status)?;
        text.push('\n')?;
    }
    Ok(())
}
