//! What is printed of an order: its report, and what an audit finds of it.
ghost use Rattle.audit_core.specs.Setups.{IsSetup};

use crate::bench::{ROOM, SLICES};
use crate::report::{entries_of, report_of};
use audit_core::{Audited, Setup, audit};
use pc_outside::{SureSink, SureSource};
use report_lines::{Entry, LineEntry, push_text};
use split_record::{Finished, NoMemory};
use std::alloc::Global;
use text_fields::Text;
use trace_lines::{TraceLine, push_text as push_line};

// What an audit finds is no longer.
const FINDING_LEN: usize = 16;

// A gateway of slices.
fn setup() -> Setup
    ensures { IsSetup result }
{
    Setup {
        solo: false,
        slices: SLICES,
        room: ROOM,
        lane: 16,
    }
}

// What an audit finds of entries.
fn push_finding(
    alloc: Global,
    text: &mut Text,
    lines: &[TraceLine],
    entries: &[Entry],
) -> Result<(), NoMemory> {
    let mut source = SureSource::new(input_of(alloc, lines, entries)?)?;
    let mut sink = SureSink::new(alloc, FINDING_LEN)?;
    match audit(alloc, &setup(), false, &mut source, &mut sink) {
        Audited::NoMemory => return Err(NoMemory),
        _ => {}
    }
    let written = sink.written();
    text.push(b' ')?;
    text.extend_from_slice(written.strip_suffix(b"\n").unwrap_or(written))
}

// What an audit reads: the lines of a trace, and entries.
fn input_of(alloc: Global, lines: &[TraceLine], entries: &[Entry]) -> Result<Vec<u8>, NoMemory> {
    let mut input = Text::new(alloc);
    for line in lines {
        push_line(&mut input, line)?;
        input.push(b'\n')?;
    }
    input.extend_from_slice(b"REPORT\n")?;
    for entry in entries {
        push_text(&mut input, entry, true)?;
        input.push(b'\n')?;
    }
    Ok(input.into_octets())
}

// The first packet tells one command more.
fn raise_first(entries: &mut Vec<Entry>) {
    for entry in entries.iter_mut() {
        if let Entry::Line(LineEntry::P(judged)) = entry {
            judged.commands = judged.commands.saturating_add(1);
            return;
        }
    }
}

// What an audit finds of a report, and of one whose first packet tells a command more.
fn push_own(
    alloc: Global,
    text: &mut Text,
    lines: &[TraceLine],
    report: &[u8],
) -> Result<(), NoMemory> {
    let mut entries = entries_of(alloc, report)?;
    push_finding(alloc, text, lines, &entries)?;
    raise_first(&mut entries);
    text.extend_from_slice(b"; raised:")?;
    push_finding(alloc, text, lines, &entries)
}

// And of one without its last entry.
fn push_cut(
    alloc: Global,
    text: &mut Text,
    lines: &[TraceLine],
    report: &[u8],
) -> Result<(), NoMemory> {
    let mut entries = entries_of(alloc, report)?;
    let _ = entries.pop();
    text.extend_from_slice(b"; cut:")?;
    push_finding(alloc, text, lines, &entries)?;
    text.push(b'\n')?;
    Ok(())
}

fn push_counts(alloc: Global, text: &mut Text, finished: &Finished<'_>) -> Result<(), NoMemory> {
    let commands = format!(in alloc; "{}", finished.record.commands())?;
    text.extend_from_slice(commands.as_bytes())?;
    text.extend_from_slice(b" commands,")?;
    text.push_number(finished.record.packets)?;
    text.extend_from_slice(b" packets, behind")?;
    for done in finished.packets.as_slice() {
        text.push_number(done.commands)?;
    }
    text.extend_from_slice(b":")
}

fn push_head(text: &mut Text, name: &str, order: &str) -> Result<(), NoMemory> {
    text.extend_from_slice(name.as_bytes())?;
    text.push(b' ')?;
    text.extend_from_slice(order.as_bytes())?;
    text.push(b'\n')?;
    Ok(())
}

/// An order's report; how many commands and packets the record has behind it, and how many commands each packet has
/// before it; and what an audit finds of the report, of one whose first packet tells a command more, and of one
/// without its last entry.
pub fn told(
    alloc: Global,
    name: &str,
    order: &str,
    lines: &[TraceLine],
    finished: &Finished<'_>,
) -> Result<Text, NoMemory> {
    let report = report_of(alloc, lines, finished)?;
    let mut text = Text::new(alloc);
    push_head(&mut text, name, order)?;
    text.extend_from_slice(&report)?;
    push_counts(alloc, &mut text, finished)?;
    push_own(alloc, &mut text, lines, &report)?;
    push_cut(alloc, &mut text, lines, &report)?;
    Ok(text)
}
