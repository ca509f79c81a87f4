//! The report of what came of a trace's commands and packets, and its entries.
use crate::meaning::meant_by;
use control_half::CommandDone;
use counter_half::{PacketDone, VersionDone};
use demux::Meant;
use pc_base::Slot;
use report_lines::{
    Entry, push_answer, push_effect, push_note, push_open, push_packet, push_row, read,
};
use split_record::{Finished, NoMemory};
use std::alloc::Global;
use subscriber::Subscriber;
use text_fields::Text;
use trace_lines::TraceLine;

const SLOT: Slot = Slot(0);

fn end_line(text: &mut Text) -> Result<(), NoMemory> {
    text.push(b'\n')
}

fn push_commands(text: &mut Text, line: u64, all: &[CommandDone]) -> Result<(), NoMemory> {
    for done in all {
        if done.line == line {
            push_answer(text, line, SLOT, done.number, &done.reply)?;
            end_line(text)?;
        }
    }
    Ok(())
}

fn push_packets(text: &mut Text, line: u64, all: &[PacketDone<'_>]) -> Result<(), NoMemory> {
    for done in all {
        if done.line == line {
            push_packet(
                text,
                line,
                SLOT,
                done.number,
                done.commands,
                done.verdict.lent(),
            )?;
            end_line(text)?;
        }
    }
    Ok(())
}

// The entry of a line.
fn push_line(
    alloc: Global,
    text: &mut Text,
    line: u64,
    meant: &Meant<'_>,
    finished: &Finished<'_>,
) -> Result<(), NoMemory> {
    match meant {
        Meant::Command { .. } => push_commands(text, line, finished.commands.as_slice()),
        Meant::Packet { .. } => push_packets(text, line, finished.packets.as_slice()),
        Meant::Move { text: note, .. } | Meant::Note(note) => {
            push_note(text, line, note.as_slice())?;
            end_line(text)
        }
    }
}

fn push_lines(
    alloc: Global,
    text: &mut Text,
    lines: &[TraceLine],
    finished: &Finished<'_>,
) -> Result<(), NoMemory> {
    let mut line = 0u64;
    for meant in &meant_by(alloc, lines)? {
        line = line.saturating_add(1);
        push_line(alloc, text, line, meant, finished)?;
    }
    Ok(())
}

fn push_effects(text: &mut Text, versions: &[VersionDone]) -> Result<(), NoMemory> {
    for done in versions {
        for effect in done.effects.as_slice() {
            push_effect(text, SLOT, done.command, effect)?;
            end_line(text)?;
        }
    }
    Ok(())
}

// The open counters, by the bearers' indices.
fn push_opens(text: &mut Text, record: &Subscriber) -> Result<(), NoMemory> {
    for bearer in record.version.bearers() {
        for counters in record.still_open() {
            if counters.life == bearer.life {
                push_open(text, SLOT, counters)?;
                end_line(text)?;
            }
        }
    }
    Ok(())
}

/// The report: the entries of the lines, the effects, the charging records and the open counters.
pub fn report_of(
    alloc: Global,
    lines: &[TraceLine],
    finished: &Finished<'_>,
) -> Result<Vec<u8>, NoMemory> {
    let mut text = Text::new(alloc);
    push_lines(alloc, &mut text, lines, finished)?;
    push_effects(&mut text, finished.effects.as_slice())?;
    for row in finished.rows.as_slice() {
        push_row(&mut text, SLOT, row)?;
        end_line(&mut text)?;
    }
    push_opens(&mut text, &finished.record)?;
    Ok(text.into_octets())
}

/// The entries of a report.
pub fn entries_of(alloc: Global, report: &[u8]) -> Result<Vec<Entry>, NoMemory> {
    let mut entries = Vec::new(alloc);
    for line in report.split(|octet| *octet == b'\n') {
        if let Some(entry) = read(alloc, line)? {
            entries.push(entry)?;
        }
    }
    Ok(entries)
}
