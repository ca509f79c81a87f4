//! The first sentence, of an epoch: each line has one entry, in its words.

ghost use Rattle.std.specs.Prelude.{◌≡◌, ℕ, ◌+◌, ◌<◌, ◌^◌, ◌++◌, ◌∷◌, [], List, length, IfOk};
ghost use Rattle.report_lines.specs.declared.entry.LineEntry.{LineEntry};
ghost use Rattle.audit_core.specs.Answering.{answers, is_note, is_refusal};
ghost use Rattle.audit_core.specs.AnswerPlaces.{asked, missing, note_due};
ghost use Rattle.audit_core.specs.Entries.{line_entries, line_of};
ghost use Rattle.slot_execution.specs.Kept.{meaning_in};
ghost use Rattle.audit_core.specs.Kept.{ArePlaced, meanings_in};
ghost use Rattle.audit_core.specs.Matched.{AreFound, IsFound, Matches, entries_stood};

use crate::NoMemory;
use crate::report::{Stood, line_of};
use crate::telling::{Break, at_line, dash, word};
use crate::told_line::{ToldLine, slot_meant};
use pc_base::{Octets, Slot};
use report_lines::{Entry, LineEntry, Refusal, push_note};
use slot_execution::KeptMeaning;
use std::alloc::Global;
use text_fields::Text;

/// The lines of an epoch with their entries; or the first that isn't answered, or is answered again.
#[derive(Drop)]
pub(crate) enum Matched<'a> {
    All(Vec<ToldLine<'a>>),
    Broken(Break),
}

// The first two entries that answer a line, by its number alone.
#[derive(Clone, Copy)]
struct FoundEntry<'a> {
    first: Option<&'a LineEntry>,
    second: Option<&'a LineEntry>,
}

fn is_note(number: u64, text: &Octets, entry: &LineEntry) -> bool
    ensures { result ≡ is_note number text.now entry.now }
{
    match entry {
        LineEntry::N(noted) => noted.line == number && noted.note == *text,
        _ => false,
    }
}

fn is_refusal(number: u64, slot: Slot, packet: bool, refused: &Refusal) -> bool
    ensures { result ≡ is_refusal number slot packet refused.now }
{
    refused.line == number && refused.slot == slot && refused.packet == packet
}

// Whether it is an entry of the line of this number.
fn answers(number: u64, meant: &KeptMeaning, entry: &LineEntry) -> bool
    ensures { (octets : List ℕ) → result ≡ answers number (meaning_in octets meant.now) entry.now }
{
    match meant {
        KeptMeaning::Note(text) => is_note(number, text, entry),
        KeptMeaning::Move { text, .. } => is_note(number, text, entry),
        KeptMeaning::Command { slot, .. } => match entry {
            LineEntry::C(answered) => answered.line == number && answered.slot == *slot,
            LineEntry::F(refused) => is_refusal(number, *slot, false, refused),
            _ => false,
        },
        KeptMeaning::Packet { slot, .. } => match entry {
            LineEntry::P(judged) => judged.line == number && judged.slot == *slot,
            LineEntry::F(refused) => is_refusal(number, *slot, true, refused),
            _ => false,
        },
    }
}

fn note_due(alloc: Global, line: u64, note: &Octets) -> Result<Octets, NoMemory>
    ensures { IfOk result (λ text. text ≡ note_due line note.now) }
{
    let mut out = Text::new(alloc);
    push_note(&mut out, line, note.as_slice())?;
    Ok(Octets::of(out.into_octets()))
}

// What a line asks for: the entry of its note, or an answer or a refusal.
fn asked(alloc: Global, line: u64, meant: &KeptMeaning) -> Result<Octets, NoMemory>
    ensures { (octets : List ℕ) → IfOk result (λ text. text ≡ asked line (meaning_in octets meant.now)) }
{
    match meant {
        KeptMeaning::Command { .. } => word(alloc, b"C or F"),
        KeptMeaning::Packet { .. } => word(alloc, b"P or F"),
        KeptMeaning::Move { text, .. } => note_due(alloc, line, text),
        KeptMeaning::Note(text) => note_due(alloc, line, text),
    }
}

// A line that has no entry.
fn missing(alloc: Global, line: u64, meant: &KeptMeaning) -> Result<Break, NoMemory>
    ensures { (octets : List ℕ) → IfOk result (λ found. found ≡ missing line (meaning_in octets meant.now)) }
{
    Ok(Break {
        line: Some(line),
        slot: slot_meant(meant),
        entry: dash(alloc)?,
        due: asked(alloc, line, meant)?,
    })
}

// Each line's first two entries, of so many lines from the one of this number on.
fn found_of<'a>(
    alloc: Global,
    first: u64,
    count: usize,
    entries: &'a [Stood],
) -> Result<Vec<FoundEntry<'a>>, NoMemory>
    ensures { IfOk result (λ all. AreFound first (line_entries (entries_stood entries.now)) all.items count) }
{
    let none = FoundEntry {
        first: None,
        second: None,
    };
    let mut all = vec![in alloc; none; count]?;
    for stood in entries {
        if let Entry::Line(entry) = &stood.entry {
            note_found(&mut all, first, entry);
        }
    }
    Ok(all)
}

fn note_found<'a>(all: &mut Vec<FoundEntry<'a>>, first: u64, entry: &'a LineEntry)
    ensures { (before : List LineEntry) (count : ℕ) → AreFound first before all.old.items count
        → AreFound first (before ++ entry.now ∷ []) all.new.items count }
{
    let line = line_of(entry);
    if line < first {
        return;
    }
    let place = line - first;
    if place >= all.len() as u64 {
        return;
    }
    let own = all[place as usize];
    all[place as usize] = with_entry(own, entry);
}

// With one entry of the line more.
fn with_entry<'a>(own: FoundEntry<'a>, entry: &'a LineEntry) -> FoundEntry<'a>
    ensures { (n : ℕ) (before : List LineEntry) → line_of entry.now ≡ n → IsFound n before own.entry
        → IsFound n (before ++ entry.now ∷ []) result }
{
    match (own.first, own.second) {
        (None, _) => FoundEntry {
            first: Some(entry),
            second: None,
        },
        (Some(_), None) => FoundEntry {
            second: Some(entry),
            ..own
        },
        (Some(_), Some(_)) => own,
    }
}

/// The lines of an epoch, the first of which has this number, with the entries that belong to it.
pub(crate) fn match_lines<'a>(
    alloc: Global,
    first: u64,
    lines: &'a [KeptMeaning],
    octets: &'a [u8],
    entries: &'a [Stood],
) -> Result<Matched<'a>, NoMemory>
    requires few { first + length lines.now < 2 ^ 63 }
    requires placed { ArePlaced octets.now lines.now }
    ensures { IfOk result (Matches first (meanings_in octets.now lines.now)
        (line_entries (entries_stood entries.now))) }
{
    let found = found_of(alloc, first, lines.len(), entries)?;
    let mut told = Vec::with_capacity(alloc, lines.len())?;
    let mut again: Option<&'a LineEntry> = None;
    for (i, meant) in lines.iter().enumerate() {
        if let Some(entry) = again {
            return Ok(Matched::Broken(at_line(alloc, entry, dash(alloc)?)?));
        }
        let number = first + i as u64;
        let own = found[i];
        let Some(entry) = own.first else {
            return Ok(Matched::Broken(missing(alloc, number, meant)?));
        };
        if !answers(number, meant, entry) {
            let due = asked(alloc, number, meant)?;
            return Ok(Matched::Broken(at_line(alloc, entry, due)?));
        }
        told.push(ToldLine {
            meant,
            octets,
            entry,
        })?;
        again = own.second;
    }
    match again {
        Some(entry) => Ok(Matched::Broken(at_line(alloc, entry, dash(alloc)?)?)),
        None => Ok(Matched::All(told)),
    }
}
