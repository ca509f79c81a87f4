//! What is told of a break, and its text.
ghost use Rattle.std.specs.Prelude.{◌≡◌, ◌++◌, ◌∷◌, [], None, codes, false, IfOk, OnOk};
ghost use Rattle.report_lines.specs.declared.entry.Entry.TheVariants as of_entry;
ghost use Rattle.report_lines.specs.declared.entry.LineEntry.TheVariants as of_line;
ghost use Rattle.audit_core.specs.Telling.{at_line, break_text, dash, field, misses_said, place_text, said_of, slot_in};
ghost use Rattle.audit_core.specs.Telling.{stands_said, tells_said, text_said};
ghost use Rattle.audit_core.specs.Refuting.{at_report};

use crate::NoMemory;
use crate::report::line_of;
use pc_base::{Effect, Octets, Reply, Slot, Verdict};
use report_lines::{
    ChargeEntry, Entry, LineEntry, push_answer, push_effect, push_judged, push_open, push_row,
    push_text,
};
use std::alloc::Global;
use text_fields::Text;

/// Where a sentence is broken: the line of the trace and the slot, where there is one; the text of the entry as it
/// stands, and of what was due, each `-` where there is none.
#[derive(Drop)]
pub struct Break {
    pub line: Option<u64>,
    pub slot: Option<Slot>,
    pub entry: Octets,
    pub due: Octets,
}

// An entry as it stands, or as it has to be: its line and slot, where it names one, and its text.
#[derive(Drop)]
pub(crate) struct SaidEntry {
    pub line: Option<u64>,
    pub slot: Option<Slot>,
    pub text: Octets,
}

fn slot_of_line(entry: &LineEntry) -> Option<Slot>
    ensures { result ≡ slot_in entry.now }
{
    match entry {
        LineEntry::N(_) => None,
        LineEntry::C(answered) => Some(answered.slot),
        LineEntry::P(judged) => Some(judged.slot),
        LineEntry::F(refused) => Some(refused.slot),
    }
}

/// The entry of a line.
pub(crate) fn line_said(alloc: Global, entry: &LineEntry) -> Result<SaidEntry, NoMemory>
    ensures { IfOk result (λ said. said ≡ said_of (of_entry.Line entry.now)) }
{
    let mut out = Text::new(alloc);
    push_text(&mut out, &Entry::Line(entry.try_clone()?), true)?;
    Ok(SaidEntry {
        line: Some(line_of(entry)),
        slot: slot_of_line(entry),
        text: Octets::of(out.into_octets()),
    })
}

/// The entry of a command with this reply.
pub(crate) fn answer_said(
    alloc: Global,
    line: u64,
    slot: Slot,
    number: u64,
    reply: &Reply,
) -> Result<SaidEntry, NoMemory>
    ensures { IfOk result (λ said. said ≡ said_of (of_entry.Line (of_line.C (record {
      line = line;
      slot = slot;
      number = number;
      reply = reply.now;
    })))) }
{
    let mut out = Text::new(alloc);
    push_answer(&mut out, line, slot, number, reply)?;
    Ok(SaidEntry {
        line: Some(line),
        slot: Some(slot),
        text: Octets::of(out.into_octets()),
    })
}

/// The entry of a packet with this verdict, without a place.
pub(crate) fn judgement_said(
    alloc: Global,
    line: u64,
    slot: Slot,
    number: u64,
    commands: u64,
    verdict: &Verdict,
) -> Result<SaidEntry, NoMemory>
    ensures { IfOk result (λ said. said ≡ said_of (of_entry.Line (of_line.P (record {
      line = line;
      slot = slot;
      number = number;
      commands = commands;
      verdict = verdict.now;
      place = None;
      parked = false;
    })))) }
{
    let mut out = Text::new(alloc);
    push_judged(&mut out, line, slot, number, commands, verdict)?;
    Ok(SaidEntry {
        line: Some(line),
        slot: Some(slot),
        text: Octets::of(out.into_octets()),
    })
}

/// The entry of an effect.
pub(crate) fn effect_said(
    alloc: Global,
    slot: Slot,
    command: u64,
    effect: &Effect,
) -> Result<SaidEntry, NoMemory>
    ensures { IfOk result (λ said. said
        ≡ said_of (of_entry.Effect (record { slot = slot; command = command; effect = effect.now }))) }
{
    let mut out = Text::new(alloc);
    push_effect(&mut out, slot, command, effect)?;
    Ok(SaidEntry {
        line: None,
        slot: Some(slot),
        text: Octets::of(out.into_octets()),
    })
}

/// The entry of a charge.
pub(crate) fn charge_said(alloc: Global, charge: &ChargeEntry) -> Result<SaidEntry, NoMemory>
    ensures { IfOk result (λ said. said ≡ said_of (of_entry.Charge charge.now)) }
{
    let mut out = Text::new(alloc);
    let slot = match charge {
        ChargeEntry::R { slot, row } => {
            push_row(&mut out, *slot, row)?;
            *slot
        }
        ChargeEntry::O { slot, counters } => {
            push_open(&mut out, *slot, counters)?;
            *slot
        }
    };
    Ok(SaidEntry {
        line: None,
        slot: Some(slot),
        text: Octets::of(out.into_octets()),
    })
}

/// A word.
pub(crate) fn word(alloc: Global, word: &[u8]) -> Result<Octets, NoMemory>
    ensures { IfOk result (λ text. text ≡ word.now) }
{
    let mut out = Text::new(alloc);
    out.extend_from_slice(word)?;
    Ok(Octets::of(out.into_octets()))
}

/// What stands for no entry.
pub(crate) fn dash(alloc: Global) -> Result<Octets, NoMemory>
    ensures { IfOk result (λ text. text ≡ dash) }
{
    word(alloc, b"-")
}

fn text_of(alloc: Global, said: Option<SaidEntry>) -> Result<Octets, NoMemory>
    ensures { IfOk result (λ text. text ≡ text_said said) }
{
    match said {
        Some(said) => Ok(said.text),
        None => dash(alloc),
    }
}

// A break at an entry that stands.
fn stands(alloc: Global, told: SaidEntry, due: Option<SaidEntry>) -> Result<Break, NoMemory>
    ensures { IfOk result (λ found. found ≡ stands_said told due) }
{
    Ok(Break {
        line: told.line,
        slot: told.slot,
        entry: told.text,
        due: text_of(alloc, due)?,
    })
}

// A break where an entry is missing, or nothing can be told.
fn misses(alloc: Global, due: Option<SaidEntry>) -> Result<Break, NoMemory>
    ensures { IfOk result (λ found. found ≡ misses_said due) }
{
    let entry = dash(alloc)?;
    match due {
        Some(due) => Ok(Break {
            line: due.line,
            slot: due.slot,
            entry,
            due: due.text,
        }),
        None => Ok(Break {
            line: None,
            slot: None,
            entry,
            due: dash(alloc)?,
        }),
    }
}

/// A break at an entry, or where there should be one.
pub(crate) fn tells(
    alloc: Global,
    told: Option<SaidEntry>,
    due: Option<SaidEntry>,
) -> Result<Break, NoMemory>
    ensures { IfOk result (λ found. found ≡ tells_said told due) }
{
    match told {
        Some(told) => stands(alloc, told, due),
        None => misses(alloc, due),
    }
}

/// A break at the entry of a line, where this was due.
pub(crate) fn at_line(alloc: Global, entry: &LineEntry, due: Octets) -> Result<Break, NoMemory>
    ensures { IfOk result (λ found. found ≡ at_line entry.now due) }
{
    let said = line_said(alloc, entry)?;
    Ok(Break {
        line: said.line,
        slot: said.slot,
        entry: said.text,
        due,
    })
}

fn push_field(out: &mut Text, number: Option<u64>) -> Result<(), NoMemory>
    ensures { OnOk result (out.new ≡ out.old ++ field number) }
{
    match number {
        Some(number) => out.push_number(number),
        None => out.extend_from_slice(b" -"),
    }
}

fn number_of(slot: Option<Slot>) -> Option<u64>
    ensures { result ≡ slot }
{
    match slot {
        Some(slot) => Some(u64::from(slot.0)),
        None => None,
    }
}

fn push_place(out: &mut Text, line: Option<u64>, slot: Option<Slot>) -> Result<(), NoMemory>
    ensures { OnOk result (out.new ≡ out.old ++ place_text line slot) }
{
    out.extend_from_slice(b"at")?;
    push_field(out, line)?;
    out.extend_from_slice(b" slot")?;
    push_field(out, number_of(slot))
}

fn push_entry(out: &mut Text, entry: &Octets) -> Result<(), NoMemory>
    ensures { OnOk result (out.new ≡ out.old ++ (codes ": " ++ entry.now)) }
{
    out.push_parts(b": ", entry.as_slice())
}

fn push_due(out: &mut Text, due: &Octets) -> Result<(), NoMemory>
    ensures { OnOk result (out.new ≡ out.old ++ (codes "; due " ++ (due.now ++ 10 ∷ []))) }
{
    out.push_parts(b"; due ", due.as_slice())?;
    out.push(b'\n')
}

/// Appends the line that tells a break: `at LINE slot SLOT: ENTRY; due DUE`.
pub fn push_break(out: &mut Text, told: &Break) -> Result<(), NoMemory>
    ensures { OnOk result (out.new ≡ out.old ++ break_text told.now) }
{
    push_place(out, told.line, told.slot)?;
    push_entry(out, &told.entry)?;
    push_due(out, &told.due)
}

/// The break of a report whose line of this number is no entry.
pub(crate) fn at_report(alloc: Global, number: u64) -> Result<Break, NoMemory>
    ensures { IfOk result (λ found. found ≡ at_report number) }
{
    let mut entry = Text::new(alloc);
    entry.extend_from_slice(b"line")?;
    entry.push_number(number)?;
    entry.extend_from_slice(b" of the report")?;
    Ok(Break {
        line: None,
        slot: None,
        entry: Octets::of(entry.into_octets()),
        due: dash(alloc)?,
    })
}
