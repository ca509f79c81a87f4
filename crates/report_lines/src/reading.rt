//! The entry that a text is.
ghost use Rattle.std.specs.Prelude.{◌≡◌, Some, Ok, IfOk, IfSome, alloc_error};
ghost use Rattle.wire_octets.specs.Memory.{OrNoMemory};
ghost use Rattle.text_fields.specs.Fields.{space, pieces_left};
ghost use Rattle.report_lines.specs.declared.entry.Entry.{Entry};
ghost use Rattle.report_lines.specs.Ranges.{IsEntry};
ghost use Rattle.report_lines.specs.Text.{entry_text};
ghost use Rattle.report_lines.specs.Reading.{Gives, next, outcome_of, is_printable};
ghost use Rattle.report_lines.specs.Reading.{is_note, note_of, head_of, answered_of};
ghost use Rattle.report_lines.specs.Reading.{judged_of, marker_of, settlement_of, refusal_of};
ghost use Rattle.report_lines.specs.Reading.{slot_row, slot_open, entry_of};

use crate::charges::{read_open, read_row};
use crate::fields::{next_address, next_message, next_number, next_octets, next_slot};
use crate::packets::{next_fate, next_verdict, read_place};
use crate::words::{read_outcome, read_refused};
use crate::{
    ChargeEntry, CommandReply, EffectEntry, Entry, Judgement, LineEntry, NoMemory, Note, Refusal,
};
use charging_book::{ChargeRow, Open};
use pc_base::{Effect, Octets, Outcome, Reply, Slot};
use std::alloc::Global;
use text_fields::{cut, next_piece};

/// The entry that the line is, without its newline; None exactly where it is none.
pub fn read(alloc: Global, line: &[u8]) -> Result<Option<Entry>, NoMemory>
    ensures found { IfOk result (λ read. IfSome read (λ entry. line.now ≡ entry_text entry)) }
    ensures ranges { IfOk result (λ read. IfSome read IsEntry) }
    ensures only { (entry : Entry) → IsEntry entry → line.now ≡ entry_text entry
        → OrNoMemory result (Ok (Some entry)) alloc_error }
{
    read_entry(alloc, line)
}

fn read_entry(alloc: Global, line: &[u8]) -> Result<Option<Entry>, NoMemory>
    ensures { IfOk result (λ read. read ≡ entry_of line.now) }
{
    let (letter, left) = cut(b' ', line);
    if letter == b"N".as_slice() {
        match read_note(alloc, left)? {
            Some(note) => Ok(Some(Entry::Line(LineEntry::N(note)))),
            None => Ok(None),
        }
    } else if letter == b"C".as_slice() {
        match read_answer(alloc, left)? {
            Some(answer) => Ok(Some(Entry::Line(LineEntry::C(answer)))),
            None => Ok(None),
        }
    } else if letter == b"P".as_slice() {
        match read_judgement(alloc, left)? {
            Some(judgement) => Ok(Some(Entry::Line(LineEntry::P(judgement)))),
            None => Ok(None),
        }
    } else if letter == b"F".as_slice() {
        match read_refusal(left) {
            Some(refusal) => Ok(Some(Entry::Line(LineEntry::F(refusal)))),
            None => Ok(None),
        }
    } else if letter == b"M".as_slice() {
        match read_marker(alloc, left)? {
            Some(marker) => Ok(Some(Entry::Effect(marker))),
            None => Ok(None),
        }
    } else if letter == b"H".as_slice() {
        match read_settlement(alloc, left)? {
            Some(settlement) => Ok(Some(Entry::Effect(settlement))),
            None => Ok(None),
        }
    } else if letter == b"R".as_slice() {
        match read_charge_row(left) {
            Some((slot, row)) => Ok(Some(Entry::Charge(ChargeEntry::R { slot, row }))),
            None => Ok(None),
        }
    } else if letter == b"O".as_slice() {
        match read_charge_open(left) {
            Some((slot, counters)) => Ok(Some(Entry::Charge(ChargeEntry::O { slot, counters }))),
            None => Ok(None),
        }
    } else {
        Ok(None)
    }
}

fn read_note(alloc: Global, left: Option<&[u8]>) -> Result<Option<Note>, NoMemory>
    ensures { IfOk result (λ read. read ≡ note_of (pieces_left space left.entry)) }
{
    let Some((line, left)) = next_number(left, u64::MAX) else {
        return Ok(None);
    };
    let Some(text) = left else {
        return Ok(None);
    };
    if !is_note(text) {
        return Ok(None);
    }
    let note = copied(alloc, text)?;
    Ok(Some(Note { line, note }))
}

fn copied(alloc: Global, text: &[u8]) -> Result<Octets, NoMemory>
    ensures { IfOk result (λ octets. octets ≡ text.now) }
{
    let octets = Vec::from_slice(alloc, text)?;
    Ok(Octets::of(octets))
}

fn is_note(text: &[u8]) -> bool
    ensures { result ≡ is_note text.now }
{
    !text.is_empty() && is_printable(text)
}

fn is_printable(text: &[u8]) -> bool
    ensures { result ≡ is_printable text.now }
{
    text.iter().all(|octet| 0x20 <= *octet && *octet <= 0x7e)
}

// The line, the slot, and the number of the command or packet there.
fn next_head(left: Option<&[u8]>) -> Option<((u64, Slot, u64), Option<&[u8]>)>
    ensures { Gives result (head_of (pieces_left space left.entry)) }
{
    let (line, left) = next_number(left, u64::MAX)?;
    let Some((slot, left)) = next_slot(left) else {
        return None;
    };
    let (number, left) = next_number(left, u64::MAX)?;
    Some(((line, slot, number), left))
}

fn read_answer(alloc: Global, left: Option<&[u8]>) -> Result<Option<CommandReply>, NoMemory>
    ensures { IfOk result (λ read. read ≡ answered_of (pieces_left space left.entry)) }
{
    let Some(((line, slot, number), left)) = next_head(left) else {
        return Ok(None);
    };
    let Some((outcome, left)) = next_outcome(left) else {
        return Ok(None);
    };
    let Some((message, left)) = next_message(alloc, left)? else {
        return Ok(None);
    };
    let None = next_piece(b' ', left) else {
        return Ok(None);
    };
    let reply = Reply { outcome, message };
    Ok(Some(CommandReply {
        line,
        slot,
        number,
        reply,
    }))
}

fn next_outcome(left: Option<&[u8]>) -> Option<(Outcome, Option<&[u8]>)>
    ensures { Gives result (next outcome_of (pieces_left space left.entry)) }
{
    let (text, rest) = next_piece(b' ', left)?;
    let outcome = read_outcome(text)?;
    Some((outcome, rest))
}

fn read_judgement(alloc: Global, left: Option<&[u8]>) -> Result<Option<Judgement>, NoMemory>
    ensures { IfOk result (λ read. read ≡ judged_of (pieces_left space left.entry)) }
{
    let Some(((line, slot, number), left)) = next_head(left) else {
        return Ok(None);
    };
    let Some((commands, left)) = next_number(left, u64::MAX) else {
        return Ok(None);
    };
    let Some((verdict, left)) = next_verdict(alloc, left)? else {
        return Ok(None);
    };
    let Some((place, parked)) = read_place(left) else {
        return Ok(None);
    };
    Ok(Some(Judgement {
        line,
        slot,
        number,
        commands,
        verdict,
        place,
        parked,
    }))
}

fn read_refusal(left: Option<&[u8]>) -> Option<Refusal>
    ensures { result ≡ refusal_of (pieces_left space left.entry) }
{
    let (line, left) = next_number(left, u64::MAX)?;
    let Some((slot, left)) = next_slot(left) else {
        return None;
    };
    let (what, left) = next_piece(b' ', left)?;
    let packet = read_refused(what)?;
    let None = next_piece(b' ', left) else {
        return None;
    };
    Some(Refusal { line, slot, packet })
}

fn read_marker(alloc: Global, left: Option<&[u8]>) -> Result<Option<EffectEntry>, NoMemory>
    ensures { IfOk result (λ read. read ≡ marker_of (pieces_left space left.entry)) }
{
    let Some((slot, left)) = next_slot(left) else {
        return Ok(None);
    };
    let Some((life, left)) = next_number(left, u64::MAX) else {
        return Ok(None);
    };
    let Some((command, left)) = next_number(left, u64::MAX) else {
        return Ok(None);
    };
    let Some((peer, left)) = next_address(left) else {
        return Ok(None);
    };
    let Some((octets, left)) = next_octets(alloc, left)? else {
        return Ok(None);
    };
    let None = next_piece(b' ', left) else {
        return Ok(None);
    };
    let effect = Effect::Marker { life, peer, octets };
    Ok(Some(EffectEntry {
        slot,
        command,
        effect,
    }))
}

fn read_settlement(alloc: Global, left: Option<&[u8]>) -> Result<Option<EffectEntry>, NoMemory>
    ensures { IfOk result (λ read. read ≡ settlement_of (pieces_left space left.entry)) }
{
    let Some((slot, left)) = next_slot(left) else {
        return Ok(None);
    };
    let Some((packet, left)) = next_number(left, u64::MAX) else {
        return Ok(None);
    };
    let Some((command, left)) = next_number(left, u64::MAX) else {
        return Ok(None);
    };
    let Some((fate, left)) = next_fate(alloc, left)? else {
        return Ok(None);
    };
    let None = next_piece(b' ', left) else {
        return Ok(None);
    };
    let effect = Effect::Fate { packet, fate };
    Ok(Some(EffectEntry {
        slot,
        command,
        effect,
    }))
}

fn read_charge_row(left: Option<&[u8]>) -> Option<(Slot, ChargeRow)>
    ensures { result ≡ slot_row (pieces_left space left.entry) }
{
    let Some((slot, left)) = next_slot(left) else {
        return None;
    };
    let row = read_row(left)?;
    Some((slot, row))
}

fn read_charge_open(left: Option<&[u8]>) -> Option<(Slot, Open)>
    ensures { result ≡ slot_open (pieces_left space left.entry) }
{
    let Some((slot, left)) = next_slot(left) else {
        return None;
    };
    let counters = read_open(left)?;
    Some((slot, counters))
}
