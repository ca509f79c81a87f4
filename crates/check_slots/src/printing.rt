//! Entries, each with a newline.
use charging_book::Open;
use gate_model::{Slot, Verdict};
use pc_base::Effect;
use report_lines::{push_effect, push_judged, push_open};
use std::alloc::{AllocError as NoMemory, Global};
use text_fields::Text;

pub fn end_line(text: &mut Text) -> Result<(), NoMemory> {
    text.push(b'\n')
}

/// How many packets passed.
pub fn push_passed(alloc: Global, text: &mut Text, passed: u32) -> Result<(), NoMemory> {
    let line = format!(in alloc; "passed {passed}\n")?;
    text.extend_from_slice(line.as_bytes())
}

/// The answer of a question.
pub fn push_yes(text: &mut Text, yes: bool) -> Result<(), NoMemory> {
    let word: &[u8] = if yes { b"yes\n" } else { b"no\n" };
    text.extend_from_slice(word)
}

/// What a subscriber says of itself.
pub fn push_told(
    alloc: Global,
    text: &mut Text,
    told: (u32, u8, u64, u64, Option<u64>),
) -> Result<(), NoMemory> {
    let (slot, slice, commands, packets, last) = told;
    let counts = format!(in alloc;
        "slot {slot} slice {slice} commands {commands} packets {packets}"
    )?;
    let line = match last {
        Some(last) => format!(in alloc; "{counts} last {last}\n")?,
        None => format!(in alloc; "{counts} last -\n")?,
    };
    text.extend_from_slice(line.as_bytes())
}

pub fn push_effects(
    text: &mut Text,
    slot: Slot,
    number: u64,
    effects: &[Effect],
) -> Result<(), NoMemory> {
    for effect in effects {
        push_effect(text, slot, number, effect)?;
        end_line(text)?;
    }
    Ok(())
}

/// The open counters of a life.
pub fn push_opens(text: &mut Text, slot: Slot, life: u64, opens: &[Open]) -> Result<(), NoMemory> {
    for counted in opens {
        if counted.life == life {
            push_open(text, slot, counted)?;
            end_line(text)?;
        }
    }
    Ok(())
}

/// The entry of a packet: its line, its slot, its number, and how many commands the slot had.
pub fn push_verdict(
    text: &mut Text,
    at: (u64, Slot, u64, u64),
    verdict: &Verdict,
) -> Result<(), NoMemory> {
    let (line, slot, number, commands) = at;
    push_judged(text, line, slot, number, commands, verdict)
}
