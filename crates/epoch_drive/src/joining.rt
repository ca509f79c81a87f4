//! The entry of each line, with what is told of its slot's next command or packet.
ghost use Rattle.std.specs.Prelude.{◌≡◌, ℕ, ◌+◌, ◌<◌, ◌^◌, [], List, All, length, map, IfOk, IfSome};
ghost use Rattle.lawful_run.specs.Filling.{filled};
ghost use Rattle.report_lines.specs.Lent.{IsShort};
ghost use Rattle.epoch_drive.specs.Joins.{
  AllShort,
  FillsNext,
  TakesPacket,
  TakesReply,
  mets_at,
  replies_at,
  told_of_command,
  told_of_packet,
};
ghost use Rattle.lawful_run.specs.Opened.{open_command, open_packet};
ghost use Rattle.epoch_drive.specs.DrivenOpened.{open_entries, open_entry};
ghost use Rattle.slot_execution.specs.Kept.{meaning_in};
ghost use Rattle.at_rest.specs.Meant.{IsWithin};
ghost use Rattle.epoch_drive.specs.Telling.{AreShort, IsShortEntry, line_told};

use crate::epoch::DrivenEntry;
use crate::replays::SlotReplays;
use epoch_schedule::LineOutcome;
use packet_steps::LentVerdict;
use pc_base::{Outcome as Done, Reply, Slot};
use slot_execution::{KeptMeaning, NumberedReply, NumberedVerdict, ToldEntry};
use std::alloc::{AllocError, Global};

/// The entries of lines, which are counted on from this number.
pub fn join<'a>(
    alloc: Global,
    first: u64,
    kept: &'a [KeptMeaning],
    outcomes: &[LineOutcome],
    answers: &mut Vec<SlotReplays<'a, '_>>,
) -> Result<Vec<DrivenEntry<'a>>, AllocError>
    requires within { All (IsWithin (length answers.old.items)) (map (meaning_in []) kept.now) }
    requires outcomes { length outcomes.now ≡ length kept.now }
    requires few { first + length kept.now < 2 ^ 64 }
    requires short { AllShort answers.old.items }

    ensures entries { (octets : List ℕ) → IfOk result (λ entries. map line_told entries.items
        ≡ filled (open_entries first (map (meaning_in octets) kept.now) outcomes.now)
        (replies_at answers.old.items) (mets_at answers.old.items)) }
    ensures short { IfOk result (λ entries. AreShort entries.items) }
{
    let mut entries = Vec::with_capacity(alloc, kept.len())?;
    for (i, now) in kept.iter().enumerate() {
        let entry = entry_of(first + i as u64, now, outcomes[i], answers);
        entries.push_reserved(entry);
    }
    Ok(entries)
}

fn entry_of<'a>(
    line: u64,
    now: &'a KeptMeaning,
    outcome: LineOutcome,
    answers: &mut Vec<SlotReplays<'a, '_>>,
) -> DrivenEntry<'a>
    requires { IsWithin (length answers.old.items) (meaning_in [] now.now) }
    ensures { (octets : List ℕ) → FillsNext answers.old.items answers.new.items
        (open_entry line (meaning_in octets now.now) outcome) result }
{
    match now {
        KeptMeaning::Note(text) => ToldEntry::Note {
            line,
            text: text.as_slice(),
        },
        KeptMeaning::Move {
            slot: _,
            slice: _,
            text,
        } => ToldEntry::Note {
            line,
            text: text.as_slice(),
        },
        KeptMeaning::Command { slot, command: _ } => command_entry(
            line,
            *slot,
            outcome.taken,
            answers,
        ),
        KeptMeaning::Packet { slot, packet: _ } => {
            packet_entry(line, *slot, outcome.taken, outcome.parked, answers)
        }
    }
}

fn command_entry<'a>(
    line: u64,
    slot: Slot,
    taken: bool,
    answers: &mut Vec<SlotReplays<'a, '_>>,
) -> DrivenEntry<'a>
    requires { slot < length answers.old.items }
    ensures { FillsNext answers.old.items answers.new.items (open_command line slot taken) result }
{
    if taken {
        let next = next_reply(answers, slot);
        answer(line, slot, next)
    } else {
        ToldEntry::Refusal {
            line,
            slot,
            packet: false,
        }
    }
}

fn packet_entry<'a>(
    line: u64,
    slot: Slot,
    taken: bool,
    parked: bool,
    answers: &mut Vec<SlotReplays<'a, '_>>,
) -> DrivenEntry<'a>
    requires { slot < length answers.old.items }
    ensures { FillsNext answers.old.items answers.new.items (open_packet line slot taken parked) result }
{
    if taken {
        let next = next_packet(answers, slot);
        judgement(line, slot, parked, next)
    } else {
        ToldEntry::Refusal {
            line,
            slot,
            packet: true,
        }
    }
}

// What is told next of a slot's commands, and of its packets.
fn next_reply(answers: &mut Vec<SlotReplays<'_, '_>>, slot: Slot) -> Option<NumberedReply>
    requires { slot < length answers.old.items }
    ensures { TakesReply answers.old.items answers.new.items slot result }
{
    let own = &mut answers[slot.0 as usize];
    own.replies.pop_front()
}

fn next_packet<'a>(
    answers: &mut Vec<SlotReplays<'a, '_>>,
    slot: Slot,
) -> Option<NumberedVerdict<'a>>
    requires { slot < length answers.old.items }
    ensures { TakesPacket answers.old.items answers.new.items slot result }
{
    let own = &mut answers[slot.0 as usize];
    own.packets.pop_front()
}

// A command's entry: it has the next reply.
fn answer<'a>(line: u64, slot: Slot, next: Option<NumberedReply>) -> DrivenEntry<'a>
    ensures told { line_told result ≡ told_of_command line slot next }
    ensures short { IsShortEntry result }
{
    match next {
        Some(replied) => ToldEntry::Answer {
            line,
            slot,
            number: replied.number,
            reply: replied.reply,
        },
        None => ToldEntry::Answer {
            line,
            slot,
            number: 0,
            reply: Reply {
                outcome: Done::Done,
                message: None,
            },
        },
    }
}

// A packet's entry: it has the next verdict.
fn judgement<'a>(
    line: u64,
    slot: Slot,
    parked: bool,
    next: Option<NumberedVerdict<'a>>,
) -> DrivenEntry<'a>
    ensures told { line_told result ≡ told_of_packet line slot parked next.entry }
    ensures short { IfSome next.entry (λ judged. IsShort judged.verdict) → IsShortEntry result }
{
    match next {
        Some(judged) => ToldEntry::Judgement {
            line,
            slot,
            number: judged.number,
            commands: judged.commands,
            verdict: judged.verdict,
            place: Some(judged.place),
            parked,
        },
        None => ToldEntry::Judgement {
            line,
            slot,
            number: 0,
            commands: 0,
            verdict: LentVerdict::NoBearer,
            place: None,
            parked,
        },
    }
}
