//! The entry of each line, with what is told of its slot's next command or packet.
ghost use Rattle.std.specs.Prelude.{◌≡◌, ◌+◌, ◌<◌, ◌^◌, true, All, length, map, reverse, vec_len, IfOk};
ghost use Rattle.lawful_run.specs.Filling.{filled};
ghost use Rattle.lawful_run.specs.Opened.{open_command, open_packet};
ghost use Rattle.front_core.specs.Entries.{open_of, opens_of};
ghost use Rattle.front_core.specs.Filled.{
  FillsFirst,
  FillsNext,
  IsWithin,
  TakesPacket,
  TakesReply,
  entry_told,
  mets_at,
  replies_at,
  told_of_command,
  told_of_packet,
};

use crate::answers::SlotAnswers;
use crate::epoch::FrontEntry;
use crate::{NoMemory, OpenEntry, Taken};
use control_half::CommandDone;
use counter_half::{PacketDone, ToldVerdict};
use pc_base::{Outcome, Reply, Slot};
use slot_execution::ToldEntry;
use std::alloc::Global;

/// The entries of lines, which are counted on from this number.
pub(crate) fn fill_all<'p>(
    alloc: Global,
    first: u64,
    mut entries: Vec<Taken>,
    answers: &mut Vec<SlotAnswers<'p>>,
) -> Result<Vec<FrontEntry<'p>>, NoMemory>
    requires within { All (λ taken. IsWithin (length answers.old.items) taken.open) entries.items }
    requires few { first + length entries.items < 2 ^ 64 }

    ensures { IfOk result (λ told. map entry_told told.items
        ≡ filled (opens_of first entries.items) (replies_at answers.old.items) (mets_at answers.old.items)) }
{
    let mut told: Vec<FrontEntry<'p>> = Vec::with_capacity(alloc, entries.len())?;
    entries.reverse();
    for place in 0..entries.len() {
        let entry = fill_next(first + place as u64, &mut entries, answers);
        told.push(entry)?;
    }
    Ok(told)
}

// The entry of the first of the lines that are left, which are in the order from the last.
fn fill_next<'p>(
    line: u64,
    left: &mut Vec<Taken>,
    answers: &mut Vec<SlotAnswers<'p>>,
) -> FrontEntry<'p>
    requires some { 0 < vec_len left.old }
    requires within { All (λ taken. IsWithin (length answers.old.items) taken.open) (reverse left.old.items) }
    ensures { FillsFirst line left.old.items left.new.items answers.old.items answers.new.items result }
{
    let Some(taken) = left.pop() else {
        unreachable!()
    };
    entry_of(line, taken.open, answers)
}

fn entry_of<'p>(line: u64, entry: OpenEntry, answers: &mut Vec<SlotAnswers<'p>>) -> FrontEntry<'p>
    requires { IsWithin (length answers.old.items) entry }
    ensures { FillsNext answers.old.items answers.new.items (open_of line entry) result }
{
    match entry {
        OpenEntry::Note(text) => ToldEntry::Note { line, text },
        OpenEntry::Command(slot) => command_entry(line, slot, answers),
        OpenEntry::Packet { slot, parked } => packet_entry(line, slot, parked, answers),
        OpenEntry::Full { slot, packet } => ToldEntry::Refusal { line, slot, packet },
    }
}

fn command_entry<'p>(line: u64, slot: Slot, answers: &mut Vec<SlotAnswers<'p>>) -> FrontEntry<'p>
    requires { slot < length answers.old.items }
    ensures { FillsNext answers.old.items answers.new.items (open_command line slot true) result }
{
    let next = next_reply(answers, slot);
    answer(line, slot, next)
}

fn packet_entry<'p>(
    line: u64,
    slot: Slot,
    parked: bool,
    answers: &mut Vec<SlotAnswers<'p>>,
) -> FrontEntry<'p>
    requires { slot < length answers.old.items }
    ensures { FillsNext answers.old.items answers.new.items (open_packet line slot true parked) result }
{
    let next = next_packet(answers, slot);
    judgement(line, slot, parked, next)
}

// What is told next of a slot's commands, and of its packets.
fn next_reply(answers: &mut Vec<SlotAnswers<'_>>, slot: Slot) -> Option<CommandDone>
    requires { slot < length answers.old.items }
    ensures { TakesReply answers.old.items answers.new.items slot result }
{
    let own = &mut answers[slot.0 as usize];
    own.replies.pop()
}

fn next_packet<'p>(answers: &mut Vec<SlotAnswers<'p>>, slot: Slot) -> Option<PacketDone<'p>>
    requires { slot < length answers.old.items }
    ensures { TakesPacket answers.old.items answers.new.items slot result }
{
    let own = &mut answers[slot.0 as usize];
    own.packets.pop()
}

// A command's entry: it has the next reply.
fn answer<'p>(line: u64, slot: Slot, next: Option<CommandDone>) -> FrontEntry<'p>
    ensures { entry_told result ≡ told_of_command line slot next }
{
    match next {
        Some(done) => ToldEntry::Answer {
            line,
            slot,
            number: done.number,
            reply: done.reply,
        },
        None => ToldEntry::Answer {
            line,
            slot,
            number: 0,
            reply: Reply {
                outcome: Outcome::Done,
                message: None,
            },
        },
    }
}

// A packet's entry: it has the next verdict.
fn judgement<'p>(
    line: u64,
    slot: Slot,
    parked: bool,
    next: Option<PacketDone<'p>>,
) -> FrontEntry<'p>
    ensures { entry_told result ≡ told_of_packet line slot parked next.entry }
{
    match next {
        Some(done) => ToldEntry::Judgement {
            line,
            slot,
            number: done.number,
            commands: done.commands,
            verdict: done.verdict,
            place: Some(done.place),
            parked,
        },
        None => ToldEntry::Judgement {
            line,
            slot,
            number: 0,
            commands: 0,
            verdict: ToldVerdict::no_bearer(),
            place: None,
            parked,
        },
    }
}
