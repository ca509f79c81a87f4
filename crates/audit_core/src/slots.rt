//! An epoch, slot by slot: the counts of its packets, and what its events lead to, held against what its lines tell.

ghost use Rattle.std.specs.Prelude.{◌≡◌, ℕ, ◌+◌, ◌<◌, ◌≤◌, ◌^◌, ◌++◌, ◌∷◌, [], All, List, filter_map, length, map};
ghost use Rattle.std.specs.Prelude.{vec_len, IfNone, IfOk, IfSome, OnOk};
ghost use Rattle.gate_model.specs.declared.event.Event.{Event};
ghost use Rattle.lawful_run.specs.Accepted.{commands_before};
ghost use Rattle.lawful_run.specs.Bounds.{count_before};
ghost use Rattle.lawful_run.specs.LinesTold.{LineTold};
ghost use Rattle.lawful_run.specs.Merging.{Histories, behind, events_in};
ghost use Rattle.subscriber.specs.Standing.{Represents};
ghost use Rattle.report_lines.specs.declared.entry.ChargeEntry.TheVariants.{R};
ghost use Rattle.slot_execution.specs.Replaying.{AreShort, commands_lent, effects_told, placed_lent};
ghost use Rattle.slot_execution.specs.Replaying.{replies_in, rows_told, verdicts_in};
ghost use Rattle.at_rest.specs.Meant.{AreStanding};
ghost use Rattle.at_rest.specs.Rest.{AreAtRest, IsAtRest};
ghost use Rattle.audit_core.specs.Gateway.{AnswerBreak};
ghost use Rattle.audit_core.specs.Answers.{reply_in, verdict_in};
ghost use Rattle.audit_core.specs.Holding.{AreKnownTold};
ghost use Rattle.audit_core.specs.Meant.{StandsTold, command_taken, line_told, lines_of, share, slot_in};
ghost use Rattle.audit_core.specs.OfSlot.{AreAnswered};
ghost use Rattle.audit_core.specs.Played.{AnswersBelow, AreBoundAs, AreLate, AreShares, CountsBelow, HasPlayed};
ghost use Rattle.audit_core.specs.Played.{LeadsTo};
ghost use Rattle.audit_core.specs.Played.{PlaysBelow, StandInEach, keyed_by, latest_of, placed_in};

use crate::NoMemory;
use crate::counts::count_broken;
use crate::replies::{reply_broken, verdict_broken};
use crate::sharing::{Keyed, shares_of};
use crate::telling::Break;
use crate::told_line::ToldLine;
use bumpalo::Bump;
use charging_book::ChargeRow;
use control_steps::Command;
use gate_model::sessions_keep_their_slot;
use pc_base::{Place, Slot};
use report_lines::LineEntry;
use slot_execution::{Caused, Closed, Placed, Replayed, replay};
use std::alloc::Global;
use subscriber::Subscriber;

/// The first breaks of an epoch's slots, the lowest one first; and the effects and charging records that its lines lead
/// to, in order of the slots.
#[derive(Drop)]
pub(crate) struct Played {
    pub counts: Option<Break>,
    pub gateway: Option<Break>,
    pub effects: Vec<Caused>,
    pub rows: Vec<Closed>,
}

// A line under the slot that it is about.
fn push_keyed<'a>(all: &mut Vec<Keyed<ToldLine<'a>>>, told: &ToldLine<'a>) -> Result<(), NoMemory>
    ensures { OnOk result (all.new.items
        ≡ all.old.items ++ keyed_by (slot_in (line_told told.now).meaning) told.now) }
{
    match told.slot() {
        Some(slot) => Ok(all.push(Keyed {
            key: u64::from(slot.0),
            item: *told,
        })?),
        None => Ok(()),
    }
}

// For each slot below so many the lines that are about it.
fn by_slot<'a>(
    alloc: Global,
    slots: usize,
    lines: &[ToldLine<'a>],
) -> Result<Vec<Vec<ToldLine<'a>>>, NoMemory>
    ensures shares { IfOk result (λ all. AreShares all.items slots (lines_of lines.now)) }
    ensures stand { All StandsTold lines.now → IfOk result (λ all. StandInEach all.items) }
{
    let mut keyed = Vec::with_capacity(alloc, lines.len())?;
    for told in lines {
        push_keyed(&mut keyed, told)?;
    }
    shares_of(alloc, slots, keyed.as_slice())
}

fn push_command<'a>(all: &mut Vec<&'a Command>, told: &ToldLine<'a>) -> Result<(), NoMemory>
    ensures { OnOk result (commands_lent all.new.items
        ≡ commands_lent all.old.items ++ filter_map command_taken (line_told told.now ∷ [])) }
{
    match told.command() {
        Some(command) => Ok(all.push(command)?),
        None => Ok(()),
    }
}

fn commands_of<'a>(alloc: Global, lines: &[ToldLine<'a>]) -> Result<Vec<&'a Command>, NoMemory>
    ensures { IfOk result (λ commands. commands_lent commands.items ≡ filter_map command_taken (lines_of lines.now)) }
{
    let mut commands = Vec::new(alloc);
    for told in lines {
        push_command(&mut commands, told)?;
    }
    Ok(commands)
}

// The count that an entry tells, of the commands before its packet.
fn count_told(entry: &LineEntry) -> u64
    ensures { result ≡ commands_before entry.now }
{
    match entry {
        LineEntry::P(judged) => judged.commands,
        LineEntry::N(_) | LineEntry::C(_) | LineEntry::F(_) => 0,
    }
}

// Where a packet was handled makes no difference.
fn push_packet<'a>(all: &mut Vec<Placed<'a>>, told: &ToldLine<'a>) -> Result<(), NoMemory>
    requires { StandsTold told.now }
    ensures { OnOk result (placed_lent all.new.items
        ≡ placed_lent all.old.items ++ filter_map placed_in (line_told told.now ∷ [])) }
{
    match told.packet() {
        Some(packet) => Ok(all.push(Placed {
            commands: count_told(told.entry),
            place: Place::Closing,
            packet,
        })?),
        None => Ok(()),
    }
}

// The accepted packets, each behind as many commands as is told.
fn packets_of<'a>(alloc: Global, lines: &[ToldLine<'a>]) -> Result<Vec<Placed<'a>>, NoMemory>
    requires { All StandsTold lines.now }
    ensures { IfOk result (λ packets. placed_lent packets.items ≡ filter_map placed_in (lines_of lines.now)) }
{
    let mut packets = Vec::new(alloc);
    for told in lines {
        push_packet(&mut packets, told)?;
    }
    Ok(packets)
}

// What the lines of a slot lead to.
fn play_lines<'a, 'b>(
    alloc: Global,
    arena: &'b Bump,
    subscriber: &mut Subscriber,
    lines: &[ToldLine<'a>],
) -> Result<Replayed<'a, 'b>, NoMemory>
    requires stand { All StandsTold lines.now }
    requires rest { (slices count latest slot : ℕ) × IsAtRest slices count latest slot subscriber.old
        × AreLate latest (lines_of lines.now) × (count + length lines.now < 2 ^ 40) }

    ensures leads { (slot : ℕ) (before : List Event) (all : List LineTold) → Represents subscriber.old slot before
        → lines_of lines.now ≡ share slot all → IfOk result (λ replayed. LeadsTo replayed slot before all) }
    ensures short { IfOk result (λ replayed. AreShort replayed.packets.items) }
    ensures represents { (slot : ℕ) (before : List Event) (all : List LineTold)
        → Represents subscriber.old slot before → lines_of lines.now ≡ share slot all
        → OnOk result (Represents subscriber.new slot (before ++ events_in before all slot)) }
    ensures rest { (slices count latest slot : ℕ) → IsAtRest slices count latest slot subscriber.old
        → AreLate latest (lines_of lines.now)
        → OnOk result (IsAtRest slices (count + length lines.now) (latest_of latest (lines_of lines.now)) slot
        subscriber.new) }
    ensures destination { OnOk result (subscriber.new.destination ≡ subscriber.old.destination) }
{
    sessions_keep_their_slot();
    let commands = commands_of(alloc, lines)?;
    let packets = packets_of(alloc, lines)?;
    replay(
        alloc,
        arena,
        subscriber,
        commands.as_slice(),
        packets.as_slice(),
    )
}

// Replies go before verdicts.
fn answer_broken(
    alloc: Global,
    slot: Slot,
    replayed: &mut Replayed<'_, '_>,
    lines: &[ToldLine<'_>],
) -> Result<Option<Break>, NoMemory>
    requires { AreShort replayed.old.packets.items }
    ensures some { IfOk result (λ found. IfSome found (AnswerBreak slot (replies_in replayed.old.replies.items)
        (verdicts_in replayed.old.packets.items) (lines_of lines.now))) }
    ensures replies { IfOk result (λ found. IfNone found
        (filter_map reply_in (lines_of lines.now) ≡ replies_in replayed.old.replies.items)) }
    ensures verdicts { IfOk result (λ found. IfNone found
        (filter_map verdict_in (lines_of lines.now) ≡ verdicts_in replayed.old.packets.items)) }
    ensures effects { replayed.new.effects.items ≡ replayed.old.effects.items }
    ensures rows { replayed.new.rows.items ≡ replayed.old.rows.items }
{
    let found = reply_broken(alloc, slot, &mut replayed.replies, lines)?;
    match found {
        Some(broken) => Ok(Some(broken)),
        None => verdict_broken(alloc, slot, &mut replayed.packets, lines),
    }
}

// The first break of the counts: the one that was found in the slots before, or else that of this slot.
fn next_counts(
    alloc: Global,
    found: Option<Break>,
    start: u64,
    lines: &[ToldLine<'_>],
) -> Result<Option<Break>, NoMemory>
    requires { start + length lines.now < 2 ^ 64 }
    ensures { (slot first : ℕ) (histories : Histories) (all : List LineTold) → AreAnswered first all
        → lines_of lines.now ≡ share slot all → start ≡ count_before histories slot
        → CountsBelow slot histories all found → IfOk result (CountsBelow (slot + 1) histories all) }
{
    match found {
        Some(broken) => Ok(Some(broken)),
        None => count_broken(alloc, start, lines),
    }
}

// The same of replies and verdicts.
fn next_answers(
    alloc: Global,
    found: Option<Break>,
    slot: Slot,
    replayed: &mut Replayed<'_, '_>,
    lines: &[ToldLine<'_>],
) -> Result<Option<Break>, NoMemory>
    requires { AreShort replayed.old.packets.items }
    ensures answers { (first : ℕ) (histories : Histories) (all : List LineTold) → AreAnswered first all
        → lines_of lines.now ≡ share slot all → LeadsTo replayed.old slot (histories slot) all
        → AnswersBelow slot histories all found → IfOk result (AnswersBelow (slot + 1) histories all) }
    ensures effects { replayed.new.effects.items ≡ replayed.old.effects.items }
    ensures rows { replayed.new.rows.items ≡ replayed.old.rows.items }
{
    match found {
        Some(broken) => Ok(Some(broken)),
        None => answer_broken(alloc, slot, replayed, lines),
    }
}

// The charging records of a slot, where it has some.
fn add_rows(all: &mut Vec<Closed>, slot: Slot, rows: Vec<ChargeRow>) -> Result<(), NoMemory>
    ensures { OnOk result (rows_told all.new.items ≡ rows_told all.old.items ++ map (R slot) rows.items) }
{
    if rows.is_empty() {
        return Ok(());
    }
    all.push(Closed { slot, rows })?;
    Ok(())
}

fn add_effects(all: &mut Vec<Caused>, effects: Vec<Caused>) -> Result<(), NoMemory>
    ensures { OnOk result (effects_told all.new.items ≡ effects_told all.old.items ++ effects_told effects.items) }
{
    if effects.is_empty() {
        return Ok(());
    }
    let mut effects = effects;
    all.append(&mut effects)
}

impl Played {
    // One slot more. A subscriber that no line is about isn't touched.
    fn add(
        &mut self,
        alloc: Global,
        arena: &Bump,
        slot: Slot,
        subscriber: &mut Subscriber,
        lines: &[ToldLine<'_>],
    ) -> Result<(), NoMemory>
        requires stand { All StandsTold lines.now }
        requires rest { (slices count latest : ℕ) × IsAtRest slices count latest slot subscriber.old
            × AreLate latest (lines_of lines.now) × (count + length lines.now < 2 ^ 40) }

        ensures plays { (first : ℕ) (histories : Histories) (all : List LineTold)
            → Represents subscriber.old slot (histories slot) → AreAnswered first all
            → lines_of lines.now ≡ share slot all → PlaysBelow slot histories all self.old
            → OnOk result (PlaysBelow (slot + 1) histories all self.new) }
        ensures represents { (before : List Event) (all : List LineTold) → Represents subscriber.old slot before
            → lines_of lines.now ≡ share slot all
            → OnOk result (Represents subscriber.new slot (before ++ events_in before all slot)) }
        ensures rest { (slices count latest : ℕ) → IsAtRest slices count latest slot subscriber.old
            → AreLate latest (lines_of lines.now)
            → OnOk result (IsAtRest slices (count + length lines.now) (latest_of latest (lines_of lines.now)) slot
            subscriber.new) }
        ensures destination { OnOk result (subscriber.new.destination ≡ subscriber.old.destination) }
    {
        if lines.is_empty() {
            return Ok(());
        }
        let start = subscriber.commands();
        let before = self.counts.take();
        let counts = next_counts(alloc, before, start, lines)?;
        let mut replayed = play_lines(alloc, arena, subscriber, lines)?;
        let told = self.gateway.take();
        let gateway = next_answers(alloc, told, slot, &mut replayed, lines)?;
        self.counts = counts;
        self.gateway = gateway;
        self.add_made(slot, replayed)
    }

    // The effects and charging records of a slot.
    fn add_made(&mut self, slot: Slot, replayed: Replayed<'_, '_>) -> Result<(), NoMemory>
        ensures counts { self.new.counts ≡ self.old.counts }
        ensures gateway { self.new.gateway ≡ self.old.gateway }
        ensures effects { OnOk result (effects_told self.new.effects.items
            ≡ effects_told self.old.effects.items ++ effects_told replayed.entry.effects.items) }
        ensures rows { OnOk result (rows_told self.new.rows.items
            ≡ rows_told self.old.rows.items ++ map (R slot) replayed.entry.rows.items) }
    {
        let Replayed { effects, rows, .. } = replayed;
        add_effects(&mut self.effects, effects)?;
        add_rows(&mut self.rows, slot, rows)
    }
}

/// Plays the lines of an epoch, slot by slot.
pub(crate) fn play(
    alloc: Global,
    subscribers: &mut Vec<Subscriber>,
    lines: &[ToldLine<'_>],
) -> Result<Played, NoMemory>
    requires stand { All StandsTold lines.now }
    requires few { vec_len subscribers.old ≤ 65533 }
    requires known { AreKnownTold (vec_len subscribers.old) (lines_of lines.now) }
    requires rest { (slices count latest : ℕ) × AreAtRest slices count latest subscribers.old.items
        × AreLate latest (lines_of lines.now) × (count + length lines.now < 2 ^ 40) }

    ensures plays { (first : ℕ) (histories : Histories) → AreStanding subscribers.old.items histories
        → AreAnswered first (lines_of lines.now)
        → IfOk result (HasPlayed (vec_len subscribers.old) histories (lines_of lines.now)) }
    ensures stands { (histories : Histories) → AreStanding subscribers.old.items histories
        → OnOk result (AreStanding subscribers.new.items (behind histories (lines_of lines.now))) }
    ensures rest { (slices count latest : ℕ) → AreAtRest slices count latest subscribers.old.items
        → AreLate latest (lines_of lines.now)
        → OnOk result (AreAtRest slices (count + length lines.now) (latest_of latest (lines_of lines.now))
        subscribers.new.items) }
    ensures bound { OnOk result (AreBoundAs subscribers.old.items subscribers.new.items) }
    ensures many { vec_len subscribers.new ≡ vec_len subscribers.old }
{
    let arena = Bump::new(alloc);
    let shares = by_slot(alloc, subscribers.len(), lines)?;
    let mut played = Played {
        counts: None,
        gateway: None,
        effects: Vec::new(alloc),
        rows: Vec::new(alloc),
    };
    for place in 0..subscribers.len() {
        played.add(
            alloc,
            &arena,
            Slot(place as u32),
            &mut subscribers[place],
            shares[place].as_slice(),
        )?;
    }
    Ok(played)
}
