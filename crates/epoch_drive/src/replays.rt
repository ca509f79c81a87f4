//! What the subscribers make of their commands and packets.
ghost use Rattle.std.specs.Prelude.{◌≡◌, ◌≤◌, ◌++◌, ◌∷◌, [], length, map, vec_len, IfOk, OnOk};
ghost use Rattle.slot_execution.specs.Replaying.{effects_told, rows_told};
ghost use Rattle.report_lines.specs.declared.entry.ChargeEntry.TheVariants.{R};
ghost use Rattle.epoch_drive.specs.Replays.{AddsShare, AllCanDo, CanDo, HasRoom, HaveDone, KeepsRoom};

use crate::sharing::Share;
use bumpalo::Bump;
use charging_book::ChargeRow;
use pc_base::Slot;
use slot_execution::{Caused, Closed, NumberedReply, NumberedVerdict, Replayed, replay};
use std::alloc::{AllocError, Global};
use std::collections::VecDeque;
use subscriber::Subscriber;

/// What is told of a slot's commands and packets, to be taken from the start.
#[derive(Drop)]
pub struct SlotReplays<'a, 'b> {
    pub replies: VecDeque<NumberedReply>,
    pub packets: VecDeque<NumberedVerdict<'a>, &'b Bump>,
}

/// By slot: what is told of commands and packets, and all effects and charging records.
#[derive(Drop)]
pub struct Replays<'a, 'b> {
    pub answers: Vec<SlotReplays<'a, 'b>>,
    pub effects: Vec<Caused>,
    pub rows: Vec<Closed>,
}

/// Each subscriber does its share.
pub fn replay_all<'a, 'b>(
    alloc: Global,
    arena: &'b Bump,
    slots: u32,
    subscribers: &mut Vec<Subscriber>,
    shares: &[Share<'a, '_>],
) -> Result<Replays<'a, 'b>, AllocError>
    requires slots { slots ≡ vec_len subscribers.old }
    requires few { slots ≤ 65533 }
    requires many { length shares.now ≡ vec_len subscribers.old }
    requires can { AllCanDo subscribers.old.items shares.now }

    ensures { IfOk result (λ replays. HaveDone subscribers.old.items subscribers.new.items shares.now replays
        slots) }
{
    let mut replays = Replays {
        answers: Vec::with_capacity(alloc, slots as usize)?,
        effects: Vec::new(alloc),
        rows: Vec::new(alloc),
    };
    for i in 0..slots {
        let place = i as usize;
        do_share(
            alloc,
            arena,
            Slot(i),
            &mut subscribers[place],
            &shares[place],
            &mut replays,
        )?;
    }
    Ok(replays)
}

// A subscriber does its share. One that has none is not touched, so that short epochs cost little.
#[inline(always)]
fn do_share<'a, 'b>(
    alloc: Global,
    arena: &'b Bump,
    slot: Slot,
    subscriber: &mut Subscriber,
    share: &Share<'a, '_>,
    replays: &mut Replays<'a, 'b>,
) -> Result<(), AllocError>
    requires can { CanDo subscriber.old share.now }
    requires room { HasRoom replays.old }
    ensures adds { OnOk result (AddsShare subscriber.old subscriber.new share.now replays.old replays.new slot) }
    ensures room { OnOk result (KeepsRoom replays.old replays.new) }
{
    let commands = share.commands.as_slice();
    let packets = share.packets.as_slice();
    if commands.is_empty() && packets.is_empty() {
        return add_replayed(replays, slot, nothing(alloc, arena));
    }
    let replayed = replay(alloc, arena, subscriber, commands, packets)?;
    add_replayed(replays, slot, replayed)
}

// What no commands and packets lead to.
#[inline(always)]
fn nothing<'a, 'b>(alloc: Global, arena: &'b Bump) -> Replayed<'a, 'b>
    ensures replies { result.replies.items ≡ [] }
    ensures packets { result.packets.items ≡ [] }
    ensures effects { result.effects.items ≡ [] }
    ensures rows { result.rows.items ≡ [] }
{
    Replayed {
        replies: VecDeque::new(alloc),
        packets: VecDeque::new(arena),
        effects: Vec::new(alloc),
        rows: Vec::new(alloc),
    }
}

// What the next slot's share led to.
#[inline(always)]
fn add_replayed<'a, 'b>(
    replays: &mut Replays<'a, 'b>,
    slot: Slot,
    replayed: Replayed<'a, 'b>,
) -> Result<(), AllocError>
    requires { HasRoom replays.old }
    ensures answers { OnOk result (replays.new.answers.items ≡ replays.old.answers.items
        ++ record { replies = replayed.entry.replies; packets = replayed.entry.packets } ∷ []) }
    ensures effects { OnOk result (effects_told replays.new.effects.items
        ≡ effects_told replays.old.effects.items ++ effects_told replayed.entry.effects.items) }
    ensures rows { OnOk result (rows_told replays.new.rows.items
        ≡ rows_told replays.old.rows.items ++ map (R slot) replayed.entry.rows.items) }
    ensures room { OnOk result (KeepsRoom replays.old replays.new) }
{
    let Replayed {
        replies,
        packets,
        effects,
        rows,
    } = replayed;
    replays
        .answers
        .push_reserved(SlotReplays { replies, packets });
    add_effects(&mut replays.effects, effects)?;
    add_rows(&mut replays.rows, slot, rows)
}

// The charging records of a slot, where it has some.
#[inline(always)]
fn add_rows(all: &mut Vec<Closed>, slot: Slot, rows: Vec<ChargeRow>) -> Result<(), AllocError>
    ensures { OnOk result (rows_told all.new.items ≡ rows_told all.old.items ++ map (R slot) rows.items) }
{
    if rows.is_empty() {
        return Ok(());
    }
    all.push(Closed { slot, rows })?;
    Ok(())
}

#[inline(always)]
fn add_effects(all: &mut Vec<Caused>, effects: Vec<Caused>) -> Result<(), AllocError>
    ensures { OnOk result (effects_told all.new.items
        ≡ effects_told all.old.items ++ effects_told effects.items) }
{
    if effects.is_empty() {
        return Ok(());
    }
    let mut effects = effects;
    all.append(&mut effects)
}
