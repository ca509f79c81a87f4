//! The commands and packets of a slot, in order.
ghost use Rattle.std.specs.Prelude.{◌≡◌, ℕ, ◌+◌, ◌-◌, ◌≤◌, ◌++◌, ◌∷◌, [], List, length, map, min, IfOk, OnOk};
ghost use Rattle.gate_model.specs.declared.event.Event.{Event};
ghost use Rattle.demux.specs.Packets.{numbered};
ghost use Rattle.lawful_run.specs.Outcomes.{rows, effect_entry};
ghost use Rattle.report_lines.specs.declared.entry.ChargeEntry.TheVariants.{R};
ghost use Rattle.subscriber.specs.Standing.{last_of, Represents};
ghost use Rattle.slot_execution.specs.Replaying.{AreLate, AreShort, CanPlay, CanReplay, IsLedTo, KeepsPackets, Plays};
ghost use Rattle.slot_execution.specs.Replaying.{commands_lent, counts_in, counts_of, effects_told, events_of};
ghost use Rattle.slot_execution.specs.Replaying.{latest_of, moment_of, placed_lent, places_in, places_of};

use crate::lending::lend_again;
use crate::{Caused, NumberedReply, NumberedVerdict, Placed, Replayed};
use bumpalo::Bump;
use control_steps::Command;
use packet_steps::Effects;
use pc_base::{NoMemory, Slot};
use std::alloc::Global;
use subscriber::{Subscriber, few_events_leave_room};

/// Does the accepted commands and packets of an epoch, each in line order: before each packet as many
/// commands as it tells, counted from the slot's first one on, and at last those that are left. The
/// charging records are taken out. A slot has fewer than 2^40 events. Out of memory, the
/// subscriber has done a part of them, and may only be dropped.
pub fn replay<'a, 'b>(
    alloc: Global,
    arena: &'b Bump,
    subscriber: &mut Subscriber,
    commands: &[&Command],
    packets: &[Placed<'a>],
) -> Result<Replayed<'a, 'b>, NoMemory>
    requires room { ∥ CanReplay subscriber.old (length commands.now + length packets.now) ∥₁ }
    requires late { AreLate (moment_of subscriber.old) packets.now }

    // What they lead to is what the one-thread gateway makes of them behind the events before.
    ensures led { (slot : ℕ) (before : List Event) → Represents subscriber.old slot before
        → IfOk result (λ replayed. IsLedTo replayed slot before
        (events_of before (commands_lent commands.now) (placed_lent packets.now))) }
    ensures rows { (slot : ℕ) (before : List Event) → Represents subscriber.old slot before
        → IfOk result (λ replayed. map (R slot) replayed.rows.items
        ≡ rows slot before (events_of before (commands_lent commands.now) (placed_lent packets.now))) }

    // Counts and places are those that were told.
    ensures counts { IfOk result (λ replayed. counts_in replayed.packets.items ≡ counts_of packets.now) }
    ensures places { IfOk result (λ replayed. places_in replayed.packets.items ≡ places_of packets.now) }

    // Each verdict can be written.
    ensures short { IfOk result (λ replayed. AreShort replayed.packets.items) }

    // The subscriber represents these events behind those before.
    ensures represents { (slot : ℕ) (before : List Event) → Represents subscriber.old slot before
        → OnOk result (Represents subscriber.new slot
        (before ++ events_of before (commands_lent commands.now) (placed_lent packets.now))) }
    ensures last { OnOk result (moment_of subscriber.new ≡ latest_of (moment_of subscriber.old) packets.now) }
    ensures destination { OnOk result (subscriber.new.destination ≡ subscriber.old.destination) }
{
    let mut replayed = Replayed::with_room(alloc, arena, commands.len(), packets.len())?;
    let mut from = 0usize;
    let mut done = subscriber.commands();
    for placed in packets {
        let to = reached(from, commands.len(), placed.commands.saturating_sub(done));
        do_commands(alloc, subscriber, &commands[from..to], &mut replayed)?;
        do_packet(subscriber, placed, &mut replayed)?;
        from = to;
        done = placed.commands;
    }
    do_commands(alloc, subscriber, &commands[from..], &mut replayed)?;
    replayed.rows = subscriber.take_closed();
    Ok(replayed)
}

// Mostly there are none before a packet.
#[inline(always)]
fn do_commands(
    alloc: Global,
    subscriber: &mut Subscriber,
    commands: &[&Command],
    replayed: &mut Replayed<'_, '_>,
) -> Result<(), NoMemory>
    requires { ∥ CanPlay subscriber.old replayed.old (length commands.now) ∥₁ }

    ensures plays { (slot : ℕ) (before now : List Event) → Plays subscriber.old replayed.old slot before now
        → OnOk result (Plays subscriber.new replayed.new slot before
        (now ++ map Event.Command (commands_lent commands.now))) }
    ensures packets { OnOk result (KeepsPackets replayed.old replayed.new) }
    ensures last { OnOk result (last_of subscriber.new ≡ last_of subscriber.old) }
    ensures destination { OnOk result (subscriber.new.destination ≡ subscriber.old.destination) }
{
    for command in commands {
        do_command(alloc, subscriber, command, replayed)?;
    }
    Ok(())
}

fn do_command(
    alloc: Global,
    subscriber: &mut Subscriber,
    command: &Command,
    replayed: &mut Replayed<'_, '_>,
) -> Result<(), NoMemory>
    requires { ∥ CanPlay subscriber.old replayed.old 1 ∥₁ }

    ensures plays { (slot : ℕ) (before now : List Event) → Plays subscriber.old replayed.old slot before now
        → OnOk result (Plays subscriber.new replayed.new slot before (now ++ Event.Command command.now ∷ [])) }
    ensures packets { OnOk result (KeepsPackets replayed.old replayed.new) }
    ensures last { OnOk result (last_of subscriber.new ≡ last_of subscriber.old) }
    ensures destination { OnOk result (subscriber.new.destination ≡ subscriber.old.destination) }
{
    few_events_leave_room();
    let slot = subscriber.slot();
    let number = subscriber.commands();
    let (reply, effects) = subscriber.command(alloc, command)?;
    replayed.replies.push_back(NumberedReply { number, reply })?;
    note_effects(&mut replayed.effects, slot, number, effects)
}

// The effects of a command, where it has some.
fn note_effects(
    all: &mut Vec<Caused>,
    slot: Slot,
    command: u64,
    effects: Effects,
) -> Result<(), NoMemory>
    ensures { OnOk result (effects_told all.new.items
        ≡ effects_told all.old.items ++ map (effect_entry slot command) effects) }
{
    if effects.as_slice().is_empty() {
        return Ok(());
    }
    all.push(Caused {
        slot,
        command,
        effects,
    })?;
    Ok(())
}

fn do_packet<'a>(
    subscriber: &mut Subscriber,
    placed: &Placed<'a>,
    replayed: &mut Replayed<'a, '_>,
) -> Result<(), NoMemory>
    requires room { ∥ CanPlay subscriber.old replayed.old 1 ∥₁ }
    requires late { moment_of subscriber.old ≤ placed.now.packet.moment }

    ensures plays { (slot : ℕ) (before now : List Event) → Plays subscriber.old replayed.old slot before now
        → OnOk result (Plays subscriber.new replayed.new slot before
        (now ++ Event.Packet (numbered subscriber.old.packets placed.now.packet) ∷ [])) }
    ensures counts { OnOk result (counts_in replayed.new.packets.items
        ≡ counts_in replayed.old.packets.items ++ placed.now.commands ∷ []) }
    ensures places { OnOk result (places_in replayed.new.packets.items
        ≡ places_in replayed.old.packets.items ++ placed.now.place ∷ []) }
    ensures short { AreShort replayed.old.packets.items → OnOk result (AreShort replayed.new.packets.items) }
    ensures last { OnOk result (moment_of subscriber.new ≡ placed.now.packet.moment) }
    ensures destination { OnOk result (subscriber.new.destination ≡ subscriber.old.destination) }
{
    few_events_leave_room();
    let packet = &placed.packet;
    let handled = subscriber.judge(packet.moment, packet.way, &packet.ip)?;
    let judged = NumberedVerdict {
        number: handled.number,
        commands: placed.commands,
        place: placed.place,
        verdict: lend_again(handled.judged, packet.ip.octets()),
    };
    replayed.packets.push_back(judged)?;
    Ok(())
}

// The place behind so many more, or the end.
fn reached(from: usize, len: usize, count: u64) -> usize
    requires { from ≤ len }
    ensures { result ≡ from + min count (len - from) }
{
    if count < (len - from) as u64 {
        from + count as usize
    } else {
        len
    }
}
