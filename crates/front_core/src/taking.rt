//! What is done with a line, by what it means.
ghost use Rattle.std.specs.Prelude.{◌≡◌, ◌≤◌, ◌+◌, ℕ, IfOk};
ghost use Rattle.demux.specs.Trace.{command, packet};
ghost use Rattle.demux.specs.Meant.{meaning_of};
ghost use Rattle.demux.specs.Packets.{numbered};
ghost use Rattle.front_core.specs.Steps.{MayMove, SlotMoves};
ghost use Rattle.front_core.specs.Counting.{TookTries};
ghost use Rattle.front_core.specs.Entries.{took_of};
ghost use Rattle.front_core.specs.Taking.{GrowsTo, MayTake, Takes, TakesCommand, TakesPacket};
ghost use Rattle.front_core.specs.declared.taken.OpenEntry.TheVariants.{Note};

use crate::taken::OpenEntry;
use crate::{Given, Halves, NoMemory};
use at_rest::rest_leaves_room;
use control_half::BoxedCommand;
use counter_half::SentPacket;
use demux::{LentPacket, Meant};
use pc_base::{Octets, SliceNo, Slot};
use std::alloc::Global;
use std::sync::Wait;
use subscriber::Subscriber;
use worker_core::Post;

/// Does what a line of this number means: its open entry.
pub(crate) fn take<'p, R: Wait>(
    rt: &R,
    alloc: Global,
    line: u64,
    meant: Meant<'p>,
    subscribers: &mut [Subscriber],
    halves: &mut Halves<'p>,
    patience: u32,
    posts: &[Post],
) -> Result<OpenEntry, NoMemory>
    requires { MayTake (meaning_of meant) subscribers.old halves.old }
    ensures takes { IfOk result (λ open_. Takes line (patience + 1) (meaning_of meant.entry) open_ subscribers.old
        subscribers.new halves.old halves.new) }
    ensures tried { IfOk result (λ open_. TookTries (patience + 1) (took_of open_) halves.old.fulls
        halves.new.fulls) }
    ensures rises { halves.old.fulls ≤ halves.new.fulls }
{
    match meant {
        Meant::Note(text) => Ok(OpenEntry::Note(text)),
        Meant::Move { slot, slice, text } => take_move(rt, slot, slice, text, halves),
        Meant::Command { slot, command } => {
            let asks = BoxedCommand::of(alloc, command)?;
            take_command(rt, line, slot, asks, subscribers, halves, patience, posts)
        }
        Meant::Packet { slot, packet } => {
            take_packet(
                rt,
                line,
                slot,
                &packet,
                subscribers,
                halves,
                patience,
                posts,
            )
        }
    }
}

fn take_move<R: Wait>(
    rt: &R,
    slot: Slot,
    slice: SliceNo,
    text: Octets,
    halves: &mut Halves<'_>,
) -> Result<OpenEntry, NoMemory>
    requires may { MayMove slot slice halves.old }
    ensures takes { IfOk result (λ open_. (open_ ≡ Note text) × SlotMoves slot slice halves.old halves.new) }
    ensures lots { GrowsTo slot halves.old halves.new }
    ensures tried { IfOk result (λ open_. (tries : ℕ) → TookTries tries (took_of open_) halves.old.fulls
        halves.new.fulls) }
    ensures rises { halves.old.fulls ≤ halves.new.fulls }
{
    halves.go(rt, slot, slice)?;
    Ok(OpenEntry::Note(text))
}

fn take_command<R: Wait>(
    rt: &R,
    line: u64,
    slot: Slot,
    asks: BoxedCommand,
    subscribers: &mut [Subscriber],
    halves: &mut Halves<'_>,
    patience: u32,
    posts: &[Post],
) -> Result<OpenEntry, NoMemory>
    requires { MayTake (command slot asks) subscribers.old halves.old }
    ensures takes { IfOk result (λ open_. TakesCommand slot line (patience + 1) asks open_ subscribers.old
        subscribers.new halves.old halves.new) }
    ensures tried { IfOk result (λ open_. TookTries (patience + 1) (took_of open_) halves.old.fulls
        halves.new.fulls) }
    ensures rises { halves.old.fulls ≤ halves.new.fulls }
{
    rest_leaves_room();
    halves.admit(rt, slot, &mut subscribers[slot.0 as usize])?;
    match halves.give_command(rt, slot, line, asks, patience, posts) {
        Given::Accepted { .. } => Ok(OpenEntry::Command(slot)),
        Given::Full => Ok(OpenEntry::Full {
            slot,
            packet: false,
        }),
    }
}

fn take_packet<'p, R: Wait>(
    rt: &R,
    line: u64,
    slot: Slot,
    lent: &LentPacket<'p>,
    subscribers: &mut [Subscriber],
    halves: &mut Halves<'p>,
    patience: u32,
    posts: &[Post],
) -> Result<OpenEntry, NoMemory>
    requires { MayTake (packet slot lent.now) subscribers.old halves.old }
    ensures takes { IfOk result (λ open_. TakesPacket slot line (patience + 1) lent.now open_ subscribers.old
        subscribers.new halves.old halves.new) }
    ensures tried { IfOk result (λ open_. TookTries (patience + 1) (took_of open_) halves.old.fulls
        halves.new.fulls) }
    ensures rises { halves.old.fulls ≤ halves.new.fulls }
{
    let sent = sent_of(lent);
    rest_leaves_room();
    halves.admit(rt, slot, &mut subscribers[slot.0 as usize])?;
    match halves.give_packet(rt, slot, line, sent, patience, posts)? {
        Given::Accepted { parked } => Ok(OpenEntry::Packet { slot, parked }),
        Given::Full => Ok(OpenEntry::Full { slot, packet: true }),
    }
}

// The packet before it has a number, where it lies.
fn sent_of<'p>(lent: &LentPacket<'p>) -> SentPacket<'p>
    ensures { result ≡ numbered 0 lent.now }
{
    SentPacket {
        number: 0,
        moment: lent.moment,
        way: lent.way,
        ip: lent.ip.copied(),
    }
}
