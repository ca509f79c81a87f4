//! What the lines of an open epoch mean, kept until it ends.
ghost use Rattle.std.specs.Prelude.{◌≡◌, ℕ, List, [], map, MatchBool, OnOk};
ghost use Rattle.trace_lines.specs.Line.{Line};
ghost use Rattle.epoch_schedule.specs.Lines.{asked};
ghost use Rattle.epoch_drive.specs.Driven.{asks_of};
ghost use Rattle.subscriber.specs.Standing.{SubscriberState};
ghost use Rattle.at_rest.specs.Rest.{Rest};
ghost use Rattle.slot_execution.specs.Kept.{meaning_in};
ghost use Rattle.epoch_drive.specs.Kept.{Adds, AreNone, KeepsLine};
ghost use Rattle.epoch_drive.specs.Taken.{HasTaken};
ghost use Rattle.epoch_drive.specs.declared.gateway.DrivenGateway.{DrivenGateway};

use demux::{LentPacket, Meant};
use epoch_schedule::LineAsk;
use pc_base::Slot;
use slot_execution::{KeptMeaning, place_packet};
use std::alloc::{AllocError, Global};
use subscriber::Subscriber;

/// The lines of an epoch: what each means, and what it asks of the schedule, from where each slot is bound for
/// as the epoch begins. The octets of all packets stand in one buffer, and buffers go from epoch to epoch.
#[derive(Drop)]
pub struct EpochLines {
    pub(crate) bounds: Vec<u8>,
    pub(crate) asks: Vec<LineAsk>,
    pub(crate) lines: Vec<KeptMeaning>,
    pub(crate) octets: Vec<u8>,
}

impl EpochLines {
    /// No lines, before the first slot. It takes no memory.
    pub fn new(alloc: Global) -> EpochLines
        ensures { AreNone [] result }
    {
        EpochLines {
            bounds: Vec::new(alloc),
            asks: Vec::new(alloc),
            lines: Vec::new(alloc),
            octets: Vec::new(alloc),
        }
    }

    /// Whether no lines were taken.
    pub fn is_empty(&self) -> bool
        ensures { (start : Rest) (taken : List Line) (gateway : DrivenGateway) → HasTaken start taken gateway self.now
            → MatchBool result (taken ≡ []) (taken ≡ [] → ⊥) }
    {
        self.lines.is_empty()
    }

    /// No lines of the next epoch, which begins with these subscribers.
    pub(crate) fn begin(&mut self, subscribers: &[Subscriber]) -> Result<(), AllocError>
        ensures { OnOk result (AreNone subscribers.now self.new) }
    {
        self.asks.clear();
        self.lines.clear();
        self.octets.clear();
        note_bounds(&mut self.bounds, subscribers)
    }
}

// Where each subscriber is bound for.
fn note_bounds(bounds: &mut Vec<u8>, subscribers: &[Subscriber]) -> Result<(), AllocError>
    ensures { OnOk result (bounds.new.items ≡ map (λ (s : SubscriberState). s.destination) subscribers.now) }
{
    bounds.clear();
    for subscriber in subscribers {
        let destination = subscriber.destination();
        bounds.push(destination.0)?;
    }
    Ok(())
}

/// What a line means is kept: a packet's octets are put behind those before.
pub fn keep(alloc: Global, lines: &mut EpochLines, meant: Meant<'_>) -> Result<(), AllocError>
    ensures { OnOk result (KeepsLine lines.old lines.new meant.entry) }
{
    match meant {
        Meant::Packet { slot, packet } => keep_packet(lines, slot, &packet),
        Meant::Command { slot, command } => {
            let command = Box::new(alloc, command)?;
            add(lines, KeptMeaning::Command { slot, command })
        }
        Meant::Move { slot, slice, text } => add(lines, KeptMeaning::Move { slot, slice, text }),
        Meant::Note(text) => add(lines, KeptMeaning::Note(text)),
    }
}

/// A packet of a slot is kept, its parts straight from where they are lent.
#[inline(always)]
pub fn keep_packet(
    lines: &mut EpochLines,
    slot: Slot,
    packet: &LentPacket<'_>,
) -> Result<(), AllocError>
    ensures { OnOk result (KeepsLine lines.old lines.new (Meant.Packet slot packet.now)) }
{
    let packet = place_packet(&mut lines.octets, packet)?;
    add(lines, KeptMeaning::Packet { slot, packet })
}

// What a line asks of the schedule.
fn ask_of(kept: &KeptMeaning) -> LineAsk
    ensures { (octets : List ℕ) → asked result ≡ asks_of (meaning_in octets kept.now) }
{
    match kept {
        KeptMeaning::Command { slot, command: _ } => LineAsk::Command(slot.0),
        KeptMeaning::Packet { slot, packet: _ } => LineAsk::Packet(slot.0),
        KeptMeaning::Move {
            slot,
            slice,
            text: _,
        } => LineAsk::Move(slot.0, slice.0),
        KeptMeaning::Note(_) => LineAsk::Nothing,
    }
}

// One line more, with what it asks of the schedule: once for each kind, so that its parts go straight to their places.
#[inline(always)]
fn add(lines: &mut EpochLines, kept: KeptMeaning) -> Result<(), AllocError>
    ensures { OnOk result (Adds lines.old lines.new kept) }
{
    lines.asks.push(ask_of(&kept))?;
    lines.lines.push(kept)?;
    Ok(())
}
