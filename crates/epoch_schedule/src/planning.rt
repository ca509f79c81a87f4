//! The schedule of an epoch.
ghost use Rattle.std.specs.Prelude.{◌≡◌, ℕ, ◌+◌, ◌*◌, ◌<◌, ◌≤◌, ◌==◌, false, All, IfOk, OnOk, get_or, length, map};
ghost use Rattle.std.specs.List.{sum_by};
ghost use Rattle.epoch_schedule.specs.Slots.{SlotNow};
ghost use Rattle.epoch_schedule.specs.Halves.{closed};
ghost use Rattle.epoch_schedule.specs.World.{start};
ghost use Rattle.epoch_schedule.specs.Turns as draw;
ghost use Rattle.epoch_schedule.specs.Schedule as epoch;
ghost use Rattle.epoch_schedule.specs.Lines.{IsPacketBelow, asked, bound_in, driven_by, packet_asked};
ghost use Rattle.epoch_schedule.specs.Listed.{AreListed};
ghost use Rattle.epoch_schedule.specs.Plan.{mets_of};
ghost use Rattle.epoch_schedule.specs.Setups.{bounds_of};
ghost use Rattle.epoch_schedule.specs.TurnsTold.{AreWorkers, turns_told, turns_behind, told_first, turns_after};
ghost use Rattle.epoch_schedule.specs.TurnsTold.{lines_of};
ghost use Rattle.epoch_schedule.specs.Worlds.{world_of};

use crate::pumping::{line_done, pump};
use crate::roster::reach;
use crate::setup::ScheduleSetup;
use crate::slot::SlotNumbers;
use crate::turning::{turn, turn_all};
use crate::waiting::WaitingSlots;
use crate::world::Numbers;
use crate::{LineAsk, LineOutcome, Met, Rooms, Turns};
use bumpalo::Bump;
use std::alloc::{AllocError, Global};
use std::marker::Model;

/// What becomes of each line, and what the packets of each slot meet.
#[derive(Drop)]
pub struct Scheduled<'b> {
    outcomes: Vec<LineOutcome>,
    slots: Vec<SlotNumbers<'b>>,
}

impl<'b> Model for Scheduled<'b> {
    ghost use Rattle.std.specs.Prelude.{map};
    ghost use Rattle.epoch_schedule.specs.Slots.{SlotNow};
    ghost use Rattle.epoch_schedule.specs.Plan.{Plan};

    ghost Value = { Plan };

    ghost view = { λ plan. record {
      outcomes = plan.outcomes.items;
      mets = map (λ (slot : SlotNow). slot.met) plan.slots.items;
    } };
}

impl Scheduled<'_> {
    /// By line.
    pub fn outcomes(&self) -> &[LineOutcome]
        ensures { result.now ≡ self.now.outcomes }
    {
        self.outcomes.as_slice()
    }

    /// How many packets of this slot were accepted.
    pub fn met_count(&self, slot: u32) -> usize
        ensures { result ≡ length (mets_of self.now slot) }
    {
        let slot = slot as usize;
        if slot < self.slots.len() {
            let one = &self.slots[slot];
            one.met_count()
        } else {
            0
        }
    }

    /// What the accepted packet of this number met, of those of this slot.
    pub fn met(&self, slot: u32, number: usize) -> Met
        requires { number < length (mets_of self.now slot) }
        ensures { result ≡ get_or (mets_of self.now slot) number result }
    {
        let one = &self.slots[slot as usize];
        one.met_at(number)
    }
}

/// The state of the generator behind this one.
fn next_state(state: u64) -> u64
    ensures { result ≡ draw.next_state state }
{
    state
        .wrapping_mul(6_364_136_223_846_793_005)
        .wrapping_add(1_442_695_040_888_963_407)
}

/// The worker that a state draws.
fn drawn(limit: u64, state: u64) -> u32
    requires { (1 ≤ limit) × (limit ≤ 128) }
    ensures worker { result ≡ draw.drawn_of limit state }
    ensures below { result < 128 }
{
    ((state >> 33) % limit) as u32
}

/// Draws so many workers, of which each has its turn, and returns the state behind them.
fn draw_turns(
    numbers: &mut Numbers<'_>,
    waiting: &mut WaitingSlots,
    setup: &ScheduleSetup<'_>,
    slices: u8,
    state: u64,
    count: u32,
) -> Result<u64, AllocError>
    requires slices { (1 ≤ slices) × (slices ≤ 64) }
    requires listed { AreListed setup.now waiting.old (world_of numbers.old) }
    ensures world { OnOk result (world_of numbers.new ≡ epoch.turned_all setup.now.rooms (world_of numbers.old)
        (draw.draws (2 * slices) state count)) }
    ensures state { IfOk result (λ behind. behind ≡ draw.state_behind state count) }
    ensures listed { OnOk result (AreListed setup.now waiting.new (world_of numbers.new)) }
{
    let limit = 2 * u64::from(slices);
    let mut behind = state;
    for _ in 0..count {
        behind = next_state(behind);
        let worker = drawn(limit, behind);
        turn(numbers, waiting, setup, worker)?;
    }
    Ok(behind)
}

/// The turns behind a line.
fn turn_behind(
    numbers: &mut Numbers<'_>,
    waiting: &mut WaitingSlots,
    setup: &ScheduleSetup<'_>,
    slices: u8,
    turns: &mut Turns,
) -> Result<(), AllocError>
    requires slices { (1 ≤ slices) × (slices ≤ 64) }
    requires workers { AreWorkers slices turns.old }
    requires listed { AreListed setup.now waiting.old (world_of numbers.old) }
    ensures world { OnOk result (world_of numbers.new ≡ epoch.turned_all setup.now.rooms (world_of numbers.old)
        (told_first turns.old slices)) }
    ensures turns { OnOk result (turns.new ≡ turns_after turns.old) }
    ensures listed { OnOk result (AreListed setup.now waiting.new (world_of numbers.new)) }
{
    match turns {
        Turns::List(listed) => turn_all(numbers, waiting, setup, listed.as_slice()),
        Turns::Drawn { state, per } => {
            *state = draw_turns(numbers, waiting, setup, slices, *state, *per)?;
            Ok(())
        }
    }
}

/// A line, and the turns behind it.
fn line(
    numbers: &mut Numbers<'_>,
    waiting: &mut WaitingSlots,
    setup: &ScheduleSetup<'_>,
    slices: u8,
    ask: LineAsk,
    turns: &mut Turns,
) -> Result<LineOutcome, AllocError>
    requires slices { (1 ≤ slices) × (slices ≤ 64) }
    requires workers { AreWorkers slices turns.old }
    requires listed { AreListed setup.now waiting.old (world_of numbers.old) }
    ensures outcome { IfOk result (λ outcome. outcome ≡ (epoch.line_of setup.now.rooms (bounds_of setup.now)
        (world_of numbers.old) (record { asks = asked ask; turns = told_first turns.old slices })).outcome) }
    ensures world { OnOk result (world_of numbers.new ≡ epoch.behind_line setup.now.rooms (bounds_of setup.now)
        (world_of numbers.old) (record { asks = asked ask; turns = told_first turns.old slices })) }
    ensures turns { OnOk result (turns.new ≡ turns_after turns.old) }
    ensures listed { OnOk result (AreListed setup.now waiting.new (world_of numbers.new)) }
{
    pump(numbers, waiting, setup)?;
    let outcome = line_done(numbers, waiting, setup, ask)?;
    turn_behind(numbers, waiting, setup, slices, turns)?;
    Ok(outcome)
}

/// All lines.
fn lines(
    numbers: &mut Numbers<'_>,
    waiting: &mut WaitingSlots,
    setup: &ScheduleSetup<'_>,
    slices: u8,
    asks: &[LineAsk],
    turns: &mut Turns,
) -> Result<Vec<LineOutcome>, AllocError>
    requires slices { (1 ≤ slices) × (slices ≤ 64) }
    requires workers { AreWorkers slices turns.old }
    requires listed { AreListed setup.now waiting.old (world_of numbers.old) }
    ensures outcomes { IfOk result (λ outcomes. outcomes.items ≡ epoch.outcomes setup.now.rooms (bounds_of setup.now)
        (world_of numbers.old) (lines_of turns.old slices asks.now)) }
    ensures world { OnOk result (world_of numbers.new ≡ epoch.behind_lines setup.now.rooms (bounds_of setup.now)
        (world_of numbers.old) (lines_of turns.old slices asks.now)) }
    ensures turns { OnOk result (turns.new ≡ turns_behind turns.old (length asks.now)) }
{
    let mut outcomes = Vec::with_capacity(numbers.alloc, asks.len())?;
    for ask in asks {
        let outcome = line(numbers, waiting, setup, slices, *ask, turns)?;
        outcomes.push(outcome)?;
    }
    Ok(outcomes)
}

/// Counts a packet of a slot.
fn count_packet(counts: &mut Vec<u32>, slot: usize) -> Result<(), AllocError>
    ensures own { OnOk result (get_or counts.new.items slot 0 ≤ get_or counts.old.items slot 0 + 1) }
    ensures others { OnOk result ((s : ℕ) → (slot == s) ≡ false
        → get_or counts.new.items s 0 ≡ get_or counts.old.items s 0) }
    ensures least { OnOk result ((slots : ℕ) → slot < slots → length counts.old.items ≤ slots
        → length counts.new.items ≤ slots) }
{
    reach(counts, slot)?;
    let count = counts[slot];
    counts[slot] = count.saturating_add(1);
    Ok(())
}

/// How many packets are asked of each slot, as far as a slot of a packet, mostly of so many: no slot has more.
fn count_packets(alloc: Global, slots: usize, asks: &[LineAsk]) -> Result<Vec<u32>, AllocError>
    ensures counts { IfOk result (λ counts. (slot : ℕ)
        → get_or counts.items slot 0 ≤ sum_by (packet_asked slot) asks.now) }
    ensures many { IfOk result (λ counts. (slots : ℕ) → All (IsPacketBelow slots) asks.now
        → length counts.items ≤ slots) }
{
    let mut counts = Vec::with_capacity(alloc, slots)?;
    for ask in asks {
        if let LineAsk::Packet(slot) = ask {
            count_packet(&mut counts, *slot as usize)?;
        }
    }
    Ok(counts)
}

/// The epoch closes: of each slot the packets that are left are handled.
fn close_all(slots: &mut Vec<SlotNumbers<'_>>) -> Result<(), AllocError>
    ensures { OnOk result (map (λ (slot : SlotNow). slot.met) slots.new.items
        ≡ map (λ (slot : SlotNow). (closed slot).met) slots.old.items) }
{
    for slot in 0..slots.len() {
        let one = &mut slots[slot];
        one.close()?;
    }
    Ok(())
}

/// The schedule of an epoch: by the rooms of its queues, how many slices it has, where each slot is bound for as it
/// begins (a slot without a bound for its start slice, its number modulo the slices), and what its lines ask, under
/// these turns.
pub fn schedule<'b>(
    alloc: Global,
    arena: &'b Bump,
    rooms: Rooms,
    slices: u8,
    bounds: &[u8],
    asks: &[LineAsk],
    turns: &mut Turns,
) -> Result<Scheduled<'b>, AllocError>
    requires slices { (1 ≤ slices) × (slices ≤ 64) }
    requires workers { AreWorkers slices turns.old }

    ensures outcomes { IfOk result (λ plan. plan.outcomes
        ≡ epoch.outcomes rooms (bound_in slices bounds.now) start
        (driven_by (map asked asks.now) (turns_told turns.old slices (length asks.now)))) }
    ensures met { IfOk result (λ plan. (slot : ℕ) → mets_of plan slot
        ≡ epoch.mets rooms (bound_in slices bounds.now)
        (driven_by (map asked asks.now) (turns_told turns.old slices (length asks.now))) slot) }
    ensures turns { OnOk result (turns.new ≡ turns_behind turns.old (length asks.now)) }
{
    let packets = count_packets(alloc, bounds.len(), asks)?;
    let setup = ScheduleSetup::new(rooms, slices, bounds, packets.as_slice());
    let mut numbers = Numbers {
        alloc,
        arena,
        slots: Vec::with_capacity(alloc, packets.len())?,
        controls: Vec::new(alloc),
        datas: Vec::new(alloc),
    };
    let mut waiting = WaitingSlots::new(alloc);
    let outcomes = lines(&mut numbers, &mut waiting, &setup, slices, asks, turns)?;
    let mut slots = numbers.slots;
    close_all(&mut slots)?;
    Ok(Scheduled { outcomes, slots })
}
