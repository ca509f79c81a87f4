//! The slots that want something of a pass of the pump: a visit, or room in a lane. No other slot is visited before a
//! line.
ghost use Rattle.std.specs.Prelude.{◌≡◌, ℕ, ◌-◌, ◌<◌, ◌≤◌, ◌==◌, ◌&&◌, ◌||◌, not, true, [], OnOk, IfSome, IfNone};
ghost use Rattle.std.specs.Prelude.{false, length, get_or};
ghost use Rattle.std.specs.Bool.{OnTrue};
ghost use Rattle.epoch_schedule.specs.World.{start};
ghost use Rattle.epoch_schedule.specs.Listed.{AreListed};
ghost use Rattle.epoch_schedule.specs.Setups.{EpochSetup};
ghost use Rattle.epoch_schedule.specs.Waiting.{is_in, waits_of, IsLeftOut, IsLeftOutOf, IsPut};

use crate::busy::BusyList;
use std::alloc::{AllocError, Global};
use std::collections::BTreeSet;
use std::marker::Model;

/// Slots, each once.
#[derive(Drop)]
pub struct SlotSet {
    slots: BTreeSet<usize>,
}

impl Model for SlotSet {
    ghost use Rattle.std.specs.Prelude.{ℕ, List};

    ghost Value = { List ℕ };

    ghost view = { λ set. set.slots.keys };
}

impl SlotSet {
    pub fn new(alloc: Global) -> SlotSet
        ensures { result ≡ [] }
    {
        SlotSet {
            slots: BTreeSet::new(alloc),
        }
    }

    pub fn is_empty(&self) -> bool
        ensures { OnTrue result (self.now ≡ []) }
    {
        self.slots.is_empty()
    }

    /// The lowest one from a slot on.
    pub fn first_from(&self, from: usize) -> Option<usize>
        ensures none { IfNone result ((s : ℕ) → from ≤ s → is_in self.now s ≡ true → ⊥) }
        ensures own { IfSome result (λ slot. (from ≤ slot) × (is_in self.now slot ≡ true)) }
        ensures least { IfSome result (λ slot. (s : ℕ) → from ≤ s → is_in self.now s ≡ true → slot ≤ s) }
    {
        match self.slots.range(from..).next() {
            Some(slot) => Some(*slot),
            None => None,
        }
    }

    pub fn insert(&mut self, slot: usize) -> Result<(), AllocError>
        ensures { OnOk result ((s : ℕ) → is_in self.new s ≡ ((slot == s) || is_in self.old s)) }
    {
        self.slots.insert(slot)?;
        Ok(())
    }

    pub fn remove(&mut self, slot: usize)
        ensures { (s : ℕ) → is_in self.new s ≡ (not (slot == s) && is_in self.old s) }
    {
        self.slots.remove(&slot);
    }
}

/// A pass of the pump over the slots: it offers control halves, or data halves, or packets that wait.
#[derive(Clone, Copy)]
pub enum Pass {
    Controls,
    Datas,
    Queues,
}

/// What a slot wants of a pass.
#[derive(Clone, Copy)]
pub enum Want {
    Nothing,
    Visit,
    Room(usize),
}

/// The slots that want a visit, and by lane those that want room in it.
#[derive(Drop)]
pub struct PassWaits {
    pub visits: SlotSet,
    pub lanes: Vec<SlotSet>,
}

impl PassWaits {
    pub fn new(alloc: Global) -> PassWaits {
        PassWaits {
            visits: SlotSet::new(alloc),
            lanes: Vec::new(alloc),
        }
    }

    /// Whether no slot wants anything.
    #[inline(always)]
    pub fn is_idle(&self) -> bool
        ensures visits { OnTrue result (self.now.visits ≡ []) }
        ensures lanes { OnTrue result (self.now.lanes.items ≡ []) }
    {
        self.lanes.is_empty() && self.visits.is_empty()
    }

    /// A slot wants this: mostly nothing.
    #[inline(always)]
    pub fn put(&mut self, alloc: Global, slot: usize, want: Want) -> Result<(), AllocError>
        ensures { OnOk result (IsPut slot want self.old self.new) }
    {
        match want {
            Want::Nothing => Ok(()),
            Want::Visit => self.visits.insert(slot),
            Want::Room(lane) => put_in(&mut self.lanes, alloc, lane, slot),
        }
    }

    /// A slot doesn't want this any more.
    pub fn leave_out(&mut self, slot: usize, want: Want)
        ensures { IsLeftOut slot self.old self.new }
    {
        match want {
            Want::Nothing => {}
            Want::Visit => self.visits.remove(slot),
            Want::Room(lane) => leave_in(&mut self.lanes, lane, slot),
        }
    }
}

/// Of each pass; and by slice the slots of control halves that may have work.
#[derive(Drop)]
pub struct WaitingSlots {
    pub controls: PassWaits,
    pub datas: PassWaits,
    pub queues: PassWaits,
    pub busy: Vec<BusyList>,
}

impl WaitingSlots {
    pub fn new(alloc: Global) -> WaitingSlots
        ensures { (setup : EpochSetup) → AreListed setup result start }
    {
        WaitingSlots {
            controls: PassWaits::new(alloc),
            datas: PassWaits::new(alloc),
            queues: PassWaits::new(alloc),
            busy: Vec::new(alloc),
        }
    }

    #[inline(always)]
    pub fn of_pass(&self, pass: Pass) -> &PassWaits
        ensures { result.now ≡ waits_of pass self.now }
    {
        match pass {
            Pass::Controls => &self.controls,
            Pass::Datas => &self.datas,
            Pass::Queues => &self.queues,
        }
    }

    /// A slot that was visited stands there no longer.
    pub fn leave_out(&mut self, pass: Pass, slot: usize, want: Want)
        ensures { IsLeftOutOf slot self.old self.new }
    {
        match pass {
            Pass::Controls => self.controls.leave_out(slot, want),
            Pass::Datas => self.datas.leave_out(slot, want),
            Pass::Queues => self.queues.leave_out(slot, want),
        }
    }
}

/// Makes the list long enough for a lane.
fn reach_lane(lanes: &mut Vec<SlotSet>, alloc: Global, lane: usize) -> Result<(), AllocError>
    ensures within { OnOk result (lane < length lanes.new.items) }
    ensures same { OnOk result ((other : ℕ) → get_or lanes.new.items other [] ≡ get_or lanes.old.items other []) }
{
    while lanes.len() <= lane {
        lanes.push(SlotSet::new(alloc))?;
    }
    Ok(())
}

/// Puts a slot into a lane.
fn put_in(
    lanes: &mut Vec<SlotSet>,
    alloc: Global,
    lane: usize,
    slot: usize,
) -> Result<(), AllocError>
    ensures own { OnOk result (is_in (get_or lanes.new.items lane []) slot ≡ true) }
    ensures more { OnOk result ((other s : ℕ) → is_in (get_or lanes.old.items other []) s ≡ true
        → is_in (get_or lanes.new.items other []) s ≡ true) }
{
    reach_lane(lanes, alloc, lane)?;
    let set = &mut lanes[lane];
    set.insert(slot)
}

/// Whether no slot stands in the last lane.
fn is_last_empty(lanes: &Vec<SlotSet>) -> bool
    ensures some { OnTrue result (0 < length lanes.now.items) }
    ensures none { OnTrue result (get_or lanes.now.items (length lanes.now.items - 1) [] ≡ []) }
{
    if lanes.is_empty() {
        return false;
    }
    let set = &lanes[lanes.len() - 1];
    set.is_empty()
}

/// Leaves out the last lanes in which no slot stands.
fn trim(lanes: &mut Vec<SlotSet>)
    ensures { (other : ℕ) → get_or lanes.new.items other [] ≡ get_or lanes.old.items other [] }
{
    while is_last_empty(lanes) {
        lanes.pop();
    }
}

/// Takes a slot out of a lane.
fn leave_in(lanes: &mut Vec<SlotSet>, lane: usize, slot: usize)
    ensures { (other s : ℕ) → (slot == s) ≡ false → is_in (get_or lanes.old.items other []) s ≡ true
        → is_in (get_or lanes.new.items other []) s ≡ true }
{
    if lane >= lanes.len() {
        return;
    }
    let set = &mut lanes[lane];
    set.remove(slot);
    trim(lanes);
}
