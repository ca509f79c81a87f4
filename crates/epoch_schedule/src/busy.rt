//! The control halves whose turn may change something: by slice their slots, in the order of the halves.
ghost use Rattle.std.specs.Bool.{OnTrue, OnFalse};
ghost use Rattle.std.specs.List.{insert, remove};
ghost use Rattle.std.specs.Prelude.{◌≡◌, ℕ, ◌∷◌, ◌<◌, ◌≤◌, ◌==◌, true, false, List, [], OnOk, length, get_or, nat_lt};
ghost use Rattle.epoch_schedule.specs.World.{slot_at};
ghost use Rattle.epoch_schedule.specs.Busy.{AreBusyBut, InOrder, IsLeft, IsWithoutSlot, IsWoken};
ghost use Rattle.epoch_schedule.specs.Busy as lively;
ghost use Rattle.epoch_schedule.specs.Rosters.{roster_at};
ghost use Rattle.epoch_schedule.specs.Rounds.{place_held, turn_of};
ghost use Rattle.epoch_schedule.specs.Worlds.{world_of};

use crate::roster::Roster;
use crate::setup::ScheduleSetup;
use crate::world::Numbers;
use std::alloc::{AllocError, Global};
use std::collections::VecDeque;
use std::marker::Model;

/// Slots in the order of their halves.
#[derive(Drop)]
pub struct BusyList {
    slots: VecDeque<usize>,
}

impl Model for BusyList {
    ghost use Rattle.std.specs.Prelude.{ℕ, List};

    ghost Value = { List ℕ };

    ghost view = { λ list. list.slots.items };
}

impl BusyList {
    pub fn new(alloc: Global) -> BusyList
        ensures { result ≡ [] }
    {
        BusyList {
            slots: VecDeque::new(alloc),
        }
    }

    fn len(&self) -> usize
        ensures { result ≡ length self.now }
    {
        self.slots.len()
    }

    fn at(&self, place: usize) -> usize
        requires { place < length self.now }
        ensures { result ≡ get_or self.now place 0 }
    {
        self.slots[place]
    }

    fn insert(&mut self, place: usize, slot: usize) -> Result<(), AllocError>
        requires { place ≤ length self.old }
        ensures { OnOk result (self.new ≡ insert self.old place slot) }
    {
        self.slots.insert(place, slot)?;
        Ok(())
    }

    fn remove(&mut self, place: usize)
        requires { place < length self.old }
        ensures { self.new ≡ remove self.old place }
    {
        self.slots.remove(place);
    }
}

/// Whether a turn of the control half of a slot changes nothing.
fn is_still(numbers: &Numbers<'_>, room: usize, slot: usize) -> bool
    ensures { result ≡ lively.is_still room (slot_at (world_of numbers.now) slot) }
{
    if slot < numbers.slots.len() {
        let one = &numbers.slots[slot];
        one.is_still(room)
    } else {
        true
    }
}

/// Makes the list long enough for a slice.
fn reach_list(busy: &mut Vec<BusyList>, alloc: Global, slice: usize) -> Result<(), AllocError>
    ensures within { OnOk result (slice < length busy.new.items) }
    ensures same { OnOk result ((other : ℕ) → get_or busy.new.items other [] ≡ get_or busy.old.items other []) }
{
    while busy.len() <= slice {
        busy.push(BusyList::new(alloc))?;
    }
    Ok(())
}

/// A place between two.
fn middle_of(from: usize, to: usize) -> usize
    requires { from < to }
    ensures from { from ≤ result }
    ensures to { result < to }
{
    from + (to - from) / 2
}

/// How many of these slots have halves before that of a slot.
fn place_among(roster: &Roster, list: &BusyList, slot: usize) -> usize
    requires ordered { InOrder 0 (length roster.now.held) roster.now.held list.now }
    requires there { place_held slot roster.now.held < length roster.now.held }
    ensures few { result ≤ length list.now }
    ensures before { (j : ℕ) → j < result
        → place_held (get_or list.now j 0) roster.now.held < place_held slot roster.now.held }
    ensures behind { (j : ℕ) → result ≤ j → j < length list.now
        → place_held slot roster.now.held ≤ place_held (get_or list.now j 0) roster.now.held }
{
    let mut from: usize = 0;
    let mut to = list.len();
    while from < to {
        let middle = middle_of(from, to);
        let own = list.at(middle);
        if roster.is_before(own, slot) {
            from = middle + 1;
        } else {
            to = middle;
        }
    }
    from
}

/// Whether a slot stands at this place.
fn stands_at(list: &BusyList, place: usize, slot: usize) -> bool
    ensures within { OnTrue result (place < length list.now) }
    ensures own { OnTrue result (get_or list.now place 0 ≡ slot) }
    ensures other { OnFalse result (place < length list.now → (get_or list.now place 0 == slot) ≡ false) }
{
    place < list.len() && list.at(place) == slot
}

/// Puts a slot into its place among these, if its half is there and it isn't one of them.
fn wake_on(roster: &Roster, list: &mut BusyList, slot: usize) -> Result<(), AllocError>
    requires { InOrder 0 (length roster.now.held) roster.now.held list.old }
    ensures { OnOk result (IsWoken slot roster.now.held list.old list.new) }
{
    if !roster.has(slot) {
        return Ok(());
    }
    let place = place_among(roster, list, slot);
    if stands_at(list, place, slot) {
        return Ok(());
    }
    list.insert(place, slot)
}

/// Takes up a slot, if a turn of its control half may change something.
pub fn wake(
    numbers: &Numbers<'_>,
    busy: &mut Vec<BusyList>,
    setup: &ScheduleSetup<'_>,
    slot: usize,
) -> Result<(), AllocError>
    requires { (but : List ℕ) × AreBusyBut setup.now.rooms.room but busy.old.items (world_of numbers.now) }
    ensures { OnOk result ((but : List ℕ)
        → AreBusyBut setup.now.rooms.room (slot ∷ but) busy.old.items (world_of numbers.now)
        → AreBusyBut setup.now.rooms.room but busy.new.items (world_of numbers.now)) }
{
    if is_still(numbers, setup.room(), slot) {
        return Ok(());
    }
    for slice in 0..numbers.controls.len() {
        reach_list(busy, numbers.alloc, slice)?;
        let worker = &numbers.controls[slice];
        let list = &mut busy[slice];
        wake_on(worker.roster(), list, slot)?;
    }
    Ok(())
}

/// Which of these slots has its turn next, from the cursor on.
fn next_among(roster: &Roster, list: &BusyList) -> usize
    requires ordered { InOrder 0 (length roster.now.held) roster.now.held list.now }
    requires some { 0 < length list.now }
    ensures within { result < length list.now }
    ensures first { (j : ℕ) → j < length list.now
        → turn_of roster.now (get_or list.now result 0) ≤ turn_of roster.now (get_or list.now j 0) }
{
    let mut from: usize = 0;
    let mut to = list.len();
    while from < to {
        let middle = middle_of(from, to);
        let own = list.at(middle);
        if roster.is_past(own) {
            from = middle + 1;
        } else {
            to = middle;
        }
    }
    if from < list.len() { from } else { 0 }
}

/// Whether a half of a slice may have work.
pub fn has_busy(busy: &Vec<BusyList>, slice: usize) -> bool
    ensures { result ≡ nat_lt 0 (length (get_or busy.now.items slice [])) }
{
    if slice < busy.len() {
        let list = &busy[slice];
        0 < list.len()
    } else {
        false
    }
}

/// Which of the busy halves of a slice has its turn next.
#[tactic(auto, using(crate::proofs::SlotSets::some_within))]
pub fn next_half(numbers: &Numbers<'_>, busy: &Vec<BusyList>, slice: usize) -> usize
    requires some { 0 < length (get_or busy.now.items slice []) }
    requires busy { (room : ℕ) × AreBusyBut room [] busy.now.items (world_of numbers.now) }
    ensures within { result < length (get_or busy.now.items slice []) }
    ensures first { (j : ℕ) → j < length (get_or busy.now.items slice [])
        → turn_of (roster_at (world_of numbers.now) slice) (get_or (get_or busy.now.items slice []) result 0)
        ≤ turn_of (roster_at (world_of numbers.now) slice) (get_or (get_or busy.now.items slice []) j 0) }
{
    let list = &busy[slice];
    if slice < numbers.controls.len() {
        let worker = &numbers.controls[slice];
        next_among(worker.roster(), list)
    } else {
        0
    }
}

/// The slot of a busy half.
#[tactic(auto, using(crate::proofs::SlotSets::some_within))]
pub fn busy_at(busy: &Vec<BusyList>, slice: usize, at: usize) -> usize
    requires { at < length (get_or busy.now.items slice []) }
    ensures { result ≡ get_or (get_or busy.now.items slice []) at 0 }
{
    let list = &busy[slice];
    list.at(at)
}

/// Leaves out a half that had its turn, if another one changes nothing.
#[tactic(auto, using(crate::proofs::SlotSets::some_within))]
pub fn rest_at(
    numbers: &Numbers<'_>,
    busy: &mut Vec<BusyList>,
    setup: &ScheduleSetup<'_>,
    slice: usize,
    at: usize,
    slot: usize,
)
    requires within { at < length (get_or busy.old.items slice []) }
    requires own { slot ≡ get_or (get_or busy.old.items slice []) at 0 }
    requires busy { AreBusyBut setup.now.rooms.room [] busy.old.items (world_of numbers.now) }
    ensures busy { AreBusyBut setup.now.rooms.room [] busy.new.items (world_of numbers.now) }
    ensures fewer { lively.is_still setup.now.rooms.room (slot_at (world_of numbers.now) slot) ≡ true
        → length (get_or busy.new.items slice []) < length (get_or busy.old.items slice []) }
{
    if !is_still(numbers, setup.room(), slot) {
        return;
    }
    let list = &mut busy[slice];
    list.remove(at);
}

/// Takes a slot out of these.
fn leave_on(roster: &Roster, list: &mut BusyList, slot: usize)
    requires { InOrder 0 (length roster.now.held) roster.now.held list.old }
    ensures { IsLeft slot roster.now.held list.old list.new }
{
    if !roster.has(slot) {
        return;
    }
    let place = place_among(roster, list, slot);
    if !stands_at(list, place, slot) {
        return;
    }
    list.remove(place);
}

/// Leaves out the slot of a half that is to leave a slice.
pub fn leave(numbers: &Numbers<'_>, busy: &mut Vec<BusyList>, slice: usize, slot: usize)
    requires { (room : ℕ) × AreBusyBut room [] busy.old.items (world_of numbers.now) }
    ensures { IsWithoutSlot slice slot busy.old.items busy.new.items (world_of numbers.now) }
{
    if slice >= busy.len() {
        return;
    }
    if slice >= numbers.controls.len() {
        return;
    }
    let worker = &numbers.controls[slice];
    let list = &mut busy[slice];
    leave_on(worker.roster(), list, slot);
}
