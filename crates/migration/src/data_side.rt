//! A side: the desks of its workers, and the place of each slot.
ghost use Rattle.std.specs.Prelude.{◌≡◌, ◌≢◌, ◌≤◌, ◌<◌, ◌+◌, ◌*◌, ◌^◌, ◌⊎◌, ℕ, All, true};
ghost use Rattle.std.specs.Prelude.{false, [], length, vec_len, vec_capacity, count_by, OnOk, OnErr, IfErr};
ghost use Rattle.std.specs.List.{sum_by};
ghost use Rattle.worker_core.specs.Workers.{IsNewDesk};
ghost use Rattle.migration.specs.DataDue.{is_among, Lists};
ghost use Rattle.migration.specs.DataLeavers.{Counts, leavers_of};
ghost use Rattle.migration.specs.DataPlaces.{names_of, Fits};
ghost use Rattle.migration.specs.DataSides.{AllKnown, Balanced, BySlot, IsDataSide, Weighed};
ghost use Rattle.migration.specs.DataSteps.{asked_after, refused_after};

use crate::data_leavers::Leavers;
use crate::data_place::{DataNo, DataPlace, DataState, UnexpectedHalf};
use crate::{data_due, data_steps};
use lane_core::NoMemory;
use pc_base::{SliceNo, Slot};
use std::alloc::Global;
use std::collections::VecDeque;
use std::snapshot::Snapshot;
use std::sync::Wait;
use worker_core::{DataDesk, DataTraveller, Log, grow, take_home, widen};

/// How many halves `pump` takes from a lane home at once, at most.
const HOME: usize = 64;

/// One side of the front.
#[derive(Drop)]
pub struct DataSide<H: DataTraveller> {
    alloc: Global,
    desks: Vec<DataDesk<H>>,
    /// By slot.
    places: Vec<Option<DataPlace<H>>>,
    /// Halves that came home though nobody had told them to.
    aside: Vec<UnexpectedHalf<H>>,
    /// The slots that have something to give, by slot: an order, or items for a half that is placed.
    due: Vec<Slot>,
    /// How many slots are leaving each slice: one that is leaving has nothing to give until its half came home.
    leavers: Leavers,
    /// How many items wait in a queue, at most.
    room: usize,
    admitted: usize,
    asked: u64,
    refused: u64,
    ghost laid: { IsDataSide H.name H.slot_at H.item_slot H.handled places.items aside.items desks.items
        room admitted asked },
    ghost aside_room: { admitted ≤ vec_capacity aside },
    ghost listed: { Lists places.items due.items },
    ghost due_room: { length places.items ≤ vec_capacity due },
    ghost counted: { Counts places.items leavers },
}

/// What is left of a side that stopped.
#[derive(Drop)]
pub struct DataSideEnd<H: DataTraveller> {
    pub desks: Vec<DataDesk<H>>,
    /// By slot.
    pub places: Vec<Option<DataPlace<H>>>,
    pub aside: Vec<UnexpectedHalf<H>>,
    pub ghost known: { AllKnown (λ half. H.slot_at (H.name half)) H.item_slot H.handled places.items desks.items
        aside.items },
    pub ghost balanced: { Balanced H.name places.items aside.items desks.items },
    pub ghost weighed: { Weighed H.handled places.items aside.items desks.items },
    pub ghost slots: { BySlot H.slot_at (names_of H.name places.items) },
    pub ghost fits: { All (Fits (length desks.items) 256) places.items },
}

impl<H: DataTraveller> DataSide<H> {
    ghost use Rattle.worker_core.specs.Desks.{lanes_of, homes_of, fulls_at, order_count};
    ghost use Rattle.worker_core.specs.Counts.{Lasts};
    ghost use Rattle.migration.specs.DataPlaces.{place_at, is_admitted, parks_at, waits_at, state_at, accepted_count};
    ghost use Rattle.migration.specs.DataSteps.{Served, Drained, Moved, Gave, AtSlot};
    ghost use Rattle.worker_core.specs.BySlot.{Grown};
    ghost use Rattle.migration.specs.DataPumps.{EachState, Pumps, IsOffered, KeepsAside, TakesHome, NoneLeaves};
    ghost use Rattle.migration.specs.DataQueues.{EachShortens, QueuesStay};
    ghost use Rattle.migration.specs.DataSides.{AllMetFull, QueuesMetFull};
    ghost use Rattle.worker_core.specs.Homes.{HomeEnded, HomeStays};
    ghost use Rattle.migration.specs.DataWords.{desks_of, places_of, aside_of, due_of, queue_room_of, admitted_of};
    ghost use Rattle.migration.specs.DataWords.{asked_of, refused_of, roll_of, accepts_of};
    ghost use Rattle.migration.specs.DataWords.{MetFull, Enters, Admits};
    ghost use Rattle.worker_core.specs.Homes.{TookOne};
    ghost use Rattle.worker_core.specs.Homes.{TookFrom};

    /// A side with these desks, one for each slice in order, no slot, and queues of at most so many
    /// items, 1 to 256.
    pub fn new(alloc: Global, desks: Vec<DataDesk<H>>, room: u32) -> DataSide<H>
        requires new { All IsNewDesk desks.items }
        requires room { (1 ≤ room) × (room ≤ 256) }
        ensures desks { desks_of result ≡ desks.items }
        ensures none { places_of result ≡ [] }
        ensures room { queue_room_of result ≡ room }
        ensures counts { (asked_of result ≡ 0) × (refused_of result ≡ 0) }
    {
        DataSide {
            alloc,
            desks,
            places: Vec::new(alloc),
            aside: Vec::new(alloc),
            due: Vec::new(alloc),
            leavers: Leavers::none(),
            room: room as usize,
            admitted: 0,
            asked: 0,
            refused: 0,
        }
    }

    /// Admits a half that has handled no item, which is bound for a slice, and offers it there at once.
    /// It comes back only where memory runs out.
    pub fn admit<R: Wait>(&mut self, rt: &R, half: H, slice: SliceNo, moved: bool) -> Result<(), H>
        requires fresh { is_admitted (place_at (places_of self.old) (H.slot_at (H.name half))) ≡ false }
        requires unhandled { H.handled half ≡ [] }
        requires slice { slice < length (desks_of self.old) }
        requires asked { asked_of self.old < 2 ^ 48 }

        // The half is at the front only where the lane of its slice was full, and else it was sent there.
        ensures ok { OnOk result (Admits (H.slot_at (H.name half)) slice moved half
            (places_of self.old) (places_of self.new) (desks_of self.old) (desks_of self.new)) }
        ensures ok_asked { OnOk result (asked_of self.new ≡ asked_of self.old + 1) }

        ensures err { IfErr result (λ back. back ≡ half) }
        ensures err_same { OnErr result (Grown (places_of self.old) (places_of self.new)
            × (desks_of self.new ≡ desks_of self.old) × (asked_of self.new ≡ asked_of self.old)) }
        ensures lanes { lanes_of (desks_of self.new) ≡ lanes_of (desks_of self.old) }
        ensures refused { refused_of self.new ≡ refused_of self.old }
        ensures room { queue_room_of self.new ≡ queue_room_of self.old }
    {
        let slot = half.slot();
        let Ok(()) = self.make_room(slot) else {
            return Err(half);
        };
        self.enter(slot, half, slice, moved);
        self.serve(rt, slot);
        Ok(())
    }

    /// Moves a slot to a slice. A half that is at another one is told to leave it.
    pub fn go<R: Wait>(&mut self, rt: &R, slot: Slot, slice: SliceNo)
        requires admitted { is_admitted (place_at (places_of self.old) slot) ≡ true }
        requires slice { slice < length (desks_of self.old) }
        requires asked { asked_of self.old < 2 ^ 48 }

        // A half that was placed waits to be recalled only where the lane of its slice was full.
        ensures moves { AtSlot (Moved (λ half. H.slot_at (H.name half)) H.item_slot H.handled slot slice) slot
            (places_of self.old) (places_of self.new) (desks_of self.old) (desks_of self.new) }
        ensures asked { asked_of self.new ≡ asked_of self.old + 1 }
        ensures names { names_of H.name (places_of self.new) ≡ names_of H.name (places_of self.old) }
        ensures accepted { accepts_of (places_of self.new) ≡ accepts_of (places_of self.old) }
        ensures lanes { lanes_of (desks_of self.new) ≡ lanes_of (desks_of self.old) }
        ensures refused { refused_of self.new ≡ refused_of self.old }
        ensures room { queue_room_of self.new ≡ queue_room_of self.old }
    {
        self.asked += 1;
        let was = data_due::left(&self.places, slot);
        data_steps::go_at(rt, &mut self.desks, &mut self.places, slot, slice);
        let is = data_due::left(&self.places, slot);
        self.leavers.shift(was, is);
        let joins = data_due::is_due(&self.places, slot);
        data_due::list(&mut self.due, slot, joins);
    }

    /// Takes home what came, at most 64 halves of each slice that a slot is leaving; then gives each order
    /// that waits, by slot; and then sends what waits in the queues of placed slots, by slot. It looks at those
    /// slots alone whose half came home, or met a full lane before, so one that is leaving costs nothing.
    pub fn pump<R: Wait>(&mut self, rt: &R)
        ensures roll { roll_of H.name self.new ≡ roll_of H.name self.old }
        ensures room { queue_room_of self.new ≡ queue_room_of self.old }

        // What a queue had is what was sent of it, then what it has; and a slot that isn't parked stays so.
        ensures drains { EachShortens (places_of self.old) (places_of self.new) }
        ensures rests { (slot : ℕ) → parks_at (place_at (places_of self.old) slot) ≡ false
            → parks_at (place_at (places_of self.new) slot) ≡ false }

        // A half that its slot waited for stands at the front or was sent on, and only others are kept aside.
        ensures states { EachState Pumps (places_of self.old) (places_of self.new) }
        ensures aside { KeepsAside (λ half. H.slot_at (H.name half)) (places_of self.old) (places_of self.new)
            (aside_of self.old) (aside_of self.new) }

        // What waits on met a full lane, and no more came home than may at once, or none was on its way: then the
        // lane home isn't touched.
        ensures full { AllMetFull (places_of self.new) (desks_of self.old) (desks_of self.new) }
        ensures queues { QueuesMetFull (places_of self.new) (desks_of self.old) (desks_of self.new) }
        ensures home { (slice : ℕ) → slice < length (desks_of self.old)
            → HomeEnded (length (aside_of self.new)) (admitted_of self.new) slice (desks_of self.old)
            (desks_of self.new) ⊎ NoneLeaves slice (places_of self.old) }
        ensures stays { (slice : ℕ) → NoneLeaves slice (places_of self.old)
            → HomeStays slice (desks_of self.old) (desks_of self.new) }
    {
        if self.rests() {
            return;
        }
        self.pump_due(rt);
    }

    // Whether no slot has something to give, or is leaving a slice.
    fn rests(&self) -> bool
        ensures { result ≡ true → (due_of self.now ≡ []) × (self.now.leavers.all ≡ 0) }
    {
        self.due.is_empty() && self.leavers.all == 0
    }

    // The same where something may be due, or come home.
    fn pump_due<R: Wait>(&mut self, rt: &R)
        ensures roll { roll_of H.name self.new ≡ roll_of H.name self.old }
        ensures room { queue_room_of self.new ≡ queue_room_of self.old }
        ensures drains { EachShortens (places_of self.old) (places_of self.new) }
        ensures rests { (slot : ℕ) → parks_at (place_at (places_of self.old) slot) ≡ false
            → parks_at (place_at (places_of self.new) slot) ≡ false }
        ensures states { EachState Pumps (places_of self.old) (places_of self.new) }
        ensures aside { KeepsAside (λ half. H.slot_at (H.name half)) (places_of self.old) (places_of self.new)
            (aside_of self.old) (aside_of self.new) }
        ensures full { AllMetFull (places_of self.new) (desks_of self.old) (desks_of self.new) }
        ensures queues { QueuesMetFull (places_of self.new) (desks_of self.old) (desks_of self.new) }
        ensures home { (slice : ℕ) → slice < length (desks_of self.old)
            → HomeEnded (length (aside_of self.new)) (admitted_of self.new) slice (desks_of self.old)
            (desks_of self.new) ⊎ NoneLeaves slice (places_of self.old) }
        ensures stays { (slice : ℕ) → NoneLeaves slice (places_of self.old)
            → HomeStays slice (desks_of self.old) (desks_of self.new) }
    {
        self.take_all(rt);
        self.serve_all(rt);
        self.drain_all(rt);
    }

    /// Whether an item that is given for a slot goes to its queue: the slot moved, and its half isn't
    /// placed or others wait there.
    pub fn parks(&self, slot: Slot) -> bool
        ensures { result ≡ parks_at (place_at (places_of self.now) slot) }
    {
        match self.places.get(slot.0 as usize) {
            Some(Some(place)) => data_steps::parks(place),
            _ => false,
        }
    }

    /// Accepts an item for its slot: into its queue where it parks, and else into the lane of its slice. The answer
    /// says whether it is parked.
    pub fn give<R: Wait>(&mut self, rt: &R, item: H::Item) -> Result<bool, DataNo<H::Item>>
        requires admitted { is_admitted (place_at (places_of self.old) (H.item_slot item)) ≡ true }
        requires asked { asked_of self.old < 2 ^ 48 }

        // Where its slot parks it goes last into the queue, and else after its half into the lane.
        ensures gives { AtSlot (Gave (λ half. H.slot_at (H.name half)) H.item_slot H.handled (H.item_slot item)
            (queue_room_of self.old) item result) (H.item_slot item)
            (places_of self.old) (places_of self.new) (desks_of self.old) (desks_of self.new) }
        ensures counts { (asked_of self.new ≡ asked_after result (asked_of self.old))
            × (refused_of self.new ≡ refused_after result (refused_of self.old)) }
        ensures full { IfErr result (λ refusal. parks_at (place_at (places_of self.old) (H.item_slot item)) ≡ false
            → MetFull (desks_of self.old) (desks_of self.new)) }
        ensures names { names_of H.name (places_of self.new) ≡ names_of H.name (places_of self.old) }
        ensures lanes { lanes_of (desks_of self.new) ≡ lanes_of (desks_of self.old) }
        ensures room { queue_room_of self.new ≡ queue_room_of self.old }
    {
        let slot = H::slot_of(&item);
        let answer = data_steps::give_at(
            rt,
            &mut self.desks,
            &mut self.places,
            slot,
            self.room,
            item,
        );
        self.asked = asked_now(&answer, self.asked);
        self.refused = refused_now(&answer, self.refused);
        answer
    }

    /// Whether a half was admitted at this slot.
    pub fn is_admitted(&self, slot: Slot) -> bool
        ensures { result ≡ is_admitted (place_at (places_of self.now) slot) }
    {
        matches!(self.places.get(slot.0 as usize), Some(Some(_)))
    }

    /// How many slices the side has.
    pub fn slices(&self) -> usize
        ensures { result ≡ length (desks_of self.now) }
    {
        self.desks.len()
    }

    /// How many calls of `admit` that kept their half, of `go`, and of `give` that accepted an item.
    pub fn asked(&self) -> u64
        ensures asked { result ≡ asked_of self.now }

        // Each half that was admitted and each accepted item owes one order, and each move two at most.
        ensures few { sum_by order_count (desks_of self.now) + sum_by accepted_count (places_of self.now)
            + count_by is_admitted (places_of self.now) ≤ 2 * result }
    {
        self.asked
    }

    /// How many calls of `give` answered `Full`; at the last u64 it stays.
    pub fn refused(&self) -> u64
        ensures { result ≡ refused_of self.now }
    {
        self.refused
    }

    /// Gives what the side has.
    pub fn into_end(self) -> DataSideEnd<H>
        ensures desks { result.desks.items ≡ desks_of self }
        ensures places { result.places.items ≡ places_of self }
        ensures aside { result.aside.items ≡ aside_of self }
    {
        DataSideEnd {
            desks: self.desks,
            places: self.places,
            aside: self.aside,
        }
    }

    // Room for the place of a slot, in the list of those that are due too, and for one more half aside.
    fn make_room(&mut self, slot: Slot) -> Result<(), NoMemory>
        ensures grown { Grown (places_of self.old) (places_of self.new) }
        ensures desks { desks_of self.new ≡ desks_of self.old }
        ensures due { due_of self.new ≡ due_of self.old }
        ensures counts { (admitted_of self.new ≡ admitted_of self.old) × (asked_of self.new ≡ asked_of self.old)
            × (refused_of self.new ≡ refused_of self.old) × (queue_room_of self.new ≡ queue_room_of self.old) }
        ensures enough { OnOk result ((slot < vec_len self.new.places)
            × (admitted_of self.new < vec_capacity self.new.aside)) }
    {
        widen(&mut self.due, slot.0 as usize + 1)?;
        grow(&mut self.places, slot.0 as usize + 1)?;
        widen(&mut self.aside, self.admitted + 1)
    }

    // A half stands at the front of its slot.
    fn enter(&mut self, slot: Slot, half: H, slice: SliceNo, moved: bool)
        requires within { slot < vec_len self.old.places }
        requires own { H.slot_at (H.name half) ≡ slot }
        requires fresh { is_admitted (place_at (places_of self.old) slot) ≡ false }
        requires unhandled { H.handled half ≡ [] }
        requires slice { slice < length (desks_of self.old) }
        requires asked { asked_of self.old < 2 ^ 48 }
        requires room { admitted_of self.old < vec_capacity self.old.aside }
        ensures enters { Enters slot slice moved half (places_of self.old) (places_of self.new) }
        ensures desks { desks_of self.new ≡ desks_of self.old }
        ensures counts { (asked_of self.new ≡ asked_of self.old + 1) × (refused_of self.new ≡ refused_of self.old)
            × (queue_room_of self.new ≡ queue_room_of self.old) }
        ensures due { is_among slot (due_of self.new) ≡ true }
    {
        self.asked += 1;
        self.admitted += 1;
        let place = DataPlace {
            moved,
            admitted: Snapshot::of(&half),
            state: DataState::Front { half, to: slice },
            queue: VecDeque::new(self.alloc),
            accepted: Log::new(),
        };
        data_steps::put(&mut self.places, slot, place);
        data_due::list(&mut self.due, slot, true);
    }

    // Offers the order that a slot waits to give.
    fn serve<R: Wait>(&mut self, rt: &R, slot: Slot)
        requires { is_among slot (due_of self.old) ≡ true }
        ensures due { due_of self.new ≡ due_of self.old }
        ensures served { AtSlot (Served (λ half. H.slot_at (H.name half)) H.item_slot H.handled slot) slot
            (places_of self.old) (places_of self.new) (desks_of self.old) (desks_of self.new) }
        ensures roll { roll_of H.name self.new ≡ roll_of H.name self.old }
        ensures aside { aside_of self.new ≡ aside_of self.old }
        ensures homes { homes_of (desks_of self.new) ≡ homes_of (desks_of self.old) }
    {
        let was = data_due::left(&self.places, slot);
        data_steps::serve_at(rt, &mut self.desks, &mut self.places, slot);
        let is = data_due::left(&self.places, slot);
        self.leavers.shift(was, is);
    }

    // Sends what waits in the queue of a slot.
    fn drain<R: Wait>(&mut self, rt: &R, slot: Slot)
        requires { is_among slot (due_of self.old) ≡ true }
        ensures due { due_of self.new ≡ due_of self.old }
        ensures drained { AtSlot (Drained (λ half. H.slot_at (H.name half)) H.item_slot H.handled slot) slot
            (places_of self.old) (places_of self.new) (desks_of self.old) (desks_of self.new) }
        ensures roll { roll_of H.name self.new ≡ roll_of H.name self.old }
        ensures aside { aside_of self.new ≡ aside_of self.old }
        ensures homes { homes_of (desks_of self.new) ≡ homes_of (desks_of self.old) }
    {
        data_steps::drain_at(rt, &mut self.desks, &mut self.places, slot);
    }

    // Gives each order that waits, by slot.
    fn serve_all<R: Wait>(&mut self, rt: &R)
        ensures roll { roll_of H.name self.new ≡ roll_of H.name self.old }
        ensures aside { aside_of self.new ≡ aside_of self.old }
        ensures homes { homes_of (desks_of self.new) ≡ homes_of (desks_of self.old) }
        ensures states { EachState IsOffered (places_of self.old) (places_of self.new) }
        ensures queues { QueuesStay (places_of self.old) (places_of self.new) }
        ensures full { AllMetFull (places_of self.new) (desks_of self.old) (desks_of self.new) }
        ensures lasts { (slice : ℕ) → Lasts (fulls_at (desks_of self.old) slice) (fulls_at (desks_of self.new) slice) }
    {
        for at in 0..self.due.len() {
            let slot = self.due[at];
            self.serve(rt, slot);
        }
    }

    // Sends what waits in the queues, by slot, and drops from the list those slots that are due no more.
    fn drain_all<R: Wait>(&mut self, rt: &R)
        ensures roll { roll_of H.name self.new ≡ roll_of H.name self.old }
        ensures aside { aside_of self.new ≡ aside_of self.old }
        ensures homes { homes_of (desks_of self.new) ≡ homes_of (desks_of self.old) }
        ensures states { (slot : ℕ) → state_at (place_at (places_of self.new) slot)
            ≡ state_at (place_at (places_of self.old) slot) }
        ensures waits { (slot : ℕ) → waits_at (place_at (places_of self.new) slot)
            ≡ waits_at (place_at (places_of self.old) slot) }
        ensures drains { EachShortens (places_of self.old) (places_of self.new) }
        ensures queues { QueuesMetFull (places_of self.new) (desks_of self.old) (desks_of self.new) }
        ensures lasts { (slice : ℕ) → Lasts (fulls_at (desks_of self.old) slice) (fulls_at (desks_of self.new) slice) }
    {
        for at in 0..self.due.len() {
            let slot = self.due[at];
            self.drain(rt, slot);
        }
        data_due::keep_due(&mut self.due, &self.places);
    }

    // Takes home what came, from each slice that a slot is leaving.
    fn take_all<R: Wait>(&mut self, rt: &R)
        ensures roll { roll_of H.name self.new ≡ roll_of H.name self.old }
        ensures takes { TakesHome (λ half. H.slot_at (H.name half)) (places_of self.old)
            (places_of self.new) (aside_of self.old) (aside_of self.new) }
        ensures home { (slice : ℕ) → slice < length (desks_of self.old)
            → HomeEnded (length (aside_of self.new)) (admitted_of self.new) slice (desks_of self.old)
            (desks_of self.new) ⊎ NoneLeaves slice (places_of self.old) }
        ensures stays { (slice : ℕ) → NoneLeaves slice (places_of self.old)
            → HomeStays slice (desks_of self.old) (desks_of self.new) }
        ensures fulls { (slice : ℕ) → fulls_at (desks_of self.new) slice ≡ fulls_at (desks_of self.old) slice }
    {
        for slice in 0..self.desks.len() {
            let left = self.leavers.has(slice);
            self.take_left(rt, slice, left);
        }
    }

    // Takes home what came from a slice, if a slot is leaving it.
    fn take_left<R: Wait>(&mut self, rt: &R, slice: usize, left: bool)
        requires { slice < vec_len self.old.desks }
        ensures roll { roll_of H.name self.new ≡ roll_of H.name self.old }
        ensures takes { TakesHome (λ half. H.slot_at (H.name half)) (places_of self.old)
            (places_of self.new) (aside_of self.old) (aside_of self.new) }
        ensures len { vec_len self.new.desks ≡ vec_len self.old.desks }
        ensures took { left ≡ true → TookFrom slice (admitted_of self.new) (aside_of self.old) (aside_of self.new)
            (desks_of self.old) (desks_of self.new) }
        ensures none { left ≡ false → (aside_of self.new ≡ aside_of self.old)
            × (desks_of self.new ≡ desks_of self.old) }
        ensures leave { (other : ℕ) → other ≢ slice
            → leavers_of other (places_of self.new) ≡ leavers_of other (places_of self.old) }
    {
        if left {
            self.take_from(rt, slice);
        }
    }

    // Takes home what came from a slice.
    fn take_from<R: Wait>(&mut self, rt: &R, slice: usize)
        requires { slice < vec_len self.old.desks }
        ensures roll { roll_of H.name self.new ≡ roll_of H.name self.old }
        ensures takes { TakesHome (λ half. H.slot_at (H.name half)) (places_of self.old)
            (places_of self.new) (aside_of self.old) (aside_of self.new) }
        ensures len { vec_len self.new.desks ≡ vec_len self.old.desks }
        ensures took { TookFrom slice (admitted_of self.new) (aside_of self.old) (aside_of self.new)
            (desks_of self.old) (desks_of self.new) }
        ensures leave { (other : ℕ) → other ≢ slice
            → leavers_of other (places_of self.new) ≡ leavers_of other (places_of self.old) }
    {
        for _ in 0..HOME {
            if !self.take_one(rt, slice) {
                return;
            }
        }
    }

    // Takes a half home, unless as many are kept aside as slots are admitted.
    fn take_one<R: Wait>(&mut self, rt: &R, slice: usize) -> bool
        requires { slice < vec_len self.old.desks }
        ensures roll { roll_of H.name self.new ≡ roll_of H.name self.old }
        ensures takes { TakesHome (λ half. H.slot_at (H.name half)) (places_of self.old)
            (places_of self.new) (aside_of self.old) (aside_of self.new) }
        ensures len { vec_len self.new.desks ≡ vec_len self.old.desks }
        ensures took { TookOne result slice (admitted_of self.new) (aside_of self.old) (aside_of self.new)
            (desks_of self.old) (desks_of self.new) }
        ensures leave { (other : ℕ) → other ≢ slice
            → leavers_of other (places_of self.new) ≡ leavers_of other (places_of self.old) }
    {
        if self.aside.len() >= self.admitted {
            return false;
        }
        let Some(half) = take_home(rt, &mut self.desks, slice) else {
            return false;
        };
        let slot = half.slot();
        let was = data_due::left(&self.places, slot);
        match data_steps::welcome_at(&mut self.places, &self.aside, half, slice, slot) {
            Some(half) => {
                self.aside.push_reserved(UnexpectedHalf { half, slice });
                true
            }
            None => {
                self.leavers.shift(was, None);
                data_due::list(&mut self.due, slot, true);
                true
            }
        }
    }
}

// How many calls there were after an answer of `give`.
fn asked_now<I>(answer: &Result<bool, DataNo<I>>, asked: u64) -> u64
    requires { asked < 2 ^ 48 }
    ensures { result ≡ asked_after answer.now asked }
{
    match answer {
        Ok(_) => asked + 1,
        Err(_) => asked,
    }
}

// How many refusals.
fn refused_now<I>(answer: &Result<bool, DataNo<I>>, refused: u64) -> u64
    ensures { result ≡ refused_after answer.now refused }
{
    match answer {
        Ok(_) => refused,
        Err(DataNo::Full(_)) => refused.saturating_add(1),
        Err(DataNo::NoMemory(_)) => refused,
    }
}
