//! A side: the desks of its workers, and the state of each slot.
ghost use Rattle.std.specs.Prelude.{◌≡◌, ◌≤◌, ◌<◌, ◌+◌, ◌^◌, ℕ, All, true};
ghost use Rattle.std.specs.Prelude.{false, [], length, reverse, vec_len, vec_capacity, OnOk, OnErr, IfErr};
ghost use Rattle.worker_core.specs.Workers.{IsNewDesk};
ghost use Rattle.migration.specs.Places.{names_of};
ghost use Rattle.migration.specs.Sides.{Balanced, BySlot, IsSide};

use crate::place::ControlPlace;
use crate::steps;
use lane_core::NoMemory;
use pc_base::{SliceNo, Slot};
use std::alloc::Global;
use std::snapshot::Snapshot;
use std::sync::Wait;
use worker_core::{Desk, Traveller, grow, take_home, widen};

/// How many halves `pump` takes from a lane home at once, at most.
const HOME: usize = 64;

/// One side of the front.
#[derive(Drop)]
pub struct Side<H: Traveller> {
    desks: Vec<Desk<H>>,
    /// By slot.
    places: Vec<Option<ControlPlace<H>>>,
    /// Halves that came home though nobody had told them to.
    aside: Vec<H>,
    /// The slots that have an order to give, and while `pump` gives orders those it has looked at.
    waiting: Vec<Slot>,
    /// Those that it has still to look at, the lowest last.
    serving: Vec<Slot>,
    admitted: usize,
    asked: u64,
    ghost laid: { IsSide H.name H.slot_of places.items aside.items desks.items waiting.items serving.items
        admitted asked },
    ghost aside_room: { admitted ≤ vec_capacity aside },
    ghost waiting_room: { admitted ≤ vec_capacity waiting },
    ghost serving_room: { admitted ≤ vec_capacity serving },
}

/// What is left of a side that stopped: its desks, the state of each slot, and the halves kept aside.
#[derive(Drop)]
pub struct SideEnd<H: Traveller> {
    pub desks: Vec<Desk<H>>,
    /// By slot.
    pub places: Vec<Option<ControlPlace<H>>>,
    pub aside: Vec<H>,
    pub ghost balanced: { Balanced H.name places.items aside.items desks.items },
    pub ghost slots: { BySlot H.slot_of (names_of H.name places.items) },
}

impl<H: Traveller> Side<H> {
    ghost use Rattle.worker_core.specs.Desks.{lanes_of, homes_of, fulls_at};
    ghost use Rattle.migration.specs.Places.{place_at, is_admitted, is_placed_at, slice_at};
    ghost use Rattle.migration.specs.Steps.{Admits, MovesAt};
    ghost use Rattle.worker_core.specs.BySlot.{Grown};
    ghost use Rattle.migration.specs.Sides.{AllMetFull};
    ghost use Rattle.worker_core.specs.Homes.{HomeEnded};
    ghost use Rattle.migration.specs.Passes.{Passes};
    ghost use Rattle.migration.specs.Pumps.{TakesHome, LinedUp, NoneWaits, ServesEach, PumpsBySlot};
    ghost use Rattle.migration.specs.Words.{desks_of, places_of, aside_of, waiting_of, serving_of, admitted_of};
    ghost use Rattle.migration.specs.Words.{asked_of};
    ghost use Rattle.migration.specs.Words.{roll_of, ServedNext};
    ghost use Rattle.worker_core.specs.Homes.{TookOne, TookFrom};

    /// A side with these desks, one for each slice in order, and no slot.
    pub fn new(alloc: Global, desks: Vec<Desk<H>>) -> Side<H>
        requires { All IsNewDesk desks.items }
        ensures desks { desks_of result ≡ desks.items }
        ensures none { places_of result ≡ [] }
        ensures asked { asked_of result ≡ 0 }
    {
        Side {
            desks,
            places: Vec::new(alloc),
            aside: Vec::new(alloc),
            waiting: Vec::new(alloc),
            serving: Vec::new(alloc),
            admitted: 0,
            asked: 0,
        }
    }

    /// Admits a half, which is bound for a slice, and offers it there at once. It comes back only
    /// where memory runs out.
    pub fn admit<R: Wait>(&mut self, rt: &R, half: H, slice: SliceNo, hop: u64) -> Result<(), H>
        requires fresh { is_admitted (place_at (places_of self.old) (H.slot_of (H.name half))) ≡ false }
        requires slice { slice < length (desks_of self.old) }
        requires hop { hop < 2 ^ 60 }
        requires asked { asked_of self.old < 2 ^ 48 }

        // The half is at the front only where the lane of its slice was full, and else it was sent there.
        ensures ok { OnOk result (Admits H.name H.hop_of (H.slot_of (H.name half)) slice hop half
            (places_of self.old) (places_of self.new) (desks_of self.old) (desks_of self.new)) }
        ensures ok_asked { OnOk result (asked_of self.new ≡ asked_of self.old + 1) }

        ensures err { IfErr result (λ back. back ≡ half) }
        ensures err_same { OnErr result (Grown (places_of self.old) (places_of self.new)
            × (desks_of self.new ≡ desks_of self.old) × (asked_of self.new ≡ asked_of self.old)) }
        ensures lanes { lanes_of (desks_of self.new) ≡ lanes_of (desks_of self.old) }
    {
        let slot = half.slot();
        let Ok(()) = self.make_room(slot) else {
            return Err(half);
        };
        self.asked += 1;
        self.admitted += 1;
        let admitted = Snapshot::of(&half);
        let state = steps::send(rt, &mut self.desks, half, slice, hop);
        let waits = steps::waits(&state);
        let place = ControlPlace {
            hop,
            state,
            admitted,
        };
        steps::put(&mut self.places, slot, place);
        steps::note(&mut self.waiting, slot, waits);
        Ok(())
    }

    /// Moves a slot to a slice. A half that is at another one is to leave it at this count.
    pub fn go<R: Wait>(&mut self, rt: &R, slot: Slot, slice: SliceNo, until: u64)
        requires admitted { is_admitted (place_at (places_of self.old) slot) ≡ true }
        requires slice { slice < length (desks_of self.old) }
        requires asked { asked_of self.old < 2 ^ 48 }

        // A half that was placed waits to be recalled only where the lane of its slice was full.
        ensures moves { MovesAt slot slice until (places_of self.old) (places_of self.new) (desks_of self.old)
            (desks_of self.new) }
        ensures asked { asked_of self.new ≡ asked_of self.old + 1 }
        ensures names { names_of H.name (places_of self.new) ≡ names_of H.name (places_of self.old) }
        ensures lanes { lanes_of (desks_of self.new) ≡ lanes_of (desks_of self.old) }
    {
        self.asked += 1;
        let newly = steps::go_at(rt, &mut self.desks, &mut self.places, slot, slice, until);
        steps::note(&mut self.waiting, slot, newly);
    }

    /// Takes home what came, at most 64 halves of each slice, and then offers each order that waits
    /// once, by slot. What finds no place waits on. It answers whether an order was offered: slots are looked at only
    /// where a half came home, or an order was refused before.
    pub fn pump<R: Wait>(&mut self, rt: &R) -> bool
        ensures roll { roll_of H.name self.new ≡ roll_of H.name self.old }
        ensures passed { Passes (λ half. H.slot_of (H.name half)) H.hop_of (places_of self.old)
            (places_of self.new) (aside_of self.old) (aside_of self.new)
            (desks_of self.old) (desks_of self.new) }
        ensures by_slot { PumpsBySlot H.name H.hop_of (places_of self.old) (places_of self.new)
            (desks_of self.old) (desks_of self.new) }
        ensures full { AllMetFull (places_of self.new) (desks_of self.old) (desks_of self.new) }
        ensures home { (slice : ℕ) → slice < length (desks_of self.old)
            → HomeEnded (length (aside_of self.new)) (admitted_of self.new) slice (desks_of self.old)
            (desks_of self.new) }

        // Where none was offered, each half is where it was.
        ensures still { result ≡ false → places_of self.new ≡ places_of self.old }
    {
        self.take_all(rt);
        if self.rests() {
            return false;
        }
        self.line_up();
        self.serve_all(rt);
        true
    }

    // Whether no slot has an order to give.
    fn rests(&self) -> bool
        ensures { result ≡ true → (waiting_of self.now ≡ []) × (serving_of self.now ≡ []) }
    {
        self.waiting.is_empty() && self.serving.is_empty()
    }

    /// Whether the half of the slot was sent to a slice and nothing else is asked of it.
    pub fn settled(&self, slot: Slot) -> bool
        ensures { result ≡ is_placed_at (place_at (places_of self.now) slot) }
    {
        match self.places.get(slot.0 as usize) {
            Some(Some(place)) => steps::placed(&place.state),
            _ => false,
        }
    }

    /// The slice that the half of the slot was sent to and isn't known to have left; none where it is at the front.
    pub fn slice_of(&self, slot: Slot) -> Option<SliceNo>
        ensures { result ≡ slice_at (place_at (places_of self.now) slot) }
    {
        match self.places.get(slot.0 as usize) {
            Some(Some(place)) => steps::sent_to(&place.state),
            _ => None,
        }
    }

    /// Whether a half was admitted at this slot.
    pub fn is_admitted(&self, slot: Slot) -> bool
        ensures { result ≡ is_admitted (place_at (places_of self.now) slot) }
    {
        matches!(self.places.get(slot.0 as usize), Some(Some(_)))
    }

    /// How many slices the side has.
    pub fn slices(&self) -> usize
        ensures { result ≡ length (desks_of self.now) }
    {
        self.desks.len()
    }

    /// How many calls of `admit` and `go` there were.
    pub fn asked(&self) -> u64
        ensures { result ≡ asked_of self.now }
    {
        self.asked
    }

    /// Gives what the side has.
    pub fn into_end(self) -> SideEnd<H>
        ensures desks { result.desks.items ≡ desks_of self }
        ensures places { result.places.items ≡ places_of self }
        ensures aside { result.aside.items ≡ aside_of self }
    {
        let Side {
            desks,
            places,
            aside,
            ..
        } = self;
        SideEnd {
            desks,
            places,
            aside,
        }
    }

    // Room for the place of a slot, for one more half aside, and for one more slot that waits.
    fn make_room(&mut self, slot: Slot) -> Result<(), NoMemory>
        ensures grown { Grown (places_of self.old) (places_of self.new) }
        ensures desks { desks_of self.new ≡ desks_of self.old }
        ensures counts { (admitted_of self.new ≡ admitted_of self.old) × (asked_of self.new ≡ asked_of self.old) }
        ensures enough { OnOk result ((slot < vec_len self.new.places)
            × (admitted_of self.new < vec_capacity self.new.aside)
            × (admitted_of self.new < vec_capacity self.new.waiting)
            × (admitted_of self.new < vec_capacity self.new.serving)) }
    {
        grow(&mut self.places, slot.0 as usize + 1)?;
        widen(&mut self.aside, self.admitted + 1)?;
        widen(&mut self.waiting, self.admitted + 1)?;
        widen(&mut self.serving, self.admitted + 1)
    }

    // Takes home what came, from each slice.
    fn take_all<R: Wait>(&mut self, rt: &R)
        ensures roll { roll_of H.name self.new ≡ roll_of H.name self.old }
        ensures passed { Passes (λ half. H.slot_of (H.name half)) H.hop_of (places_of self.old)
            (places_of self.new) (aside_of self.old) (aside_of self.new)
            (desks_of self.old) (desks_of self.new) }
        ensures takes { TakesHome (places_of self.old) (places_of self.new) (desks_of self.old) (desks_of self.new) }
        ensures home { (slice : ℕ) → slice < length (desks_of self.old)
            → HomeEnded (length (aside_of self.new)) (admitted_of self.new) slice (desks_of self.old)
            (desks_of self.new) }
        ensures fulls { (slice : ℕ) → fulls_at (desks_of self.new) slice ≡ fulls_at (desks_of self.old) slice }
        ensures still { NoneWaits (waiting_of self.old) (waiting_of self.new) (places_of self.old)
            (places_of self.new) }
    {
        for slice in 0..self.desks.len() {
            self.take_from(rt, slice);
        }
    }

    // Takes home what came from a slice.
    fn take_from<R: Wait>(&mut self, rt: &R, slice: usize)
        requires { slice < vec_len self.old.desks }
        ensures roll { roll_of H.name self.new ≡ roll_of H.name self.old }
        ensures passed { Passes (λ half. H.slot_of (H.name half)) H.hop_of (places_of self.old)
            (places_of self.new) (aside_of self.old) (aside_of self.new)
            (desks_of self.old) (desks_of self.new) }
        ensures takes { TakesHome (places_of self.old) (places_of self.new) (desks_of self.old) (desks_of self.new) }
        ensures len { vec_len self.new.desks ≡ vec_len self.old.desks }
        ensures took { TookFrom slice (admitted_of self.new) (aside_of self.old) (aside_of self.new)
            (desks_of self.old) (desks_of self.new) }
        ensures still { NoneWaits (waiting_of self.old) (waiting_of self.new) (places_of self.old)
            (places_of self.new) }
    {
        for _ in 0..HOME {
            if !self.take_one(rt, slice) {
                return;
            }
        }
    }

    // Takes a half home, unless as many are kept aside as slots are admitted.
    fn take_one<R: Wait>(&mut self, rt: &R, slice: usize) -> bool
        requires { slice < vec_len self.old.desks }
        ensures roll { roll_of H.name self.new ≡ roll_of H.name self.old }
        ensures passed { Passes (λ half. H.slot_of (H.name half)) H.hop_of (places_of self.old)
            (places_of self.new) (aside_of self.old) (aside_of self.new)
            (desks_of self.old) (desks_of self.new) }
        ensures takes { TakesHome (places_of self.old) (places_of self.new) (desks_of self.old) (desks_of self.new) }
        ensures len { vec_len self.new.desks ≡ vec_len self.old.desks }
        ensures took { TookOne result slice (admitted_of self.new) (aside_of self.old) (aside_of self.new)
            (desks_of self.old) (desks_of self.new) }
        ensures still { NoneWaits (waiting_of self.old) (waiting_of self.new) (places_of self.old)
            (places_of self.new) }
    {
        if self.aside.len() >= self.admitted {
            return false;
        }
        let Some(half) = take_home(rt, &mut self.desks, slice) else {
            return false;
        };
        let slot = half.slot();
        match steps::welcome(&mut self.places, half, slot) {
            Some(back) => {
                self.aside.push_reserved(back);
                true
            }
            None => {
                self.waiting.push_reserved(slot);
                true
            }
        }
    }

    // All that wait are to be served.
    fn line_up(&mut self)
        ensures roll { roll_of H.name self.new ≡ roll_of H.name self.old }
        ensures passed { Passes (λ half. H.slot_of (H.name half)) H.hop_of (places_of self.old)
            (places_of self.new) (aside_of self.old) (aside_of self.new)
            (desks_of self.old) (desks_of self.new) }
        ensures none { waiting_of self.new ≡ [] }
        ensures lined { LinedUp (places_of self.new) (reverse (serving_of self.new)) }
        ensures places { places_of self.new ≡ places_of self.old }
        ensures desks { desks_of self.new ≡ desks_of self.old }
        ensures aside { aside_of self.new ≡ aside_of self.old }
    {
        steps::line_up(&mut self.waiting, &mut self.serving);
    }

    // Gives each order that waits, by slot.
    fn serve_all<R: Wait>(&mut self, rt: &R)
        requires { waiting_of self.old ≡ [] }
        ensures roll { roll_of H.name self.new ≡ roll_of H.name self.old }
        ensures passed { Passes (λ half. H.slot_of (H.name half)) H.hop_of (places_of self.old)
            (places_of self.new) (aside_of self.old) (aside_of self.new)
            (desks_of self.old) (desks_of self.new) }
        ensures homes { homes_of (desks_of self.new) ≡ homes_of (desks_of self.old) }
        ensures aside { aside_of self.new ≡ aside_of self.old }
        ensures full { AllMetFull (places_of self.new) (desks_of self.old) (desks_of self.new) }
        ensures each { ServesEach H.name H.hop_of (reverse (serving_of self.old)) (places_of self.old)
            (places_of self.new) (desks_of self.old) (desks_of self.new) }
    {
        for _ in 0..self.serving.len() {
            self.serve_next(rt);
        }
    }

    // Offers the order of the slot that is served next.
    fn serve_next<R: Wait>(&mut self, rt: &R)
        requires { 0 < vec_len self.old.serving }
        ensures roll { roll_of H.name self.new ≡ roll_of H.name self.old }
        ensures passed { Passes (λ half. H.slot_of (H.name half)) H.hop_of (places_of self.old)
            (places_of self.new) (aside_of self.old) (aside_of self.new)
            (desks_of self.old) (desks_of self.new) }
        ensures homes { homes_of (desks_of self.new) ≡ homes_of (desks_of self.old) }
        ensures aside { aside_of self.new ≡ aside_of self.old }
        ensures served { ServedNext H.name H.hop_of (serving_of self.old) (serving_of self.new)
            (places_of self.old) (places_of self.new) (desks_of self.old) (desks_of self.new) }
    {
        let Some(slot) = self.serving.pop() else {
            unreachable!()
        };
        let waits = steps::serve_at(rt, &mut self.desks, &mut self.places, slot);
        steps::note(&mut self.waiting, slot, waits);
    }
}
