//! A half to which items come.
ghost use Rattle.std.specs.Prelude.{◌≡◌, length, nat_le, refl};

use lane_core::{Carried, NoMemory};
use pc_base::{Place, SliceNo, Slot};
use std::sync::Wait;
use worker_core::{DataKind, DataTraveller};

/// An item that a half handles once it knows so much.
#[derive(Clone, Copy)]
pub struct Task {
    pub slot: Slot,
    pub number: u32,
    pub floor: u64,
}

impl Carried for Task {}

/// A half that learns once in so many asks, a thousand times at most, and notes what it handled and where.
#[derive(Drop)]
pub struct Pupil {
    pub slot: Slot,
    /// At every so-many-th ask it learns; at none where this is 0.
    pub every: u64,
    pub asks: u64,
    pub known: u64,
    /// Whether its next item finds no memory.
    pub short: bool,
    pub handled: Vec<Task>,
    pub places: Vec<Place>,
    pub ghost each: { length places.items ≡ length handled.items },
}

impl Carried for Pupil {}

impl DataKind for Pupil {
    type Item = Task;

    ghost slot_of_half = { λ pupil. pupil.slot };

    ghost slot_of_item = { λ task. task.slot };

    fn slot(&self) -> Slot {
        self.slot
    }

    fn slot_of(item: &Task) -> Slot {
        item.slot
    }
}

impl DataTraveller for Pupil {
    type Name = Slot;

    ghost name = { λ pupil. pupil.slot };

    ghost slot_at = { λ slot. slot };

    ghost item_slot = { λ task. task.slot };

    ghost handled = { λ pupil. pupil.handled.items };

    ghost places = { λ pupil. pupil.places.items };

    ghost takes = { λ pupil task. nat_le task.floor pupil.known };

    ghost asks = { λ pupil. pupil.asks };

    ghost learns = { λ pupil. pupil.known };

    ghost batches = { λ pupil. pupil.known };

    ghost empties = { λ pupil. 0 };

    ghost awaits = { λ pupil. Unit {0} };

    fn learn<R: Wait>(&mut self, _rt: &R, _most: u32) -> Result<bool, NoMemory> {
        self.asks = self.asks.saturating_add(1);
        if self.every == 0 || self.asks % self.every != 0 || self.known >= 1000 {
            return Ok(false);
        }
        self.known += 1;
        Ok(true)
    }

    fn may(&self, item: &Task) -> bool {
        item.floor <= self.known
    }

    fn item(&mut self, place: SliceNo, item: &Task) -> Result<(), NoMemory> {
        if self.short {
            self.short = false;
            return Err(NoMemory);
        }
        self.handled.reserve(1)?;
        self.places.push(Place::At(place))?;
        self.handled.push_reserved(*item);
        Ok(())
    }

    ghost each_placed = { λ pupil. pupil.each };

    ghost half_slots = { λ pupil. refl };

    ghost item_slots = { λ task. refl };

    ghost free = { λ before half. tt };
}
