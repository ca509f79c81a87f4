//! A half that travels.
use lane_core::{Carried, Did, NoMemory};
use pc_base::{SliceNo, Slot};
use std::sync::Wait;
use worker_core::Traveller;

/// A half that has so much to do, one item in a turn.
#[derive(Clone, Copy)]
pub struct Walker {
    pub slot: Slot,
    pub due: u64,
    pub done: u64,
    pub hop: u64,
    pub turns: u64,
    pub works: u64,
}

impl Carried for Walker {}

impl Traveller for Walker {
    type Name = Slot;

    ghost name = { λ walker. walker.slot };

    ghost slot_of = { λ slot. slot };

    ghost done_of = { λ walker. walker.done };

    ghost hop_of = { λ walker. walker.hop };

    ghost turns = { λ walker. walker.turns };

    ghost works = { λ walker. walker.works };

    ghost came_to = { λ grain did old new. Unit {0} };

    fn slot(&self) -> Slot {
        self.slot
    }

    fn done(&self) -> u64 {
        self.done
    }

    fn arrive(&mut self, hop: u64) {
        self.hop = hop;
    }

    fn turn<R: Wait>(&mut self, _rt: &R, _place: SliceNo, _grain: u32) -> Result<Did, NoMemory> {
        self.turns = self.turns.saturating_add(1);
        if self.done >= self.due {
            return Ok(Did::Idle);
        }
        self.done += 1;
        self.works = self.works.saturating_add(1);
        Ok(Did::Worked)
    }

    ghost free = { λ before half. tt };
}
