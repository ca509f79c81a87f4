//! The setup of an epoch.
ghost use Rattle.std.specs.Prelude.{◌≡◌, ◌<◌, ◌≤◌, ◌^◌};
ghost use Rattle.epoch_schedule.specs.Setups.{EpochSetup, bounds_of};

use crate::Rooms;
use std::marker::Model;

/// The rooms of an epoch, its slices, where slots are bound for as it begins, and how many packets are asked of each.
#[derive(Drop)]
pub struct ScheduleSetup<'a> {
    rooms: Rooms,
    slices: u8,
    bounds: &'a [u8],
    packets: &'a [u32],
}

impl<'a> Model for ScheduleSetup<'a> {
    ghost use Rattle.std.specs.Prelude.{◌≤◌};
    ghost use Rattle.epoch_schedule.specs.Setups.{EpochSetup};

    ghost Value = { EpochSetup };

    ghost view = { λ setup. record { rooms = setup.rooms; slices = setup.slices; bounds = setup.bounds.now } };

    ghost invariant = { λ setup. 1 ≤ setup.slices };
}

impl<'a> ScheduleSetup<'a> {
    pub fn new(rooms: Rooms, slices: u8, bounds: &'a [u8], packets: &'a [u32]) -> ScheduleSetup<'a>
        requires { 1 ≤ slices }
        ensures { result ≡ record { rooms = rooms; slices = slices; bounds = bounds.now } }
    {
        ScheduleSetup {
            rooms,
            slices,
            bounds,
            packets,
        }
    }

    /// The room of a slot's queues.
    pub fn room(&self) -> usize
        ensures room { result ≡ self.now.rooms.room }
        ensures few { result < 2 ^ 32 }
    {
        let rooms = &self.rooms;
        rooms.room as usize
    }

    /// The room of a slice's lane.
    pub fn lane(&self) -> usize
        ensures { result ≡ self.now.rooms.lane }
    {
        let rooms = &self.rooms;
        rooms.lane as usize
    }

    /// How many packets are asked of a slot.
    pub fn packets(&self, slot: usize) -> usize {
        if slot < self.packets.len() {
            self.packets[slot] as usize
        } else {
            0
        }
    }

    /// Where a slot is bound for.
    pub fn bound(&self, slot: usize) -> usize
        ensures { result ≡ bounds_of self.now slot }
    {
        if slot < self.bounds.len() {
            usize::from(self.bounds[slot])
        } else {
            slot % usize::from(self.slices)
        }
    }
}
