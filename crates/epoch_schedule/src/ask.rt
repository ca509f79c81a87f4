//! What the schedule of an epoch is made for.
use std::marker::Model;

/// What a line of the trace asks of the schedule.
#[derive(Clone, Copy)]
pub enum LineAsk {
    /// Nothing: the line is a note.
    Nothing,
    /// A command of this slot.
    Command(u32),
    /// A packet of this slot.
    Packet(u32),
    /// That this slot goes to this slice.
    Move(u32, u8),
}

/// The room of a slot's queues, and that of a slice's lane.
#[derive(Clone, Copy)]
pub struct Rooms {
    pub room: u32,
    pub lane: u32,
}

impl Model for Rooms {
    ghost use Rattle.epoch_schedule.specs.World as world;

    ghost Value = { world.Rooms };

    ghost view = { λ rooms. record { room = rooms.room; lane = rooms.lane } };

    ghost inverse = { λ rooms. record { room = rooms.room; lane = rooms.lane } };
}
