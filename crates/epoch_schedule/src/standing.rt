//! Where halves are, and what workers are told.
use std::marker::Model;

/// Where a half of a slot is: not yet made, at the front, on a slice, on one that it shall leave (a control half once
/// so many commands are done), or on its way home.
#[derive(Clone, Copy)]
pub enum Standing {
    Absent,
    Front,
    Placed(usize),
    Recalled(usize, usize),
    Leaving,
}

/// What a control worker is told: that the half of a slot comes, or goes once so many commands are done.
#[derive(Clone, Copy)]
pub enum ControlOrder {
    Come(usize),
    Go(usize, usize),
}

/// What a data worker is told: that the half of a slot arrives, its next packet, and that it leaves.
#[derive(Clone, Copy)]
pub enum OrderNumbers {
    Arrive(usize),
    Item(usize),
    Leave(usize),
}

/// An accepted command: the moves of its slot before it, and how many packets it waits for.
#[derive(Clone, Copy)]
pub struct CommandTags {
    pub hop: usize,
    pub floor: usize,
}

impl Model for CommandTags {
    ghost use Rattle.epoch_schedule.specs.Slots as slots;

    ghost Value = { slots.CommandTags };

    ghost view = { λ tags. record { hop = tags.hop; floor = tags.floor } };

    ghost inverse = { λ tags. record { hop = tags.hop; floor = tags.floor } };
}

/// A control half on its slice, and after how many commands it goes home, if it is to.
#[derive(Clone, Copy)]
pub struct HeldControl {
    pub slot: usize,
    pub until: Option<usize>,
}

impl Model for HeldControl {
    ghost use Rattle.epoch_schedule.specs.World as world;

    ghost Value = { world.HeldControl };

    ghost view = { λ held. record { slot = held.slot; until = held.until } };

    ghost inverse = { λ held. record { slot = held.slot; until = held.until } };
}

/// How a data worker's turn goes on: by the next order, by the half whose turn is next, or not at all.
#[derive(Clone, Copy)]
pub enum Going {
    More,
    Round,
    Over,
}
