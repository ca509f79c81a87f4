//! What a line means.
use crate::LentPacket;
use control_steps::Command;
use pc_base::{Imsi, Octets, SliceNo, Slot};

/// Whose command it is.
#[derive(Clone, Copy, Debug, PartialEq, Eq)]
pub enum Whose {
    /// That of a slot in the book.
    Known(Slot),
    /// That of an IMSI which isn't in the book yet: it takes the next slot.
    New(Imsi),
}

/// What a line means to the gateway.
#[derive(Debug, Drop)]
pub enum Decision<'a> {
    Command { whose: Whose, command: Command },
    Packet { slot: Slot, packet: LentPacket<'a> },
    /// An instruction that the subscriber goes to this slice.
    Move { slot: Slot, slice: SliceNo },
    /// Nothing is to be done: the text of the line's entry, one or more octets of printable ASCII.
    Note(Octets),
}
