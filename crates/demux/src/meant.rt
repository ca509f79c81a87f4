//! What a line means, with all that stands before it.
use crate::LentPacket;
use control_steps::Command;
use pc_base::{Octets, SliceNo, Slot};

/// A command or packet of a slot, an instruction that it moves to a slice, with its note, or a note alone.
#[derive(Drop)]
pub enum Meant<'a> {
    Command {
        slot: Slot,
        command: Command,
    },
    Packet {
        slot: Slot,
        packet: LentPacket<'a>,
    },
    Move {
        slot: Slot,
        slice: SliceNo,
        text: Octets,
    },
    Note(Octets),
}
