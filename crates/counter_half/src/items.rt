//! What comes to the half, and what it notes.
use crate::lent::{SentPacket, ToldVerdict};
use lane_core::Carried;
use packet_steps::Effects;
use pc_base::{Place, Slot};

/// A packet on its way.
#[derive(Debug, Drop)]
pub struct DataItem<'p> {
    pub slot: Slot,
    /// Its place among the packets of its subscriber.
    pub number: u64,
    /// How many commands its subscriber must have learnt before.
    pub floor: u64,
    /// Its line of the trace.
    pub line: u64,
    pub packet: SentPacket<'p>,
}

impl<'p> Carried for DataItem<'p> {}

/// The verdict on the packet of this number, behind so many commands; and where it was handled.
#[derive(Debug, Drop)]
pub struct PacketDone<'p> {
    pub line: u64,
    pub number: u64,
    pub commands: u64,
    pub verdict: ToldVerdict<'p>,
    pub place: Place,
}

/// The effects of the command of this number, as its version was learnt.
#[derive(Debug, Drop)]
pub struct VersionDone {
    pub command: u64,
    pub effects: Effects,
}
