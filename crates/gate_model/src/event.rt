//! What comes to a slot, and what becomes of it.
use control_steps::Command;
use packet_steps::Effects;
use pc_base::{Packet, Reply, Verdict};

/// What comes to a slot.
#[derive(Debug, Drop)]
pub enum Event {
    /// A request or an answer of the MME, or an order of the operator.
    Command(Command),
    /// A packet of the subscriber, up or down.
    Packet(Packet),
}

/// What becomes of an event.
#[derive(Debug, Drop)]
pub enum Happened {
    /// The command has this reply, and these effects.
    Replied(Reply, Effects),
    /// The packet has this verdict.
    Judged(Verdict),
}
