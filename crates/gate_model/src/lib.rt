//! The gateway of one slot on one thread: what a subscriber's commands and packets, in their order, make
//! happen (TS 23.401, in this gateway's profile). It is the reference of every faster one. Which line is
//! which event of which slot is left to the layers above.
#![tactic(auto)]

mod copying;
mod event;
mod gateway;
mod judging;
mod laws;
mod learning;
mod memory;

pub use control_steps::{Command, CommandKind};
pub use event::{Event, Happened};
pub use gateway::Gateway;
pub use laws::{
    each_held_packet_once, each_packet_in_one_piece, each_version_follows, events_bound_counts,
    few_events_are_few, few_events_leave_room, rates_are_kept, sessions_are_of_commands,
    sessions_keep_their_slot,
};
pub use pc_base::{Packet, Reply, Slot, Verdict};
pub use std::alloc::AllocError as NoMemory;
