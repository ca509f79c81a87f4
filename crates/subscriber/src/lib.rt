//! A subscriber's whole record, as one value at rest: its session, the version that its packets go by, its running
//! counters and its counts. Commands and packets, one after another, are answered as by the one-thread gateway (TS
//! 23.401, in this gateway's profile). Which line is whose is left to others.
//!
//! `subscriber` speaks of counters that hold the same under a version, but for the order of their last pieces and
//! for buckets that no bearer uses, as counters that were made of others' parts do: packets and new versions are
//! answered alike and charged alike by both, and leave them alike.
#![tactic(auto)]

mod handled;
mod laws;
mod parts_laws;
mod subscriber;

pub use handled::Handled;
pub use laws::{few_events_leave_room, represented_parts_fit};
pub use parts_laws::{
    alike_pieces_stay_alike, made_ones_are_alike, packets_are_alike, pieces_may_be_charged,
    subscribers_stay_alike, versions_are_alike,
};
pub use std::alloc::AllocError as NoMemory;
pub use subscriber::Subscriber;
