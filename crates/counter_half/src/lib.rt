//! The half of a subscriber that its packets meet: it learns the versions that the other half
//! publishes, and judges packets by the last one. Which packets it is handed, and when, is left to
//! others.
#![tactic(auto)]

mod data_travelling;
mod half;
mod half_state;
mod inner;
mod items;
mod laws;
mod learning;
mod lent;
mod making;
mod meeting;
mod name;
mod start;

pub use half::DataHalf;
pub use half_state::HalfState;
pub use items::{DataItem, PacketDone, VersionDone};
pub use lent::{SentPacket, ToldVerdict};
pub use making::DataRest;
pub use name::DataName;
pub use std::alloc::AllocError as NoMemory;
