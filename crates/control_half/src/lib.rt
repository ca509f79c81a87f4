//! The half of a subscriber that holds its session: it does the commands that come on its lane, notes
//! their replies, and publishes the version that each leaves, in batches. What packets do with a
//! version is left to the other half.
#![tactic(auto)]

mod as_split;
mod batch;
mod boxed;
mod controller;
mod half;
mod inner;
mod items;
mod making;
mod name;
mod travelling;
mod turning;

pub use as_split::AsSplit;
pub use batch::Batch;
pub use boxed::BoxedCommand;
pub use controller::Controller;
pub use half::ControlHalf;
pub use items::{CommandDone, CommandItem};
pub use making::ControlEnd;
pub use name::ControlName;
pub use std::alloc::AllocError as NoMemory;
