//! A subscriber in two halves, and one again: it is split into a front end, which numbers what
//! comes, a control half and a data half; brought together they finish what is left. Who turns the
//! halves meanwhile, and where, is left to others.
#![tactic(auto)]

mod closing;
mod finishing;
mod front;
mod joining;
mod laws;
mod origin;
mod parts;
mod splitting;

pub use finishing::{Finished, finish};
pub use front::FrontEnd;
pub use joining::events_are_of_lines;
pub use parts::RecordParts;
pub use splitting::split;
pub use std::alloc::AllocError as NoMemory;
