//! A lane: a bounded first-in first-out queue with one sender and one receiver, which may be in two
//! threads. What was taken is the beginning of what was sent, and closing gives the rest. What goes
//! through, and whether anyone waits, is left to the layers above.
//!
//! ```
//! use lane_core::{Carried, Full, lane};
//! use std::test::Fail;
//!
//! #[derive(Debug, Drop, PartialEq, Eq)]
//! struct Item(u32);
//!
//! impl Carried for Item {}
//!
//! fn main(rt: HostRuntime) -> Result<(), Fail> {
//!     let (mut sender, mut receiver) = lane::<Item>(rt.alloc(), 1)?;
//!     assert_eq!(rt; sender.offer(&rt, Item(7)), Ok(()));
//!     assert_eq!(rt; sender.offer(&rt, Item(8)), Err(Full(Item(8))));
//!     assert_eq!(rt; receiver.take(&rt), Some(Item(7)));
//!     assert_eq!(rt; receiver.take(&rt), None);
//!     Ok(())
//! }
//! ```
#![tactic(auto)]

mod carried;
mod closing;
mod did;
mod ends;
mod opening;
mod sequence;
#[cfg(test)]
mod tests;

pub use carried::Carried;
pub use closing::{Ends, close};
pub use did::Did;
pub use ends::{Full, Receiver, Sender};
pub use opening::lane;
pub use std::alloc::AllocError as NoMemory;
