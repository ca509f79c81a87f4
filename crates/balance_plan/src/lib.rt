//! Moves that level the slices of a gateway: by the packets of each subscriber, which go from the slice that
//! carries most to the one that carries least, step by step (`plan`). And a trace levelled by its report
//! (`balance`): a trace, and behind the line `REPORT` a report of it, are read from a source as an audit reads
//! them; the trace is written again, and behind each `FENCE` moves that level the slices by the packets that the
//! report tells of the epoch before it.
//!
//! ```
//! use balance_plan::{Load, plan};
//! use pc_base::{SliceNo, Slot};
//! use std::test::Fail;
//!
//! fn main(rt: HostRuntime) -> Result<(), Fail> {
//!     let heavy = Load { slot: Slot(0), slice: SliceNo(0), packets: 5 };
//!     let light = Load { slot: Slot(1), slice: SliceNo(0), packets: 3 };
//!     let moves = plan(rt.alloc(), &[heavy, light], 2, 4)?;
//!     assert_eq!(rt; moves.len(), 1);
//!     assert_eq!(rt; (moves[0].slot, moves[0].slice), (Slot(1), SliceNo(1)));
//!     Ok(())
//! }
//! ```
#![tactic(auto)]

mod balance_laws;
mod balancing;
mod load;
mod packets;
mod plan_laws;
mod planning;
mod shares;
mod writing;

pub use balance_laws::{one_balanced_text, planned_moves_apart, plans_level};
pub use balancing::balance;
pub use load::{Load, Planned};
pub use plan_laws::{planned_moves_are_of_loads, steps_level, worked_rows};
pub use planning::plan;
pub use std::alloc::{AllocError, AllocError as NoMemory};
