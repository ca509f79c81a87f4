//! An epoch under a schedule, on one thread: its lines are decided as they come, and what they mean is kept. When
//! it is driven, its schedule is made, each subscriber does its commands and packets in the order that the schedule
//! tells, and what becomes of them is joined, line by line. The entries are those of the driven epoch, and no
//! others, and they are lawful (`driven_laws`). Epochs of a run, and texts of entries, are left to the caller.
//!
//! ```
//! use at_rest::AtRest;
//! use epoch_drive::{EpochLines, drive_epoch};
//! use pc_base::{Moment, Slot};
//! use epoch_schedule::Turns;
//! use slot_execution::ToldEntry;
//! use std::test::Fail;
//! use trace_lines::read_line;
//!
//! fn main(rt: HostRuntime) -> Result<(), Fail> {
//!     let alloc = rt.alloc();
//!     let attach = b"0 ATTACH 001010000000001 198.51.100.7 00000a01 1000 1000";
//!     let Ok(line) = read_line(alloc, attach, 1, Moment(0)) else {
//!         return Err("a line".into());
//!     };
//!     let rest = AtRest::new(alloc, 2, 256, 16384);
//!     let mut turns = Turns::List([0, 1, 2, 3].to_vec(alloc)?);
//!     let lines = [line];
//!     let mut kept = EpochLines::new(alloc);
//!     let (rest, epoch) = drive_epoch(rest, &lines, &mut kept, &mut turns)?;
//!     assert_eq!(rt; (rest.lines, epoch.lines.len(), epoch.effects.len()), (1, 1, 0));
//!     match &epoch.lines[0] {
//!         ToldEntry::Answer { line, slot, number, .. } => {
//!             assert_eq!(rt; (*line, *slot, *number), (1, Slot(0), 0));
//!             Ok(())
//!         }
//!         _ => Err("an answer".into()),
//!     }
//! }
//! ```
#![tactic(auto)]

mod driven_laws;
mod driving;
mod epoch;
mod gateway;
mod joining;
mod kept;
mod replays;
mod sharing;
mod whole;

pub use driven_laws::{
    a_note_is_driven, driven_epochs_are_lawful, driven_runs_are_lawful, each_schedule_is_driven,
    epochs_go_on, one_is_driven,
};
pub use epoch::{DrivenEntry, DrivenEpoch};
pub use gateway::DrivenGateway;
pub use kept::EpochLines;
pub use whole::drive_epoch;
