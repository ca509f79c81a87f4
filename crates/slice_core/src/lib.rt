//! An epoch over slices, in threads: the front takes the lines, while each slice has a thread, which turns its control
//! worker and its data worker by turns until its post says stop or one of them runs out of memory, and gives both
//! ends. It sleeps where it finds nothing to do. Threads share lanes, posts and calls, and nothing else.
#![tactic(auto)]

mod calls;
mod epoch;
mod gate;
mod lines;
mod pace;
mod promises;
mod rounds;
mod served;
mod serving;
mod threads;
mod waking;

pub use calls::Calls;
pub use epoch::run_epoch;
pub use gate::{Gate, OpenGate};
pub use pace::Pace;
pub use promises::{SliceEnded, SliceOf};
pub use serving::{ControlWorker, SliceEnds, SliceWorkers, serve_slice};
pub use std::alloc::AllocError as NoMemory;
pub use threads::{Ends, SliceThread, join_slices, start_slices};
