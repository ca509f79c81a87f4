//! The command `replay`: lines are read by blocks in threads and kept until their epoch ends, then run over slices
//! in threads, and the epoch's text is made by blocks in threads and written in one piece; behind the last one
//! stand the open counters. Whatever the schedule of the threads, the report is a lawful one of so many slices and
//! of their rooms; what is written, and how the run ends, is as with lines and texts of one thread.
#![tactic(auto)]

mod epochs;
mod line_blocks;
mod reader;
mod replay;
mod replayer;
mod running;
mod telling;
mod text_blocks;

pub use reader::BlockReader;
pub use replayer::Replayer;
pub use running::run_report_in_blocks;
pub use slice_core::Pace;
pub use telling::push_entries;
pub use text_blocks::push_blocks;
