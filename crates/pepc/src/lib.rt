//! All that the program does: `run_words` does the job that the command line asks for, over a source and a sink, and
//! tells how it ended; `run_plain` does each that starts no threads. Which streams these are is left to the program.
#![tactic(auto)]

mod along;
mod audit;
mod drive;
mod export;
mod import;
mod laws;
mod make;
mod plain;
mod replay;
mod resume;
mod summary;
mod words;

pub use crate::laws::{each_packet_is_charged, one_report};
pub use crate::plain::run_plain;
pub use crate::words::run_words;
pub use trace_run::{Status, fault_text};
