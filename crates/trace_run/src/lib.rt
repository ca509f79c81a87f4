//! What a run over a trace is, whatever answers its lines: the next line of an input, how large the open epoch is, how
//! reading and writing end, the status of a run, and what a status says of the report. Which reports an input may have,
//! and who makes them, is left to the crates above.
#![tactic(auto)]

mod ending;
mod entries;
mod epoch;
mod opens;
mod reading;
mod reporting;
mod status;
mod taking;

pub use ending::{Ending, bad_at, status_at, status_without, write_octets};
pub use entries::{
    end_line, push_answer, push_bad, push_closing, push_effects, push_note, push_noted,
    push_records,
};
pub use opens::push_opens;
pub use reading::{LineReader, Next, given, next_line, refused};
pub use reporting::{Epochs, Reporter, run_report, run_report_behind, run_report_by};
pub use status::{Status, fault_text};
pub use taking::{LineTaker, run_lines, run_lines_behind, run_lines_by};
