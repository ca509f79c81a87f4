//! Subscribers at rest as octets (this project's own format, version 1), both ways: a state file has all of them
//! with how many lines were read and when. What may be read is just what may be written, so octets are one file's
//! or none's. And the text of a saved state, which stands before a trace that goes on from it: lines `STATE` with
//! its octets in hexadecimal, 32,000 a line, and the line `TRACE`. Which states there are, and what a trace behind
//! one leads to, is left to the crates above.
//!
//! ```
//! use record_codec::{read, text};
//! use std::test::Fail;
//!
//! fn main(rt: HostRuntime) -> Result<(), Fail> {
//!     let octets = [1, 0, 0, 0, 0, 0, 0, 0, 2, 0, 0, 0, 0, 0, 0, 0, 7, 0, 0, 0, 0];
//!     let file = read(rt.alloc(), &octets)?.ok_or("two lines, the last one at moment 7")?;
//!     assert_eq!(rt; (file.lines, file.moment.0, file.subscribers.len()), (2, 7, 0));
//!     assert_eq!(rt; text(rt.alloc(), &file)?.as_slice(), octets.as_slice());
//!     Ok(())
//! }
//! ```
#![tactic(auto)]

mod counters;
mod fault;
mod fields;
mod filters;
mod laws;
mod reading;
mod saving;
mod sessions;
mod state_file;
mod state_laws;
mod state_lines;
mod state_reading;
mod subscribers;
mod writing;

pub use laws::one_file_of_a_state;
pub use reading::read;
pub use saving::saved_text;
pub use state_file::StateFile;
pub use state_laws::{lines_say_one_state, texts_say_their_states};
pub use state_lines::{StateLines, StateSaid};
pub use state_reading::{StateRead, read_state};
pub use std::alloc::AllocError as NoMemory;
pub use writing::text;
