//! The lines of a trace, both ways: what a line of text says, the one text of a line, and why a text is
//! no line; and where an epoch of lines ends. What the lines and the stop of a whole trace are stands
//! in `specs/Input`; who reads octets joins to it by `InputLemmas`.
//!
//! ```
//! use pc_base::Moment;
//! use std::test::Fail;
//! use trace_lines::{LineBad, LineKind, read_line, text};
//!
//! fn main(rt: HostRuntime) -> Result<(), Fail> {
//!     let alloc = rt.alloc();
//!     let Ok(line) = read_line(alloc, b"40 FENCE", 1, Moment(0)) else {
//!         return Err("a line".into());
//!     };
//!     assert_eq!(rt; (line.moment, &line.kind), (Moment(40), &LineKind::Fence));
//!     assert_eq!(rt; text(alloc, &line)?.as_slice(), b"40 FENCE".as_slice());
//!     assert_eq!(rt; read_line(alloc, b"39 FENCE", 2, Moment(40)).err(), Some(LineBad::MomentBack));
//!     Ok(())
//! }
//! ```
#![tactic(auto)]

mod arguments;
mod bad;
mod epoch;
mod kinds;
mod laws;
mod line;
mod message;
mod reading;
mod writing;

pub use bad::LineBad;
pub use epoch::ends_epoch;
pub use laws::{epochs_are_runs, inputs_have_lines, lines_mean_alone, lines_mean_their_texts};
pub use line::{LineKind, TraceLine};
pub use reading::{read_line, read_line_in};
pub use writing::{push_message, push_text, text};
