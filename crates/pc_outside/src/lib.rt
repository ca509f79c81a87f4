//! The edge between the program and its streams: octets read in pieces and given out as lines,
//! and octets written whole. Sources and sinks over memory, for tests, tell their octets; those
//! over the standard streams are the trusted edge. What a line means is left to others.
//!
//! ```
//! use pc_outside::{LineBuf, LineRead, SureSource, read_line};
//! use std::test::Fail;
//!
//! fn main(rt: HostRuntime) -> Result<(), Fail> {
//!     let mut source = SureSource::new(Vec::from_slice(rt.alloc(), b"one\ntwo")?)?;
//!     let mut buf = LineBuf::new(rt.alloc())?;
//!     assert_eq!(rt; read_line(&mut source, &mut buf), LineRead::Line);
//!     assert_eq!(rt; buf.line(), b"one".as_slice());
//!     assert_eq!(rt; read_line(&mut source, &mut buf), LineRead::Line);
//!     assert_eq!(rt; (buf.line(), buf.is_last()), (b"two".as_slice(), true));
//!     Ok(())
//! }
//! ```
#![tactic(auto)]

mod input_stop;
mod line_buffer;
mod memory;
mod reading;
mod refilling;
mod sinks;
mod sources;
mod std_streams;
mod sure;
mod writing;

pub use input_stop::InputStop;
pub use line_buffer::{INPUT_MAX, LINE_MAX, LineBuf, NEWLINE, line_len};
pub use memory::{MemSink, MemSource};
pub use reading::{LineRead, one_answer, read_line};
pub use refilling::read_behind;
pub use sinks::Sink;
pub use sources::{Failed, Source};
pub use std::alloc::AllocError as NoMemory;
pub use std_streams::{StdSink, StdSource};
pub use sure::{SureSink, SureSource};
pub use writing::{Unwritten, WriteFault, write_text, write_whole};
