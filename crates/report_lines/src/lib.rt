//! The entries of a report, both ways: the one text of an entry, into a caller's buffer or owned, and the entry
//! that a text is. Entries of lines, effects of commands and charges are types of their own. Which entries a trace
//! has is left to the crates above. And what a report counts: its entries by their kinds, and the octets of packets
//! that were forwarded; the text of a report is taken in pieces of whole lines, and whether it is a report is left
//! to who made it.
//!
//! ```
//! use report_lines::{EntryCounts, push_summary, read, text};
//! use std::test::Fail;
//!
//! fn main(rt: HostRuntime) -> Result<(), Fail> {
//!     let alloc = rt.alloc();
//!     let line = b"P 3 0 0 1 up 1 4500 @2 p";
//!     let Some(entry) = read(alloc, line)? else {
//!         return Err("an entry".into());
//!     };
//!     assert_eq!(rt; text(alloc, &entry, true)?.as_slice(), line.as_slice());
//!     assert_eq!(rt; text(alloc, &entry, false)?.as_slice(), b"P 3 0 0 1 up 1 4500".as_slice());
//!     let mut counts = EntryCounts::new();
//!     counts.add(b"N 1 fence\nP 2 0 0 1 up 1 4500\n");
//!     let mut summary = Vec::new(alloc);
//!     push_summary(&mut summary, 2, &counts)?;
//!     assert_eq!(rt; summary.as_slice(), b"lines=2 N=1 C=0 P=1 F=0 R=0 O=0 up=2 down=0\n".as_slice());
//!     Ok(())
//! }
//! ```
#![tactic(auto)]

mod charges;
mod counts;
mod entry;
mod fields;
mod heads;
mod laws;
mod packets;
mod reading;
mod shown;
mod summary;
mod words;
mod writing;

pub use charges::{push_open, push_row};
pub use counts::EntryCounts;
pub use entry::{
    ChargeEntry, CommandReply, EffectEntry, Entry, Judgement, LineEntry, Note, Refusal,
};
pub use laws::{
    an_entry_is_a_line, one_text_of_an_entry, one_text_without_places, without_place_an_entry,
};
pub use reading::read;
pub use std::alloc::AllocError as NoMemory;
pub use summary::push_summary;
pub use writing::{
    push_answer, push_effect, push_judged, push_note, push_packet, push_placed, push_refusal,
    push_text, text,
};
