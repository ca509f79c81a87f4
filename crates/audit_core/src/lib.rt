//! An audit: whether a report is a lawful one of a trace, and where one that is refuted breaks the lawful run. A
//! trace, and behind the line `REPORT` a report of it, are read from a source. What the trace's lines mean is kept by
//! epochs, and of the report each entry by the epoch that it belongs to; then they are judged, epoch by epoch: the
//! lines with the entries that answer them, and slot by slot what a subscriber makes of them in the report's order.
//! Of the first sentence of the lawful run that is broken the first break is kept, by the line of the trace, the
//! slot, the entry as it stands, and what was due there.
//!
//! `evidence` is what was heard, `judge` what is found of it epoch by epoch. The sentences are `matching` (1),
//! `walking` (2, and who may wait of 6), `counts` (3), `replies` (4), `charges` (5) and `order` (6).
#![tactic(auto)]

mod along;
mod auditing;
mod charges;
mod counts;
mod due_entries;
mod evidence;
mod finding_laws;
mod heard;
mod hearing;
mod joined_laws;
mod judge;
mod kept;
mod matching;
mod opens;
mod order;
mod packed;
mod piece;
mod piece_laws;
mod piece_order;
mod pieces;
mod place_laws;
mod replies;
mod report;
mod sentence;
mod sentence_laws;
mod setup;
mod sharing;
mod slots;
mod telling;
mod told_line;
mod trace;
mod walking;

pub use along::audit_along;
pub use auditing::{Audited, audit};
pub use evidence::{Evidence, finding_of};
pub use finding_laws::one_finding;
pub use heard::Heard;
pub use hearing::hear;
pub use joined_laws::along_as_joined;
pub use piece_laws::pieces_are_the_run;
pub use place_laws::{breaks_are_broken, one_break_of_charges};
pub use sentence::{Refutation, Sentence};
pub use sentence_laws::{sentences_are_the_run, sentences_of_slots};
pub use setup::{BadAt, Setup};
pub use sharing::{Keyed, shares_of};
pub use std::alloc::AllocError as NoMemory;
pub use telling::{Break, push_break};
