//! Classic pcap captures and the lines of a trace, both ways: which header and which records octets
//! are, what a record's captured octets say as a line, and the record that a line gives. Left out
//! are pcapng, other link types, VLAN tags and IPv6. `specs/Capture` says what a whole capture is. An import reads one
//! record by record, through a block of 640 KiB, and writes its trace.
//!
//! ```
//! use pcap_form::{CaptureHead, LentKind, lent_kind};
//!
//! fn main(rt: HostRuntime) {
//!     let head = CaptureHead { little: false, nanos: false, ethernet: false };
//!     let packet = [0x45, 0, 0, 0x14, 0, 0, 0, 0, 64, 253, 0, 0, 203, 0, 113, 9, 10, 45, 0, 2];
//!     assert_eq!(rt; lent_kind(&head, &packet), Some(LentKind::Sgi(&packet)));
//! }
//! ```
#![tactic(auto)]

mod block;
mod export;
mod head;
mod importing;
mod laws;
mod lent;
mod numbers;
mod reading;
mod record;
mod record_line;
mod text;

pub use export::{HEADER, export_one, push_record};
pub use head::{CaptureHead, read_head};
pub use importing::{Imported, import};
pub use laws::{kept_lines_come_back, traces_come_back};
pub use lent::LentKind;
pub use record::{RecordHead, moment_of, read_record_head};
pub use record_line::{import_one, lent_kind};
pub use std::alloc::AllocError as NoMemory;
