//! GTP-U version 1 (3GPP TS 29.281): the messages of the user plane, read in place and written.
//! Which messages there are, and what octets spell one, stands in `specs/`; the information elements
//! of a received message and what a message does are left to others.
//!
//! ```
//! use gtpu_codec::{GtpUKind, read};
//! use pc_base::Teid;
//! use std::test::Fail;
//!
//! fn main(rt: HostRuntime) -> Result<(), Fail> {
//!     let gpdu = [0x30, 0xff, 0, 2, 0, 0, 0, 0x11, 0x45, 0];
//!     let Ok((head, payload)) = read(&gpdu) else {
//!         return Err("a message".into());
//!     };
//!     assert_eq!(rt; (head.kind, head.teid), (GtpUKind::Gpdu, Teid(0x11)));
//!     assert_eq!(rt; payload, [0x45, 0].as_slice());
//!     Ok(())
//! }
//! ```
#![tactic(auto)]

mod extension;
mod fault;
mod head;
mod kind;
mod laws;
mod message;
mod reading;
mod writing;

pub use fault::UBad;
pub use head::GtpUHead;
pub use kind::GtpUKind;
pub use laws::{faults_or_spells, gpdu_is_head_and_payload, message_is_spelled, reads_back};
pub use message::GtpU;
pub use reading::read;
pub use writing::{gpdu_head, write, write_gpdu};

/// The octets of every message: flags, type, length and TEID (TS 29.281, section 5.1).
pub const MANDATORY_LEN: usize = 8;

/// How many octets follow octet 8 where flag E, S or PN is set (TS 29.281, section 5.1).
pub const OPTIONS_LEN: usize = 4;

/// The version of GTP that is spoken here, in bits 8 to 6 of octet 1.
pub const VERSION: u8 = 1;
