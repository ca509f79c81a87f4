//! IPv4 packets, read in place (RFC 791): which octets are one packet, and its fields.
//! Nothing is copied and no memory is taken. The header checksum, the options and the fields of
//! fragments other than the offset are left to others, as is what the payload means.
//!
//! ```
//! use ipv4_packet::Ip4;
//! use std::test::Fail;
//!
//! fn main(rt: HostRuntime) -> Result<(), Fail> {
//!     let octets = b"\x45\0\0\x1c\0\0\0\0\x40\x11\0\0\xcb\0\x71\x09\x0a\x2d\0\x02\x13\xc4\x27\x10\0\x08\0\0";
//!     let packet = Ip4::read(octets)?;
//!     assert_eq!(rt; (packet.source(), packet.destination()), (0xcb00_7109, 0x0a2d_0002));
//!     assert_eq!(rt; packet.ports(), Some((5060, 10000)));
//!     Ok(())
//! }
//! ```
#![tactic(auto)]

mod fault;
mod header;
mod packet;
mod protocol;

pub use fault::IpBad;
pub use header::{MINIMUM_LEN, MINIMUM_WORDS, VERSION};
pub use packet::Ip4;
pub use protocol::{AH, ESP, SCTP, TCP, UDP};
