//! Which packets fit a packet filter, and which bearer a downlink packet takes (TS 24.008, 10.5.6.12).
//!
//! Packets are read in place and no memory is taken. How filters come to a bearer, and what becomes
//! of a packet that takes none, is left to the layers beside and above.
//!
//! ```
//! use ipv4_packet::Ip4;
//! use std::test::Fail;
//! use tft_codec::{BearerFilters, Filters, apply, read};
//! use tft_match::choose;
//!
//! fn main(rt: HostRuntime) -> Result<(), Fail> {
//!     let octets = b"\x45\0\0\x1c\0\0\0\0\x40\x11\0\0\xcb\0\x71\x09\x0a\x2d\0\x02\x13\xc4\x27\x10\0\x08\0\0";
//!     let packet = Ip4::read(octets)?;
//!     let from_5060 = read(rt.alloc(), &[0x21, 0x30, 9, 3, 0x50, 0x13, 0xc4])?;
//!     let filters = apply(rt.alloc(), &Filters::new(rt.alloc()), &from_5060)?;
//!     let default = BearerFilters { index: 0, filters: Filters::new(rt.alloc()) };
//!     let dedicated = BearerFilters { index: 1, filters };
//!     assert_eq!(rt; choose(&[default, dedicated], &packet), Some(1));
//!     Ok(())
//! }
//! ```
#![tactic(auto)]

mod choice;
mod direction;
mod ends;
mod fitting;
mod laws;

pub use choice::choose;
pub use direction::{Direction, counts_in};
pub use ends::{PacketEnds, ends_of};
pub use fitting::{holds, matches};
pub use laws::{chosen_is_taken, one_filter_decides};
