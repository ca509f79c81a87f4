//! The small types that every crate of the gateway shares: numbers that keep their range, the IMSI, octets,
//! packets, verdicts, replies and effects; how a slot's TEIDs and its address follow from its number; and octets
//! that print in hexadecimal, as a trace and a report write them. TEIDs are those of TS 29.281, the IMSI that of TS
//! 23.003. Only copies take memory.
//!
//! ```
//! use pc_base::{Addr4, Hexadecimal, Slot, TeidUse, addr_of, slot_of_teid, teid_of};
//! use std::test::Fail;
//!
//! fn main(rt: HostRuntime) -> Result<(), Fail> {
//!     let slot = Slot(254);
//!     assert_eq!(rt; addr_of(slot), Addr4(0x0a2d_0100));
//!     let bearer = teid_of(slot, TeidUse::Bearer(0));
//!     assert_eq!(rt; slot_of_teid(bearer), Some((slot, TeidUse::Bearer(0))));
//!     let octets = [0x0a, 0x2f];
//!     let text = format!(in rt.alloc(); "{}", Hexadecimal(&octets))?;
//!     assert_eq!(rt; text.as_str(), "0a2f");
//!     Ok(())
//! }
//! ```
#![tactic(auto)]

mod addresses;
mod effect;
mod hexadecimal;
mod imsi;
mod items;
mod numbered;
mod numbers;
mod octets;
mod packet;
mod reply;
mod teids;
mod text;

pub use addresses::{addr_of, addresses_are_distinct, slot_of_addr};
pub use effect::{Effect, Fate};
pub use hexadecimal::Hexadecimal;
pub use imsi::Imsi;
pub use items::Items;
pub use numbered::Numbered;
pub use numbers::{Addr4, Kbps, Moment, SliceNo, Slot, Teid};
pub use octets::Octets;
pub use packet::{Packet, Peer, Place, TeidUse, Verdict, Way};
pub use reply::{Outcome, Reply};
pub use std::alloc::AllocError as NoMemory;
pub use teids::{slot_of_teid, teid_of, teids_are_distinct};
pub use wire_octets::{be16, be32, be40};

/// The last slot: as many users as have an address.
pub const LAST_SLOT: u32 = 65_532;

/// The last index of a bearer: a subscriber has at most 11 (TS 23.401, section 5.7.1: EBI 5 to 15).
pub const LAST_BEARER: u8 = 10;

/// The last moment, 2^50 − 1 microseconds.
pub const LAST_MOMENT: u64 = (1 << 50) - 1;

/// The address of the gateway's end of every tunnel, 192.0.2.1.
pub const GATEWAY_ADDR: Addr4 = Addr4(0xc000_0201);

/// The address of slot 0, 10.45.0.2.
pub const FIRST_ADDR: u32 = 0x0a2d_0002;

/// The address of the last slot, 10.45.255.254.
pub const LAST_ADDR: u32 = 0x0a2d_fffe;
