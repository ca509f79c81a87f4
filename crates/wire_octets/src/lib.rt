//! Big-endian numbers of two to five octets (network byte order, RFC 791, appendix B): read at any
//! place of a slice, and written. No call takes memory. `specs/Memory.antt` has the one word for an
//! answer or out of memory that the crates above cite.
//!
//! ```
//! use wire_octets::{be24, be24_octets};
//!
//! fn main(rt: HostRuntime) {
//!     let octets = be24_octets(0x0102_03);
//!     assert_eq!(rt; be24(&octets, 0), Some(0x0102_03));
//!     assert_eq!(rt; be24(&octets, 1), None);
//! }
//! ```
#![tactic(auto)]

mod laws;
mod reading;
mod writing;

pub use laws::{reads_back, stays_below, writes_back};
pub use reading::{be16, be16_at, be24, be24_at, be32, be32_at, be40, be40_at};
pub use writing::{be16_octets, be24_octets, be32_octets, be40_octets};
