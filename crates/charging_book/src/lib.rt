//! The charging records of one subscriber: for each life of a bearer its forwarded octets and
//! packets are counted, and each finished piece of it gives one row. A contract sees the records
//! as those of the list of what happened, so that each octet stands in one row or open counter.
//!
//! ```
//! use charging_book::{Book, Why};
//! use pc_base::Moment;
//! use std::test::Fail;
//!
//! fn main(rt: HostRuntime) -> Result<(), Fail> {
//!     let mut book = Book::new(rt.alloc());
//!     book.start(0, 5, 9)?;
//!     if book.is_open(0) && book.has_room(0) {
//!         book.count(0, true, 1_500, Moment(7))?;
//!     }
//!     if book.is_open(0) && book.has_room(0) {
//!         book.close_one(0, Why::Gone)?;
//!     }
//!     let counted: Option<(u64, u64)> = book.closed().first().map(|row| (row.up_octets, row.up_packets));
//!     assert_eq!(rt; counted, Some((1_500, 1)));
//!     Ok(())
//! }
//! ```
#![tactic(auto)]

mod accounts;
mod records;

pub use accounts::{Book, Posting, counts_are_bounded, each_packet_once, parts_represent_the_same};
pub use records::{ChargeRow, Open, Piece, VOLUME_OCTETS, Why};
pub use std::alloc::AllocError as NoMemory;
