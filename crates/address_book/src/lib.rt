//! Which subscriber has which slot: IMSIs by the order of their first admission.
//! An IMSI (TS 23.003, section 2.2) has the same slot for good; there are 65,533 slots, one for each
//! address of the pool. When an IMSI is admitted is left to the caller.
//!
//! ```
//! use address_book::AddressBook;
//! use pc_base::{Imsi, Slot};
//! use std::test::Fail;
//!
//! fn main(rt: HostRuntime) -> Result<(), Fail> {
//!     let Some(imsi) = Imsi::of(b"001010000000001") else {
//!         return Err("an IMSI".into());
//!     };
//!     let mut book = AddressBook::new(rt.alloc());
//!     assert_eq!(rt; book.admit(imsi)?, Slot(0));
//!     assert_eq!(rt; book.admit(imsi)?, Slot(0));
//!     assert_eq!(rt; (book.slot_of_imsi(&imsi), book.len()), (Some(Slot(0)), 1));
//!     Ok(())
//! }
//! ```
#![tactic(auto)]

mod book;

pub use book::{AddressBook, AdmitNo};
