//! Traffic flow templates: the packet filters of a bearer, and the operations on them (TS 24.008, 10.5.6.12).
//!
//! Octets are read into a `Tft` and written from it, and a `Tft` is applied to the filters of a bearer.
//! Whether a packet fits a filter, and which bearer it takes, is left to the layer above.
//!
//! ```
//! use std::test::Fail;
//! use tft_codec::{Component, Filters, apply, read, write};
//!
//! fn main(rt: HostRuntime) -> Result<(), Fail> {
//!     let octets = [0x21, 0x30, 9, 2, 0x30, 17];
//!     let tft = read(rt.alloc(), &octets)?;
//!     assert_eq!(rt; write(rt.alloc(), &tft)?.as_slice(), octets.as_slice());
//!     let filters = apply(rt.alloc(), &Filters::new(rt.alloc()), &tft)?;
//!     for filter in filters.as_slice() {
//!         assert_eq!(rt; filter.components.as_slice(), [Component::Protocol(17)].as_slice());
//!     }
//!     Ok(())
//! }
//! ```
#![tactic(auto)]

mod applying;
mod component;
mod fault;
mod filter;
mod laws;
mod reading;
mod tft;
mod writing;

pub use applying::apply;
pub use component::{
    Component, Components, LOCAL_ADDRESS, LOCAL_PORT, LOCAL_PORT_RANGE, PROTOCOL, REMOTE_ADDRESS,
    REMOTE_PORT, REMOTE_PORT_RANGE, SECURITY_PARAMETER_INDEX, TYPE_OF_SERVICE,
};
pub use fault::{TBad, TftNo};
pub use filter::{
    BEFORE_RELEASE_7, BIDIRECTIONAL, DOWNLINK_ONLY, Filter, Filters, Ids, PacketFilters,
    UPLINK_ONLY,
};
pub use laws::{faults_or_spells, reads_back, spells_one};
pub use reading::read;
pub use std::alloc::AllocError as NoMemory;
pub use tft::{
    ADD_FILTERS, BearerFilters, CREATE_TFT, DELETE_FILTERS, DELETE_TFT, NO_OPERATION,
    REPLACE_FILTERS, Tft,
};
pub use writing::write;
