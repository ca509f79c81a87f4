//! GTPv2-C information elements, both ways (TS 29.274, section 8), in plain numbers.
//! Reads the thirteen kinds of a small gateway out of hostile octets, and writes them.
//! Which elements a message must have, and its own header, are left to the layer above.
//!
//! ```
//! use gtpv2_ie::{Ie, IeValue, read_ies, read_value, write_ie};
//! use std::test::Fail;
//!
//! fn main(rt: HostRuntime) -> Result<(), Fail> {
//!     let ebi = b"\x49\x00\x01\x00\x05";
//!     for ie in &read_ies(rt.alloc(), ebi)? {
//!         assert!(rt; ie.from <= ie.to && ie.to <= ebi.len());
//!         let value = read_value(rt.alloc(), ie.kind, &ebi[ie.from..ie.to])?;
//!         assert_eq!(rt; value, Some(IeValue::Ebi(5)));
//!     }
//!     let ie = Ie { instance: 0, value: IeValue::Ebi(5) };
//!     assert_eq!(rt; write_ie(rt.alloc(), &ie)?.as_slice(), ebi.as_slice());
//!     Ok(())
//! }
//! ```
#![tactic(auto)]

mod cause;
pub mod cause_value;
mod context;
pub mod element_type;
mod fault;
mod fields;
mod fteid;
mod imsi;
pub mod interface;
mod kind;
mod laws;
mod qos;
mod raw;
mod reading;
mod value;
mod writing;

pub use cause::{CauseIe, cause_of};
pub use context::Context;
pub use fault::IeBad;
pub use fields::{ebi_of, paa_of, pdn_of};
pub use fteid::{Fteid, Fteids, fteid_of};
pub use imsi::digit_pair;
pub use kind::IeKind;
pub use laws::elements_read_back;
pub use qos::{QosIe, qos_of};
pub use raw::{RawIe, ie_at, read_ies};
pub use reading::read_value;
pub use value::{Ie, IeValue};
pub use writing::write_ie;

/// Memory ran out.
pub use std::alloc::AllocError as NoMemory;
