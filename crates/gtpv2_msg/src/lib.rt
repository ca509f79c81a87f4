//! GTPv2-C messages, both ways (TS 29.274): eighteen types, their header, and the elements that
//! each type must have, in plain numbers.
//! Refuses hostile octets in a stated order, and writes the reply to a request so refused.
//! What a message means to a session is left to the layers above.
//!
//! ```
//! use gtpv2_ie::{IeKind, IeValue};
//! use gtpv2_msg::{ECHO_REQUEST, read, write};
//! use std::test::Fail;
//!
//! fn main(rt: HostRuntime) -> Result<(), Fail> {
//!     let echo = b"\x40\x01\x00\x09\x00\x00\x07\x00\x03\x00\x01\x00\x05";
//!     let message = read(rt.alloc(), echo)?;
//!     assert_eq!(rt; (message.kind, message.seq), (ECHO_REQUEST, 7));
//!     assert!(rt; message.first(IeKind::Recovery, 0) == Some(&IeValue::Recovery(5)));
//!     assert_eq!(rt; write(rt.alloc(), &message)?.as_slice(), echo.as_slice());
//!     Ok(())
//! }
//! ```
#![tactic(auto)]

mod contexts;
mod element;
mod elements;
mod fault;
mod header;
mod kind;
mod laws;
mod message;
mod reading;
mod refusing;
mod required;
mod table;
mod walk;
mod writing;

pub use fault::CBad;
pub use header::{Header, read_header};
pub use kind::{
    CREATE_BEARER_REQUEST, CREATE_BEARER_RESPONSE, CREATE_SESSION_REQUEST, CREATE_SESSION_RESPONSE,
    DELETE_BEARER_REQUEST, DELETE_BEARER_RESPONSE, DELETE_SESSION_REQUEST, DELETE_SESSION_RESPONSE,
    DOWNLINK_DATA_NOTIFICATION, DOWNLINK_DATA_NOTIFICATION_ACKNOWLEDGE, ECHO_REQUEST,
    ECHO_RESPONSE, MODIFY_BEARER_REQUEST, MODIFY_BEARER_RESPONSE, RELEASE_ACCESS_BEARERS_REQUEST,
    RELEASE_ACCESS_BEARERS_RESPONSE, UPDATE_BEARER_REQUEST, UPDATE_BEARER_RESPONSE, is_kind,
    is_request,
};
pub use laws::{
    faults_or_spells, messages_read_back, read_messages_read_back, required_or_faulty, spells_one,
};
pub use message::{Ies, Msg};
pub use reading::read;
pub use refusing::refusal;
pub use walk::Contexts;
pub use writing::write;

/// The causes of a refusal.
pub use gtpv2_ie::cause_value::{MANDATORY_IE_INCORRECT, MANDATORY_IE_MISSING};

/// Memory ran out.
pub use std::alloc::AllocError as NoMemory;
