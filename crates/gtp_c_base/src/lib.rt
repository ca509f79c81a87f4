//! What both static libraries for C share: the numbers that exports answer, octets written into a caller's
//! buffer, and packet filters as flat structs.
#![tactic(auto)]

mod buffer;
pub mod code;
mod fault;
mod filter;

pub use buffer::put;
pub use fault::message_code;
pub use filter::{TftComponent, TftFilter, component_said, numbers_of, struct_of};
