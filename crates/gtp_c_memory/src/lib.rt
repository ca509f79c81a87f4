//! A whole GTPv2-C message and a whole traffic flow template for C and Rust programs, looked through by the
//! libraries' own readers: these take memory for the time of the call, and want of it is a number. No export has
//! a `requires`. On a refusal nothing is written but `needed`.
#![tactic(auto)]

mod message;
mod template;

pub use gtp_c_base::{TftComponent, TftFilter};
pub use message::Gtpv2Fault;
