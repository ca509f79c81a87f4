//! GTP-U, GTPv2-C, packet filters, policing and charging for C and Rust programs: one export for each call,
//! whose clauses say the libraries' again over numbers. No export has a `requires` and none takes memory:
//! lengths, places and numbers that a caller may get wrong are tested, and a number above 0 names what is
//! refused (`gtp_c_base::code`). On a refusal nothing is written but `needed`.
#![tactic(auto)]

mod applying;
mod choice;
mod cursor;
mod element;
mod gtpu;
mod gtpv2;
mod imsi;
mod ip4;
mod piece;
mod policer;
mod refusal;

pub use cursor::Ie;
pub use element::{Ambr, BearerQos, Cause, Fteid};
pub use gtp_c_base::{TftComponent, TftFilter};
pub use gtpu::GtpuHead;
pub use gtpv2::Gtpv2Head;
pub use imsi::Imsi;
pub use ip4::Ip4Head;
pub use piece::Piece;
pub use policer::Policer;
