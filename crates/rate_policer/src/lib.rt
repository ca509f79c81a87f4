//! A policer of a maximum bit rate (TS 23.401, section 4.7.3): which packets a rate lets through, by
//! the list of those that passed, and a bucket that answers the same from one level and one moment.
//! Who asks brings the moment, in microseconds. No call takes memory.
//!
//! ```
//! use pc_base::{Kbps, Moment};
//! use rate_policer::Bucket;
//!
//! fn main(rt: HostRuntime) {
//!     let mut bucket = Bucket::new(Kbps(8));
//!     assert!(rt; bucket.ask(Moment(0), 3_000));
//!     if bucket.last() <= Moment(1_000) {
//!         assert!(rt; bucket.ask(Moment(1_000), 1));
//!         assert_eq!(rt; bucket.level(), 0);
//!     }
//! }
//! ```
#![tactic(auto)]

mod bucket;
mod conforming;
mod cost;
mod rate;

pub use bucket::Bucket;
pub use conforming::{conforming_is_tested, conforms, no_window_passes_more, policed_lists_grow};
pub use cost::Cost;
