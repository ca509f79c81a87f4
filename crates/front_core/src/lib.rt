//! The front of an epoch over slices: it takes the lines one by one, splits a subscriber at its first command or
//! packet, sends commands and packets to its halves, and moves these from slice to slice; at the epoch's end the
//! halves come home, each subscriber is one again, and the entries of lines are filled. Who turns the workers
//! meanwhile, and in which threads, is left to the caller.
//!
//! `front` takes lines, `halves` and `lot` are the split subscribers, `both` the two sides that their halves are
//! admitted to, `closing` the end of an epoch; `kept_laws` says what is kept of an epoch's lines while they are
//! taken.
#![tactic(auto)]

mod answers;
mod both;
mod closing;
mod epoch;
mod filling;
mod finishing;
mod front;
mod halves;
mod homes;
mod kept_laws;
mod lot;
mod opening;
mod taken;
mod taking;
mod told;
mod took;
mod tried;

pub use both::BothSides;
pub use closing::close;
pub use epoch::{Ended, FrontEntry, FrontEpoch};
pub use front::Front;
pub use halves::Halves;
pub use kept_laws::lines_are_kept;
pub use lane_core::NoMemory;
pub use lot::Lot;
pub use opening::Opened;
pub use taken::{OpenEntry, Taken};
pub use took::Took;
pub use tried::{Given, Tried};
