//! The gateway between two epochs: its setup, the book of IMSIs, and each subscriber at rest.
//! An epoch takes it apart, on one thread or over slices, and leaves it again; a whole run is a chain of
//! them. What a line means by the book and the subscribers in it is told here too.
#![tactic(auto)]

mod deciding;
mod laws;
mod rest;

pub use deciding::decide_line;
pub use laws::{new_one_is_at_rest, rest_goes_on, rest_leaves_room};
pub use rest::{AtRest, Sizes};
