//! What a line of a trace means to the gateway: a command of a subscriber, a packet of one, a move to a
//! slice, or a note with the reply that an echo, a refused request or an unknown tunnel gets.
//! The book of subscribers is looked at; what is done about a decision is left to the layers above.
#![tactic(auto)]

mod asks;
mod booking;
mod deciding;
mod decision;
mod destinations;
mod ends;
mod instructions;
mod laws;
mod meant;
mod mme;
mod packet;
mod packets;
mod requests;
mod texts;
mod tunnel;

pub use deciding::decide;
pub use decision::{Decision, Whose};
pub use destinations::{start_slice, start_slices};
pub use laws::{line_by_line, meanings_are_in_range, read_requests_are_whole};
pub use meant::Meant;
pub use packet::LentPacket;
pub use packets::packet_of;
pub use pc_base::NoMemory;
pub use texts::{move_note, move_word};
