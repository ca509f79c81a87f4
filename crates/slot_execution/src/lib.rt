//! A slot's commands and packets of an epoch, done by its subscriber in the order that the packets'
//! counts of commands tell. What they lead to is what the one-thread gateway makes of them. Which
//! packet meets how many commands is left to others. `kept` has what lines mean until then.
#![tactic(auto)]

mod executing;
mod kept;
mod lending;
mod placed;
mod replayed;
mod told;

pub use executing::replay;
pub use kept::{KeptMeaning, KeptPacket, packet_at, place_packet};
pub use lending::lend_again;
pub use placed::Placed;
pub use replayed::{Caused, Closed, NumberedReply, NumberedVerdict, Replayed};
pub use told::{ToldEntry, ToldEpoch};
