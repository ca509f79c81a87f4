//! What a command makes of a subscriber's session, and what is answered: the control table of the
//! gateway (TS 23.401, 5.3 to 5.5, in this profile), with the GTPv2-C messages that it writes
//! (TS 29.274). Whose session a command is for, and what a line asks, is left to the layers above.
#![tactic(auto)]

mod answer;
mod asking;
mod cause;
mod command;
mod contexts;
mod creating;
mod ending;
mod granting;
mod laws;
mod messages;
mod modifying;
mod ordering;
mod steps;

pub use bearer_state::{Ask, Asks};
pub use cause::{
    CONTEXT_NOT_FOUND, NEW_PDN_TYPE, PREFERRED_PDN_TYPE_NOT_SUPPORTED, REQUEST_ACCEPTED,
    REQUEST_REJECTED,
};
pub use command::{Command, CommandKind};
pub use laws::{counts_rise_by_one, written_messages_read_back};
pub use pc_base::{Outcome, Reply};
pub use std::alloc::AllocError as NoMemory;
pub use steps::step;
