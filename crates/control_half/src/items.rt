//! What comes to the half, and what it notes.
use crate::BoxedCommand;
use lane_core::Carried;
use pc_base::Reply;

/// A command on its way.
#[derive(Debug, Drop)]
pub struct CommandItem {
    /// Its place among the commands of its subscriber.
    pub number: u64,
    /// How often its subscriber had moved in the epoch before it.
    pub hop: u64,
    /// How many packets are to be handled before its version may be learnt.
    pub floor: u64,
    /// Its line of the trace.
    pub line: u64,
    pub command: BoxedCommand,
}

impl Carried for CommandItem {}

/// The reply to the command of this number.
#[derive(Debug, Drop, PartialEq, Eq)]
pub struct CommandDone {
    pub line: u64,
    pub number: u64,
    pub reply: Reply,
}
