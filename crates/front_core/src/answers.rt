//! What is told of a slot's commands and packets.
use control_half::CommandDone;
use counter_half::PacketDone;

/// What is told of a slot's commands and packets, the next of each kind last.
#[derive(Drop)]
pub(crate) struct SlotAnswers<'p> {
    pub(crate) replies: Vec<CommandDone>,
    pub(crate) packets: Vec<PacketDone<'p>>,
}
