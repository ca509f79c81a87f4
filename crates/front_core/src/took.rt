//! What became of a line.

/// What became of a line.
#[derive(Clone, Copy, Debug, PartialEq, Eq)]
pub enum Took {
    /// A command or packet was accepted; a packet may have been parked at the front.
    Accepted { parked: bool },
    /// Each try of a command or packet found its queue or lane full.
    Full,
    /// The line is a note or an instruction to move.
    Answered,
}
