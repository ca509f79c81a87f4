//! What comes of tries of a command or packet.
use counter_half::SentPacket;

/// What came of one try of a packet.
#[derive(Drop)]
pub enum Tried<'p> {
    Accepted { parked: bool },
    /// It comes back, under the number that it would have had.
    Full(SentPacket<'p>),
    NoMemory,
}

/// What came of all tries of a command or packet.
#[derive(Clone, Copy)]
pub enum Given {
    Accepted { parked: bool },
    Full,
}
