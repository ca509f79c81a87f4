//! What a report is held against.
use trace_lines::LineBad;

/// The gateway whose report it should be: the sequential one, on one thread, or so many slices (1 to 64)
/// with room for so many waiting commands or parked packets of a subscriber (1 to 256) and lanes of so many
/// items of a slice (1 to 16,384).
#[derive(Clone, Copy, Debug, PartialEq, Eq)]
pub struct Setup {
    pub solo: bool,
    pub slices: u8,
    pub room: u32,
    pub lane: u32,
}

/// The bad line at which a trace stops: its number, and why it is refused.
#[derive(Clone, Copy, Debug, PartialEq, Eq)]
pub struct BadAt {
    pub number: u64,
    pub why: LineBad,
}
