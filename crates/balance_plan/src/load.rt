//! What is levelled, and how.
use pc_base::{SliceNo, Slot};

/// The packets of a slot, and the slice that it is on.
#[derive(Clone, Copy, Debug, PartialEq, Eq)]
pub struct Load {
    pub slot: Slot,
    pub slice: SliceNo,
    pub packets: u64,
}

/// A slot that goes to a slice.
#[derive(Clone, Copy, Debug, PartialEq, Eq)]
pub struct Planned {
    pub slot: Slot,
    pub slice: SliceNo,
}
