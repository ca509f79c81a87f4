//! Where the half of one slot is, as far as the front knows, and which of its items wait there.

use pc_base::{SliceNo, Slot};
use std::collections::VecDeque;
use std::snapshot::Snapshot;
use worker_core::{DataKind, Log};

/// The state of an admitted slot.
///
/// ```text
///            Arrive is put              go: Leave is to be put
///   Front ------------------> Placed --------------------------> Recall
///     ^                                                             | Leave is put
///     +----------------------------------------------- Leaving <---+
///                      the half came home
/// ```
#[derive(Drop)]
pub enum DataState<H> {
    /// The half is here, and is bound for a slice.
    Front { half: H, to: SliceNo },
    /// The half was sent to a slice, and nothing else is asked of it.
    Placed { at: SliceNo },
    /// The half is at a slice, is to be told to leave it, and is bound for another one.
    Recall { at: SliceNo, to: SliceNo },
    /// The half was told to leave a slice, and is bound for one.
    Leaving { from: SliceNo, to: SliceNo },
}

/// An admitted slot.
#[derive(Drop)]
pub struct DataPlace<H: DataKind> {
    /// Whether the slot moved.
    pub moved: bool,
    pub state: DataState<H>,
    /// The accepted items that weren't sent yet, in order.
    pub queue: VecDeque<H::Item>,
    /// The half as it was admitted, for clauses alone.
    pub admitted: Snapshot<H>,
    /// All accepted items, in order, for clauses alone.
    pub accepted: Log<H::Item, Slot>,
}

/// A half that came home from a slice though nobody had told it to.
#[derive(Drop)]
pub struct UnexpectedHalf<H> {
    pub half: H,
    pub slice: usize,
}

/// An item that wasn't accepted.
#[derive(Debug, Drop, PartialEq, Eq)]
pub enum DataNo<I> {
    /// The lane of its slice was full, or its slot's queue is.
    Full(I),
    /// There was no memory for its slot's queue.
    NoMemory(I),
}
