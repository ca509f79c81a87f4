//! Where the half of one slot is, as far as the front knows, and what is to become of it.

use pc_base::SliceNo;
use std::snapshot::Snapshot;

/// The state of an admitted slot.
///
/// ```text
///            Arrive is put              go: Leave is to be put
///   Front ------------------> Placed --------------------------> Recall
///     ^                                                             | Leave is put
///     +----------------------------------------------- Leaving <---+
///                      the half came home
/// ```
#[derive(Drop)]
pub enum ControlState<H> {
    /// The half is here, and is bound for a slice.
    Front {
        half: H,
        to: SliceNo,
    },
    /// The half was sent to a slice, or is on its way there.
    Placed {
        at: SliceNo,
    },
    /// The half is at a slice, is to leave it at a count, and is bound for another one.
    Recall {
        at: SliceNo,
        until: u64,
        to: SliceNo,
    },
    /// The half was told to leave, and is bound for a slice.
    Leaving {
        from: SliceNo,
        to: SliceNo,
    },
}

/// An admitted slot.
#[derive(Drop)]
pub struct ControlPlace<H> {
    /// How often the slot moved.
    pub hop: u64,
    pub state: ControlState<H>,
    /// The half as it was admitted, for clauses alone.
    pub admitted: Snapshot<H>,
}
