//! What a worker is told.
use lane_core::Carried;
use pc_base::Slot;

/// An order to a worker.
#[derive(Debug, Drop, PartialEq, Eq)]
pub enum Order<H> {
    /// A half to hold.
    Arrive(H),
    /// The half of this slot is to go home once it has done so much.
    Leave { slot: Slot, until: u64 },
}

impl<H: Carried> Carried for Order<H> {}
