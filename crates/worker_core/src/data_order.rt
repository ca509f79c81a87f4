//! What a slice's lane carries.
ghost use Rattle.worker_core.specs.DataOrders.{MayFollow};

use crate::DataKind;
use lane_core::Carried;
use pc_base::Slot;

/// What is sent to a worker. Of each slot an `Arrive` comes first, then items, then a `Leave`, and so
/// again.
#[derive(Drop)]
pub enum DataOrder<H: DataKind> {
    /// A half to hold.
    Arrive(H),
    /// An item for a half that is held.
    Item(H::Item),
    /// The half of this slot is to go home.
    Leave(Slot),
}

impl<H: DataKind> Carried for DataOrder<H> {
    ghost follows = { MayFollow H.slot_of_half H.slot_of_item };
}
