//! What a subscriber's parts come from, which clauses alone read.
use crate::FrontEnd;
use counter_half::{DataHalf, DataItem};
use std::snapshot::Snapshot;

/// The front end, the data half and the packets that were left, as they were when the subscriber was to
/// be one again.
#[derive(Drop)]
pub(crate) struct Origin<'p> {
    pub(crate) front: Snapshot<FrontEnd>,
    pub(crate) data_half: Snapshot<DataHalf<'p>>,
    pub(crate) left: Snapshot<Vec<DataItem<'p>>>,
}

impl<'p> Origin<'p> {
    ghost use Rattle.std.specs.Prelude.{◌≡◌};

    pub(crate) fn of(
        front: &FrontEnd,
        data_half: &DataHalf<'p>,
        left: &Vec<DataItem<'p>>,
    ) -> Origin<'p>
        ensures front { result.front.value ≡ front.now }
        ensures data_half { result.data_half.value ≡ data_half.now }
        ensures left { result.left.value ≡ left.now }
    {
        Origin {
            front: Snapshot::of(front),
            data_half: Snapshot::of(data_half),
            left: Snapshot::of(left),
        }
    }
}
