//! The two lanes between a side at the front and a worker of a slice's lane.
ghost use Rattle.std.specs.Prelude.{◌≡◌, ◌≤◌, [], IfOk};
ghost use Rattle.lane_core.specs.Ends.{sender_lane, receiver_lane};
ghost use Rattle.worker_core.specs.DataWorkers.{worker_lanes, place_of, held_of};
ghost use Rattle.worker_core.specs.Workers.{desk_lanes, IsNewDesk};

use crate::{DataOrder, DataTraveller, DataWorker, LaneDesk};
use lane_core::{NoMemory, lane};
use pc_base::SliceNo;
use std::alloc::Global;

/// How many halves a worker's lane home has room for.
const ROOM: u32 = 64;

/// The desk of a worker of a slice's lane.
pub type DataDesk<H> = LaneDesk<DataOrder<H>, H>;

/// A worker of a slice, which holds nothing, and the desk that it is served from. The slice's lane has
/// room for so many orders, 1 to 16,384.
pub fn data_pair<H: DataTraveller>(
    alloc: Global,
    place: SliceNo,
    lane_room: u32,
) -> Result<(DataDesk<H>, DataWorker<H>), NoMemory>
    requires { (1 ≤ lane_room) × (lane_room ≤ 16384) }
    ensures lanes { IfOk result (λ made. desk_lanes made.0 ≡ worker_lanes made.1) }
    ensures rooms { IfOk result (λ made. ((sender_lane made.0.orders).room ≡ lane_room)
        × ((receiver_lane made.0.home).room ≡ 64)) }
    ensures place { IfOk result (λ made. place_of made.1 ≡ place) }
    ensures empty { IfOk result (λ made. held_of made.1 ≡ []) }
    ensures new { IfOk result (λ made. IsNewDesk made.0) }
{
    let (orders, taking) = lane(alloc, lane_room)?;
    let (sending, home) = lane(alloc, ROOM)?;
    Ok((
        LaneDesk { orders, home },
        DataWorker::new(alloc, place, taking, sending),
    ))
}
