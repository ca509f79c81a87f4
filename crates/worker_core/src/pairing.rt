//! The two lanes between a side at the front and a worker.
ghost use Rattle.std.specs.Prelude.{◌≡◌, [], IfOk};
ghost use Rattle.lane_core.specs.Ends.{sender_lane, receiver_lane};
ghost use Rattle.worker_core.specs.Workers.{desk_lanes, IsNewDesk, worker_lanes, place_of, held_of};

use crate::desks::{Desk, LaneDesk};
use crate::{Traveller, Worker};
use lane_core::{NoMemory, lane};
use pc_base::SliceNo;
use std::alloc::Global;

/// How many orders a worker's lane has room for, and how many halves its lane home.
const ROOM: u32 = 64;

/// A worker of a slice, which holds nothing, and the desk that it is served from.
pub fn pair<H: Traveller>(alloc: Global, place: SliceNo) -> Result<(Desk<H>, Worker<H>), NoMemory>
    ensures lanes { IfOk result (λ made. desk_lanes made.0 ≡ worker_lanes made.1) }
    ensures rooms { IfOk result (λ made. ((sender_lane made.0.orders).room ≡ 64)
        × ((receiver_lane made.0.home).room ≡ 64)) }
    ensures place { IfOk result (λ made. place_of made.1 ≡ place) }
    ensures empty { IfOk result (λ made. held_of made.1 ≡ []) }
    ensures new { IfOk result (λ made. IsNewDesk made.0) }
{
    let (orders, taking) = lane(alloc, ROOM)?;
    let (sending, home) = lane(alloc, ROOM)?;
    Ok((
        LaneDesk { orders, home },
        Worker::new(alloc, place, taking, sending),
    ))
}
