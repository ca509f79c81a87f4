//! The front's ends of the two lanes of a worker, and what is done there.
ghost use Rattle.std.specs.Prelude.{◌≡◌, ◌<◌, ◌^◌, vec_len, OnOk, IfErr, MatchOption};
ghost use Rattle.std.specs.List.{sum_by};
ghost use Rattle.worker_core.specs.Desks.{Given, Refused, Taken, Empty, order_count, sent_at};

use crate::Order;
use lane_core::{Carried, Full, Receiver, Sender};
use pc_base::SliceNo;
use std::sync::Wait;

/// The front's ends of the two lanes of one worker: it is told by one, and halves come home by the other.
#[derive(Drop)]
pub struct LaneDesk<O: Carried, H: Carried> {
    pub orders: Sender<O>,
    pub home: Receiver<H>,
}

/// The desk of a worker whose halves travel.
pub type Desk<H> = LaneDesk<Order<H>, H>;

/// Offers an order at the desk of a slice.
pub fn offer<O: Carried, H: Carried, R: Wait>(
    rt: &R,
    desks: &mut Vec<LaneDesk<O, H>>,
    slice: SliceNo,
    order: O,
) -> Result<(), Full<O>>
    requires within { slice < vec_len desks.old }
    requires few { sum_by order_count desks.old.items < 2 ^ 50 }
    requires law { O.follows (sent_at desks.old.items slice) order }
    ensures given { OnOk result (Given slice order desks.old.items desks.new.items) }
    ensures full { IfErr result (λ full. (full.0 ≡ order) × Refused slice desks.old.items desks.new.items) }
    ensures len { vec_len desks.new ≡ vec_len desks.old }
{
    desks[slice.0 as usize].orders.offer(rt, order)
}

/// Takes a half from the lane home of a slice.
pub fn take_home<O: Carried, H: Carried, R: Wait>(
    rt: &R,
    desks: &mut Vec<LaneDesk<O, H>>,
    slice: usize,
) -> Option<H>
    requires { slice < vec_len desks.old }
    ensures taken { MatchOption result (Empty slice desks.old.items desks.new.items)
        (λ half. Taken slice half desks.old.items desks.new.items) }
    ensures len { vec_len desks.new ≡ vec_len desks.old }
{
    desks[slice].home.take(rt)
}
