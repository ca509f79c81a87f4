//! How a lane ends.
ghost use Rattle.std.specs.Prelude.{◌≡◌, ◌≤◌, ◌+◌, ◌++◌, true, length, vec_len, vec_capacity, IfOk, IfErr, OnOk};
ghost use Rattle.crossbeam_queue.specs.Passes.{view, IsPassOf};
ghost use Rattle.lane_core.specs.Sequence.{Lawful};
ghost use Rattle.lane_core.specs.Ends.{sender_lane, receiver_lane, sent, taken};

use crate::sequence::{Drains, EndLog, Joined, Line};
use crate::{Carried, Receiver, Sender};
use crossbeam_queue::Pass;
use std::alloc::Global;
use std::sync::{Arc, Wait};

/// Both ends of a lane.
#[derive(Drop)]
pub struct Ends<T: Carried> {
    pub tx: Sender<T>,
    pub rx: Receiver<T>,
}

/// Ends a lane, and gives the items that were not taken yet, in order. Memory is taken for these
/// alone, before anything is done; where there is none both ends come back as they were.
pub fn close<T: Carried, R: Wait>(
    rt: &R,
    alloc: Global,
    tx: Sender<T>,
    rx: Receiver<T>,
) -> Result<Vec<T>, Ends<T>>
    requires { sender_lane tx ≡ receiver_lane rx }

    // What was sent is what was taken and then the rest, which has no more items than the lane room.
    ensures rest { IfOk result (λ rest. sent tx ≡ taken rx ++ rest.items) }
    ensures within { IfOk result (λ rest. length rest.items ≤ (sender_lane tx).room) }
    ensures lawful { OnOk result (Lawful T.follows (sent tx)) }

    ensures kept { IfErr result (λ ends. (ends.tx ≡ tx) × (ends.rx ≡ rx)) }
{
    let Ok(rest) = Vec::with_capacity(alloc, tx.offers.saturating_sub(rx.takes) as usize) else {
        return Err(Ends { tx, rx });
    };
    let Sender {
        queue,
        mut pass,
        ..
    } = tx;
    let Receiver { pass: theirs, .. } = rx;
    queue.absorb::<Joined>(&mut pass, theirs);
    queue.len_as::<Drains, R>(rt, &mut pass);
    Ok(drained(rt, &queue, pass, rest))
}

/// The items that are left, taken one after another.
fn drained<T: Carried, R: Wait>(
    rt: &R,
    queue: &Line<T>,
    mut pass: Pass<T, EndLog<T>>,
    mut rest: Vec<T>,
) -> Vec<T>
    requires pass { IsPassOf queue.now pass }
    requires both { ((view pass).pushes ≡ true) × ((view pass).pops ≡ true) }
    requires room { length (view pass).sent ≤ length (view pass).got + vec_capacity rest }
    requires new { vec_len rest ≡ 0 }
    ensures { (view pass).sent ≡ (view pass).got ++ result.items }
{
    while let Some(item) = queue.pop_as::<Drains, R>(rt, &mut pass) {
        rest.push_reserved(item);
    }
    rest
}
