//! The loop of a thread.
ghost use Rattle.std.specs.Prelude.{◌≡◌};
ghost use Rattle.worker_core.specs.Workers.{worker_lanes, end_lanes, place_of};
ghost use Rattle.worker_core.specs.DataWorkers.{worker_lanes as data_lanes, end_lanes as data_end_lanes};
ghost use Rattle.worker_core.specs.DataWorkers.{place_of as data_place};
ghost use Rattle.slice_core.specs.Seats.{ends_seats, workers_seats};

use crate::calls::Calls;
use crate::gate::Gate;
use crate::rounds::{Rounds, round};
use control_half::ControlHalf;
use counter_half::DataHalf;
use lane_core::Did;
use std::alloc::Global;
use std::sync::Wait;
use worker_core::{DataEnd, DataTraveller, DataWorker, Post, Traveller, Worker, WorkerEnd};

/// Has the control halves of a slice.
pub type ControlWorker = Worker<ControlHalf>;

/// The workers of a slice.
#[derive(Drop)]
pub struct SliceWorkers<'p> {
    pub control: ControlWorker,
    pub data_half: DataWorker<DataHalf<'p>>,
}

/// Their ends.
#[derive(Drop)]
pub struct SliceEnds<'p> {
    pub control: WorkerEnd<ControlHalf>,
    pub data_half: DataEnd<DataHalf<'p>>,
}

fn serve_both<H: Traveller, F: DataTraveller, R: Wait>(
    rt: &R,
    alloc: Global,
    mut control: Worker<H>,
    mut data_half: DataWorker<F>,
    post: &Post,
    calls: &Calls,
) -> (WorkerEnd<H>, DataEnd<F>)
    ensures lanes { end_lanes result.0 ≡ worker_lanes control }
    ensures place { result.0.place ≡ place_of control }
    ensures data_lanes { data_end_lanes result.1 ≡ data_lanes data_half }
    ensures data_place { result.1.place ≡ data_place data_half }
{
    let mut rounds = Rounds::new(alloc);
    let mut quiet: u32 = 0;
    for _ in rt.forever() {
        if post.is_stopped() {
            break;
        }
        match round(rt, &mut control, &mut data_half, &mut rounds, calls) {
            Ok(Did::Worked) => {
                post.rise(quiet);
                quiet = 0;
            }
            Ok(Did::Idle) => {
                post.note_idle();
                quiet = post.rest(rt, quiet);
            }
            Ok(Did::Held) => quiet = post.rest(rt, quiet),
            Err(_) => break,
        }
    }
    post.stop();
    (control.into_end(), data_half.into_end())
}

/// Serves the workers of a slice, once it passed the gate, until the post says stop, at which it looks before each
/// round, or until one of them runs out of memory; then gives their ends, each with its worker's place and lanes and
/// all that it holds.
///
/// In a round the control worker takes an order or sends a half home; else it turns a half that was called, and one
/// that had something left to do. Where a call found no place, and behind 4,096 rounds in a row in which it found
/// nothing, all its halves are turned until none has worked. Then the data worker is turned until it finds nothing, at
/// most four times. Behind two rounds in a row that came to nothing the thread sleeps until it is woken.
///
/// No clause speaks of calls, or of sleep: calls say which halves to turn first, all are turned where one is missed,
/// and what no thread did is done as the epoch is closed.
pub fn serve_slice<'p, G: Gate, R: Wait>(
    rt: &R,
    alloc: Global,
    workers: SliceWorkers<'p>,
    post: &Post,
    calls: &Calls,
    gate: &G,
) -> SliceEnds<'p>
    ensures { ends_seats result ≡ workers_seats workers.entry }
{
    gate.meet(workers.data_half.place());
    let SliceWorkers { control, data_half } = workers;
    let (control, data_half) = serve_both(rt, alloc, control, data_half, post, calls);
    SliceEnds { control, data_half }
}
