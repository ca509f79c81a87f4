//! What a thread promises of the ends that it gives, and the ends of workers that no thread served.
ghost use Rattle.std.specs.Prelude.{◌≡◌};
ghost use Rattle.slice_core.specs.Seats.{ends_seats, workers_seats};

use crate::serving::{SliceEnds, SliceWorkers};
use std::snapshot::Snapshot;
use std::thread::Promise;

/// The promise of a thread with the workers of a slice: its ends have the seats of these.
#[derive(Drop)]
pub struct SliceOf<'p>(pub Snapshot<SliceWorkers<'p>>);

impl<'p> Promise<SliceEnds<'p>> for SliceOf<'p> {
    ghost kept_by = { λ promise ends. ends_seats ends ≡ workers_seats promise.0.value };
}

/// The ends of workers that no thread served.
#[derive(Drop)]
pub struct SliceEnded<'p> {
    pub ends: SliceEnds<'p>,
    pub workers: Snapshot<SliceWorkers<'p>>,
    pub ghost kept: { ends_seats ends ≡ workers_seats workers.value },
}
