//! The threads of slices are started, and their ends awaited.
ghost use Rattle.std.specs.Prelude.{◌≡◌, ◌≤◌, [], length, map, vec_len, vec_capacity};
ghost use Rattle.slice_core.specs.Seats.{control_seat, control_end_seat, ends_seats, data_seat, data_end_seat};
ghost use Rattle.slice_core.specs.Seats.{workers_seats};
ghost use Rattle.slice_core.specs.Threads.{control_in, data_in, seats_in};

use crate::calls::Calls;
use crate::gate::Gate;
use crate::promises::{SliceEnded, SliceOf};
use crate::serving::{ControlWorker, SliceEnds, SliceWorkers, serve_slice};
use control_half::ControlHalf;
use counter_half::DataHalf;
use std::alloc::Global;
use std::snapshot::Snapshot;
use std::sync::Wait;
use std::thread::{PromisedHandle, Scope, Threads};
use worker_core::{DataEnd, DataWorker, Post, WorkerEnd};

/// A slice whose workers were given to a thread; or their ends, where none could be started.
#[derive(Drop)]
pub enum SliceThread<'p> {
    Running(PromisedHandle<SliceEnds<'p>, SliceOf<'p>>),
    Refused(SliceEnded<'p>),
}

/// The ends of the workers of each kind, in the order of slices.
#[derive(Drop)]
pub struct Ends<'p> {
    pub controls: Vec<WorkerEnd<ControlHalf>>,
    pub datas: Vec<DataEnd<DataHalf<'p>>>,
}

impl<'p> SliceThread<'p> {
    // Gives the workers to a thread. Where none can be started its post says stop, so their ends come behind the gate,
    // without a turn.
    fn start<'s, E, G: Gate, R: Wait + Sync>(
        scope: &Scope<'s, E>,
        rt: &'s R,
        alloc: Global,
        workers: SliceWorkers<'p>,
        post: &'s Post,
        calls: &'s Calls,
        gate: &'s G,
    ) -> SliceThread<'p>
    where
        'p: 's,
        ensures { seats_in result ≡ workers_seats workers.entry }
    {
        let same = Snapshot::of(&workers);
        let promise = SliceOf(Snapshot::of(&workers));
        let turns = move || serve_slice(rt, alloc, workers, post, calls, gate);
        match scope.spawn_with(promise, turns) {
            Ok(handle) => SliceThread::Running(handle),
            Err(refused) => {
                post.stop();
                let ends = (refused.value)();
                SliceThread::Refused(SliceEnded {
                    ends,
                    workers: same,
                })
            }
        }
    }

    // Waits for the ends.
    fn join<R: Threads>(self, rt: &R) -> SliceEnds<'p>
        ensures { ends_seats result ≡ seats_in self.entry }
    {
        match self {
            SliceThread::Running(handle) => handle.join(rt),
            SliceThread::Refused(ended) => ended.ends,
        }
    }
}

/// Gives the workers of each slice to a thread, with the post and the calls at its index. Memory for the threads is
/// handed in, empty.
pub fn start_slices<'p, 's, E, G: Gate, R: Wait + Sync>(
    scope: &Scope<'s, E>,
    rt: &'s R,
    alloc: Global,
    controls: Vec<ControlWorker>,
    datas: Vec<DataWorker<DataHalf<'p>>>,
    posts: &'s [Post],
    calls: &'s [Calls],
    gate: &'s G,
    mut threads: Vec<SliceThread<'p>>,
) -> Vec<SliceThread<'p>>
where
    'p: 's,
    requires pairs { vec_len datas ≡ vec_len controls }
    requires posts { vec_len controls ≤ length posts.now }
    requires calls { vec_len controls ≤ length calls.now }
    requires room { vec_len controls ≤ vec_capacity threads }
    requires empty { threads.items ≡ [] }

    ensures controls { map control_in result.items ≡ map control_seat controls.items }
    ensures datas { map data_in result.items ≡ map data_seat datas.entry.items }
{
    let mut rest = datas.into_iter();
    for control in controls {
        let Some(data_half) = rest.next() else {
            unreachable!()
        };
        let (post, theirs) = (&posts[threads.len()], &calls[threads.len()]);
        let workers = SliceWorkers { control, data_half };
        threads.push_reserved(SliceThread::start(scope, rt, alloc, workers, post, theirs, gate));
    }
    threads
}

/// Waits for the ends of each slice; all threads are to be told to stop before. Memory for ends is handed in, empty.
pub fn join_slices<'p, R: Threads>(
    rt: &R,
    threads: Vec<SliceThread<'p>>,
    mut ends: Ends<'p>,
) -> Ends<'p>
    requires room { (vec_len threads ≤ vec_capacity ends.controls) × (vec_len threads ≤ vec_capacity ends.datas) }
    requires empty { (ends.controls.items ≡ []) × (ends.datas.items ≡ []) }

    ensures controls { map control_end_seat result.controls.items ≡ map control_in threads.entry.items }
    ensures datas { map data_end_seat result.datas.items ≡ map data_in threads.entry.items }
{
    for thread in threads {
        let SliceEnds { control, data_half } = thread.join(rt);
        ends.controls.push_reserved(control);
        ends.datas.push_reserved(data_half);
    }
    ends
}
