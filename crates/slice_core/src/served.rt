//! The threads of an epoch.
ghost use Rattle.std.specs.Prelude.{◌+◌, ◌≤◌, ◌^◌, length, IfOk};
ghost use Rattle.front_core.specs.Words.{IsWhole, latest_in, lines_in};
ghost use Rattle.at_rest.specs.Coming.{AreLater};
ghost use Rattle.slice_core.specs.Lines.{TakesAll};
ghost use Rattle.slice_core.specs.Serving.{AreFor, AreServed, HasRoomFor, Serves};

use crate::calls::calls_of;
use crate::lines::{linger_on, take_lines};
use crate::{Calls, Ends, Gate, NoMemory, Pace, SliceThread, join_slices, start_slices};
use control_half::ControlHalf;
use counter_half::DataHalf;
use front_core::{Front, Opened};
use std::alloc::Global;
use std::sync::Wait;
use std::thread::{Scope, Threads};
use trace_lines::TraceLine;
use worker_core::{DataEnd, Post, WorkerEnd, posts_of, stop_all};

/// What the threads of slices take memory for, before the first is started.
#[derive(Drop)]
pub(crate) struct Places<'p> {
    pub(crate) threads: Vec<SliceThread<'p>>,
    pub(crate) ends: Ends<'p>,
}

/// The post and the calls of each slice.
#[derive(Drop)]
pub(crate) struct Posts {
    pub(crate) slices: Vec<Post>,
    pub(crate) calls: Vec<Calls>,
}

/// The front behind the lines, if it had memory for them, and the ends of its workers.
#[derive(Drop)]
pub(crate) struct ServedEpoch<'p> {
    pub(crate) front: Result<Front<'p>, NoMemory>,
    pub(crate) controls: Vec<WorkerEnd<ControlHalf>>,
    pub(crate) datas: Vec<DataEnd<DataHalf<'p>>>,
}

impl<'p> Places<'p> {
    pub(crate) fn new(alloc: Global, slices: usize) -> Result<Places<'p>, NoMemory>
        ensures { IfOk result (λ places. HasRoomFor slices places) }
    {
        Ok(Places {
            threads: Vec::with_capacity(alloc, slices)?,
            ends: Ends {
                controls: Vec::with_capacity(alloc, slices)?,
                datas: Vec::with_capacity(alloc, slices)?,
            },
        })
    }
}

impl Posts {
    pub(crate) fn new(alloc: Global, slices: usize) -> Result<Posts, NoMemory>
        ensures { IfOk result (λ posts. AreFor slices posts) }
    {
        Ok(Posts {
            slices: posts_of(alloc, slices)?,
            calls: calls_of(alloc, slices)?,
        })
    }
}

/// Starts the threads, takes the lines, lingers, tells the threads to stop and waits for the ends. They are told
/// whatever became of the lines, since a thread that isn't told never ends.
pub(crate) fn serve<'p, 's, E, G: Gate, R: Threads + Wait + Sync>(
    scope: &Scope<'s, E>,
    rt: &'s R,
    alloc: Global,
    opened: Opened<'p>,
    places: Places<'p>,
    posts: &'s Posts,
    lines: &'p [TraceLine],
    pace: Pace,
    gate: &'s G,
) -> ServedEpoch<'p>
where
    'p: 's,
    requires { AreServed opened places posts.now lines.now }
    ensures { Serves opened.entry (pace.patience + 1) lines.now result }
{
    let slice_posts = posts.slices.as_slice();
    let threads = start_slices(
        scope,
        rt,
        alloc,
        opened.controls,
        opened.datas,
        slice_posts,
        posts.calls.as_slice(),
        gate,
        places.threads,
    );
    let front = front_work(rt, opened.front, lines, posts, pace);
    stop_all(slice_posts);
    let ends = join_slices(rt, threads, places.ends);
    ServedEpoch {
        front,
        controls: ends.controls,
        datas: ends.datas,
    }
}

// What the front does meanwhile.
fn front_work<'p, R: Wait>(
    rt: &R,
    front: Front<'p>,
    lines: &'p [TraceLine],
    posts: &Posts,
    pace: Pace,
) -> Result<Front<'p>, NoMemory>
    requires whole { IsWhole front }
    requires few { lines_in front + length lines.now ≤ 2 ^ 39 }
    requires later { AreLater (latest_in front) lines.now }
    ensures { IfOk result (λ now. TakesAll (pace.patience + 1) lines.now front.entry now) }
{
    let mut front = take_lines(rt, front, lines, pace.patience, posts)?;
    linger_on(rt, &mut front, posts, pace.linger);
    Ok(front)
}
