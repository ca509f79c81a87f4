//! The control half goes to a slice and comes home.
ghost use Rattle.std.specs.Prelude.{◌≡◌, [], ◌∷◌};
ghost use Rattle.worker_core.specs.Workers.{worker_lanes, end_lanes, place_of};
ghost use Rattle.worker_core.specs.Desks.{lanes_of};
ghost use Rattle.migration.specs.Words.{desks_of};

use crate::thread_stop::ThreadStop;
use control_half::ControlHalf;
use gather_home::gather;
use migration::{Side, SideEnd};
use pc_base::{SliceNo, Slot};
use std::alloc::Global;
use std::snapshot::Snapshot;
use std::sync::Wait;
use std::thread::{self, Promise, Scope, Threads};
use worker_core::{Worker, WorkerEnd, pair};

const SLICE: SliceNo = SliceNo(0);

/// How often a worker is turned.
const TURNS: u32 = 64;

/// An end of this worker has its place and its lanes.
#[derive(Drop)]
struct EndOf(Snapshot<Worker<ControlHalf>>);

impl Promise<WorkerEnd<ControlHalf>> for EndOf {
    ghost kept_by = { λ promise end. (end_lanes end ≡ worker_lanes promise.0.value)
        × (end.place ≡ place_of promise.0.value) };
}

// Some turns of a worker, and its end.
fn serve<R: Wait>(rt: &R, mut worker: Worker<ControlHalf>) -> WorkerEnd<ControlHalf>
    ensures lanes { end_lanes result ≡ worker_lanes worker }
    ensures place { result.place ≡ place_of worker }
{
    for _ in 0..TURNS {
        if worker.turn(rt).is_err() {
            break;
        }
    }
    worker.into_end()
}

// The same in a thread; where none can be started, here.
fn serve_in<'s, E, R: Threads + Wait + Sync>(
    scope: &Scope<'s, E>,
    rt: &'s R,
    worker: Worker<ControlHalf>,
) -> WorkerEnd<ControlHalf>
    ensures lanes { end_lanes result ≡ worker_lanes worker }
    ensures place { result.place ≡ place_of worker }
{
    let promise = EndOf(Snapshot::of(&worker));
    let turns = move || serve(rt, worker);
    match scope.spawn_with(promise, turns) {
        Ok(handle) => handle.join(rt),
        Err(refused) => (refused.value)(),
    }
}

fn serve_there<R: Threads + Wait + Sync>(
    rt: &R,
    worker: Worker<ControlHalf>,
) -> WorkerEnd<ControlHalf>
    ensures lanes { end_lanes result ≡ worker_lanes worker }
    ensures place { result.place ≡ place_of worker }
{
    thread::scope(
        thread::scope_env(),
        rt,
        |scope| -> WorkerEnd<ControlHalf>
            ensures lanes { end_lanes result ≡ worker_lanes worker }
            ensures place { result.place ≡ place_of worker }
        { serve_in(scope, rt, worker) },
    )
}

/// How many halves came home; and whether nothing was asked any more of the half that was sent to its slice, of the
/// one that was called back, and of the one that came home and was sent again.
#[derive(Clone, Copy)]
pub struct ControlCame {
    pub homes: usize,
    pub sent: bool,
    pub called: bool,
    pub again: bool,
}

/// A side with one slice, and the worker there.
#[derive(Drop)]
struct Path {
    side: Side<ControlHalf>,
    worker: Worker<ControlHalf>,
    ghost lanes: { lanes_of (desks_of side) ≡ worker_lanes worker ∷ [] },
}

impl Path {
    // Sends the half to the slice.
    fn sent<R: Wait>(rt: &R, alloc: Global, half: ControlHalf) -> Result<Path, ThreadStop> {
        let (desk, worker) = pair(alloc, SLICE)?;
        let desks = Vec::from_array(alloc, [desk])?;
        let mut side = Side::new(alloc, desks);
        match side.admit(rt, half, SLICE, 0) {
            Ok(()) => Ok(Path { side, worker }),
            Err(_) => Err(ThreadStop::Back),
        }
    }

    // Calls it back to the slice.
    fn call_back<R: Wait>(&mut self, rt: &R) {
        if self.side.is_admitted(Slot(0)) && self.side.slices() == 1 && self.side.asked() < 8 {
            self.side.go(rt, Slot(0), SLICE, 1);
        }
    }

    fn settled(&self) -> bool {
        self.side.settled(Slot(0))
    }

    // Calls the half back, turns it at the slice, sends it there again, and gathers it.
    fn home<R: Threads + Wait + Sync>(
        mut self,
        rt: &R,
        alloc: Global,
    ) -> Result<ControlCame, ThreadStop> {
        let sent = self.settled();
        self.call_back(rt);
        self.side.pump(rt);
        let called = self.settled();
        let end = serve_there(rt, self.worker);
        self.side.pump(rt);
        let again = self.side.settled(Slot(0));
        let homes = gathered(rt, alloc, self.side.into_end(), end)?;
        Ok(ControlCame {
            homes,
            sent,
            called,
            again,
        })
    }
}

fn gathered<R: Wait>(
    rt: &R,
    alloc: Global,
    side: SideEnd<ControlHalf>,
    end: WorkerEnd<ControlHalf>,
) -> Result<usize, ThreadStop>
    requires { lanes_of side.desks.items ≡ end_lanes end ∷ [] }
{
    let ends = Vec::from_array(alloc, [end])?;
    match gather(rt, alloc, side, ends) {
        Ok(halves) => Ok(halves.len()),
        Err(parts) => match parts.again(rt) {
            Ok(halves) => Ok(halves.len()),
            Err(_) => Err(ThreadStop::NoMemory),
        },
    }
}

/// Sends the half to a slice, turns it there, calls it back to the slice, and gathers it.
pub fn control_home<R: Threads + Wait + Sync>(
    rt: &R,
    alloc: Global,
    half: ControlHalf,
) -> Result<ControlCame, ThreadStop> {
    let path = Path::sent(rt, alloc, half)?;
    path.home(rt, alloc)
}
