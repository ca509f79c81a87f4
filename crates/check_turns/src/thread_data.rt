//! The data half goes to a slice, an item follows it, it is called back while more items come, and all come home.
ghost use Rattle.std.specs.Prelude.{◌≡◌, [], ◌∷◌};
ghost use Rattle.worker_core.specs.DataWorkers.{worker_lanes, end_lanes};
ghost use Rattle.worker_core.specs.Desks.{lanes_of};
ghost use Rattle.migration.specs.DataWords.{desks_of};
ghost use Rattle.counter_half.specs.Half.{handled_by};

use crate::thread_stop::ThreadStop;
use counter_half::{DataHalf, DataItem};
use gather_home::{Home, gather_data};
use migration::{DataSide, DataSideEnd};
use pc_base::{SliceNo, Slot};
use std::alloc::Global;
use std::snapshot::Snapshot;
use std::sync::Wait;
use std::thread::{self, Promise, Scope, Threads};
use worker_core::{DataDesk, DataEnd, DataWorker, data_pair};

const SLICE: SliceNo = SliceNo(0);

/// How often a worker is turned.
const TURNS: u32 = 64;

/// How many items wait in a queue at the front, at most.
const QUEUE: u32 = 4;

/// How many halves came home, and how many of the first one's items weren't handled.
#[derive(Clone, Copy)]
struct Homes {
    homes: usize,
    left: usize,
}

/// The same; at which place the half was; whether an item went to the queue before the half was called back, and
/// after; and how many items were refused.
#[derive(Clone, Copy)]
pub struct DataCame {
    pub homes: usize,
    pub left: usize,
    pub place: u8,
    pub parks: bool,
    pub parks_then: bool,
    pub refused: u64,
}

/// An end of this worker has its lanes.
#[derive(Drop)]
struct EndOf<'p>(Snapshot<DataWorker<DataHalf<'p>>>);

impl<'p> Promise<DataEnd<DataHalf<'p>>> for EndOf<'p> {
    ghost kept_by = { λ promise end. end_lanes end ≡ worker_lanes promise.0.value };
}

// Some turns of a worker, and its end.
fn serve<'p, R: Wait>(rt: &R, mut worker: DataWorker<DataHalf<'p>>) -> DataEnd<DataHalf<'p>>
    ensures { end_lanes result ≡ worker_lanes worker.entry }
{
    for _ in 0..TURNS {
        if worker.turn(rt).is_err() {
            break;
        }
    }
    worker.into_end()
}

// The same in a thread; where none can be started, here.
fn serve_in<'p, 's, E, R: Threads + Wait + Sync>(
    scope: &Scope<'s, E>,
    rt: &'s R,
    worker: DataWorker<DataHalf<'p>>,
) -> DataEnd<DataHalf<'p>>
where
    'p: 's,
    ensures { end_lanes result ≡ worker_lanes worker.entry }
{
    let promise = EndOf(Snapshot::of(&worker));
    let turns = move || serve(rt, worker);
    match scope.spawn_with(promise, turns) {
        Ok(handle) => handle.join(rt),
        Err(refused) => (refused.value)(),
    }
}

fn serve_there<'p, R: Threads + Wait + Sync>(
    rt: &'p R,
    worker: DataWorker<DataHalf<'p>>,
) -> DataEnd<DataHalf<'p>>
    ensures { end_lanes result ≡ worker_lanes worker.entry }
{
    thread::scope(
        thread::scope_env(),
        rt,
        |scope| -> DataEnd<DataHalf<'_>>
            ensures { end_lanes result ≡ worker_lanes worker.entry }
        { serve_in(scope, rt, worker) },
    )
}

/// A side with one slice, and the worker there.
#[derive(Drop)]
struct Path<'p> {
    side: DataSide<DataHalf<'p>>,
    worker: DataWorker<DataHalf<'p>>,
    ghost lanes: { lanes_of (desks_of side) ≡ worker_lanes worker ∷ [] },
}

impl<'p> Path<'p> {
    // Sends the half to the slice.
    fn sent<R: Wait>(rt: &R, alloc: Global, half: DataHalf<'p>) -> Result<Path<'p>, ThreadStop>
        requires { handled_by half ≡ [] }
    {
        let (desk, worker) = data_pair::<DataHalf<'p>>(alloc, SLICE, 16)?;
        let desks: Vec<DataDesk<DataHalf<'p>>> = Vec::from_array(alloc, [desk])?;
        let mut side = DataSide::new(alloc, desks, QUEUE);
        match side.admit(rt, half, SLICE, false) {
            Ok(()) => Ok(Path { side, worker }),
            Err(_) => Err(ThreadStop::Back),
        }
    }

    // Sends an item behind it; whether it went.
    fn give<R: Wait>(&mut self, rt: &R, item: DataItem<'p>) -> bool {
        if !self.side.is_admitted(item.slot) || self.side.asked() > 8 {
            return false;
        }
        self.side.give(rt, item).is_ok()
    }

    // Gives all of these, as far as they are accepted.
    fn give_all<R: Wait>(&mut self, rt: &R, items: Vec<DataItem<'p>>) {
        for item in items {
            self.give(rt, item);
        }
    }

    // Calls the half back to the slice.
    fn call_back<R: Wait>(&mut self, rt: &R) {
        if self.side.is_admitted(Slot(0)) && self.side.slices() == 1 && self.side.asked() < 8 {
            self.side.go(rt, Slot(0), SLICE);
        }
    }

    // Calls the half back and gives more items, turns it at the slice, sends it there again, and gathers it.
    fn home<R: Threads + Wait + Sync>(
        mut self,
        rt: &'p R,
        alloc: Global,
        more: Vec<DataItem<'p>>,
    ) -> Result<DataCame, ThreadStop> {
        let parks = self.side.parks(Slot(0));
        self.call_back(rt);
        let parks_then = self.side.parks(Slot(0));
        self.give_all(rt, more);
        self.side.pump(rt);
        let place = self.worker.place();
        let end = serve_there(rt, self.worker);
        self.side.pump(rt);
        let refused = self.side.refused();
        let found = gathered(rt, alloc, self.side.into_end(), end)?;
        Ok(DataCame {
            homes: found.homes,
            left: found.left,
            place: place.0,
            parks,
            parks_then,
            refused,
        })
    }
}

fn gathered<'p, R: Wait>(
    rt: &R,
    alloc: Global,
    side: DataSideEnd<DataHalf<'p>>,
    end: DataEnd<DataHalf<'p>>,
) -> Result<Homes, ThreadStop>
    requires { lanes_of side.desks.items ≡ end_lanes end ∷ [] }
{
    let ends: Vec<DataEnd<DataHalf<'p>>> = Vec::from_array(alloc, [end])?;
    match gather_data(rt, alloc, side, ends) {
        Ok(homes) => Ok(counted(&homes)),
        Err(parts) => match parts.again(rt) {
            Ok(homes) => Ok(counted(&homes)),
            Err(_) => Err(ThreadStop::NoMemory),
        },
    }
}

fn counted(homes: &[Home<DataHalf<'_>>]) -> Homes {
    let left = match homes.first() {
        Some(home) => home.left.len(),
        None => 0,
    };
    Homes {
        homes: homes.len(),
        left,
    }
}

/// Sends the half to a slice and an item behind it, calls it back while more items come, turns it there, and gathers
/// it.
pub fn data_home<'p, R: Threads + Wait + Sync>(
    rt: &'p R,
    alloc: Global,
    half: DataHalf<'p>,
    item: DataItem<'p>,
    more: Vec<DataItem<'p>>,
) -> Result<DataCame, ThreadStop>
    requires { handled_by half ≡ [] }
{
    let mut path = Path::sent(rt, alloc, half)?;
    if path.give(rt, item) {
        path.home(rt, alloc, more)
    } else {
        Err(ThreadStop::Back)
    }
}
