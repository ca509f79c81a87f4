//! What a thread does before it looks at its post again.
ghost use Rattle.std.specs.Prelude.{◌≡◌};
ghost use Rattle.worker_core.specs.Workers.{worker_lanes, place_of};
ghost use Rattle.worker_core.specs.DataWorkers.{worker_lanes as data_lanes, place_of as data_place};

use crate::NoMemory;
use crate::calls::Calls;
use lane_core::Did;
use pc_base::Slot;
use std::alloc::Global;
use std::collections::VecDeque;
use std::sync::Wait;
use worker_core::{Attended, DataTraveller, DataWorker, Traveller, Worker};

// So many rounds of a control worker without work, and all its halves are turned, should one have something to do of
// which no call told.
const QUIET: u32 = 4096;

// How often the data worker is turned in a round, at most.
const TURNS: u32 = 4;

/// What the rounds of a control worker have come to.
#[derive(Drop)]
pub(crate) struct Rounds {
    /// Those that had something left to do when they were last turned.
    unfinished: VecDeque<Slot>,
    /// How many rounds in a row found nothing to do.
    quiet: u32,
    /// Whether all halves are turned, until none has worked.
    whole: bool,
}

impl Rounds {
    pub(crate) fn new(alloc: Global) -> Rounds {
        Rounds {
            unfinished: VecDeque::new(alloc),
            quiet: 0,
            whole: false,
        }
    }

    // Counts a round.
    fn count(&mut self, did: Did) {
        match did {
            Did::Idle => {
                self.whole = false;
                self.quiet = self.quiet.saturating_add(1);
            }
            Did::Held => {}
            Did::Worked => self.quiet = 0,
        }
    }
}

/// A round of each worker of a slice: what they came to.
pub(crate) fn round<H: Traveller, F: DataTraveller, R: Wait>(
    rt: &R,
    control: &mut Worker<H>,
    data_half: &mut DataWorker<F>,
    rounds: &mut Rounds,
    calls: &Calls,
) -> Result<Did, NoMemory>
    ensures lanes { worker_lanes control.new ≡ worker_lanes control.old }
    ensures place { place_of control.new ≡ place_of control.old }
    ensures data_lanes { data_lanes data_half.new ≡ data_lanes data_half.old }
    ensures data_place { data_place data_half.new ≡ data_place data_half.old }
{
    let told = control_round(rt, control, rounds, calls)?;
    let done = data_round(rt, data_half)?;
    Ok(either(told, done))
}

// Turns the data worker, until it finds nothing to do or was turned four times.
fn data_round<F: DataTraveller, R: Wait>(
    rt: &R,
    worker: &mut DataWorker<F>,
) -> Result<Did, NoMemory>
    ensures lanes { data_lanes worker.new ≡ data_lanes worker.old }
    ensures place { data_place worker.new ≡ data_place worker.old }
{
    let mut did = Did::Idle;
    for _ in 0..TURNS {
        let Did::Worked = worker.turn(rt)? else {
            return Ok(did);
        };
        did = Did::Worked;
    }
    Ok(did)
}

// A round of the control worker. Where a call found no place, and behind 4,096 rounds in a row that found nothing, all
// halves are turned until none has worked.
fn control_round<H: Traveller, R: Wait>(
    rt: &R,
    worker: &mut Worker<H>,
    rounds: &mut Rounds,
    calls: &Calls,
) -> Result<Did, NoMemory>
    ensures lanes { worker_lanes worker.new ≡ worker_lanes worker.old }
    ensures place { place_of worker.new ≡ place_of worker.old }
{
    if calls.take_missed(rt) || rounds.quiet >= QUIET {
        rounds.whole = true;
        rounds.quiet = 0;
    }
    let did = if rounds.whole {
        worker.turn(rt)?
    } else {
        turn_called(rt, worker, &mut rounds.unfinished, calls)?
    };
    rounds.count(did);
    Ok(did)
}

// Takes an order, or sends a half home. A half that came is turned; where nothing of this was done, one that was
// called is, and the next of those that have something left to do.
fn turn_called<H: Traveller, R: Wait>(
    rt: &R,
    worker: &mut Worker<H>,
    unfinished: &mut VecDeque<Slot>,
    calls: &Calls,
) -> Result<Did, NoMemory>
    ensures lanes { worker_lanes worker.new ≡ worker_lanes worker.old }
    ensures place { place_of worker.new ≡ place_of worker.old }
{
    match worker.attend(rt)? {
        Attended::Came(slot) => {
            turn_next(rt, worker, unfinished, Some(slot))?;
            Ok(Did::Worked)
        }
        Attended::Left => Ok(Did::Worked),
        Attended::Nothing => {
            let next = unfinished.pop_front();
            let called = turn_next(rt, worker, unfinished, calls.next(rt))?;
            let other = turn_next(rt, worker, unfinished, next)?;
            Ok(either(called, other))
        }
    }
}

// Turns the half of a slot, if there is one. It has something left to do where it worked, or was held.
fn turn_next<H: Traveller, R: Wait>(
    rt: &R,
    worker: &mut Worker<H>,
    unfinished: &mut VecDeque<Slot>,
    slot: Option<Slot>,
) -> Result<Did, NoMemory>
    ensures lanes { worker_lanes worker.new ≡ worker_lanes worker.old }
    ensures place { place_of worker.new ≡ place_of worker.old }
{
    let Some(slot) = slot else {
        return Ok(Did::Idle);
    };
    let did = worker.turn_one(rt, slot)?;
    if did != Did::Idle {
        unfinished.push_back(slot)?;
    }
    Ok(did)
}

// What two turns came to.
fn either(one: Did, other: Did) -> Did {
    match (one, other) {
        (Did::Worked, _) | (_, Did::Worked) => Did::Worked,
        (Did::Held, _) | (_, Did::Held) => Did::Held,
        (Did::Idle, Did::Idle) => Did::Idle,
    }
}
