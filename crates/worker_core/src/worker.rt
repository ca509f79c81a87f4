//! A worker: the halves that it holds, and the ends of its two lanes.
ghost use Rattle.std.specs.Prelude.{◌≡◌, ◌≤◌, ◌<◌, ◌+◌, ◌⊎◌, [], All, length, vec_len};
ghost use Rattle.std.specs.Prelude.{vec_capacity, true, false, IsSome, IfOk, OnErr, MatchBool, MatchOption};
ghost use Rattle.lane_core.specs.Ends.{sent, taken, full_answers, empty_answers, raised};
ghost use Rattle.worker_core.specs.Names.{Kept};
ghost use Rattle.worker_core.specs.Leaves.{IsTold, is_held};
ghost use Rattle.worker_core.specs.Turns.{AllTurned};
ghost use Rattle.worker_core.specs.Answered.{AllRest, TurnedOne};
ghost use Rattle.worker_core.specs.Seeing.{AllSeen};
ghost use Rattle.worker_core.specs.Steps.{NoneWent, WentHome, HasWorked, Turned, SameButHalves, first_due, wrapped};
ghost use Rattle.worker_core.specs.Steps.{cursor_without, without_order, Attends};

use crate::turning::{came, find, find_due, forget, mark, moved_up, put_back, turn_at, turn_round};
use crate::{Attended, Order, Seen, Traveller};
use lane_core::{Did, Full, NoMemory, Receiver, Sender};
use pc_base::{SliceNo, Slot};
use std::alloc::Global;
use std::sync::Wait;

/// A half is to leave once it has done so much.
#[derive(Clone, Copy, Debug, PartialEq, Eq)]
pub struct Leaving {
    pub slot: Slot,
    pub until: u64,
}

/// A worker of one slice.
#[derive(Drop)]
pub struct Worker<H: Traveller> {
    place: SliceNo,
    /// Its halves, in the order in which they came.
    held: Vec<H>,
    /// Which of them are to leave.
    leaving: Vec<Leaving>,
    /// Where the next turn begins.
    cursor: usize,
    /// Where to look first for the half of a slot, and whether it is known that each stands there.
    seen: Seen,
    known: bool,
    orders: Receiver<Order<H>>,
    home: Sender<H>,
    pub ghost kept: { Kept H.name (taken orders) held.items (sent home) },
    ghost told: { All (IsTold (taken orders)) leaving.items },
    ghost within: { cursor ≤ vec_len held },
    ghost all_seen: { known ≡ true → AllSeen (λ half. H.slot_of (H.name half)) held.items seen },
}

/// What is left of a worker that stopped: its place, its halves and the ends of its lanes.
#[derive(Drop)]
pub struct WorkerEnd<H: Traveller> {
    pub place: SliceNo,
    pub held: Vec<H>,
    pub orders: Receiver<Order<H>>,
    pub home: Sender<H>,
    pub ghost kept: { Kept H.name (taken orders) held.items (sent home) },
}

impl<H: Traveller> Worker<H> {
    ghost use Rattle.worker_core.specs.Workers.{worker_lanes, orders_of, home_of, held_of, place_of, end_lanes};
    ghost use Rattle.worker_core.specs.Workers.{view_of, GoesHome};

    pub(crate) fn new(
        alloc: Global,
        place: SliceNo,
        orders: Receiver<Order<H>>,
        home: Sender<H>,
    ) -> Worker<H>
        requires { (taken orders ≡ []) × (sent home ≡ []) }
        ensures orders { orders_of result ≡ orders }
        ensures home { home_of result ≡ home }
        ensures place { place_of result ≡ place }
        ensures empty { held_of result ≡ [] }
    {
        Worker {
            place,
            held: Vec::new(alloc),
            leaving: Vec::new(alloc),
            cursor: 0,
            seen: Seen::new(alloc),
            known: true,
            orders,
            home,
        }
    }

    /// Does the first of these that it can: takes an order; sends home the first half that is due;
    /// turns its halves, from the cursor round, until one has worked. `Held` never comes.
    pub fn turn<R: Wait>(&mut self, rt: &R) -> Result<Did, NoMemory>
        ensures lanes { worker_lanes self.new ≡ worker_lanes self.old }
        ensures place { place_of self.new ≡ place_of self.old }

        // A half goes home only once an order told it to leave, and it has done what that said.
        ensures home { (sent (home_of self.new) ≡ sent (home_of self.old))
            ⊎ GoesHome H.name H.slot_of H.done_of (taken (orders_of self.new)) (sent (home_of self.old))
            (sent (home_of self.new)) }

        // Worked comes only where an order was taken; where none was there, and the first half that was due went
        // home; or where none went, and halves were turned from the cursor round until one worked.
        ensures worked { result ≡ Ok Did.Worked
            → HasWorked H.name (λ half. H.slot_of (H.name half)) H.done_of H.turns H.works H.turned_at (H.came_to 8)
            (place_of self.old) (view_of self.old) (view_of self.new) }

        // Idle comes only where no order was there, each half was turned and none worked, and, if one
        // was due home, the lane home was full.
        ensures idle_orders { result ≡ Ok Did.Idle
            → empty_answers (orders_of self.new) ≡ raised (empty_answers (orders_of self.old)) }
        ensures idle_turned { result ≡ Ok Did.Idle
            → AllTurned H.turns H.works H.turned_at (place_of self.old) (held_of self.old) (held_of self.new) }
        ensures idle_home { result ≡ Ok Did.Idle → IsSome
            (first_due (λ half. H.slot_of (H.name half)) H.done_of (view_of self.old))
            → full_answers (home_of self.new) ≡ raised (full_answers (home_of self.old)) }
        ensures idle_answers { result ≡ Ok Did.Idle → AllRest (H.came_to 8) 0 (length (held_of self.old))
            (held_of self.old) (held_of self.new) }
        ensures idle { result ≡ Ok Did.Idle → SameButHalves H.name (view_of self.old) (view_of self.new) }
        ensures held_never { result ≡ Ok Did.Held → ⊥ }

        // Where memory runs out nothing changes but what a half did.
        ensures err { OnErr result (SameButHalves H.name (view_of self.old) (view_of self.new)) }
    {
        let Attended::Nothing = self.attend(rt)? else {
            return Ok(Did::Worked);
        };
        self.turn_halves(rt)
    }

    /// Takes an order; or else, where none is there, sends home the first half that is due. It turns none.
    pub fn attend<R: Wait>(&mut self, rt: &R) -> Result<Attended, NoMemory>
        ensures lanes { worker_lanes self.new ≡ worker_lanes self.old }
        ensures place { place_of self.new ≡ place_of self.old }
        ensures home { (sent (home_of self.new) ≡ sent (home_of self.old))
            ⊎ GoesHome H.name H.slot_of H.done_of (taken (orders_of self.new)) (sent (home_of self.old))
            (sent (home_of self.new)) }

        // What it answers is what was done, and which half came. A half goes home, or nothing is done, only where no
        // order was there; nothing only where none was due, or the one that was met a full lane home.
        ensures attended { IfOk result (λ attended. Attends (λ half. H.slot_of (H.name half)) H.done_of attended
            (view_of self.old) (view_of self.new)) }

        // Where memory runs out all is as it was.
        ensures err { OnErr result (view_of self.new ≡ view_of self.old) }
    {
        self.held.reserve(1)?;
        self.leaving.reserve(1)?;
        if let Some(took) = self.take_order(rt) {
            return Ok(took);
        }
        if !self.send_home(rt) {
            return Ok(Attended::Nothing);
        }
        Ok(Attended::Left)
    }

    /// Turns the half of a slot once, with at most 8 items, and no other one; it answers as the half does.
    /// Where no half of the slot is held it answers `Idle`.
    pub fn turn_one<R: Wait>(&mut self, rt: &R, slot: Slot) -> Result<Did, NoMemory>
        ensures lanes { worker_lanes self.new ≡ worker_lanes self.old }
        ensures place { place_of self.new ≡ place_of self.old }
        ensures orders { orders_of self.new ≡ orders_of self.old }
        ensures home { home_of self.new ≡ home_of self.old }

        // One half of the slot was turned, out of memory too, and no other one was touched.
        ensures one { is_held (λ half. H.slot_of (H.name half)) slot (held_of self.old) ≡ true
            → TurnedOne (λ half. H.slot_of (H.name half)) H.turns H.works H.turned_at (H.came_to 8) result
            (place_of self.old) slot (held_of self.old) (held_of self.new) }
        ensures same { SameButHalves H.name (view_of self.old) (view_of self.new) }

        ensures none { is_held (λ half. H.slot_of (H.name half)) slot (held_of self.old) ≡ false
            → (result ≡ Ok Did.Idle) × (view_of self.new ≡ view_of self.old) }
    {
        let Some(at) = find(&self.seen, &self.held, slot) else {
            return Ok(Did::Idle);
        };
        turn_at(rt, &mut self.held, at, self.place)
    }

    // Takes an order, if one is there.
    fn take_order<R: Wait>(&mut self, rt: &R) -> Option<Attended>
        requires held { vec_len self.old.held < vec_capacity self.old.held }
        requires leaving { vec_len self.old.leaving < vec_capacity self.old.leaving }
        ensures lanes { worker_lanes self.new ≡ worker_lanes self.old }
        ensures place { place_of self.new ≡ place_of self.old }
        ensures home { home_of self.new ≡ home_of self.old }
        ensures took { MatchOption result (view_of self.new ≡ without_order (view_of self.old))
            (λ attended. Attends (λ half. H.slot_of (H.name half)) H.done_of attended (view_of self.old)
            (view_of self.new)) }
    {
        let Some(order) = self.orders.take(rt) else {
            return None;
        };
        match order {
            Order::Arrive(half) => {
                let slot = half.slot();
                self.known = came(&mut self.seen, self.known, &self.held, slot);
                self.held.push_reserved(half);
                Some(Attended::Came(slot))
            }
            Order::Leave { slot, until } => {
                mark(&self.seen, &self.held, &mut self.leaving, slot, until);
                Some(Attended::Left)
            }
        }
    }

    // Sends home the first half that is due, if one is; whether one went.
    fn send_home<R: Wait>(&mut self, rt: &R) -> bool
        ensures lanes { worker_lanes self.new ≡ worker_lanes self.old }
        ensures place { place_of self.new ≡ place_of self.old }
        ensures orders { orders_of self.new ≡ orders_of self.old }
        ensures home { (sent (home_of self.new) ≡ sent (home_of self.old))
            ⊎ GoesHome H.name H.slot_of H.done_of (taken (orders_of self.old)) (sent (home_of self.old))
            (sent (home_of self.new)) }
        ensures went { MatchBool result
            (WentHome (λ half. H.slot_of (H.name half)) H.done_of (view_of self.old) (view_of self.new))
            (NoneWent (λ half. H.slot_of (H.name half)) H.done_of (view_of self.old) (view_of self.new)) }
    {
        let Some(at) = find_due(&self.seen, self.known, &self.held, &self.leaving) else {
            return false;
        };
        let half = self.held.remove(at);
        let slot = half.slot();
        match self.home.offer(rt, half) {
            Ok(()) => {
                forget(&mut self.leaving, slot);
                self.cursor = cursor_left(self.cursor, at, self.held.len());
                moved_up(&mut self.seen, &self.held, at);
                true
            }
            Err(Full(half)) => {
                put_back(&mut self.held, at, half);
                false
            }
        }
    }

    // Turns the halves from the cursor round, until one has worked.
    fn turn_halves<R: Wait>(&mut self, rt: &R) -> Result<Did, NoMemory>
        ensures lanes { worker_lanes self.new ≡ worker_lanes self.old }
        ensures place { place_of self.new ≡ place_of self.old }
        ensures orders { orders_of self.new ≡ orders_of self.old }
        ensures home { home_of self.new ≡ home_of self.old }
        ensures worked { result ≡ Ok Did.Worked
            → Turned H.name H.turns H.works H.turned_at (H.came_to 8) (place_of self.old) (view_of self.old)
            (view_of self.new) }
        ensures idle { result ≡ Ok Did.Idle
            → AllTurned H.turns H.works H.turned_at (place_of self.old) (held_of self.old) (held_of self.new) }
        ensures idle_answers { result ≡ Ok Did.Idle → AllRest (H.came_to 8) 0 (length (held_of self.old))
            (held_of self.old) (held_of self.new) }
        ensures idle_rest { result ≡ Ok Did.Idle → SameButHalves H.name (view_of self.old) (view_of self.new) }
        ensures held_never { result ≡ Ok Did.Held → ⊥ }
        ensures err { OnErr result (SameButHalves H.name (view_of self.old) (view_of self.new)) }
    {
        let Some(at) = turn_round(rt, &mut self.held, self.place, self.cursor)? else {
            return Ok(Did::Idle);
        };
        self.cursor = wrap(at + 1, self.held.len());
        Ok(Did::Worked)
    }

    /// Gives what the worker has.
    pub fn into_end(self) -> WorkerEnd<H>
        ensures lanes { end_lanes result ≡ worker_lanes self }
        ensures place { result.place ≡ place_of self }
        ensures held { result.held.items ≡ held_of self }
        ensures orders { result.orders ≡ orders_of self }
        ensures home { result.home ≡ home_of self }
    {
        let Worker {
            place,
            held,
            leaving: _,
            cursor: _,
            seen: _,
            known: _,
            orders,
            home,
        } = self;
        WorkerEnd {
            place,
            held,
            orders,
            home,
        }
    }
}

// Where the cursor stands once the half at an index left, and so many are held.
fn cursor_left(cursor: usize, at: usize, held: usize) -> usize
    ensures { result ≡ cursor_without cursor at held }
{
    wrap(if at < cursor { cursor - 1 } else { cursor }, held)
}

// The cursor in a list of this length: past its end it is at its front.
fn wrap(cursor: usize, held: usize) -> usize
    ensures { result ≡ wrapped cursor held }
{
    if cursor < held { cursor } else { 0 }
}
