//! A worker of a slice's lane: the halves that it holds, and the ends of its two lanes.
ghost use Rattle.std.specs.Prelude.{◌≡◌, ◌≢◌, ◌<◌, ◌+◌, ◌++◌, [], None, true};
ghost use Rattle.std.specs.Prelude.{false, Ok, vec_len, OnOk, IfOk};
ghost use Rattle.std.specs.Option.{option_to_list};
ghost use Rattle.lane_core.specs.Ends.{sent, taken};
ghost use Rattle.worker_core.specs.declared.data_serving.TriedItem.{TriedItem};
ghost use Rattle.worker_core.specs.DataPlaces.{brought};
ghost use Rattle.worker_core.specs.DataStays.{NamesKept, Holds, Sends, KeptStands};

use crate::data_finding::{find, moved_up};
use crate::data_serving::{
    OrderTaken, Sent, Served, Step, TriedItem, answer, cursor_left, hand_at, learn_at, wrap,
};
use crate::{DataOrder, DataTraveller, Seen};
use lane_core::{Did, Full, NoMemory, Receiver, Sender};
use pc_base::SliceNo;
use std::alloc::Global;
use std::sync::Wait;

/// How many orders a turn does, at most.
const ORDERS: usize = 8;

/// A worker of one slice's lane.
#[derive(Drop)]
pub struct DataWorker<H: DataTraveller> {
    place: SliceNo,
    /// Its halves, in the order in which they came.
    held: Vec<H>,
    /// Where to look first for the half of a slot.
    seen: Seen,
    /// A half that was told to leave, and has found no place in the lane home yet.
    waiting: Option<H>,
    /// An item that its half may not handle yet.
    kept: Option<H::Item>,
    /// Where the next turn begins.
    cursor: usize,
    orders: Receiver<DataOrder<H>>,
    home: Sender<H>,
    pub ghost names: { NamesKept H.name (taken orders) held.items (sent home ++ option_to_list waiting) },
    // All that a half handles here it handles at this place.
    pub ghost here: { NamesKept (brought H.name H.places place) (taken orders) held.items
        (sent home ++ option_to_list waiting) },
    pub ghost holds: { Holds (λ half. H.slot_at (H.name half)) H.item_slot H.handled (taken orders) held.items kept },
    pub ghost sends: { Sends (λ half. H.slot_at (H.name half)) H.item_slot H.handled (taken orders)
        (sent home ++ option_to_list waiting) },
    pub ghost stands: { KeptStands (λ half. H.slot_at (H.name half)) H.item_slot H.handled (taken orders) kept },
    ghost within: { 0 < cursor → cursor < vec_len held },
}

/// What is left of a worker that stopped.
#[derive(Drop)]
pub struct DataEnd<H: DataTraveller> {
    pub place: SliceNo,
    pub held: Vec<H>,
    pub waiting: Option<H>,
    pub kept: Option<H::Item>,
    pub orders: Receiver<DataOrder<H>>,
    pub home: Sender<H>,
    pub ghost names: { NamesKept H.name (taken orders) held.items (sent home ++ option_to_list waiting) },
    // All that a half handles here it handles at this place.
    pub ghost here: { NamesKept (brought H.name H.places place) (taken orders) held.items
        (sent home ++ option_to_list waiting) },
    pub ghost holds: { Holds (λ half. H.slot_at (H.name half)) H.item_slot H.handled (taken orders) held.items kept },
    pub ghost sends: { Sends (λ half. H.slot_at (H.name half)) H.item_slot H.handled (taken orders)
        (sent home ++ option_to_list waiting) },
    pub ghost stands: { KeptStands (λ half. H.slot_at (H.name half)) H.item_slot H.handled (taken orders) kept },
}

impl<H: DataTraveller> DataWorker<H> {
    ghost use Rattle.worker_core.specs.DataWorkers.{worker_lanes, orders_of, home_of, held_of, waiting_of};
    ghost use Rattle.worker_core.specs.DataWorkers.{kept_of, place_of, end_lanes, view_of};
    ghost use Rattle.worker_core.specs.DataTurns.{TookMarker, HasWorked, Rested, HasIdled};
    ghost use Rattle.worker_core.specs.DataWorkers.{Takes, Hands, Does, DoesAll, AsksOne, Turns};
    ghost use Rattle.worker_core.specs.DataDoing.{SendsAs};
    ghost use Rattle.worker_core.specs.DataSteps.{Along, Ordered, step_of, WasSent, TookOrder};
    ghost use Rattle.worker_core.specs.DataSteps.{TriedKept, LearntNext, HasServed, NotServed};

    pub(crate) fn new(
        alloc: Global,
        place: SliceNo,
        orders: Receiver<DataOrder<H>>,
        home: Sender<H>,
    ) -> DataWorker<H>
        requires { (taken orders ≡ []) × (sent home ≡ []) }
        ensures ends { (orders_of result ≡ orders) × (home_of result ≡ home) }
        ensures place { place_of result ≡ place }
        ensures empty { held_of result ≡ [] }
    {
        DataWorker {
            place,
            held: Vec::new(alloc),
            seen: Seen::new(alloc),
            waiting: None,
            kept: None,
            cursor: 0,
            orders,
            home,
        }
    }

    /// Sends home a half that waits, does at most 8 orders, and lets the half at the cursor learn. It
    /// ends early where the lane home is full, or after an order to leave; it goes on after a half went
    /// home. `Held` never comes.
    pub fn turn<R: Wait>(&mut self, rt: &R) -> Result<Did, NoMemory>
        ensures lanes { worker_lanes self.new ≡ worker_lanes self.old }
        ensures place { place_of self.new ≡ place_of self.old }

        // Worked comes only where a half went home, an order to arrive or to leave was taken, an item
        // was handled, or a half learnt something.
        ensures worked { result ≡ Ok Did.Worked → HasWorked H.learns (view_of self.old) (view_of self.new) }

        // Idle comes only where nothing of this was done, and either the lane home was full; or the lane
        // of orders was empty, or the kept item waits, and then the half at the cursor was asked too.
        ensures idle { result ≡ Ok Did.Idle → Rested H.name H.handled H.learns (view_of self.old) (view_of self.new) }
        ensures idle_why { result ≡ Ok Did.Idle → HasIdled H.asks (λ half. H.slot_at (H.name half)) H.item_slot H.takes
            (view_of self.old) (view_of self.new) }
        ensures held_never { result ≡ Ok Did.Held → ⊥ }

        // All of it: the half that waited went home, or was refused and nothing followed. Then eight orders
        // were done, or fewer, each as it came: a half that arrives stands last, one that is to leave waits,
        // an item meets its half once that has learnt. The half at the cursor learns last.
        ensures whole { IfOk result (λ did. Turns did self.old self.new) }
    {
        let sent = self.send_waiting(rt);
        if let Sent::Refused = sent {
            return Ok(Did::Idle);
        }
        let Served::Stopped { worked } = self.do_orders(rt)? else {
            return Ok(Did::Worked);
        };
        let learnt = self.learn_next(rt)?;
        Ok(answer(sent, worked, learnt))
    }

    // Offers the half that waits, if one does, to the lane home.
    fn send_waiting<R: Wait>(&mut self, rt: &R) -> Sent
        ensures lanes { worker_lanes self.new ≡ worker_lanes self.old }
        ensures place { place_of self.new ≡ place_of self.old }
        ensures sent { WasSent result (view_of self.old) (view_of self.new) }
        ensures whole { SendsAs result (view_of self.old) (view_of self.new) }
        ensures none { result ≢ Sent.Refused → waiting_of self.new ≡ None }
    {
        let Some(half) = self.waiting.take() else {
            return Sent::Absent;
        };
        match self.home.offer(rt, half) {
            Ok(()) => Sent::Home,
            Err(Full(half)) => {
                self.waiting = Some(half);
                Sent::Refused
            }
        }
    }

    // Does orders, until 8 are done, the lane is empty, an item is kept, or a half left.
    fn do_orders<R: Wait>(&mut self, rt: &R) -> Result<Served, NoMemory>
        requires none { waiting_of self.old ≡ None }
        ensures lanes { worker_lanes self.new ≡ worker_lanes self.old }
        ensures place { place_of self.new ≡ place_of self.old }
        ensures gone { OnOk result (sent (home_of self.new) ≡ sent (home_of self.old)) }
        ensures along { OnOk result (Along H.learns (view_of self.old) (view_of self.new)) }
        ensures left { result ≡ Ok Served.Left → TookMarker (view_of self.old) (view_of self.new) }
        ensures waiting { IfOk result (λ served. served ≢ Served.Left → waiting_of self.new ≡ waiting_of self.old) }
        ensures worked { result ≡ Ok (Served.Stopped true)
            → HasServed H.name (λ half. H.slot_at (H.name half)) H.item_slot H.handled H.takes H.asks H.learns
            (view_of self.old) (view_of self.new) }
        ensures idle { result ≡ Ok (Served.Stopped false)
            → NotServed H.name (λ half. H.slot_at (H.name half)) H.item_slot H.handled H.takes H.asks H.learns
            (view_of self.old) (view_of self.new) }
        ensures whole { IfOk result (λ served. DoesAll served self.old self.new) }
    {
        let mut worked = false;
        for _ in 0..ORDERS {
            match self.do_order(rt)? {
                Step::Done => worked = true,
                Step::LeftNow => return Ok(Served::Left),
                Step::Stopped { learnt } => {
                    return Ok(Served::Stopped {
                        worked: worked || learnt,
                    });
                }
            }
        }
        Ok(Served::Stopped { worked })
    }

    // Does the kept item, or else the next order.
    fn do_order<R: Wait>(&mut self, rt: &R) -> Result<Step, NoMemory>
        requires none { waiting_of self.old ≡ None }
        ensures lanes { worker_lanes self.new ≡ worker_lanes self.old }
        ensures place { place_of self.new ≡ place_of self.old }
        ensures done { IfOk result
            (λ step. Ordered H.name (λ half. H.slot_at (H.name half)) H.item_slot H.handled H.takes H.asks H.learns step
            (view_of self.old) (view_of self.new)) }
        ensures whole { IfOk result (λ step. Does step self.old self.new) }
    {
        if self.kept.is_some() {
            return self.do_kept(rt);
        }
        match self.take_order(rt)? {
            OrderTaken::Nothing => Ok(Step::Stopped { learnt: false }),
            OrderTaken::Arrived => Ok(Step::Done),
            OrderTaken::Left => Ok(Step::LeftNow),
            OrderTaken::Kept => self.do_kept(rt),
        }
    }

    // Does the kept item.
    fn do_kept<R: Wait>(&mut self, rt: &R) -> Result<Step, NoMemory>
        requires kept { kept_of self.old ≢ None }
        ensures lanes { worker_lanes self.new ≡ worker_lanes self.old }
        ensures place { place_of self.new ≡ place_of self.old }
        ensures done { IfOk result (λ step. (tried : TriedItem) × (step ≡ step_of tried)
            × TriedKept H.name (λ half. H.slot_at (H.name half)) H.item_slot H.handled H.takes H.asks H.learns tried
            (view_of self.old) (view_of self.new) × Hands tried self.old self.new) }
    {
        match self.try_kept(rt)? {
            TriedItem::Handled => Ok(Step::Done),
            TriedItem::Waits { learnt } => Ok(Step::Stopped { learnt }),
        }
    }

    // Takes an order. A half that comes is held, and one that is to leave waits; an item is kept.
    fn take_order<R: Wait>(&mut self, rt: &R) -> Result<OrderTaken, NoMemory>
        requires none { waiting_of self.old ≡ None }
        requires free { kept_of self.old ≡ None }
        ensures lanes { worker_lanes self.new ≡ worker_lanes self.old }
        ensures place { place_of self.new ≡ place_of self.old }
        ensures took { IfOk result (λ took. TookOrder took (view_of self.old) (view_of self.new)) }
        ensures whole { IfOk result (λ took. Takes took self.old self.new) }
    {
        self.held.reserve(1)?;
        let Some(order) = self.orders.take(rt) else {
            return Ok(OrderTaken::Nothing);
        };
        match order {
            DataOrder::Arrive(half) => {
                let slot = half.slot();
                self.held.push_reserved(half);
                self.seen.note(slot, self.held.len() - 1);
                Ok(OrderTaken::Arrived)
            }
            DataOrder::Item(item) => {
                self.kept = Some(item);
                Ok(OrderTaken::Kept)
            }
            DataOrder::Leave(slot) => {
                let Some(at) = find(&self.seen, &self.held, slot) else {
                    unreachable!()
                };
                self.waiting = Some(self.held.remove(at));
                self.cursor = cursor_left(self.cursor, at, self.held.len());
                moved_up(&mut self.seen, &self.held, at);
                Ok(OrderTaken::Left)
            }
        }
    }

    // Hands the kept item to its half.
    fn try_kept<R: Wait>(&mut self, rt: &R) -> Result<TriedItem, NoMemory>
        requires kept { kept_of self.old ≢ None }
        ensures lanes { worker_lanes self.new ≡ worker_lanes self.old }
        ensures place { place_of self.new ≡ place_of self.old }
        ensures tried { IfOk result
            (λ tried. TriedKept H.name
            (λ half. H.slot_at (H.name half)) H.item_slot H.handled H.takes H.asks H.learns tried
            (view_of self.old) (view_of self.new)) }
        ensures whole { IfOk result (λ tried. Hands tried self.old self.new) }
    {
        let Some(item) = self.kept.take() else {
            unreachable!()
        };
        let Some(at) = find(&self.seen, &self.held, H::slot_of(&item)) else {
            unreachable!()
        };
        match hand_at(rt, &mut self.held, at, self.place, &item) {
            Ok(TriedItem::Handled) => Ok(TriedItem::Handled),
            Ok(TriedItem::Waits { learnt }) => {
                self.kept = Some(item);
                Ok(TriedItem::Waits { learnt })
            }
            Err(none) => {
                self.kept = Some(item);
                Err(none)
            }
        }
    }

    // The half at the cursor learns, if one is held, and the cursor goes on.
    fn learn_next<R: Wait>(&mut self, rt: &R) -> Result<bool, NoMemory>
        ensures lanes { worker_lanes self.new ≡ worker_lanes self.old }
        ensures place { place_of self.new ≡ place_of self.old }
        ensures learnt { IfOk result
            (λ learnt. LearntNext H.name
            (λ half. H.slot_at (H.name half)) H.item_slot H.handled H.takes H.asks H.learns learnt
            (view_of self.old) (view_of self.new)) }
        ensures whole { IfOk result (λ learnt. AsksOne learnt self.old self.new) }
    {
        if self.held.is_empty() {
            return Ok(false);
        }
        let at = self.cursor;
        let learnt = learn_at(rt, &mut self.held, at)?;
        self.cursor = wrap(at + 1, self.held.len());
        Ok(learnt)
    }

    /// The slice that it serves.
    pub fn place(&self) -> SliceNo
        ensures { result ≡ place_of self.now }
    {
        self.place
    }

    /// Gives what the worker has.
    pub fn into_end(self) -> DataEnd<H>
        ensures lanes { end_lanes result ≡ worker_lanes self }
        ensures place { result.place ≡ place_of self }
        ensures held { result.held.items ≡ held_of self }
        ensures waiting { result.waiting ≡ waiting_of self }
        ensures kept { result.kept ≡ kept_of self }
        ensures orders { result.orders ≡ orders_of self }
        ensures home { result.home ≡ home_of self }
    {
        let DataWorker {
            place,
            held,
            seen: _,
            waiting,
            kept,
            cursor: _,
            orders,
            home,
        } = self;
        DataEnd {
            place,
            held,
            waiting,
            kept,
            orders,
            home,
        }
    }
}
