//! Steps at one slot: an order is offered, an item is accepted, and a half comes home.
ghost use Rattle.std.specs.Prelude.{◌≡◌, ◌≤◌, ◌<◌, ◌+◌, ◌^◌, true, false};
ghost use Rattle.std.specs.Prelude.{Some, None, length, vec_len, slice_set, OnOk, OnErr};
ghost use Rattle.std.specs.Prelude.{IfErr, IfOk, is_some};
ghost use Rattle.std.specs.List.{sum_by, All};
ghost use Rattle.worker_core.specs.declared.data_order.DataOrder.TheVariants.{Arrive, Item, Leave};
ghost use Rattle.worker_core.specs.DataOrders.{MayFollow, stands};
ghost use Rattle.migration.specs.declared.data_place.DataState.TheVariants.{Placed};
ghost use Rattle.worker_core.specs.Desks.{Given, Refused, order_count, sent_at};
ghost use Rattle.migration.specs.DataPlaces.{at_end, to_end, is_placed, is_settled, waits_for, waits_at};
ghost use Rattle.migration.specs.DataPlaces.{parks_at, is_busy, is_due, is_draining, place_at, is_admitted, Fits};
ghost use Rattle.migration.specs.DataPlaces.{accepted_by};
ghost use Rattle.migration.specs.DataKeeps.{MayGive, IsReady};
ghost use Rattle.migration.specs.DataSides.{is_lost};
ghost use Rattle.migration.specs.DataSteps.{Sends, Recalls, Serves, Goes};
ghost use Rattle.migration.specs.DataSteps.{SentFirst, QueueRests, Empties, EmptiesPlaced};
ghost use Rattle.migration.specs.DataSteps.{QueueTakes, Lands, Delivers, Accepts, Served};
ghost use Rattle.migration.specs.DataSteps.{Drained, Moved, Gave, AtSlot};
ghost use Rattle.migration.specs.DataSteps.{Homes, Welcomes, WelcomesAt};

use crate::data_place::{DataNo, DataPlace, DataState, UnexpectedHalf};
use lane_core::{Full, NoMemory};
use pc_base::{SliceNo, Slot};
use std::collections::VecDeque;
use std::mem;
use std::sync::Wait;
use worker_core::{DataDesk, DataKind, DataOrder, DataTraveller, Log};

// Offers an order at the desk of a slice, which the law of its lane allows.
fn offer<H: DataTraveller, R: Wait>(
    rt: &R,
    desks: &mut Vec<DataDesk<H>>,
    slice: SliceNo,
    order: DataOrder<H>,
) -> Result<(), Full<DataOrder<H>>>
    requires within { slice < vec_len desks.old }
    requires few { sum_by order_count desks.old.items < 2 ^ 50 }
    requires law { MayFollow (λ half. H.slot_at (H.name half)) H.item_slot (sent_at desks.old.items slice) order }
    ensures given { OnOk result (Given slice order desks.old.items desks.new.items) }
    ensures full { IfErr result (λ full. (full.0 ≡ order) × Refused slice desks.old.items desks.new.items) }
    ensures len { vec_len desks.new ≡ vec_len desks.old }
{
    worker_core::offer(rt, desks, slice, order)
}

// Sends a half to a slice, or keeps it at the front where that lane is full.
fn arrive<H: DataTraveller, R: Wait>(
    rt: &R,
    desks: &mut Vec<DataDesk<H>>,
    half: H,
    to: SliceNo,
) -> DataState<H>
    requires within { to < vec_len desks.old }
    requires few { sum_by order_count desks.old.items < 2 ^ 50 }
    requires law { MayFollow (λ half. H.slot_at (H.name half)) H.item_slot (sent_at desks.old.items to) (Arrive half) }
    ensures sends { Sends half to result desks.old.items desks.new.items }
    ensures len { vec_len desks.new ≡ vec_len desks.old }
{
    match offer(rt, desks, to, DataOrder::Arrive(half)) {
        Ok(()) => DataState::Placed { at: to },
        Err(Full(order)) => match order {
            DataOrder::Arrive(half) => DataState::Front { half, to },
            DataOrder::Item(_) => unreachable!(),
            DataOrder::Leave(_) => unreachable!(),
        },
    }
}

// Tells a half to leave a slice, or waits with it where that lane is full.
fn recall<H: DataTraveller, R: Wait>(
    rt: &R,
    desks: &mut Vec<DataDesk<H>>,
    slot: Slot,
    at: SliceNo,
    to: SliceNo,
) -> DataState<H>
    requires within { at < vec_len desks.old }
    requires few { sum_by order_count desks.old.items < 2 ^ 50 }
    requires law { MayFollow (λ half. H.slot_at (H.name half)) H.item_slot (sent_at desks.old.items at) (Leave slot) }
    ensures recalls { Recalls slot at to result desks.old.items desks.new.items }
    ensures len { vec_len desks.new ≡ vec_len desks.old }
{
    match offer(rt, desks, at, DataOrder::Leave(slot)) {
        Ok(()) => DataState::Leaving { from: at, to },
        Err(_) => DataState::Recall { at, to },
    }
}

// Sends an item to a slice, or hands it back where that lane is full.
fn send<H: DataTraveller, R: Wait>(
    rt: &R,
    desks: &mut Vec<DataDesk<H>>,
    at: SliceNo,
    item: H::Item,
) -> Result<(), Full<H::Item>>
    requires within { at < vec_len desks.old }
    requires few { sum_by order_count desks.old.items < 2 ^ 50 }
    requires law { MayFollow (λ half. H.slot_at (H.name half)) H.item_slot (sent_at desks.old.items at) (Item item) }
    ensures given { OnOk result (Given at (Item item) desks.old.items desks.new.items) }
    ensures full { IfErr result (λ full. (full.0 ≡ item) × Refused at desks.old.items desks.new.items) }
    ensures len { vec_len desks.new ≡ vec_len desks.old }
{
    match offer(rt, desks, at, DataOrder::Item(item)) {
        Ok(()) => Ok(()),
        Err(Full(order)) => match order {
            DataOrder::Item(item) => Err(Full(item)),
            DataOrder::Arrive(_) => unreachable!(),
            DataOrder::Leave(_) => unreachable!(),
        },
    }
}

// Offers the order that a state waits to give.
fn served<H: DataTraveller, R: Wait>(
    rt: &R,
    desks: &mut Vec<DataDesk<H>>,
    slot: Slot,
    state: DataState<H>,
) -> DataState<H>
    requires fits { (at_end state ≤ vec_len desks.old) × (to_end state ≤ vec_len desks.old) }
    requires few { sum_by order_count desks.old.items < 2 ^ 50 }
    requires law { MayGive (λ half. H.slot_at (H.name half)) H.item_slot slot state desks.old.items }
    ensures serves { Serves slot state result desks.old.items desks.new.items }
    ensures len { vec_len desks.new ≡ vec_len desks.old }
{
    match state {
        DataState::Front { half, to } => arrive(rt, desks, half, to),
        DataState::Placed { at } => DataState::Placed { at },
        DataState::Recall { at, to } => recall(rt, desks, slot, at, to),
        DataState::Leaving { from, to } => DataState::Leaving { from, to },
    }
}

// What a move makes of a state.
fn gone<H: DataTraveller, R: Wait>(
    rt: &R,
    desks: &mut Vec<DataDesk<H>>,
    slot: Slot,
    slice: SliceNo,
    state: DataState<H>,
) -> DataState<H>
    requires fits { (at_end state ≤ vec_len desks.old) × (to_end state ≤ vec_len desks.old) }
    requires few { sum_by order_count desks.old.items < 2 ^ 50 }
    requires law { MayGive (λ half. H.slot_at (H.name half)) H.item_slot slot state desks.old.items }
    ensures goes { Goes slot slice state result desks.old.items desks.new.items }
    ensures len { vec_len desks.new ≡ vec_len desks.old }
{
    match state {
        DataState::Front { half, .. } => DataState::Front { half, to: slice },
        DataState::Placed { at } => recall(rt, desks, slot, at, slice),
        DataState::Recall { at, .. } => DataState::Recall { at, to: slice },
        DataState::Leaving { from, .. } => DataState::Leaving { from, to: slice },
    }
}

// Sends the first item of a queue, unless it is empty, and tells whether one was sent.
fn send_first<H: DataTraveller, R: Wait>(
    rt: &R,
    desks: &mut Vec<DataDesk<H>>,
    at: SliceNo,
    slot: Slot,
    queue: &mut VecDeque<H::Item>,
) -> bool
    requires within { at < vec_len desks.old }
    requires few { sum_by order_count desks.old.items < 2 ^ 50 }
    requires law { stands (λ half. H.slot_at (H.name half)) H.item_slot slot (sent_at desks.old.items at) ≡ true }
    requires own { All (λ item. H.item_slot item ≡ slot) queue.old.items }
    ensures sent { result ≡ true → SentFirst at queue.old.items queue.new.items desks.old.items desks.new.items }
    ensures refused { result ≡ false → (queue.new.items ≡ queue.old.items)
        × QueueRests at queue.old.items desks.old.items desks.new.items }
    ensures len { vec_len desks.new ≡ vec_len desks.old }
{
    let Some(item) = queue.pop_front() else {
        return false;
    };
    match send(rt, desks, at, item) {
        Ok(()) => true,
        Err(Full(item)) => {
            queue.push_front_reserved(item);
            false
        }
    }
}

// Sends items of a queue to the slice of their half, from the first on, until one is refused.
fn drained<H: DataTraveller, R: Wait>(
    rt: &R,
    desks: &mut Vec<DataDesk<H>>,
    at: SliceNo,
    slot: Slot,
    mut queue: VecDeque<H::Item>,
) -> VecDeque<H::Item>
    requires within { at < vec_len desks.old }
    requires few { sum_by order_count desks.old.items + length queue.items < 2 ^ 50 }
    requires law { stands (λ half. H.slot_at (H.name half)) H.item_slot slot (sent_at desks.old.items at) ≡ true }
    requires own { All (λ item. H.item_slot item ≡ slot) queue.items }
    ensures empties { Empties (λ half. H.slot_at (H.name half)) H.item_slot H.handled slot at queue.items result.items
        desks.old.items desks.new.items }
    ensures len { vec_len desks.new ≡ vec_len desks.old }
{
    for _ in 0..queue.len() {
        if !send_first(rt, desks, at, slot, &mut queue) {
            return queue;
        }
    }
    queue
}

// The same where the half is placed.
fn emptied<H: DataTraveller, R: Wait>(
    rt: &R,
    desks: &mut Vec<DataDesk<H>>,
    slot: Slot,
    state: &DataState<H>,
    queue: VecDeque<H::Item>,
) -> VecDeque<H::Item>
    requires fits { at_end state.now ≤ vec_len desks.old }
    requires few { sum_by order_count desks.old.items + length queue.items < 2 ^ 50 }
    requires law { MayGive (λ half. H.slot_at (H.name half)) H.item_slot slot state.now desks.old.items }
    requires own { All (λ item. H.item_slot item ≡ slot) queue.items }
    ensures empties { EmptiesPlaced (λ half. H.slot_at (H.name half)) H.item_slot H.handled slot state.now queue.items
        result.items desks.old.items desks.new.items }
    ensures len { vec_len desks.new ≡ vec_len desks.old }
{
    match state {
        DataState::Placed { at } => drained(rt, desks, *at, slot, queue),
        DataState::Front { .. } => queue,
        DataState::Recall { .. } => queue,
        DataState::Leaving { .. } => queue,
    }
}

// Whether a half was sent to a slice, and nothing else is asked of it.
fn placed<H>(state: &DataState<H>) -> bool
    ensures { result ≡ is_placed state.now }
{
    match state {
        DataState::Front { .. } => false,
        DataState::Placed { .. } => true,
        DataState::Recall { .. } => false,
        DataState::Leaving { .. } => false,
    }
}

// Whether a place has something to give: an order, or items for a half that is placed.
pub fn due<H: DataTraveller>(place: &DataPlace<H>) -> bool
    ensures { result ≡ is_due (Some place.now) }
{
    waits(&place.state) || drains(place)
}

// Whether the half of a place isn't placed, or items wait for it.
fn busy<H: DataTraveller>(place: &DataPlace<H>) -> bool
    ensures { result ≡ is_busy (Some place.now) }
{
    !placed(&place.state) || !place.queue.is_empty()
}

// Whether an item of a place goes to its queue.
pub fn parks<H: DataTraveller>(place: &DataPlace<H>) -> bool
    ensures { result ≡ parks_at (Some place.now) }
{
    place.moved && busy(place)
}

// Puts an item last into a queue of at most so many.
fn park<I>(queue: &mut VecDeque<I>, room: usize, item: I) -> Result<(), DataNo<I>>
    ensures { QueueTakes room item result queue.old.items queue.new.items }
{
    if queue.len() >= room {
        return Err(DataNo::Full(item));
    }
    match queue.push_back(item) {
        Ok(()) => Ok(()),
        Err(refused) => Err(DataNo::NoMemory(refused.value)),
    }
}

// Sends an item to the slice where its half is placed.
fn landed<H: DataTraveller, R: Wait>(
    rt: &R,
    desks: &mut Vec<DataDesk<H>>,
    slot: Slot,
    state: &DataState<H>,
    item: H::Item,
) -> Result<(), DataNo<H::Item>>
    requires settled { is_settled state.now ≡ true }
    requires fits { at_end state.now ≤ vec_len desks.old }
    requires few { sum_by order_count desks.old.items < 2 ^ 50 }
    requires law { MayGive (λ half. H.slot_at (H.name half)) H.item_slot slot state.now desks.old.items }
    requires own { H.item_slot item ≡ slot }
    ensures lands { Lands item state.now result desks.old.items desks.new.items }
    ensures len { vec_len desks.new ≡ vec_len desks.old }
{
    match state {
        DataState::Placed { at } => match send(rt, desks, *at, item) {
            Ok(()) => Ok(()),
            Err(Full(item)) => Err(DataNo::Full(item)),
        },
        DataState::Front { .. } => Err(DataNo::Full(item)),
        DataState::Recall { .. } => unreachable!(),
        DataState::Leaving { .. } => unreachable!(),
    }
}

// Offers the order that a place waits to give.
fn serve<H: DataTraveller, R: Wait>(
    rt: &R,
    desks: &mut Vec<DataDesk<H>>,
    place: &mut Option<DataPlace<H>>,
    slot: Slot,
)
    requires ready { IsReady (λ half. H.slot_at (H.name half)) H.item_slot slot place.old desks.old.items }
    ensures { Served (λ half. H.slot_at (H.name half)) H.item_slot H.handled slot place.old place.new
        desks.old.items desks.new.items }
{
    let Some(place_was) = place.take() else {
        return;
    };
    let DataPlace {
        moved,
        state,
        queue,
        admitted,
        accepted,
    } = place_was;
    let state = served(rt, desks, slot, state);
    *place = Some(DataPlace {
        moved,
        state,
        queue,
        admitted,
        accepted,
    });
}

// Whether a half waits to be sent, or to be told to leave.
fn waits<H>(state: &DataState<H>) -> bool
    ensures { result ≡ is_some (waits_for state.now) }
{
    match state {
        DataState::Front { .. } => true,
        DataState::Placed { .. } => false,
        DataState::Recall { .. } => true,
        DataState::Leaving { .. } => false,
    }
}

// Whether an order waits at the place of a slot.
fn is_waiting<H: DataTraveller>(places: &[Option<DataPlace<H>>], slot: Slot) -> bool
    ensures { result ≡ is_some (waits_at (place_at places.now slot)) }
{
    match places.get(slot.0 as usize) {
        Some(Some(place)) => waits(&place.state),
        _ => false,
    }
}

// The same at the place of a slot. One without an order is left where it lies.
pub fn serve_at<H: DataTraveller, R: Wait>(
    rt: &R,
    desks: &mut Vec<DataDesk<H>>,
    places: &mut Vec<Option<DataPlace<H>>>,
    slot: Slot,
)
    requires within { slot < length places.old.items }
    requires ready { IsReady (λ half. H.slot_at (H.name half)) H.item_slot slot (place_at places.old.items slot)
        desks.old.items }
    ensures { AtSlot (Served (λ half. H.slot_at (H.name half)) H.item_slot H.handled slot) slot
        places.old.items places.new.items desks.old.items desks.new.items }
{
    if !is_waiting(places, slot) {
        return;
    }
    serve(rt, desks, &mut places[slot.0 as usize], slot)
}

// Sends what waits in the queue of a placed slot.
fn drain<H: DataTraveller, R: Wait>(
    rt: &R,
    desks: &mut Vec<DataDesk<H>>,
    place: &mut Option<DataPlace<H>>,
    slot: Slot,
)
    requires ready { IsReady (λ half. H.slot_at (H.name half)) H.item_slot slot place.old desks.old.items }
    ensures { Drained (λ half. H.slot_at (H.name half)) H.item_slot H.handled slot place.old place.new
        desks.old.items desks.new.items }
{
    let Some(place_was) = place.take() else {
        return;
    };
    let DataPlace {
        moved,
        state,
        queue,
        admitted,
        accepted,
    } = place_was;
    let queue = emptied(rt, desks, slot, &state, queue);
    *place = Some(DataPlace {
        moved,
        state,
        queue,
        admitted,
        accepted,
    });
}

// Whether items wait at the place of a slot, whose half is placed.
fn is_draining<H: DataTraveller>(places: &[Option<DataPlace<H>>], slot: Slot) -> bool
    ensures { result ≡ is_draining (place_at places.now slot) }
{
    match places.get(slot.0 as usize) {
        Some(Some(place)) => drains(place),
        _ => false,
    }
}

fn drains<H: DataTraveller>(place: &DataPlace<H>) -> bool
    ensures { result ≡ is_draining (Some place.now) }
{
    placed(&place.state) && !place.queue.is_empty()
}

// The same at the place of a slot. One that has nothing to send is left where it lies.
pub fn drain_at<H: DataTraveller, R: Wait>(
    rt: &R,
    desks: &mut Vec<DataDesk<H>>,
    places: &mut Vec<Option<DataPlace<H>>>,
    slot: Slot,
)
    requires within { slot < length places.old.items }
    requires ready { IsReady (λ half. H.slot_at (H.name half)) H.item_slot slot (place_at places.old.items slot)
        desks.old.items }
    ensures { AtSlot (Drained (λ half. H.slot_at (H.name half)) H.item_slot H.handled slot) slot
        places.old.items places.new.items desks.old.items desks.new.items }
{
    if !is_draining(places, slot) {
        return;
    }
    drain(rt, desks, &mut places[slot.0 as usize], slot)
}

// Moves a slot to a slice.
fn go<H: DataTraveller, R: Wait>(
    rt: &R,
    desks: &mut Vec<DataDesk<H>>,
    place: &mut Option<DataPlace<H>>,
    slot: Slot,
    slice: SliceNo,
)
    requires slice { slice < length desks.old.items }
    requires ready { IsReady (λ half. H.slot_at (H.name half)) H.item_slot slot place.old desks.old.items }
    ensures { Moved (λ half. H.slot_at (H.name half)) H.item_slot H.handled slot slice place.old place.new
        desks.old.items desks.new.items }
{
    let Some(place_was) = place.take() else {
        return;
    };
    let DataPlace {
        moved: _,
        state,
        queue,
        admitted,
        accepted,
    } = place_was;
    let state = gone(rt, desks, slot, slice, state);
    *place = Some(DataPlace {
        moved: true,
        state,
        queue,
        admitted,
        accepted,
    });
}

// The same at the place of a slot.
pub fn go_at<H: DataTraveller, R: Wait>(
    rt: &R,
    desks: &mut Vec<DataDesk<H>>,
    places: &mut Vec<Option<DataPlace<H>>>,
    slot: Slot,
    slice: SliceNo,
)
    requires within { slot < length places.old.items }
    requires slice { slice < length desks.old.items }
    requires ready { IsReady (λ half. H.slot_at (H.name half)) H.item_slot slot (place_at places.old.items slot)
        desks.old.items }
    ensures { AtSlot (Moved (λ half. H.slot_at (H.name half)) H.item_slot H.handled slot slice) slot
        places.old.items places.new.items desks.old.items desks.new.items }
{
    go(rt, desks, &mut places[slot.0 as usize], slot, slice)
}

// Gives an item to a slot.
fn give<H: DataTraveller, R: Wait>(
    rt: &R,
    desks: &mut Vec<DataDesk<H>>,
    place: &mut Option<DataPlace<H>>,
    slot: Slot,
    room: usize,
    item: H::Item,
) -> Result<bool, DataNo<H::Item>>
    requires admitted { is_admitted place.old ≡ true }
    requires own { H.item_slot item ≡ slot }
    requires fits { Fits (length desks.old.items) room place.old }
    requires ready { IsReady (λ half. H.slot_at (H.name half)) H.item_slot slot place.old desks.old.items }
    ensures { Gave (λ half. H.slot_at (H.name half)) H.item_slot H.handled slot room item result place.old place.new
        desks.old.items desks.new.items }
{
    match place {
        Some(here) => given(rt, desks, here, slot, room, item),
        None => unreachable!(),
    }
}

// The item goes to the queue of a place, where it is parked, or to the slice of its half.
fn given<H: DataTraveller, R: Wait>(
    rt: &R,
    desks: &mut Vec<DataDesk<H>>,
    place: &mut DataPlace<H>,
    slot: Slot,
    room: usize,
    item: H::Item,
) -> Result<bool, DataNo<H::Item>>
    requires own { H.item_slot item ≡ slot }
    requires fits { Fits (length desks.old.items) room (Some place.old) }
    requires ready { IsReady (λ half. H.slot_at (H.name half)) H.item_slot slot (Some place.old) desks.old.items }
    ensures parked { parks_at (Some place.old) ≡ true → (desks.new.items ≡ desks.old.items)
        × (place.new.state ≡ place.old.state)
        × QueueTakes room item result place.old.queue.items place.new.queue.items }
    ensures placed { parks_at (Some place.old) ≡ false → (place.new.queue.items ≡ place.old.queue.items)
        × Delivers slot item result place.old.state place.new.state desks.old.items desks.new.items }
    ensures accepted { Accepts item result (accepted_by place.old) (accepted_by place.new) }
    ensures told { IfOk result (λ is_parked. is_parked ≡ parks_at (Some place.old)) }
    ensures same { (place.new.moved ≡ place.old.moved) × (place.new.admitted ≡ place.old.admitted) }
{
    if parks(place) {
        match give_parked(place, slot, room, item) {
            Ok(()) => Ok(true),
            Err(refusal) => Err(refusal),
        }
    } else {
        match give_placed(rt, desks, place, slot, item) {
            Ok(()) => Ok(false),
            Err(refusal) => Err(refusal),
        }
    }
}

// The same at the place of a slot.
pub fn give_at<H: DataTraveller, R: Wait>(
    rt: &R,
    desks: &mut Vec<DataDesk<H>>,
    places: &mut Vec<Option<DataPlace<H>>>,
    slot: Slot,
    room: usize,
    item: H::Item,
) -> Result<bool, DataNo<H::Item>>
    requires within { slot < length places.old.items }
    requires admitted { is_admitted (place_at places.old.items slot) ≡ true }
    requires own { H.item_slot item ≡ slot }
    requires fits { Fits (length desks.old.items) room (place_at places.old.items slot) }
    requires ready { IsReady (λ half. H.slot_at (H.name half)) H.item_slot slot (place_at places.old.items slot)
        desks.old.items }
    ensures { AtSlot (Gave (λ half. H.slot_at (H.name half)) H.item_slot H.handled slot room item result) slot
        places.old.items places.new.items desks.old.items desks.new.items }
{
    give(rt, desks, &mut places[slot.0 as usize], slot, room, item)
}

// Notes what is accepted after an answer.
fn accept<I>(answer: &Result<(), DataNo<I>>, accepted: &mut Log<I, Slot>, more: Log<I, Slot>)
    ensures ok { OnOk answer.now (accepted.new.items ≡ more.items) }
    ensures err { OnErr answer.now (accepted.new.items ≡ accepted.old.items) }
{
    if answer.is_ok() {
        *accepted = more;
    }
}

// The item goes last into the queue.
fn give_parked<H: DataTraveller>(
    place: &mut DataPlace<H>,
    slot: Slot,
    room: usize,
    item: H::Item,
) -> Result<(), DataNo<H::Item>>
    ensures queue { QueueTakes room item result place.old.queue.items place.new.queue.items }
    ensures accepted { Accepts item result (accepted_by place.old) (accepted_by place.new) }
    ensures same { (place.new.moved ≡ place.old.moved) × (place.new.state ≡ place.old.state)
        × (place.new.admitted ≡ place.old.admitted) }
{
    let more = place.accepted.and(&item, &slot);
    let answer = park(&mut place.queue, room, item);
    accept(&answer, &mut place.accepted, more);
    answer
}

// Offers the order that a state waits to give, if there is one.
fn serve_state<H: DataTraveller, R: Wait>(
    rt: &R,
    desks: &mut Vec<DataDesk<H>>,
    slot: Slot,
    state: &mut DataState<H>,
)
    requires fits { (at_end state.old ≤ vec_len desks.old) × (to_end state.old ≤ vec_len desks.old) }
    requires few { sum_by order_count desks.old.items < 2 ^ 50 }
    requires law { MayGive (λ half. H.slot_at (H.name half)) H.item_slot slot state.old desks.old.items }
    ensures serves { Serves slot state.old state.new desks.old.items desks.new.items }
    ensures len { vec_len desks.new ≡ vec_len desks.old }
{
    if placed(state) {
        return;
    }
    let was = mem::replace(state, DataState::Placed { at: SliceNo(0) });
    *state = served(rt, desks, slot, was);
}

// The item goes to the slice of its half, which arrives there first if it is at the front.
fn give_placed<H: DataTraveller, R: Wait>(
    rt: &R,
    desks: &mut Vec<DataDesk<H>>,
    place: &mut DataPlace<H>,
    slot: Slot,
    item: H::Item,
) -> Result<(), DataNo<H::Item>>
    requires settled { is_settled place.old.state ≡ true }
    requires own { H.item_slot item ≡ slot }
    requires ready { IsReady (λ half. H.slot_at (H.name half)) H.item_slot slot (Some place.old) desks.old.items }
    ensures delivers { Delivers slot item result place.old.state place.new.state desks.old.items desks.new.items }
    ensures accepted { Accepts item result (accepted_by place.old) (accepted_by place.new) }
    ensures same { (place.new.moved ≡ place.old.moved) × (place.new.queue.items ≡ place.old.queue.items)
        × (place.new.admitted ≡ place.old.admitted) }
{
    let more = place.accepted.and(&item, &slot);
    serve_state(rt, desks, slot, &mut place.state);
    let answer = landed(rt, desks, slot, &place.state, item);
    accept(&answer, &mut place.accepted, more);
    answer
}

// A half that came home from a slice stands at the front where its slot is leaving that slice, and else
// it is handed back.
fn welcome<H: DataTraveller>(place: &mut Option<DataPlace<H>>, half: H, slice: usize) -> Option<H>
    ensures { Welcomes half slice place.old place.new result }
{
    let Some(place_was) = place.take() else {
        return Some(half);
    };
    let DataPlace {
        moved,
        state,
        queue,
        admitted,
        accepted,
    } = place_was;
    let (state, back) = homed(state, half, slice);
    *place = Some(DataPlace {
        moved,
        state,
        queue,
        admitted,
        accepted,
    });
    back
}

// The same at the place of a slot, unless a half of it is kept aside.
pub fn welcome_at<H: DataTraveller>(
    places: &mut Vec<Option<DataPlace<H>>>,
    aside: &[UnexpectedHalf<H>],
    half: H,
    slice: usize,
    slot: Slot,
) -> Option<H>
    ensures { WelcomesAt H.slot_of_half half slice slot aside.now places.old.items places.new.items result }
{
    if slot.0 as usize >= places.len() {
        return Some(half);
    }
    if is_aside(aside, slot) {
        return Some(half);
    }
    welcome(&mut places[slot.0 as usize], half, slice)
}

// What a state becomes as a half comes home from a slice, which is handed back where it isn't expected.
fn homed<H: Drop>(state: DataState<H>, half: H, slice: usize) -> (DataState<H>, Option<H>)
    ensures { Homes half slice state result.0 result.1 }
{
    match state {
        DataState::Front { half: own, to } => (DataState::Front { half: own, to }, Some(half)),
        DataState::Placed { at } => (DataState::Placed { at }, Some(half)),
        DataState::Recall { at, to } => (DataState::Recall { at, to }, Some(half)),
        DataState::Leaving { from, to } => {
            if from.0 as usize == slice {
                (DataState::Front { half, to }, None)
            } else {
                (DataState::Leaving { from, to }, Some(half))
            }
        }
    }
}

// Whether a half of a slot is kept aside.
pub fn is_aside<H: DataKind>(aside: &[UnexpectedHalf<H>], slot: Slot) -> bool
    ensures { result ≡ is_lost H.slot_of_half slot aside.now }
{
    aside.iter().any(|kept| kept.half.slot() == slot)
}

// Puts a place in its slot.
pub fn put<H: DataTraveller>(
    places: &mut Vec<Option<DataPlace<H>>>,
    slot: Slot,
    place: DataPlace<H>,
)
    requires { slot < vec_len places.old }
    ensures { places.new.items ≡ slice_set places.old.items slot (Some place) }
{
    places[slot.0 as usize] = Some(place);
}
