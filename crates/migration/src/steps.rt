//! Steps at one slot: an order is offered, and a half comes home.
ghost use Rattle.std.specs.Prelude.{◌≡◌, ◌≤◌, ◌<◌, ◌+◌, ◌^◌, cond, true, [], ℕ, Some, length};
ghost use Rattle.std.specs.Prelude.{reverse, vec_len, vec_capacity, slice_set};
ghost use Rattle.std.specs.List.{sum_by};
ghost use Rattle.std.specs.List.Sorted.{IsNonDecreasing};
ghost use Rattle.worker_core.specs.Desks.{order_count};
ghost use Rattle.migration.specs.Places.{place_at, PlaceFits, slices_fit, is_admitted, is_placed, is_waiting};
ghost use Rattle.migration.specs.Places.{is_waiting_at, sent_to};
ghost use Rattle.migration.specs.Steps.{Sends, Recalls, Serves, PlaceServed, ServedAt, Goes, Moves, MovesAt};
ghost use Rattle.migration.specs.Steps.{NewlyWaits};
ghost use Rattle.migration.specs.Steps.{Homes, Welcomes, WelcomesAt};

use crate::place::{ControlPlace, ControlState};
use lane_core::Full;
use pc_base::{SliceNo, Slot};
use std::sync::Wait;
use worker_core::{Desk, Order, Traveller, offer};

// Sends a half to a slice, or keeps it at the front where that lane is full.
pub fn send<H: Traveller, R: Wait>(
    rt: &R,
    desks: &mut Vec<Desk<H>>,
    mut half: H,
    to: SliceNo,
    hop: u64,
) -> ControlState<H>
    requires within { to < vec_len desks.old }
    requires few { sum_by order_count desks.old.items < 2 ^ 50 }
    requires hop { hop ≤ 2 ^ 61 }
    ensures sends { Sends H.name H.hop_of hop to half result desks.old.items desks.new.items }
    ensures len { vec_len desks.new ≡ vec_len desks.old }
{
    half.arrive(hop);
    match offer(rt, desks, to, Order::Arrive(half)) {
        Ok(()) => ControlState::Placed { at: to },
        Err(Full(order)) => match order {
            Order::Arrive(half) => ControlState::Front { half, to },
            Order::Leave { .. } => unreachable!(),
        },
    }
}

// Tells a half to leave a slice, or waits with it where that lane is full.
fn recall<H: Traveller, R: Wait>(
    rt: &R,
    desks: &mut Vec<Desk<H>>,
    slot: Slot,
    at: SliceNo,
    until: u64,
    to: SliceNo,
) -> ControlState<H>
    requires within { at < vec_len desks.old }
    requires few { sum_by order_count desks.old.items < 2 ^ 50 }
    ensures recalls { Recalls slot at until to result desks.old.items desks.new.items }
    ensures len { vec_len desks.new ≡ vec_len desks.old }
{
    match offer(rt, desks, at, Order::Leave { slot, until }) {
        Ok(()) => ControlState::Leaving { from: at, to },
        Err(_) => ControlState::Recall { at, until, to },
    }
}

// Whether a state has an order to give.
pub fn waits<H>(state: &ControlState<H>) -> bool
    ensures { result ≡ is_waiting state.now }
{
    match state {
        ControlState::Front { .. } => true,
        ControlState::Placed { .. } => false,
        ControlState::Recall { .. } => true,
        ControlState::Leaving { .. } => false,
    }
}

// Whether the half was sent to a slice, and nothing else is asked of it.
pub fn placed<H>(state: &ControlState<H>) -> bool
    ensures { result ≡ is_placed state.now }
{
    match state {
        ControlState::Front { .. } => false,
        ControlState::Placed { .. } => true,
        ControlState::Recall { .. } => false,
        ControlState::Leaving { .. } => false,
    }
}

// The slice that the half was sent to and isn't known to have left.
pub fn sent_to<H>(state: &ControlState<H>) -> Option<SliceNo>
    ensures { result ≡ sent_to state.now }
{
    match state {
        ControlState::Front { .. } => None,
        ControlState::Placed { at } => Some(*at),
        ControlState::Recall { at, .. } => Some(*at),
        ControlState::Leaving { from, .. } => Some(*from),
    }
}

// Offers the order that a state waits to give.
fn served<H: Traveller, R: Wait>(
    rt: &R,
    desks: &mut Vec<Desk<H>>,
    slot: Slot,
    hop: u64,
    state: ControlState<H>,
) -> ControlState<H>
    requires fits { slices_fit (vec_len desks.old) state }
    requires hop { hop ≤ 2 ^ 61 }
    requires few { sum_by order_count desks.old.items < 2 ^ 50 }
    ensures serves { Serves H.name H.hop_of slot hop state result desks.old.items desks.new.items }
    ensures len { vec_len desks.new ≡ vec_len desks.old }
{
    match state {
        ControlState::Front { half, to } => send(rt, desks, half, to, hop),
        ControlState::Placed { at } => ControlState::Placed { at },
        ControlState::Recall { at, until, to } => recall(rt, desks, slot, at, until, to),
        ControlState::Leaving { from, to } => ControlState::Leaving { from, to },
    }
}

// Offers the order that a place waits to give, and tells whether it waits still.
pub fn serve<H: Traveller, R: Wait>(
    rt: &R,
    desks: &mut Vec<Desk<H>>,
    place: &mut Option<ControlPlace<H>>,
    slot: Slot,
) -> bool
    requires fits { PlaceFits (length desks.old.items) (2 ^ 48) place.old }
    requires few { sum_by order_count desks.old.items < 2 ^ 50 }
    ensures served { PlaceServed H.name H.hop_of slot place.old place.new desks.old.items desks.new.items }
    ensures waits { result ≡ is_waiting_at place.new }
    ensures len { vec_len desks.new ≡ vec_len desks.old }
{
    let Some(place_was) = place.take() else {
        return false;
    };
    let ControlPlace {
        hop,
        state,
        admitted,
    } = place_was;
    let state = served(rt, desks, slot, hop, state);
    let waits = waits(&state);
    *place = Some(ControlPlace {
        hop,
        state,
        admitted,
    });
    waits
}

// The same at the place of a slot.
pub fn serve_at<H: Traveller, R: Wait>(
    rt: &R,
    desks: &mut Vec<Desk<H>>,
    places: &mut Vec<Option<ControlPlace<H>>>,
    slot: Slot,
) -> bool
    requires within { slot < length places.old.items }
    requires fits { PlaceFits (length desks.old.items) (2 ^ 48) (place_at places.old.items slot) }
    requires few { sum_by order_count desks.old.items < 2 ^ 50 }
    ensures served { ServedAt H.name H.hop_of slot result places.old.items places.new.items desks.old.items
        desks.new.items }
{
    serve(rt, desks, &mut places[slot.0 as usize], slot)
}

// What a move makes of a state.
fn gone<H: Traveller, R: Wait>(
    rt: &R,
    desks: &mut Vec<Desk<H>>,
    slot: Slot,
    slice: SliceNo,
    until: u64,
    state: ControlState<H>,
) -> ControlState<H>
    requires fits { slices_fit (vec_len desks.old) state }
    requires few { sum_by order_count desks.old.items < 2 ^ 50 }
    ensures goes { Goes slot slice until state result desks.old.items desks.new.items }
    ensures len { vec_len desks.new ≡ vec_len desks.old }
{
    match state {
        ControlState::Front { half, .. } => ControlState::Front { half, to: slice },
        ControlState::Placed { at } => recall(rt, desks, slot, at, until, slice),
        ControlState::Recall { at, until, .. } => ControlState::Recall {
            at,
            until,
            to: slice,
        },
        ControlState::Leaving { from, .. } => ControlState::Leaving { from, to: slice },
    }
}

// Moves a slot to a slice, and tells whether it waits now and didn't before.
pub fn go<H: Traveller, R: Wait>(
    rt: &R,
    desks: &mut Vec<Desk<H>>,
    place: &mut Option<ControlPlace<H>>,
    slot: Slot,
    slice: SliceNo,
    until: u64,
) -> bool
    requires admitted { is_admitted place.old ≡ true }
    requires fits { PlaceFits (length desks.old.items) (2 ^ 48) place.old }
    requires few { sum_by order_count desks.old.items < 2 ^ 50 }
    ensures moves { Moves slot slice until place.old place.new desks.old.items desks.new.items }
    ensures newly { NewlyWaits result place.old place.new }
    ensures len { vec_len desks.new ≡ vec_len desks.old }
{
    let Some(place_was) = place.take() else {
        unreachable!()
    };
    let ControlPlace {
        hop,
        state,
        admitted,
    } = place_was;
    let waited = waits(&state);
    let state = gone(rt, desks, slot, slice, until, state);
    let newly = waits(&state) && !waited;
    *place = Some(ControlPlace {
        hop: hop + 1,
        state,
        admitted,
    });
    newly
}

// The same at the place of a slot.
pub fn go_at<H: Traveller, R: Wait>(
    rt: &R,
    desks: &mut Vec<Desk<H>>,
    places: &mut Vec<Option<ControlPlace<H>>>,
    slot: Slot,
    slice: SliceNo,
    until: u64,
) -> bool
    requires within { slot < length places.old.items }
    requires admitted { is_admitted (place_at places.old.items slot) ≡ true }
    requires fits { PlaceFits (length desks.old.items) (2 ^ 48) (place_at places.old.items slot) }
    requires few { sum_by order_count desks.old.items < 2 ^ 50 }
    ensures moves { MovesAt slot slice until places.old.items places.new.items desks.old.items desks.new.items }
    ensures newly { NewlyWaits result (place_at places.old.items slot) (place_at places.new.items slot) }
{
    go(rt, desks, &mut places[slot.0 as usize], slot, slice, until)
}

// Puts a place in its slot.
pub fn put<H: Drop>(places: &mut Vec<Option<ControlPlace<H>>>, slot: Slot, place: ControlPlace<H>)
    requires { slot < vec_len places.old }
    ensures { places.new.items ≡ slice_set places.old.items slot (Some place) }
{
    places[slot.0 as usize] = Some(place);
}

// A half that came home goes to the place of its slot.
pub fn welcome<H: Drop>(places: &mut Vec<Option<ControlPlace<H>>>, half: H, slot: Slot) -> Option<H>
    ensures { WelcomesAt half slot places.old.items places.new.items result }
{
    if slot.0 as usize >= places.len() {
        return Some(half);
    }
    received(&mut places[slot.0 as usize], half)
}

// A half that came home stands at the front where its slot is leaving, and else it is handed back.
fn received<H: Drop>(place: &mut Option<ControlPlace<H>>, half: H) -> Option<H>
    ensures { Welcomes half place.old place.new result }
{
    let Some(place_was) = place.take() else {
        return Some(half);
    };
    let ControlPlace {
        hop,
        state,
        admitted,
    } = place_was;
    let (state, back) = homed(state, half);
    *place = Some(ControlPlace {
        hop,
        state,
        admitted,
    });
    back
}

// What a state becomes as a half comes home, which is handed back where it isn't expected.
fn homed<H: Drop>(state: ControlState<H>, half: H) -> (ControlState<H>, Option<H>)
    ensures { Homes half state result.0 result.1 }
{
    match state {
        ControlState::Front { half: own, to } => (
            ControlState::Front { half: own, to },
            Some(half),
        ),
        ControlState::Placed { at } => (ControlState::Placed { at }, Some(half)),
        ControlState::Recall { at, until, to } => (
            ControlState::Recall { at, until, to },
            Some(half),
        ),
        ControlState::Leaving { to, .. } => (ControlState::Front { half, to }, None),
    }
}

// Notes that a slot waits.
pub fn note(waiting: &mut Vec<Slot>, slot: Slot, waits: bool)
    requires { waits ≡ true → vec_len waiting.old < vec_capacity waiting.old }
    ensures noted { (w : ℕ → ℕ) → sum_by w waiting.new.items ≡ sum_by w waiting.old.items + cond waits (w slot) 0 }
    ensures room { vec_capacity waiting.new ≡ vec_capacity waiting.old }
{
    if waits {
        waiting.push_reserved(slot);
    }
}

// All of a list go to another one, whose last is then the lowest.
pub fn line_up(from: &mut Vec<Slot>, to: &mut Vec<Slot>)
    requires { vec_len from.old + vec_len to.old ≤ vec_capacity to.old }
    ensures empty { from.new.items ≡ [] }
    ensures all { (w : ℕ → ℕ) → sum_by w to.new.items ≡ sum_by w from.old.items + sum_by w to.old.items }
    ensures rising { IsNonDecreasing (reverse to.new.items) }
    ensures room { (vec_capacity to.new ≡ vec_capacity to.old) × (vec_capacity from.new ≡ vec_capacity from.old) }
{
    pour(from, to);
    to.sort_unstable_by_key(|slot| slot.0);
    to.reverse();
}

fn pour(from: &mut Vec<Slot>, to: &mut Vec<Slot>)
    requires { vec_len from.old + vec_len to.old ≤ vec_capacity to.old }
    ensures empty { from.new.items ≡ [] }
    ensures all { (w : ℕ → ℕ) → sum_by w to.new.items ≡ sum_by w from.old.items + sum_by w to.old.items }
    ensures room { (vec_capacity to.new ≡ vec_capacity to.old) × (vec_capacity from.new ≡ vec_capacity from.old) }
{
    while let Some(slot) = from.pop() {
        to.push_reserved(slot);
    }
}
