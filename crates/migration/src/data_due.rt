//! The slots that have something to give, in a list by slot.
ghost use Rattle.std.specs.Prelude.{◌≡◌, ◌≤◌, ◌<◌, ℕ, true, false, Some, vec_len, vec_capacity};
ghost use Rattle.std.specs.Prelude.{filter, count_by, nat_lt};
ghost use Rattle.migration.specs.DataPlaces.{place_at, state_at, leaves, is_due};
ghost use Rattle.migration.specs.DataDue.{is_among, is_rising, Joins};

use crate::data_place::{DataPlace, DataState};
use crate::data_steps;
use pc_base::{SliceNo, Slot};
use worker_core::DataTraveller;

// Puts a slot into the list, if it joins and doesn't stand there.
pub fn list(due: &mut Vec<Slot>, slot: Slot, joins: bool)
    requires { is_among slot due.old.items ≡ false → vec_len due.old < vec_capacity due.old }
    ensures joins { (end : ℕ) → slot < end → is_rising 0 end due.old.items ≡ true
        → Joins joins slot end due.old.items due.new.items }
    ensures room { vec_capacity due.old ≤ vec_capacity due.new }
{
    if !joins || is_listed(due, slot) {
        return;
    }
    let at = below(due, slot);
    match due.insert(at, slot) {
        Ok(()) => {}
        Err(_) => unreachable!(),
    }
}

// Whether a slot stands in a list.
fn is_listed(due: &[Slot], slot: Slot) -> bool
    ensures { result ≡ is_among slot due.now }
{
    due.iter().any(|other| other.0 == slot.0)
}

// How many slots of a list come before one.
fn below(due: &[Slot], slot: Slot) -> usize
    ensures { result ≡ count_by (λ other. nat_lt other slot) due.now }
{
    due.iter().filter(|other| other.0 < slot.0).count()
}

// Whether a slot has something to give.
pub fn is_due<H: DataTraveller>(places: &[Option<DataPlace<H>>], slot: Slot) -> bool
    ensures { result ≡ is_due (place_at places.now slot) }
{
    match places.get(slot.0 as usize) {
        Some(Some(place)) => data_steps::due(place),
        _ => false,
    }
}

// Drops those that have nothing to give any more.
pub fn keep_due<H: DataTraveller>(due: &mut Vec<Slot>, places: &[Option<DataPlace<H>>])
    ensures kept { due.new.items ≡ filter (λ slot. is_due (place_at places.now slot)) due.old.items }
    ensures room { vec_capacity due.new ≡ vec_capacity due.old }
{
    due.retain(|slot| is_due(places, *slot));
}

// The slice that the half of a slot was told to leave.
pub fn left<H: DataTraveller>(places: &[Option<DataPlace<H>>], slot: Slot) -> Option<SliceNo>
    ensures { result ≡ leaves (state_at (place_at places.now slot)) }
{
    match places.get(slot.0 as usize) {
        Some(Some(place)) => left_by(&place.state),
        _ => None,
    }
}

fn left_by<H>(state: &DataState<H>) -> Option<SliceNo>
    ensures { result ≡ leaves (Some state.now) }
{
    match state {
        DataState::Front { .. } => None,
        DataState::Placed { .. } => None,
        DataState::Recall { .. } => None,
        DataState::Leaving { from, .. } => Some(*from),
    }
}
