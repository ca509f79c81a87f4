//! What is read and changed of the workers of one slice.
ghost use Rattle.std.specs.Prelude.{◌≡◌, ℕ, ◌<◌, ◌++◌, ◌∷◌, [], None, Some, OnOk, IfNone, IfSome, length, drop};
ghost use Rattle.std.specs.Prelude.{replicate, get_or, nat_lt, ◌&&◌};
ghost use Rattle.epoch_schedule.specs.Numbers.{value_at};
ghost use Rattle.epoch_schedule.specs.World as world;
ghost use Rattle.epoch_schedule.specs.Front as front;
ghost use Rattle.epoch_schedule.specs.ControlTurns as control;
ghost use Rattle.epoch_schedule.specs.DataTurns as data_half;
ghost use Rattle.epoch_schedule.specs.WorldNumbers.{control_order, data_order};
ghost use Rattle.std.specs.Bool.{OnTrue};
ghost use Rattle.epoch_schedule.specs.Rosters.{roster_at};
ghost use Rattle.epoch_schedule.specs.Rounds.{IsOrderly, place_held};
ghost use Rattle.epoch_schedule.specs.Worlds.{world_of};

use crate::grow::{reach_control, reach_data};
use crate::standing::{ControlOrder, OrderNumbers};
use crate::workers::{ControlNumbers, DataNumbers};
use crate::world::Numbers;
use std::alloc::AllocError;

/// How many orders of a control worker wait.
pub fn orders_of(numbers: &Numbers<'_>, slice: usize) -> usize
    ensures { result ≡ length (world.control_at (world_of numbers.now) slice).orders }
{
    if slice < numbers.controls.len() {
        let worker = &numbers.controls[slice];
        worker.waiting()
    } else {
        0
    }
}

/// How many orders wait in a slice's lane.
pub fn lane_of(numbers: &Numbers<'_>, slice: usize) -> usize
    ensures { result ≡ length (world.data_at (world_of numbers.now) slice).orders }
{
    if slice < numbers.datas.len() {
        let worker = &numbers.datas[slice];
        worker.lane_len()
    } else {
        0
    }
}

/// The halves that a control worker sent home.
pub fn control_sent<'n>(numbers: &'n Numbers<'_>, slice: usize) -> &'n [usize]
    ensures { result.now ≡ (world.control_at (world_of numbers.now) slice).home }
{
    if slice < numbers.controls.len() {
        let worker = &numbers.controls[slice];
        worker.home()
    } else {
        &[]
    }
}

/// The halves that a data worker sent home.
pub fn data_sent<'n>(numbers: &'n Numbers<'_>, slice: usize) -> &'n [usize]
    ensures { result.now ≡ (world.data_at (world_of numbers.now) slice).home }
{
    if slice < numbers.datas.len() {
        let worker = &numbers.datas[slice];
        worker.home()
    } else {
        &[]
    }
}

/// Whether a control worker is there, and sent no half home.
pub fn is_control_home_empty(numbers: &Numbers<'_>, slice: usize) -> bool
    ensures { OnTrue result (front.control_home (world_of numbers.now) slice ≡ world_of numbers.now) }
{
    if slice < numbers.controls.len() {
        let worker = &numbers.controls[slice];
        worker.home().is_empty()
    } else {
        false
    }
}

/// Whether a data worker is there, and sent no half home.
pub fn is_data_home_empty(numbers: &Numbers<'_>, slice: usize) -> bool
    ensures { OnTrue result (front.data_home (world_of numbers.now) slice ≡ world_of numbers.now) }
{
    if slice < numbers.datas.len() {
        let worker = &numbers.datas[slice];
        worker.home().is_empty()
    } else {
        false
    }
}

/// Whether no control worker sent a half home.
pub fn are_control_homes_empty(controls: &[ControlNumbers]) -> bool
    ensures { OnTrue result ((slice : ℕ) → slice < length controls.now
        → length (value_at world.fresh_control controls.now slice).home ≡ 0) }
{
    for worker in controls {
        if !worker.home().is_empty() {
            return false;
        }
    }
    true
}

/// Whether no data worker sent a half home.
pub fn are_data_homes_empty(datas: &[DataNumbers]) -> bool
    ensures { OnTrue result ((slice : ℕ) → slice < length datas.now
        → length (value_at world.fresh_data datas.now slice).home ≡ 0) }
{
    for worker in datas {
        if !worker.home().is_empty() {
            return false;
        }
    }
    true
}

/// How many halves a control worker holds.
pub fn control_count(numbers: &Numbers<'_>, slice: usize) -> usize
    ensures { result ≡ length (world.control_at (world_of numbers.now) slice).held }
{
    if slice < numbers.controls.len() {
        let worker = &numbers.controls[slice];
        worker.roster().len()
    } else {
        0
    }
}

/// The place of the control half whose turn is next.
pub fn control_cursor(numbers: &Numbers<'_>, slice: usize) -> usize
    ensures { result ≡ (world.control_at (world_of numbers.now) slice).cursor }
{
    if slice < numbers.controls.len() {
        let worker = &numbers.controls[slice];
        worker.roster().cursor()
    } else {
        0
    }
}

/// Whether a half of a control worker has its turn next, and each surely is of a slot of its own, and of one that had a
/// line.
pub fn is_orderly(numbers: &Numbers<'_>, slice: usize) -> bool
    ensures { OnTrue result (IsOrderly (length (world_of numbers.now).slots) (roster_at (world_of numbers.now) slice)) }
{
    if slice < numbers.controls.len() {
        let worker = &numbers.controls[slice];
        worker.roster().is_orderly(numbers.slots.len())
    } else {
        false
    }
}

/// The slot of the half of a place.
pub fn slot_held(numbers: &Numbers<'_>, slice: usize, place: usize) -> usize
    ensures { result ≡ control.slot_held (world_of numbers.now) slice place }
{
    if slice < numbers.controls.len() {
        let worker = &numbers.controls[slice];
        worker.roster().slot_at(place)
    } else {
        0
    }
}

/// The half that waits to go home.
pub fn data_waiting(numbers: &Numbers<'_>, slice: usize) -> Option<usize>
    ensures { result ≡ (world.data_at (world_of numbers.now) slice).waiting }
{
    if slice < numbers.datas.len() {
        let worker = &numbers.datas[slice];
        worker.waiting()
    } else {
        None
    }
}

#[inline(always)]
pub fn order_control(
    numbers: &mut Numbers<'_>,
    slice: usize,
    order: ControlOrder,
) -> Result<(), AllocError>
    ensures { OnOk result (world_of numbers.new ≡ world.on_control (world_of numbers.old) slice
        (λ worker. record worker { orders = worker.orders ++ control_order order ∷ [] })) }
{
    reach_control(&mut numbers.controls, numbers.alloc, slice)?;
    let worker = &mut numbers.controls[slice];
    worker.order(order)
}

#[inline(always)]
pub fn order_data(
    numbers: &mut Numbers<'_>,
    slice: usize,
    order: OrderNumbers,
) -> Result<(), AllocError>
    ensures { OnOk result (world_of numbers.new ≡ world.on_data (world_of numbers.old) slice
        (λ worker. record worker { orders = worker.orders ++ data_order order ∷ [] })) }
{
    reach_data(&mut numbers.datas, numbers.alloc, slice)?;
    let worker = &mut numbers.datas[slice];
    worker.order(order)
}

pub fn order_items(
    numbers: &mut Numbers<'_>,
    slice: usize,
    slot: usize,
    count: usize,
) -> Result<(), AllocError>
    ensures { OnOk result (world_of numbers.new ≡ world.on_data (world_of numbers.old) slice
        (λ worker. record worker { orders = worker.orders ++ replicate count (world.item slot) })) }
{
    reach_data(&mut numbers.datas, numbers.alloc, slice)?;
    let worker = &mut numbers.datas[slice];
    worker.order_items(slot, count)
}

pub fn clear_control_home(numbers: &mut Numbers<'_>, slice: usize) -> Result<(), AllocError>
    ensures { OnOk result (world_of numbers.new ≡ world.on_control (world_of numbers.old) slice
        (λ worker. record worker { home = [] })) }
{
    reach_control(&mut numbers.controls, numbers.alloc, slice)?;
    let worker = &mut numbers.controls[slice];
    worker.clear_home();
    Ok(())
}

pub fn clear_data_home(numbers: &mut Numbers<'_>, slice: usize) -> Result<(), AllocError>
    ensures { OnOk result (world_of numbers.new ≡ world.on_data (world_of numbers.old) slice
        (λ worker. record worker { home = [] })) }
{
    reach_data(&mut numbers.datas, numbers.alloc, slice)?;
    let worker = &mut numbers.datas[slice];
    worker.clear_home();
    Ok(())
}

/// A control half comes.
pub fn hold_control(numbers: &mut Numbers<'_>, slice: usize, slot: usize) -> Result<(), AllocError>
    ensures { OnOk result (world_of numbers.new ≡ world.on_control (world_of numbers.old) slice
        (λ worker. control.behind_order worker (world.come slot))) }
{
    reach_control(&mut numbers.controls, numbers.alloc, slice)?;
    let room = numbers.slots.capacity();
    let worker = &mut numbers.controls[slice];
    worker.hold(numbers.alloc, room, slot)
}

/// A control half is marked.
pub fn mark_control(
    numbers: &mut Numbers<'_>,
    slice: usize,
    slot: usize,
    until: usize,
) -> Result<(), AllocError>
    ensures { OnOk result (world_of numbers.new ≡ world.on_control (world_of numbers.old) slice
        (λ worker. control.behind_order worker (world.go slot until))) }
{
    reach_control(&mut numbers.controls, numbers.alloc, slice)?;
    let worker = &mut numbers.controls[slice];
    worker.mark(numbers.alloc, slot, until)
}

/// Whether a half of a control worker is done, and there is room to send it home.
pub fn may_send(numbers: &Numbers<'_>, slice: usize) -> bool
    ensures { result ≡ (nat_lt (length (world.control_at (world_of numbers.now) slice).home) 64 && nat_lt
        (control.place_done (world_of numbers.now) (world.control_at (world_of numbers.now) slice).held)
        (length (world.control_at (world_of numbers.now) slice).held)) }
{
    if slice < numbers.controls.len() {
        let worker = &numbers.controls[slice];
        worker.may_send(numbers.slots.as_slice())
    } else {
        false
    }
}

/// The slot of the first half of a control worker that is done.
pub fn done_slot(numbers: &Numbers<'_>, slice: usize) -> usize
    ensures { result ≡ (control.held_at (world.control_at (world_of numbers.now) slice).held
        (control.place_done (world_of numbers.now) (world.control_at (world_of numbers.now) slice).held)).slot }
{
    if slice < numbers.controls.len() {
        let worker = &numbers.controls[slice];
        worker.roster().done_slot(numbers.slots.as_slice())
    } else {
        0
    }
}

/// The first half of a control worker that is done goes home.
#[inline(never)]
pub fn send_done(numbers: &mut Numbers<'_>, slice: usize) -> Result<(), AllocError>
    requires { control.place_done (world_of numbers.old) (world.control_at (world_of numbers.old) slice).held
        < length (world.control_at (world_of numbers.old) slice).held }
    ensures { OnOk result (world_of numbers.new ≡ world.on_control (world_of numbers.old) slice
        (λ worker. control.sent_home worker (control.place_done (world_of numbers.old) worker.held))) }
{
    reach_control(&mut numbers.controls, numbers.alloc, slice)?;
    let worker = &mut numbers.controls[slice];
    worker.send_done(numbers.slots.as_slice())
}

/// The turn of the control half behind that of a place.
pub fn set_behind_place(
    numbers: &mut Numbers<'_>,
    slice: usize,
    place: usize,
) -> Result<(), AllocError>
    ensures { OnOk result (world_of numbers.new
        ≡ control.cursor_at (world_of numbers.old) slice (control.next_place (world_of numbers.old) slice place)) }
{
    reach_control(&mut numbers.controls, numbers.alloc, slice)?;
    let worker = &mut numbers.controls[slice];
    worker.set_behind_place(place);
    Ok(())
}

/// The turn of the control half behind that of a slot.
pub fn set_behind(numbers: &mut Numbers<'_>, slice: usize, slot: usize) -> Result<(), AllocError>
    ensures { OnOk result (world_of numbers.new
        ≡ control.cursor_at (world_of numbers.old) slice (control.next_place (world_of numbers.old) slice
        (place_held slot (world.control_at (world_of numbers.old) slice).held))) }
{
    reach_control(&mut numbers.controls, numbers.alloc, slice)?;
    let worker = &mut numbers.controls[slice];
    worker.set_behind(slot);
    Ok(())
}

/// Takes the first order of a control worker.
pub fn take_control(numbers: &mut Numbers<'_>, slice: usize) -> Option<ControlOrder>
    ensures none { IfNone result ((world_of numbers.new ≡ world_of numbers.old)
        × ((world.control_at (world_of numbers.old) slice).orders ≡ [])) }
    ensures order { IfSome result (λ order. (world.control_at (world_of numbers.old) slice).orders
        ≡ control_order order ∷ drop 1 (world.control_at (world_of numbers.old) slice).orders) }
    ensures rest { IfSome result (λ order. world_of numbers.new ≡ world.on_control (world_of numbers.old) slice
        (λ worker. record worker { orders = drop 1 worker.orders })) }
{
    if slice < numbers.controls.len() {
        let worker = &mut numbers.controls[slice];
        match worker.take() {
            Some(order) => Some(order),
            None => None,
        }
    } else {
        None
    }
}

/// Takes the next order of a data worker: a kept packet comes first.
pub fn take_next(numbers: &mut Numbers<'_>, slice: usize) -> Option<OrderNumbers>
    ensures slots { (world_of numbers.new).slots ≡ (world_of numbers.old).slots }
    ensures controls { (world_of numbers.new).controls ≡ (world_of numbers.old).controls }
    ensures none { IfNone result (data_half.doing (world_of numbers.new) data_half.round
        ≡ data_half.next_order slice (world_of numbers.old) (world.data_at (world_of numbers.old) slice).kept
        (world.data_at (world_of numbers.old) slice).orders) }
    ensures order { IfSome result (λ order. data_half.obeyed slice (world_of numbers.new) (data_order order)
        ≡ data_half.next_order slice (world_of numbers.old) (world.data_at (world_of numbers.old) slice).kept
        (world.data_at (world_of numbers.old) slice).orders) }
{
    if slice < numbers.datas.len() {
        let worker = &mut numbers.datas[slice];
        match worker.take_next() {
            Some(order) => Some(order),
            None => None,
        }
    } else {
        None
    }
}

/// A data worker keeps the packet of a slot.
pub fn keep(numbers: &mut Numbers<'_>, slice: usize, slot: usize) -> Result<(), AllocError>
    ensures { OnOk result (world_of numbers.new ≡ world.on_data (world_of numbers.old) slice
        (λ worker. record worker { kept = Some slot })) }
{
    reach_data(&mut numbers.datas, numbers.alloc, slice)?;
    let worker = &mut numbers.datas[slice];
    worker.keep(slot);
    Ok(())
}

/// A data half arrives.
#[inline(never)]
pub fn hold_data(numbers: &mut Numbers<'_>, slice: usize, slot: usize) -> Result<(), AllocError>
    ensures { OnOk result (world_of numbers.new ≡ world.on_data (world_of numbers.old) slice
        (λ worker. record worker { held = worker.held ++ slot ∷ [] })) }
{
    reach_data(&mut numbers.datas, numbers.alloc, slice)?;
    let room = numbers.slots.capacity();
    let worker = &mut numbers.datas[slice];
    worker.hold(numbers.alloc, room, slot)
}

/// A data half leaves, and waits.
#[inline(never)]
pub fn let_go(numbers: &mut Numbers<'_>, slice: usize, slot: usize) -> Result<(), AllocError>
    ensures { OnOk result (world_of numbers.new ≡ world.on_data (world_of numbers.old) slice
        (λ worker. data_half.left worker slot)) }
{
    reach_data(&mut numbers.datas, numbers.alloc, slice)?;
    let worker = &mut numbers.datas[slice];
    worker.let_go(slot);
    Ok(())
}

/// A data half goes home.
#[inline(never)]
pub fn send_data(numbers: &mut Numbers<'_>, slice: usize, slot: usize) -> Result<(), AllocError>
    ensures { OnOk result (world_of numbers.new ≡ world.on_data (world_of numbers.old) slice
        (λ worker. record worker { home = worker.home ++ slot ∷ []; waiting = None })) }
{
    reach_data(&mut numbers.datas, numbers.alloc, slice)?;
    let worker = &mut numbers.datas[slice];
    worker.go_home(slot)
}

/// The slot of the data half whose turn is next, if there is one; then that of the one behind it.
pub fn go_round(numbers: &mut Numbers<'_>, slice: usize) -> Option<usize>
    ensures none { IfNone result ((world_of numbers.new ≡ world_of numbers.old)
        × ((world.data_at (world_of numbers.old) slice).held ≡ [])) }
    ensures some { IfSome result (λ slot. 0 < length (world.data_at (world_of numbers.old) slice).held) }
    ensures slot { IfSome result (λ slot. slot ≡ get_or (world.data_at (world_of numbers.old) slice).held
        (world.data_at (world_of numbers.old) slice).cursor 0) }
    ensures round { IfSome result (λ slot. world_of numbers.new ≡ world.on_data (world_of numbers.old) slice
        (λ worker. record worker { cursor = world.cursor_next worker.cursor (length worker.held) })) }
{
    if slice < numbers.datas.len() {
        let worker = &mut numbers.datas[slice];
        match worker.go_round() {
            Some(slot) => Some(slot),
            None => None,
        }
    } else {
        None
    }
}
