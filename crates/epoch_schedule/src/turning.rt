//! The turns of workers.
ghost use Rattle.std.specs.Prelude.{◌≡◌, ℕ, ◌<◌, ◌≤◌, [], OnOk, IfOk, length, All};
ghost use Rattle.std.specs.Bool.{OnFalse};
ghost use Rattle.epoch_schedule.specs.World as world;
ghost use Rattle.epoch_schedule.specs.ControlTurns as control;
ghost use Rattle.epoch_schedule.specs.DataTurns as data_half;
ghost use Rattle.epoch_schedule.specs.Halves as halves;
ghost use Rattle.epoch_schedule.specs.Schedule as epoch;
ghost use Rattle.epoch_schedule.specs.Busy.{AreBusyBut};
ghost use Rattle.epoch_schedule.specs.Listed.{AreListed};
ghost use Rattle.epoch_schedule.specs.WorldNumbers.{control_order, data_order};
ghost use Rattle.epoch_schedule.specs.Rosters.{roster_at};
ghost use Rattle.epoch_schedule.specs.Rounds.{IsOrderly};
ghost use Rattle.epoch_schedule.specs.Worlds.{world_of, going_of};

use crate::busy::{BusyList, busy_at, has_busy, leave, next_half, rest_at, wake};
use crate::setup::ScheduleSetup;
use crate::sides::{
    control_count, control_cursor, data_sent, data_waiting, done_slot, go_round, hold_control,
    hold_data, is_orderly, keep, let_go, mark_control, may_send, send_data, send_done, set_behind,
    set_behind_place, slot_held, take_control, take_next,
};
use crate::standing::{ControlOrder, Going, OrderNumbers};
use crate::waiting::WaitingSlots;
use crate::world::{Numbers, handle, has_learnt, learn, may_handle, turn_half};
use std::alloc::AllocError;

/// The place behind this one, round a list of so many.
fn cursor_next(place: usize, count: usize) -> usize
    ensures { result ≡ world.cursor_next place count }
{
    if place < count.saturating_sub(1) {
        place + 1
    } else {
        0
    }
}

/// The place behind this one.
fn next_place(numbers: &Numbers<'_>, slice: usize, place: usize) -> usize
    ensures { result ≡ control.next_place (world_of numbers.now) slice place }
{
    cursor_next(place, control_count(numbers, slice))
}

/// Turns control halves round the list until one works.
#[inline(never)]
fn work_round(
    numbers: &mut Numbers<'_>,
    setup: &ScheduleSetup<'_>,
    slice: usize,
    first: usize,
    count: usize,
) -> Result<(), AllocError>
    ensures { OnOk result (world_of numbers.new
        ≡ control.work_round setup.now.rooms slice first count (world_of numbers.old)) }
{
    let mut place = first;
    let mut left = count;
    while left > 0 {
        let slot = slot_held(numbers, slice, place);
        let worked = turn_half(numbers, setup, slot)?;
        if worked {
            return set_behind_place(numbers, slice, place);
        }
        place = next_place(numbers, slice, place);
        left -= 1;
    }
    Ok(())
}

/// Turns the control halves whose turn may change something until one works.
#[inline(never)]
fn work_busy(
    numbers: &mut Numbers<'_>,
    busy: &mut Vec<BusyList>,
    setup: &ScheduleSetup<'_>,
    slice: usize,
) -> Result<(), AllocError>
    requires busy { AreBusyBut setup.now.rooms.room [] busy.old.items (world_of numbers.old) }
    requires orderly { IsOrderly (length (world_of numbers.old).slots) (roster_at (world_of numbers.old) slice) }
    ensures world { OnOk result (world_of numbers.new
        ≡ control.work_all setup.now.rooms slice (world_of numbers.old)) }
    ensures busy { OnOk result (AreBusyBut setup.now.rooms.room [] busy.new.items (world_of numbers.new)) }
{
    while has_busy(busy, slice) {
        let at = next_half(numbers, busy, slice);
        let slot = busy_at(busy, slice, at);
        let worked = turn_half(numbers, setup, slot)?;
        rest_at(numbers, busy, setup, slice, at, slot);
        if worked {
            set_behind(numbers, slice, slot)?;
            return Ok(());
        }
    }
    Ok(())
}

fn work_all(
    numbers: &mut Numbers<'_>,
    busy: &mut Vec<BusyList>,
    setup: &ScheduleSetup<'_>,
    slice: usize,
) -> Result<(), AllocError>
    requires { AreBusyBut setup.now.rooms.room [] busy.old.items (world_of numbers.old) }
    ensures world { OnOk result (world_of numbers.new
        ≡ control.work_all setup.now.rooms slice (world_of numbers.old)) }
    ensures busy { OnOk result (AreBusyBut setup.now.rooms.room [] busy.new.items (world_of numbers.new)) }
{
    if is_orderly(numbers, slice) {
        if has_busy(busy, slice) {
            return work_busy(numbers, busy, setup, slice);
        }
        return Ok(());
    }
    let first = control_cursor(numbers, slice);
    let count = control_count(numbers, slice);
    work_round(numbers, setup, slice, first, count)
}

/// A control half goes home, the first that is done.
#[inline(never)]
fn send_home(
    numbers: &mut Numbers<'_>,
    busy: &mut Vec<BusyList>,
    setup: &ScheduleSetup<'_>,
    slice: usize,
) -> Result<(), AllocError>
    requires done { control.place_done (world_of numbers.old) (world.control_at (world_of numbers.old) slice).held
        < length (world.control_at (world_of numbers.old) slice).held }
    requires busy { AreBusyBut setup.now.rooms.room [] busy.old.items (world_of numbers.old) }
    ensures world { OnOk result (world_of numbers.new ≡ world.on_control (world_of numbers.old) slice
        (λ worker. control.sent_home worker (control.place_done (world_of numbers.old) worker.held))) }
    ensures busy { OnOk result (AreBusyBut setup.now.rooms.room [] busy.new.items (world_of numbers.new)) }
{
    let slot = done_slot(numbers, slice);
    leave(numbers, busy, slice, slot);
    send_done(numbers, slice)?;
    wake(numbers, busy, setup, slot)
}

/// A control half goes home, if one is done and there is room; else the halves are turned.
fn go_or_work(
    numbers: &mut Numbers<'_>,
    busy: &mut Vec<BusyList>,
    setup: &ScheduleSetup<'_>,
    slice: usize,
) -> Result<(), AllocError>
    requires { AreBusyBut setup.now.rooms.room [] busy.old.items (world_of numbers.old) }
    ensures world { OnOk result (world_of numbers.new
        ≡ control.go_or_work setup.now.rooms slice (world_of numbers.old)) }
    ensures busy { OnOk result (AreBusyBut setup.now.rooms.room [] busy.new.items (world_of numbers.new)) }
{
    if may_send(numbers, slice) {
        return send_home(numbers, busy, setup, slice);
    }
    work_all(numbers, busy, setup, slice)
}

/// Does an order of a control worker.
#[inline(never)]
fn tell(
    numbers: &mut Numbers<'_>,
    busy: &mut Vec<BusyList>,
    setup: &ScheduleSetup<'_>,
    slice: usize,
    order: ControlOrder,
) -> Result<(), AllocError>
    requires { AreBusyBut setup.now.rooms.room [] busy.old.items (world_of numbers.old) }
    ensures world { OnOk result (world_of numbers.new ≡ world.on_control (world_of numbers.old) slice
        (λ worker. control.behind_order worker (control_order order))) }
    ensures busy { OnOk result (AreBusyBut setup.now.rooms.room [] busy.new.items (world_of numbers.new)) }
{
    match order {
        ControlOrder::Come(slot) => {
            hold_control(numbers, slice, slot)?;
            wake(numbers, busy, setup, slot)
        }
        ControlOrder::Go(slot, until) => mark_control(numbers, slice, slot, until),
    }
}

/// A turn of the control worker of a slice.
fn control_turn(
    numbers: &mut Numbers<'_>,
    busy: &mut Vec<BusyList>,
    setup: &ScheduleSetup<'_>,
    slice: usize,
) -> Result<(), AllocError>
    requires { AreBusyBut setup.now.rooms.room [] busy.old.items (world_of numbers.old) }
    ensures world { OnOk result (world_of numbers.new
        ≡ control.control_turn setup.now.rooms slice (world_of numbers.old)) }
    ensures busy { OnOk result (AreBusyBut setup.now.rooms.room [] busy.new.items (world_of numbers.new)) }
{
    match take_control(numbers, slice) {
        Some(order) => tell(numbers, busy, setup, slice, order),
        None => go_or_work(numbers, busy, setup, slice),
    }
}

/// The half that waits goes home.
fn go_home(numbers: &mut Numbers<'_>, slice: usize) -> Result<Going, AllocError>
    ensures { IfOk result (λ going. data_half.doing (world_of numbers.new) (going_of going)
        ≡ data_half.go_home slice (world_of numbers.old) (world.data_at (world_of numbers.old) slice).waiting) }
{
    match data_waiting(numbers, slice) {
        None => Ok(Going::More),
        Some(slot) => {
            if data_sent(numbers, slice).len() >= 64 {
                return Ok(Going::Over);
            }
            send_data(numbers, slice, slot)?;
            Ok(Going::More)
        }
    }
}

/// The data half of a slot learns what it may: its control half may have work then.
#[inline(always)]
fn learn_on(
    numbers: &mut Numbers<'_>,
    busy: &mut Vec<BusyList>,
    setup: &ScheduleSetup<'_>,
    slot: usize,
) -> Result<(), AllocError>
    requires { AreBusyBut setup.now.rooms.room [] busy.old.items (world_of numbers.old) }
    ensures world { OnOk result (world_of numbers.new ≡ world.on_slot (world_of numbers.old) slot halves.learn) }
    ensures busy { OnOk result (AreBusyBut setup.now.rooms.room [] busy.new.items (world_of numbers.new)) }
{
    if has_learnt(numbers, slot) {
        return Ok(());
    }
    learn(numbers, slot)?;
    wake(numbers, busy, setup, slot)
}

/// A packet is handled, or kept.
fn handle_or_keep(numbers: &mut Numbers<'_>, slice: usize, slot: usize) -> Result<Going, AllocError>
    requires { slice ≤ 63 }
    ensures { IfOk result (λ going. data_half.doing (world_of numbers.new) (going_of going)
        ≡ data_half.handled slice (world_of numbers.old) slot) }
{
    if may_handle(numbers, slot) {
        handle(numbers, slot, slice)?;
        Ok(Going::More)
    } else {
        keep(numbers, slice, slot)?;
        Ok(Going::Round)
    }
}

/// Does an order of a slice's lane.
fn obey(
    numbers: &mut Numbers<'_>,
    busy: &mut Vec<BusyList>,
    setup: &ScheduleSetup<'_>,
    slice: usize,
    order: OrderNumbers,
) -> Result<Going, AllocError>
    requires slice { slice ≤ 63 }
    requires busy { AreBusyBut setup.now.rooms.room [] busy.old.items (world_of numbers.old) }
    ensures world { IfOk result (λ going. data_half.doing (world_of numbers.new) (going_of going)
        ≡ data_half.obeyed slice (world_of numbers.old) (data_order order)) }
    ensures busy { OnOk result (AreBusyBut setup.now.rooms.room [] busy.new.items (world_of numbers.new)) }
{
    match order {
        OrderNumbers::Arrive(slot) => {
            hold_data(numbers, slice, slot)?;
            Ok(Going::More)
        }
        OrderNumbers::Item(slot) => {
            learn_on(numbers, busy, setup, slot)?;
            handle_or_keep(numbers, slice, slot)
        }
        OrderNumbers::Leave(slot) => {
            let_go(numbers, slice, slot)?;
            Ok(Going::Over)
        }
    }
}

/// Does the next order, if there is one.
fn next_order(
    numbers: &mut Numbers<'_>,
    busy: &mut Vec<BusyList>,
    setup: &ScheduleSetup<'_>,
    slice: usize,
) -> Result<Going, AllocError>
    requires slice { slice ≤ 63 }
    requires busy { AreBusyBut setup.now.rooms.room [] busy.old.items (world_of numbers.old) }
    ensures world { IfOk result (λ going. data_half.doing (world_of numbers.new) (going_of going)
        ≡ data_half.next_order slice (world_of numbers.old) (world.data_at (world_of numbers.old) slice).kept
        (world.data_at (world_of numbers.old) slice).orders) }
    ensures busy { OnOk result (AreBusyBut setup.now.rooms.room [] busy.new.items (world_of numbers.new)) }
{
    match take_next(numbers, slice) {
        None => Ok(Going::Round),
        Some(order) => obey(numbers, busy, setup, slice, order),
    }
}

fn order_step(
    numbers: &mut Numbers<'_>,
    busy: &mut Vec<BusyList>,
    setup: &ScheduleSetup<'_>,
    slice: usize,
    going: Going,
) -> Result<Going, AllocError>
    requires slice { slice ≤ 63 }
    requires busy { AreBusyBut setup.now.rooms.room [] busy.old.items (world_of numbers.old) }
    ensures world { IfOk result (λ next. data_half.doing (world_of numbers.new) (going_of next)
        ≡ data_half.order_step slice (data_half.doing (world_of numbers.old) (going_of going))) }
    ensures busy { OnOk result (AreBusyBut setup.now.rooms.room [] busy.new.items (world_of numbers.new)) }
{
    match going {
        Going::More => next_order(numbers, busy, setup, slice),
        Going::Round => Ok(Going::Round),
        Going::Over => Ok(Going::Over),
    }
}

/// Whether the next order is done, if there is one.
fn goes_on(going: Going) -> bool
    ensures { OnFalse result ((slice : ℕ) → (now : world.World)
        → data_half.order_step slice (data_half.doing now (going_of going)) ≡ data_half.doing now (going_of going)) }
{
    match going {
        Going::More => true,
        Going::Round => false,
        Going::Over => false,
    }
}

/// Does at most eight orders.
fn take_orders(
    numbers: &mut Numbers<'_>,
    busy: &mut Vec<BusyList>,
    setup: &ScheduleSetup<'_>,
    slice: usize,
    first: Going,
) -> Result<Going, AllocError>
    requires slice { slice ≤ 63 }
    requires busy { AreBusyBut setup.now.rooms.room [] busy.old.items (world_of numbers.old) }
    ensures world { IfOk result (λ next. data_half.doing (world_of numbers.new) (going_of next)
        ≡ data_half.take_orders slice (data_half.doing (world_of numbers.old) (going_of first))) }
    ensures busy { OnOk result (AreBusyBut setup.now.rooms.room [] busy.new.items (world_of numbers.new)) }
{
    let mut going = first;
    for _ in 0..8u32 {
        if !goes_on(going) {
            return Ok(going);
        }
        going = order_step(numbers, busy, setup, slice, going)?;
    }
    Ok(going)
}

/// The half whose turn is next learns.
fn learn_next(
    numbers: &mut Numbers<'_>,
    busy: &mut Vec<BusyList>,
    setup: &ScheduleSetup<'_>,
    slice: usize,
) -> Result<(), AllocError>
    requires { AreBusyBut setup.now.rooms.room [] busy.old.items (world_of numbers.old) }
    ensures world { OnOk result (world_of numbers.new ≡ data_half.learn_next slice (world_of numbers.old)
        (world.data_at (world_of numbers.old) slice).held) }
    ensures busy { OnOk result (AreBusyBut setup.now.rooms.room [] busy.new.items (world_of numbers.new)) }
{
    match go_round(numbers, slice) {
        None => Ok(()),
        Some(slot) => learn_on(numbers, busy, setup, slot),
    }
}

fn end_turn(
    numbers: &mut Numbers<'_>,
    busy: &mut Vec<BusyList>,
    setup: &ScheduleSetup<'_>,
    slice: usize,
    going: Going,
) -> Result<(), AllocError>
    requires { AreBusyBut setup.now.rooms.room [] busy.old.items (world_of numbers.old) }
    ensures world { OnOk result (world_of numbers.new
        ≡ data_half.ended slice (data_half.doing (world_of numbers.old) (going_of going))) }
    ensures busy { OnOk result (AreBusyBut setup.now.rooms.room [] busy.new.items (world_of numbers.new)) }
{
    match going {
        Going::More => learn_next(numbers, busy, setup, slice),
        Going::Round => learn_next(numbers, busy, setup, slice),
        Going::Over => Ok(()),
    }
}

/// A turn of the data worker of a slice.
fn data_turn(
    numbers: &mut Numbers<'_>,
    busy: &mut Vec<BusyList>,
    setup: &ScheduleSetup<'_>,
    slice: usize,
) -> Result<(), AllocError>
    requires slice { slice ≤ 63 }
    requires busy { AreBusyBut setup.now.rooms.room [] busy.old.items (world_of numbers.old) }
    ensures world { OnOk result (world_of numbers.new ≡ data_half.data_turn slice (world_of numbers.old)) }
    ensures busy { OnOk result (AreBusyBut setup.now.rooms.room [] busy.new.items (world_of numbers.new)) }
{
    let home = go_home(numbers, slice)?;
    let going = take_orders(numbers, busy, setup, slice, home)?;
    end_turn(numbers, busy, setup, slice, going)
}

/// A worker's turn: of control, or of data.
#[inline(always)]
pub fn turn(
    numbers: &mut Numbers<'_>,
    waiting: &mut WaitingSlots,
    setup: &ScheduleSetup<'_>,
    worker: u32,
) -> Result<(), AllocError>
    requires worker { worker < 128 }
    requires listed { AreListed setup.now waiting.old (world_of numbers.old) }
    ensures world { OnOk result (world_of numbers.new ≡ epoch.turned setup.now.rooms (world_of numbers.old) worker) }
    ensures listed { OnOk result (AreListed setup.now waiting.new (world_of numbers.new)) }
{
    let slice = (worker / 2) as usize;
    if worker % 2 == 0 {
        control_turn(numbers, &mut waiting.busy, setup, slice)?;
        return Ok(());
    }
    data_turn(numbers, &mut waiting.busy, setup, slice)?;
    Ok(())
}

/// The turns of these workers.
pub fn turn_all(
    numbers: &mut Numbers<'_>,
    waiting: &mut WaitingSlots,
    setup: &ScheduleSetup<'_>,
    workers: &[u32],
) -> Result<(), AllocError>
    requires workers { All (λ worker. worker < 128) workers.now }
    requires listed { AreListed setup.now waiting.old (world_of numbers.old) }
    ensures world { OnOk result (world_of numbers.new
        ≡ epoch.turned_all setup.now.rooms (world_of numbers.old) workers.now) }
    ensures listed { OnOk result (AreListed setup.now waiting.new (world_of numbers.new)) }
{
    for worker in workers {
        turn(numbers, waiting, setup, *worker)?;
    }
    Ok(())
}
