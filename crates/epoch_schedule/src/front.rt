//! What the front does: it takes halves home, offers orders, and accepts or refuses.
ghost use Rattle.std.specs.Prelude.{◌≡◌, ℕ, ◌-◌, OnOk, IfOk, length, min};
ghost use Rattle.std.specs.Bool.{OnFalse};
ghost use Rattle.epoch_schedule.specs.World as world;
ghost use Rattle.epoch_schedule.specs.Slots as slots;
ghost use Rattle.epoch_schedule.specs.Front as front;
ghost use Rattle.epoch_schedule.specs.Lines.{asked};
ghost use Rattle.epoch_schedule.specs.WorldNumbers.{standing_of, control_order, data_order};
ghost use Rattle.epoch_schedule.specs.Setups.{bounds_of};
ghost use Rattle.epoch_schedule.specs.Worlds.{world_of};

use crate::setup::ScheduleSetup;
use crate::sides::{lane_of, order_control, order_data, order_items, orders_of};
use crate::slot::{is_absent, is_front};
use crate::standing::{ControlOrder, OrderNumbers, Standing};
use crate::world::{
    Numbers, add_command, add_packet, bound_for, call_control, call_data, control_of, data_of,
    has_room, is_settled, make_room, move_on, park, parks_at, queued_of, set_control, set_data,
    set_queued, tell_moves,
};
use crate::{LineAsk, LineOutcome};
use std::alloc::AllocError;

/// Offers an order to a control worker.
#[inline(always)]
fn control_ordered(
    numbers: &mut Numbers<'_>,
    slice: usize,
    slot: usize,
    order: ControlOrder,
    standing: Standing,
) -> Result<(), AllocError>
    ensures { OnOk result (world_of numbers.new
        ≡ front.control_ordered (world_of numbers.old) slice slot (control_order order) (standing_of standing)) }
{
    if orders_of(numbers, slice) < 64 {
        order_control(numbers, slice, order)?;
        return set_control(numbers, slot, standing);
    }
    Ok(())
}

/// Offers the control half of a slot, which is at the front, to the slice that it is bound for.
#[inline(always)]
fn offer_control_front(
    numbers: &mut Numbers<'_>,
    setup: &ScheduleSetup<'_>,
    slot: usize,
) -> Result<(), AllocError>
    ensures { OnOk result (world_of numbers.new
        ≡ front.control_offer_at (bounds_of setup.now) (world_of numbers.old) slot slots.front) }
{
    let slice = bound_for(numbers, setup, slot);
    tell_moves(numbers, slot)?;
    control_ordered(
        numbers,
        slice,
        slot,
        ControlOrder::Come(slot),
        Standing::Placed(slice),
    )
}

/// Offers what the control half of a slot owes, where it may owe an order.
#[inline(never)]
fn offer_control(
    numbers: &mut Numbers<'_>,
    setup: &ScheduleSetup<'_>,
    slot: usize,
) -> Result<(), AllocError>
    ensures { OnOk result (world_of numbers.new
        ≡ front.control_offer (bounds_of setup.now) (world_of numbers.old) slot) }
{
    match control_of(numbers, slot) {
        Standing::Absent => Ok(()),
        Standing::Front => offer_control_front(numbers, setup, slot),
        Standing::Placed(_) => Ok(()),
        Standing::Recalled(slice, until) => {
            control_ordered(
                numbers,
                slice,
                slot,
                ControlOrder::Go(slot, until),
                Standing::Leaving,
            )
        }
        Standing::Leaving => Ok(()),
    }
}

/// Whether the control half of a slot may owe an order.
fn owes_control(numbers: &Numbers<'_>, slot: usize) -> bool
    ensures { OnFalse result ((bounds : ℕ → ℕ)
        → front.control_offer bounds (world_of numbers.now) slot ≡ world_of numbers.now) }
{
    match control_of(numbers, slot) {
        Standing::Absent => false,
        Standing::Front => true,
        Standing::Placed(_) => false,
        Standing::Recalled(_, _) => true,
        Standing::Leaving => false,
    }
}

/// Offers what the control half of a slot owes: mostly it owes nothing.
#[inline(always)]
pub fn control_offer(
    numbers: &mut Numbers<'_>,
    setup: &ScheduleSetup<'_>,
    slot: usize,
) -> Result<(), AllocError>
    ensures { OnOk result (world_of numbers.new
        ≡ front.control_offer (bounds_of setup.now) (world_of numbers.old) slot) }
{
    if owes_control(numbers, slot) {
        return offer_control(numbers, setup, slot);
    }
    Ok(())
}

/// Offers an order to a slice's lane.
fn data_ordered(
    numbers: &mut Numbers<'_>,
    setup: &ScheduleSetup<'_>,
    slice: usize,
    slot: usize,
    order: OrderNumbers,
    standing: Standing,
) -> Result<(), AllocError>
    ensures { OnOk result (world_of numbers.new ≡ front.data_ordered setup.now.rooms (world_of numbers.old) slice slot
        (data_order order) (standing_of standing)) }
{
    if lane_of(numbers, slice) < setup.lane() {
        order_data(numbers, slice, order)?;
        return set_data(numbers, slot, standing);
    }
    Ok(())
}

/// Offers the data half of a slot, which is at the front, to the slice that it is bound for.
#[inline(always)]
fn offer_data_front(
    numbers: &mut Numbers<'_>,
    setup: &ScheduleSetup<'_>,
    slot: usize,
) -> Result<(), AllocError>
    ensures { OnOk result (world_of numbers.new
        ≡ front.data_offer_at setup.now.rooms (bounds_of setup.now) (world_of numbers.old) slot slots.front) }
{
    let slice = bound_for(numbers, setup, slot);
    data_ordered(
        numbers,
        setup,
        slice,
        slot,
        OrderNumbers::Arrive(slot),
        Standing::Placed(slice),
    )
}

/// Offers what the data half of a slot owes, where it may owe an order.
#[inline(never)]
fn offer_data(
    numbers: &mut Numbers<'_>,
    setup: &ScheduleSetup<'_>,
    slot: usize,
) -> Result<(), AllocError>
    ensures { OnOk result (world_of numbers.new
        ≡ front.data_offer setup.now.rooms (bounds_of setup.now) (world_of numbers.old) slot) }
{
    match data_of(numbers, slot) {
        Standing::Absent => Ok(()),
        Standing::Front => offer_data_front(numbers, setup, slot),
        Standing::Placed(_) => Ok(()),
        Standing::Recalled(slice, _) => {
            data_ordered(
                numbers,
                setup,
                slice,
                slot,
                OrderNumbers::Leave(slot),
                Standing::Leaving,
            )
        }
        Standing::Leaving => Ok(()),
    }
}

/// Whether the data half of a slot may owe an order.
fn owes_data(numbers: &Numbers<'_>, slot: usize) -> bool
    ensures { OnFalse result ((rooms : world.Rooms) → (bounds : ℕ → ℕ)
        → front.data_offer rooms bounds (world_of numbers.now) slot ≡ world_of numbers.now) }
{
    match data_of(numbers, slot) {
        Standing::Absent => false,
        Standing::Front => true,
        Standing::Placed(_) => false,
        Standing::Recalled(_, _) => true,
        Standing::Leaving => false,
    }
}

/// Offers what the data half of a slot owes: mostly it owes nothing.
#[inline(always)]
pub fn data_offer(
    numbers: &mut Numbers<'_>,
    setup: &ScheduleSetup<'_>,
    slot: usize,
) -> Result<(), AllocError>
    ensures { OnOk result (world_of numbers.new
        ≡ front.data_offer setup.now.rooms (bounds_of setup.now) (world_of numbers.old) slot) }
{
    if owes_data(numbers, slot) {
        return offer_data(numbers, setup, slot);
    }
    Ok(())
}

/// Packets that wait go into the lane of this slice, as many as there is room for.
fn drain_on(
    numbers: &mut Numbers<'_>,
    setup: &ScheduleSetup<'_>,
    slot: usize,
    slice: usize,
) -> Result<(), AllocError>
    ensures { OnOk result (world_of numbers.new ≡ front.drained setup.now.rooms (world_of numbers.old) slice slot
        (min (world.slot_at (world_of numbers.old) slot).queued
        (setup.now.rooms.lane - length (world.data_at (world_of numbers.old) slice).orders))) }
{
    let queued = queued_of(numbers, slot);
    let room = setup.lane().saturating_sub(lane_of(numbers, slice));
    let count = if queued < room { queued } else { room };
    order_items(numbers, slice, slot, count)?;
    set_queued(numbers, slot, queued - count)
}

#[inline(never)]
pub fn drain(
    numbers: &mut Numbers<'_>,
    setup: &ScheduleSetup<'_>,
    slot: usize,
) -> Result<(), AllocError>
    ensures { OnOk result (world_of numbers.new ≡ front.drain setup.now.rooms (world_of numbers.old) slot) }
{
    match data_of(numbers, slot) {
        Standing::Absent => Ok(()),
        Standing::Front => Ok(()),
        Standing::Placed(slice) => drain_on(numbers, setup, slot, slice),
        Standing::Recalled(_, _) => Ok(()),
        Standing::Leaving => Ok(()),
    }
}

/// Makes the halves of a slot.
fn make(numbers: &mut Numbers<'_>, setup: &ScheduleSetup<'_>, slot: usize) -> Result<(), AllocError>
    ensures { OnOk result (world_of numbers.new
        ≡ front.made setup.now.rooms (bounds_of setup.now) (world_of numbers.old) slot) }
{
    set_control(numbers, slot, Standing::Front)?;
    offer_control_front(numbers, setup, slot)?;
    set_data(numbers, slot, Standing::Front)?;
    make_room(numbers, setup, slot)?;
    offer_data_front(numbers, setup, slot)
}

fn is_placed(standing: Standing) -> bool
    ensures { result ≡ slots.is_placed (standing_of standing) }
{
    matches!(standing, Standing::Placed(_))
}

/// A slot's first command or packet makes its halves.
fn admit(
    numbers: &mut Numbers<'_>,
    setup: &ScheduleSetup<'_>,
    slot: usize,
) -> Result<(), AllocError>
    ensures { OnOk result (world_of numbers.new
        ≡ front.admitted setup.now.rooms (bounds_of setup.now) (world_of numbers.old) slot) }
{
    if is_absent(control_of(numbers, slot)) {
        return make(numbers, setup, slot);
    }
    Ok(())
}

/// What becomes of a line that is taken.
const TAKEN: LineOutcome = LineOutcome {
    taken: true,
    parked: false,
};

/// What becomes of a packet that is parked.
const PARKED: LineOutcome = LineOutcome {
    taken: true,
    parked: true,
};

/// What becomes of a line that is refused.
const REFUSED: LineOutcome = LineOutcome {
    taken: false,
    parked: false,
};

fn offer_command(
    numbers: &mut Numbers<'_>,
    setup: &ScheduleSetup<'_>,
    slot: usize,
) -> Result<LineOutcome, AllocError>
    ensures { IfOk result (λ outcome. record { world = world_of numbers.new; outcome = outcome }
        ≡ front.offer_command setup.now.rooms (world_of numbers.old) slot) }
{
    if has_room(numbers, slot, setup.room()) {
        add_command(numbers, slot)?;
        Ok(TAKEN)
    } else {
        Ok(REFUSED)
    }
}

fn park_packet(
    numbers: &mut Numbers<'_>,
    setup: &ScheduleSetup<'_>,
    slot: usize,
) -> Result<LineOutcome, AllocError>
    ensures { IfOk result (λ outcome. record { world = world_of numbers.new; outcome = outcome }
        ≡ front.park_packet setup.now.rooms (world_of numbers.old) slot) }
{
    if queued_of(numbers, slot) < setup.room() {
        park(numbers, slot)?;
        Ok(PARKED)
    } else {
        Ok(REFUSED)
    }
}

/// A packet goes into the lane of this slice.
#[inline(always)]
fn send_on(
    numbers: &mut Numbers<'_>,
    setup: &ScheduleSetup<'_>,
    slot: usize,
    slice: usize,
) -> Result<LineOutcome, AllocError>
    ensures { IfOk result (λ outcome. record { world = world_of numbers.new; outcome = outcome }
        ≡ front.send_packet_at setup.now.rooms (world_of numbers.old) slot (slots.placed slice)) }
{
    if lane_of(numbers, slice) < setup.lane() {
        order_data(numbers, slice, OrderNumbers::Item(slot))?;
        add_packet(numbers, slot)?;
        Ok(TAKEN)
    } else {
        Ok(REFUSED)
    }
}

#[inline(always)]
pub fn send_packet(
    numbers: &mut Numbers<'_>,
    setup: &ScheduleSetup<'_>,
    slot: usize,
) -> Result<LineOutcome, AllocError>
    ensures { IfOk result (λ outcome. record { world = world_of numbers.new; outcome = outcome }
        ≡ front.send_packet setup.now.rooms (world_of numbers.old) slot) }
{
    match data_of(numbers, slot) {
        Standing::Absent => Ok(REFUSED),
        Standing::Front => Ok(REFUSED),
        Standing::Placed(slice) => send_on(numbers, setup, slot, slice),
        Standing::Recalled(_, _) => Ok(REFUSED),
        Standing::Leaving => Ok(REFUSED),
    }
}

/// A half that is still at the front is offered once more.
fn arrive_first(
    numbers: &mut Numbers<'_>,
    setup: &ScheduleSetup<'_>,
    slot: usize,
) -> Result<(), AllocError>
    ensures { OnOk result (world_of numbers.new
        ≡ front.arrived_first setup.now.rooms (bounds_of setup.now) (world_of numbers.old) slot) }
{
    if is_front(data_of(numbers, slot)) {
        return data_offer(numbers, setup, slot);
    }
    Ok(())
}

fn offer_packet(
    numbers: &mut Numbers<'_>,
    setup: &ScheduleSetup<'_>,
    slot: usize,
) -> Result<LineOutcome, AllocError>
    ensures { IfOk result (λ outcome. record { world = world_of numbers.new; outcome = outcome }
        ≡ front.offer_packet setup.now.rooms (bounds_of setup.now) (world_of numbers.old) slot) }
{
    if parks_at(numbers, slot) {
        park_packet(numbers, setup, slot)
    } else {
        arrive_first(numbers, setup, slot)?;
        send_packet(numbers, setup, slot)
    }
}

fn recall_control(
    numbers: &mut Numbers<'_>,
    setup: &ScheduleSetup<'_>,
    slot: usize,
) -> Result<(), AllocError>
    ensures { OnOk result (world_of numbers.new
        ≡ front.control_recalled (bounds_of setup.now) (world_of numbers.old) slot) }
{
    if is_placed(control_of(numbers, slot)) {
        call_control(numbers, slot)?;
        return control_offer(numbers, setup, slot);
    }
    Ok(())
}

fn recall_data(
    numbers: &mut Numbers<'_>,
    setup: &ScheduleSetup<'_>,
    slot: usize,
) -> Result<(), AllocError>
    ensures { OnOk result (world_of numbers.new
        ≡ front.data_recalled setup.now.rooms (bounds_of setup.now) (world_of numbers.old) slot) }
{
    if is_placed(data_of(numbers, slot)) {
        call_data(numbers, slot)?;
        return data_offer(numbers, setup, slot);
    }
    Ok(())
}

fn move_slot(
    numbers: &mut Numbers<'_>,
    setup: &ScheduleSetup<'_>,
    slot: usize,
    slice: u8,
) -> Result<(), AllocError>
    ensures { OnOk result (world_of numbers.new
        ≡ front.move_slot setup.now.rooms (bounds_of setup.now) (world_of numbers.old) slot slice) }
{
    move_on(numbers, slot, slice)?;
    recall_control(numbers, setup, slot)?;
    recall_data(numbers, setup, slot)
}

/// What becomes of a line, behind the pump.
pub fn line_asked(
    numbers: &mut Numbers<'_>,
    setup: &ScheduleSetup<'_>,
    ask: LineAsk,
) -> Result<LineOutcome, AllocError>
    ensures { IfOk result (λ outcome. record { world = world_of numbers.new; outcome = outcome }
        ≡ front.line_done setup.now.rooms (bounds_of setup.now) (world_of numbers.old) (asked ask)) }
{
    match ask {
        LineAsk::Nothing => Ok(TAKEN),
        LineAsk::Command(slot) => {
            admit(numbers, setup, slot as usize)?;
            offer_command(numbers, setup, slot as usize)
        }
        LineAsk::Packet(slot) => {
            admit(numbers, setup, slot as usize)?;
            offer_packet(numbers, setup, slot as usize)
        }
        LineAsk::Move(slot, slice) => {
            move_slot(numbers, setup, slot as usize, slice)?;
            Ok(TAKEN)
        }
    }
}
