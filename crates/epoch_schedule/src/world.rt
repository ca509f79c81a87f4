//! The numbers of all slots and workers: what is read and changed of one slot.
ghost use Rattle.std.specs.Prelude.{◌≡◌, ◌-◌, ◌==◌, false, OnOk, IfOk, length, nat_lt, [], ◌≤◌, ◌<◌, ◌+◌, ◌^◌};
ghost use Rattle.std.specs.Bool.{OnTrue};
ghost use Rattle.epoch_schedule.specs.Slots.{destination, is_absent};
ghost use Rattle.epoch_schedule.specs.World as world;
ghost use Rattle.epoch_schedule.specs.Front as front;
ghost use Rattle.epoch_schedule.specs.Halves as halves;
ghost use Rattle.epoch_schedule.specs.ControlTurns as turn;
ghost use Rattle.pc_base.specs.declared.packet.Place.TheVariants as place;
ghost use Rattle.epoch_schedule.specs.WorldNumbers.{standing_of};
ghost use Rattle.epoch_schedule.specs.Setups.{bounds_of};
ghost use Rattle.epoch_schedule.specs.Worlds.{world_of};

use crate::grow::reach_slot;
use crate::setup::ScheduleSetup;
use crate::slot::SlotNumbers;
use crate::standing::Standing;
use crate::workers::{ControlNumbers, DataNumbers};
use bumpalo::Bump;
use pc_base::{Place, SliceNo};
use std::alloc::{AllocError, Global};

/// By slot, and by slice.
#[derive(Drop)]
pub struct Numbers<'b> {
    pub alloc: Global,
    pub arena: &'b Bump,
    pub slots: Vec<SlotNumbers<'b>>,
    pub controls: Vec<ControlNumbers>,
    pub datas: Vec<DataNumbers>,
}

/// Where the control half of a slot is.
pub fn control_of(numbers: &Numbers<'_>, slot: usize) -> Standing
    ensures { standing_of result ≡ (world.slot_at (world_of numbers.now) slot).control }
{
    if slot < numbers.slots.len() {
        let one = &numbers.slots[slot];
        one.control()
    } else {
        Standing::Absent
    }
}

/// Where the data half of a slot is.
pub fn data_of(numbers: &Numbers<'_>, slot: usize) -> Standing
    ensures { standing_of result ≡ (world.slot_at (world_of numbers.now) slot).data_half }
{
    if slot < numbers.slots.len() {
        let one = &numbers.slots[slot];
        one.data_half()
    } else {
        Standing::Absent
    }
}

/// Whether the control half of a slot knows of all moves.
pub fn is_told(numbers: &Numbers<'_>, slot: usize) -> bool
    ensures { result ≡ ((world.slot_at (world_of numbers.now) slot).arrived
        == (world.slot_at (world_of numbers.now) slot).hop) }
{
    if slot < numbers.slots.len() {
        let one = &numbers.slots[slot];
        one.is_told()
    } else {
        true
    }
}

/// How many packets of a slot wait at the front.
pub fn queued_of(numbers: &Numbers<'_>, slot: usize) -> usize
    ensures { result ≡ (world.slot_at (world_of numbers.now) slot).queued }
{
    if slot < numbers.slots.len() {
        let one = &numbers.slots[slot];
        one.queued()
    } else {
        0
    }
}

/// Whether the next packet of a slot waits at the front.
pub fn parks_at(numbers: &Numbers<'_>, slot: usize) -> bool
    ensures { result ≡ front.parks (world.slot_at (world_of numbers.now) slot) }
{
    if slot < numbers.slots.len() {
        let one = &numbers.slots[slot];
        one.parks()
    } else {
        false
    }
}

/// Whether the next packet of a slot goes into the lane of its slice at once.
pub fn is_settled(numbers: &Numbers<'_>, slot: usize) -> bool
    ensures made { OnTrue result (is_absent (world.slot_at (world_of numbers.now) slot).control ≡ false) }
    ensures parks { OnTrue result (front.parks (world.slot_at (world_of numbers.now) slot) ≡ false) }
    ensures gone { OnTrue result (front.is_front (world.slot_at (world_of numbers.now) slot).data_half ≡ false) }
{
    if slot < numbers.slots.len() {
        let one = &numbers.slots[slot];
        one.is_settled()
    } else {
        false
    }
}

/// Whether the data half of a slot has nothing to learn.
pub fn has_learnt(numbers: &Numbers<'_>, slot: usize) -> bool
    ensures { OnTrue result (world.on_slot (world_of numbers.now) slot halves.learn ≡ world_of numbers.now) }
{
    if slot < numbers.slots.len() {
        let one = &numbers.slots[slot];
        one.has_learnt()
    } else {
        false
    }
}

/// How many commands of a slot are applied.
pub fn applied_of(slots: &[SlotNumbers<'_>], slot: usize) -> usize
    ensures { result ≡ (world.slot_at (record { slots = slots.now; controls = []; datas = [] }) slot).applied }
{
    if slot < slots.len() {
        let one = &slots[slot];
        one.applied()
    } else {
        0
    }
}

/// Whether a command of a slot may be taken.
pub fn has_room(numbers: &Numbers<'_>, slot: usize, room: usize) -> bool
    ensures { result ≡ nat_lt (length (world.slot_at (world_of numbers.now) slot).commands
        - (world.slot_at (world_of numbers.now) slot).taken) room }
{
    if slot < numbers.slots.len() {
        let one = &numbers.slots[slot];
        one.has_room(room)
    } else {
        0 < room
    }
}

/// Whether the next packet of a slot may be handled.
pub fn may_handle(numbers: &Numbers<'_>, slot: usize) -> bool
    ensures { result ≡ halves.may_handle (world.slot_at (world_of numbers.now) slot) }
{
    if slot < numbers.slots.len() {
        let one = &numbers.slots[slot];
        one.may_handle()
    } else {
        false
    }
}

/// Where a slot is bound for.
pub fn bound_for(numbers: &Numbers<'_>, setup: &ScheduleSetup<'_>, slot: usize) -> usize
    ensures { result ≡ destination (bounds_of setup.now) slot (world.slot_at (world_of numbers.now) slot) }
{
    if slot >= numbers.slots.len() {
        return setup.bound(slot);
    }
    let one = &numbers.slots[slot];
    match one.bound() {
        Some(slice) => slice,
        None => setup.bound(slot),
    }
}

#[inline(always)]
pub fn set_control(
    numbers: &mut Numbers<'_>,
    slot: usize,
    standing: Standing,
) -> Result<(), AllocError>
    ensures { OnOk result (world_of numbers.new ≡ world.on_slot (world_of numbers.old) slot
        (λ one. record one { control = standing_of standing })) }
{
    reach_slot(&mut numbers.slots, numbers.arena, slot)?;
    let one = &mut numbers.slots[slot];
    one.set_control(standing);
    Ok(())
}

pub fn set_data(
    numbers: &mut Numbers<'_>,
    slot: usize,
    standing: Standing,
) -> Result<(), AllocError>
    ensures { OnOk result (world_of numbers.new ≡ world.on_slot (world_of numbers.old) slot
        (λ one. record one { data_half = standing_of standing })) }
{
    reach_slot(&mut numbers.slots, numbers.arena, slot)?;
    let one = &mut numbers.slots[slot];
    one.set_data(standing);
    Ok(())
}

pub fn set_queued(numbers: &mut Numbers<'_>, slot: usize, queued: usize) -> Result<(), AllocError>
    ensures { OnOk result (world_of numbers.new ≡ world.on_slot (world_of numbers.old) slot
        (λ one. record one { queued = queued })) }
{
    reach_slot(&mut numbers.slots, numbers.arena, slot)?;
    let one = &mut numbers.slots[slot];
    one.set_queued(queued);
    Ok(())
}

pub fn tell_moves(numbers: &mut Numbers<'_>, slot: usize) -> Result<(), AllocError>
    ensures { OnOk result (world_of numbers.new ≡ world.on_slot (world_of numbers.old) slot
        (λ one. record one { arrived = one.hop })) }
{
    reach_slot(&mut numbers.slots, numbers.arena, slot)?;
    let one = &mut numbers.slots[slot];
    one.tell_moves();
    Ok(())
}

/// Makes room for the packets of a slot.
pub fn make_room(
    numbers: &mut Numbers<'_>,
    setup: &ScheduleSetup<'_>,
    slot: usize,
) -> Result<(), AllocError>
    ensures { OnOk result (world_of numbers.new ≡ world_of numbers.old) }
{
    if slot < numbers.slots.len() {
        let one = &mut numbers.slots[slot];
        one.make_room(setup.packets(slot))
    } else {
        Ok(())
    }
}

pub fn add_command(numbers: &mut Numbers<'_>, slot: usize) -> Result<(), AllocError>
    ensures { OnOk result (world_of numbers.new ≡ world.on_slot (world_of numbers.old) slot front.with_command) }
{
    reach_slot(&mut numbers.slots, numbers.arena, slot)?;
    let one = &mut numbers.slots[slot];
    one.add_command()?;
    Ok(())
}

#[inline(always)]
pub fn add_packet(numbers: &mut Numbers<'_>, slot: usize) -> Result<(), AllocError>
    ensures { OnOk result (world_of numbers.new ≡ world.on_slot (world_of numbers.old) slot front.with_packet) }
{
    reach_slot(&mut numbers.slots, numbers.arena, slot)?;
    let one = &mut numbers.slots[slot];
    one.add_packet()?;
    Ok(())
}

/// A packet waits at the front.
pub fn park(numbers: &mut Numbers<'_>, slot: usize) -> Result<(), AllocError>
    requires { (world.slot_at (world_of numbers.old) slot).queued < 2 ^ 32 }
    ensures { OnOk result (world_of numbers.new ≡ world.on_slot (world_of numbers.old) slot
        (λ one. record (front.with_packet one) { queued = one.queued + 1 })) }
{
    reach_slot(&mut numbers.slots, numbers.arena, slot)?;
    let one = &mut numbers.slots[slot];
    one.park()
}

pub fn move_on(numbers: &mut Numbers<'_>, slot: usize, slice: u8) -> Result<(), AllocError>
    ensures { OnOk result (world_of numbers.new ≡ world.on_slot (world_of numbers.old) slot (front.moved slice)) }
{
    reach_slot(&mut numbers.slots, numbers.arena, slot)?;
    let one = &mut numbers.slots[slot];
    one.go(slice)?;
    Ok(())
}

pub fn call_control(numbers: &mut Numbers<'_>, slot: usize) -> Result<(), AllocError>
    ensures { OnOk result (world_of numbers.new ≡ world.on_slot (world_of numbers.old) slot
        (λ one. record one { control = front.control_called one.control (length one.commands) })) }
{
    reach_slot(&mut numbers.slots, numbers.arena, slot)?;
    let one = &mut numbers.slots[slot];
    one.call_control();
    Ok(())
}

pub fn call_data(numbers: &mut Numbers<'_>, slot: usize) -> Result<(), AllocError>
    ensures { OnOk result (world_of numbers.new ≡ world.on_slot (world_of numbers.old) slot
        (λ one. record one { data_half = front.control_called one.data_half 0 })) }
{
    reach_slot(&mut numbers.slots, numbers.arena, slot)?;
    let one = &mut numbers.slots[slot];
    one.call_data();
    Ok(())
}

/// The control half of a slot has a turn. Whether that works.
pub fn turn_half(
    numbers: &mut Numbers<'_>,
    setup: &ScheduleSetup<'_>,
    slot: usize,
) -> Result<bool, AllocError>
    ensures world { OnOk result (world_of numbers.new ≡ turn.half_turned setup.now.rooms (world_of numbers.old) slot) }
    ensures worked { IfOk result (λ worked. worked ≡ turn.has_worked setup.now.rooms (world_of numbers.old) slot) }
{
    let room = setup.room();
    reach_slot(&mut numbers.slots, numbers.arena, slot)?;
    let one = &mut numbers.slots[slot];
    one.control_work(room)
}

/// The data half of a slot learns what it may.
#[inline(never)]
pub fn learn(numbers: &mut Numbers<'_>, slot: usize) -> Result<(), AllocError>
    ensures { OnOk result (world_of numbers.new ≡ world.on_slot (world_of numbers.old) slot halves.learn) }
{
    reach_slot(&mut numbers.slots, numbers.arena, slot)?;
    let one = &mut numbers.slots[slot];
    one.learn();
    Ok(())
}

/// The next packet of a slot is handled on a slice.
pub fn handle(numbers: &mut Numbers<'_>, slot: usize, slice: usize) -> Result<(), AllocError>
    requires { slice ≤ 63 }
    ensures { OnOk result (world_of numbers.new ≡ world.on_slot (world_of numbers.old) slot
        (halves.handle (place.At slice))) }
{
    reach_slot(&mut numbers.slots, numbers.arena, slot)?;
    let one = &mut numbers.slots[slot];
    one.handle(Place::At(SliceNo(slice as u8)))?;
    Ok(())
}
