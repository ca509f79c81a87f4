//! Lists that grow with the numbers that are used.
ghost use Rattle.std.specs.Prelude.{◌≤◌, OnOk, length};
ghost use Rattle.epoch_schedule.specs.Slots.{fresh_slot};
ghost use Rattle.epoch_schedule.specs.World.{fresh_control, fresh_data};
ghost use Rattle.epoch_schedule.specs.Growing.{Reached};

use crate::slot::SlotNumbers;
use crate::workers::{ControlNumbers, DataNumbers};
use bumpalo::Bump;
use std::alloc::{AllocError, Global};

/// Makes the list long enough for this slot.
pub fn reach_slot<'b>(
    slots: &mut Vec<SlotNumbers<'b>>,
    arena: &'b Bump,
    slot: usize,
) -> Result<(), AllocError>
    ensures { OnOk result (Reached fresh_slot slots.old.items slots.new.items slot) }
{
    if slot < slots.len() {
        return Ok(());
    }
    grow_slot(slots, arena, slot)
}

// Those before the slot are made in place, since there are many with many subscribers.
#[inline(never)]
fn grow_slot<'b>(
    slots: &mut Vec<SlotNumbers<'b>>,
    arena: &'b Bump,
    slot: usize,
) -> Result<(), AllocError>
    requires { length slots.old.items ≤ slot }
    ensures { OnOk result (Reached fresh_slot slots.old.items slots.new.items slot) }
{
    slots.resize_with(slot, || SlotNumbers::new(arena))?;
    slots.push(SlotNumbers::new(arena))?;
    Ok(())
}

/// Makes the list long enough for this slice.
pub fn reach_control(
    controls: &mut Vec<ControlNumbers>,
    alloc: Global,
    slice: usize,
) -> Result<(), AllocError>
    ensures { OnOk result (Reached fresh_control controls.old.items controls.new.items slice) }
{
    if slice < controls.len() {
        return Ok(());
    }
    grow_control(controls, alloc, slice)
}

#[inline(never)]
fn grow_control(
    controls: &mut Vec<ControlNumbers>,
    alloc: Global,
    slice: usize,
) -> Result<(), AllocError>
    ensures { OnOk result (Reached fresh_control controls.old.items controls.new.items slice) }
{
    while controls.len() <= slice {
        controls.push(ControlNumbers::new(alloc))?;
    }
    Ok(())
}

/// Makes the list long enough for this slice.
pub fn reach_data(
    datas: &mut Vec<DataNumbers>,
    alloc: Global,
    slice: usize,
) -> Result<(), AllocError>
    ensures { OnOk result (Reached fresh_data datas.old.items datas.new.items slice) }
{
    if slice < datas.len() {
        return Ok(());
    }
    grow_data(datas, alloc, slice)
}

#[inline(never)]
fn grow_data(datas: &mut Vec<DataNumbers>, alloc: Global, slice: usize) -> Result<(), AllocError>
    ensures { OnOk result (Reached fresh_data datas.old.items datas.new.items slice) }
{
    while datas.len() <= slice {
        datas.push(DataNumbers::new(alloc))?;
    }
    Ok(())
}
