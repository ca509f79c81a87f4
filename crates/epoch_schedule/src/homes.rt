//! Halves that were sent home come back to the front.
ghost use Rattle.std.specs.Prelude.{◌≡◌, OnOk};
ghost use Rattle.epoch_schedule.specs.Front as front;
ghost use Rattle.epoch_schedule.specs.WorldNumbers.{standing_of};
ghost use Rattle.epoch_schedule.specs.Listed.{AreListed};
ghost use Rattle.epoch_schedule.specs.Worlds.{world_of};

use crate::passing::touch;
use crate::setup::ScheduleSetup;
use crate::sides::{
    are_control_homes_empty, are_data_homes_empty, clear_control_home, clear_data_home,
    control_sent, data_sent, is_control_home_empty, is_data_home_empty,
};
use crate::standing::Standing;
use crate::waiting::WaitingSlots;
use crate::world::{Numbers, control_of, data_of, set_control, set_data};
use std::alloc::AllocError;

/// Where a half is that was sent home, if it was.
fn back(standing: Standing) -> Standing
    ensures { standing_of result ≡ front.back (standing_of standing) }
{
    match standing {
        Standing::Absent => Standing::Absent,
        Standing::Front => Standing::Front,
        Standing::Placed(slice) => Standing::Placed(slice),
        Standing::Recalled(slice, until) => Standing::Recalled(slice, until),
        Standing::Leaving => Standing::Front,
    }
}

fn control_back(numbers: &mut Numbers<'_>, slot: usize) -> Result<(), AllocError>
    ensures { OnOk result (world_of numbers.new ≡ front.control_back (world_of numbers.old) slot) }
{
    let standing = back(control_of(numbers, slot));
    set_control(numbers, slot, standing)
}

/// The control half of a slot is home: it may owe an order.
fn control_at_home(
    numbers: &mut Numbers<'_>,
    waiting: &mut WaitingSlots,
    setup: &ScheduleSetup<'_>,
    slot: usize,
) -> Result<(), AllocError>
    requires { AreListed setup.now waiting.old (world_of numbers.old) }
    ensures world { OnOk result (world_of numbers.new ≡ front.control_back (world_of numbers.old) slot) }
    ensures listed { OnOk result (AreListed setup.now waiting.new (world_of numbers.new)) }
{
    control_back(numbers, slot)?;
    touch(numbers, waiting, setup, slot)
}

fn data_back(numbers: &mut Numbers<'_>, slot: usize) -> Result<(), AllocError>
    ensures { OnOk result (world_of numbers.new ≡ front.data_back (world_of numbers.old) slot) }
{
    let standing = back(data_of(numbers, slot));
    set_data(numbers, slot, standing)
}

/// The data half of a slot is home: it may owe an order.
fn data_at_home(
    numbers: &mut Numbers<'_>,
    waiting: &mut WaitingSlots,
    setup: &ScheduleSetup<'_>,
    slot: usize,
) -> Result<(), AllocError>
    requires { AreListed setup.now waiting.old (world_of numbers.old) }
    ensures world { OnOk result (world_of numbers.new ≡ front.data_back (world_of numbers.old) slot) }
    ensures listed { OnOk result (AreListed setup.now waiting.new (world_of numbers.new)) }
{
    data_back(numbers, slot)?;
    touch(numbers, waiting, setup, slot)
}

/// Takes the control halves home that a slice sent, where any stands there.
#[inline(never)]
fn take_control_home(
    numbers: &mut Numbers<'_>,
    waiting: &mut WaitingSlots,
    setup: &ScheduleSetup<'_>,
    slice: usize,
) -> Result<(), AllocError>
    requires { AreListed setup.now waiting.old (world_of numbers.old) }
    ensures world { OnOk result (world_of numbers.new ≡ front.control_home (world_of numbers.old) slice) }
    ensures listed { OnOk result (AreListed setup.now waiting.new (world_of numbers.new)) }
{
    let count = control_sent(numbers, slice).len();
    for place in 0..count {
        let home = control_sent(numbers, slice);
        let slot = home[place];
        control_at_home(numbers, waiting, setup, slot)?;
    }
    clear_control_home(numbers, slice)
}

/// Takes the control halves home that a slice sent.
fn control_home(
    numbers: &mut Numbers<'_>,
    waiting: &mut WaitingSlots,
    setup: &ScheduleSetup<'_>,
    slice: usize,
) -> Result<(), AllocError>
    requires { AreListed setup.now waiting.old (world_of numbers.old) }
    ensures world { OnOk result (world_of numbers.new ≡ front.control_home (world_of numbers.old) slice) }
    ensures listed { OnOk result (AreListed setup.now waiting.new (world_of numbers.new)) }
{
    if is_control_home_empty(numbers, slice) {
        return Ok(());
    }
    take_control_home(numbers, waiting, setup, slice)
}

/// Takes the data halves home that a slice sent, where any stands there.
#[inline(never)]
fn take_data_home(
    numbers: &mut Numbers<'_>,
    waiting: &mut WaitingSlots,
    setup: &ScheduleSetup<'_>,
    slice: usize,
) -> Result<(), AllocError>
    requires { AreListed setup.now waiting.old (world_of numbers.old) }
    ensures world { OnOk result (world_of numbers.new ≡ front.data_home (world_of numbers.old) slice) }
    ensures listed { OnOk result (AreListed setup.now waiting.new (world_of numbers.new)) }
{
    let count = data_sent(numbers, slice).len();
    for place in 0..count {
        let home = data_sent(numbers, slice);
        let slot = home[place];
        data_at_home(numbers, waiting, setup, slot)?;
    }
    clear_data_home(numbers, slice)
}

/// Takes the data halves home that a slice sent.
fn data_home(
    numbers: &mut Numbers<'_>,
    waiting: &mut WaitingSlots,
    setup: &ScheduleSetup<'_>,
    slice: usize,
) -> Result<(), AllocError>
    requires { AreListed setup.now waiting.old (world_of numbers.old) }
    ensures world { OnOk result (world_of numbers.new ≡ front.data_home (world_of numbers.old) slice) }
    ensures listed { OnOk result (AreListed setup.now waiting.new (world_of numbers.new)) }
{
    if is_data_home_empty(numbers, slice) {
        return Ok(());
    }
    take_data_home(numbers, waiting, setup, slice)
}

/// Takes the control halves home that any slice sent.
pub fn controls_home(
    numbers: &mut Numbers<'_>,
    waiting: &mut WaitingSlots,
    setup: &ScheduleSetup<'_>,
) -> Result<(), AllocError>
    requires { AreListed setup.now waiting.old (world_of numbers.old) }
    ensures world { OnOk result (world_of numbers.new ≡ front.controls_home (world_of numbers.old)) }
    ensures listed { OnOk result (AreListed setup.now waiting.new (world_of numbers.new)) }
{
    if are_control_homes_empty(numbers.controls.as_slice()) {
        return Ok(());
    }
    for slice in 0..numbers.controls.len() {
        control_home(numbers, waiting, setup, slice)?;
    }
    Ok(())
}

/// Takes the data halves home that any slice sent.
pub fn datas_home(
    numbers: &mut Numbers<'_>,
    waiting: &mut WaitingSlots,
    setup: &ScheduleSetup<'_>,
) -> Result<(), AllocError>
    requires { AreListed setup.now waiting.old (world_of numbers.old) }
    ensures world { OnOk result (world_of numbers.new ≡ front.datas_home (world_of numbers.old)) }
    ensures listed { OnOk result (AreListed setup.now waiting.new (world_of numbers.new)) }
{
    if are_data_homes_empty(numbers.datas.as_slice()) {
        return Ok(());
    }
    for slice in 0..numbers.datas.len() {
        data_home(numbers, waiting, setup, slice)?;
    }
    Ok(())
}
