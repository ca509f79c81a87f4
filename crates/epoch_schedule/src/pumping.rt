//! The pump before each line, and the line behind it.
ghost use Rattle.std.specs.Prelude.{◌≡◌, ℕ, OnOk, IfOk, IfSome};
ghost use Rattle.epoch_schedule.specs.World as world;
ghost use Rattle.epoch_schedule.specs.Front as front;
ghost use Rattle.epoch_schedule.specs.Lines.{asked};
ghost use Rattle.epoch_schedule.specs.Listed.{AreListed, AreListedBut, slots_asked};
ghost use Rattle.epoch_schedule.specs.Setups.{bounds_of};
ghost use Rattle.epoch_schedule.specs.Worlds.{world_of};

use crate::front::{line_asked, send_packet};
use crate::homes::{controls_home, datas_home};
use crate::passing::{run_pass, touch};
use crate::setup::ScheduleSetup;
use crate::waiting::{Pass, WaitingSlots};
use crate::world::{Numbers, is_settled};
use crate::{LineAsk, LineOutcome};
use std::alloc::AllocError;

/// Before each line: the control side, then the data side.
pub fn pump(
    numbers: &mut Numbers<'_>,
    waiting: &mut WaitingSlots,
    setup: &ScheduleSetup<'_>,
) -> Result<(), AllocError>
    requires { AreListed setup.now waiting.old (world_of numbers.old) }
    ensures world { OnOk result (world_of numbers.new
        ≡ front.pumped setup.now.rooms (bounds_of setup.now) (world_of numbers.old)) }
    ensures listed { OnOk result (AreListed setup.now waiting.new (world_of numbers.new)) }
{
    controls_home(numbers, waiting, setup)?;
    run_pass(numbers, waiting, setup, Pass::Controls)?;
    datas_home(numbers, waiting, setup)?;
    run_pass(numbers, waiting, setup, Pass::Datas)?;
    run_pass(numbers, waiting, setup, Pass::Queues)
}

/// The slot of a line may wait behind it.
fn touch_asked(
    numbers: &Numbers<'_>,
    waiting: &mut WaitingSlots,
    setup: &ScheduleSetup<'_>,
    ask: LineAsk,
) -> Result<(), AllocError>
    requires { AreListedBut (slots_asked (asked ask)) setup.now waiting.old (world_of numbers.now) }
    ensures { OnOk result (AreListed setup.now waiting.new (world_of numbers.now)) }
{
    match ask {
        LineAsk::Nothing => Ok(()),
        LineAsk::Command(slot) => touch(numbers, waiting, setup, slot as usize),
        LineAsk::Packet(slot) => touch(numbers, waiting, setup, slot as usize),
        LineAsk::Move(slot, _) => touch(numbers, waiting, setup, slot as usize),
    }
}

/// What becomes of any line.
#[inline(never)]
fn any_line(
    numbers: &mut Numbers<'_>,
    waiting: &mut WaitingSlots,
    setup: &ScheduleSetup<'_>,
    ask: LineAsk,
) -> Result<LineOutcome, AllocError>
    requires { AreListed setup.now waiting.old (world_of numbers.old) }
    ensures done { IfOk result (λ outcome. record { world = world_of numbers.new; outcome = outcome }
        ≡ front.line_done setup.now.rooms (bounds_of setup.now) (world_of numbers.old) (asked ask)) }
    ensures listed { OnOk result (AreListed setup.now waiting.new (world_of numbers.new)) }
{
    let outcome = line_asked(numbers, setup, ask)?;
    touch_asked(numbers, waiting, setup, ask)?;
    Ok(outcome)
}

/// The slot of a packet that goes into the lane of its slice at once: its half is there, and no other waits.
fn slot_sent(numbers: &Numbers<'_>, ask: LineAsk) -> Option<usize>
    ensures { IfSome result (λ slot. (rooms : world.Rooms) → (bounds : ℕ → ℕ)
        → front.line_done rooms bounds (world_of numbers.now) (asked ask)
        ≡ front.send_packet rooms (world_of numbers.now) slot) }
{
    match ask {
        LineAsk::Nothing => None,
        LineAsk::Command(_) => None,
        LineAsk::Packet(slot) => {
            if is_settled(numbers, slot as usize) {
                return Some(slot as usize);
            }
            None
        }
        LineAsk::Move(_, _) => None,
    }
}

/// What becomes of a line, behind the pump; its slot may wait then, but for a packet that is sent at once.
pub fn line_done(
    numbers: &mut Numbers<'_>,
    waiting: &mut WaitingSlots,
    setup: &ScheduleSetup<'_>,
    ask: LineAsk,
) -> Result<LineOutcome, AllocError>
    requires { AreListed setup.now waiting.old (world_of numbers.old) }
    ensures done { IfOk result (λ outcome. record { world = world_of numbers.new; outcome = outcome }
        ≡ front.line_done setup.now.rooms (bounds_of setup.now) (world_of numbers.old) (asked ask)) }
    ensures listed { OnOk result (AreListed setup.now waiting.new (world_of numbers.new)) }
{
    match slot_sent(numbers, ask) {
        Some(slot) => {
            let outcome = send_packet(numbers, setup, slot)?;
            Ok(outcome)
        }
        None => any_line(numbers, waiting, setup, ask),
    }
}
