//! The passes of the pump over the slots, in their order: only those are visited that a pass may change.
ghost use Rattle.std.specs.Prelude.{◌≡◌, ℕ, ◌∷◌, ◌≤◌, true, [], OnOk, IfSome};
ghost use Rattle.std.specs.Bool.{OnFalse};
ghost use Rattle.epoch_schedule.specs.World.{slot_at};
ghost use Rattle.epoch_schedule.specs.Listed.{AreListed, AreListedBut};
ghost use Rattle.epoch_schedule.specs.Setups.{bounds_of};
ghost use Rattle.epoch_schedule.specs.Waiting.{IsBelow, IsFull, NoneBefore, calls_of, is_in, passed_by};
ghost use Rattle.epoch_schedule.specs.Waiting.{slot_of, step_by};
ghost use Rattle.epoch_schedule.specs.Waiting as waiting;
ghost use Rattle.epoch_schedule.specs.declared.waiting.Pass.TheVariants as pass;
ghost use Rattle.epoch_schedule.specs.Worlds.{world_of};

use crate::busy::wake;
use crate::front::{control_offer, data_offer, drain};
use crate::setup::ScheduleSetup;
use crate::sides::{lane_of, orders_of};
use crate::standing::Standing;
use crate::waiting::{Pass, PassWaits, SlotSet, WaitingSlots, Want};
use crate::world::{Numbers, bound_for, control_of, data_of, is_told, queued_of};
use std::alloc::AllocError;

/// What a control half wants: one at the front is told of its moves with each offer.
#[inline(always)]
fn control_wants(numbers: &Numbers<'_>, setup: &ScheduleSetup<'_>, slot: usize) -> Want
    ensures { result ≡ waiting.wanted pass.Controls (bounds_of setup.now) slot
        (calls_of (slot_at (world_of numbers.now) slot)) }
{
    match control_of(numbers, slot) {
        Standing::Absent => Want::Nothing,
        Standing::Front => {
            if is_told(numbers, slot) {
                Want::Room(bound_for(numbers, setup, slot))
            } else {
                Want::Visit
            }
        }
        Standing::Placed(_) => Want::Nothing,
        Standing::Recalled(slice, _) => Want::Room(slice),
        Standing::Leaving => Want::Nothing,
    }
}

#[inline(always)]
fn data_wants(numbers: &Numbers<'_>, setup: &ScheduleSetup<'_>, slot: usize) -> Want
    ensures { result ≡ waiting.wanted pass.Datas (bounds_of setup.now) slot
        (calls_of (slot_at (world_of numbers.now) slot)) }
{
    match data_of(numbers, slot) {
        Standing::Absent => Want::Nothing,
        Standing::Front => Want::Room(bound_for(numbers, setup, slot)),
        Standing::Placed(_) => Want::Nothing,
        Standing::Recalled(slice, _) => Want::Room(slice),
        Standing::Leaving => Want::Nothing,
    }
}

#[inline(always)]
fn queue_wants(numbers: &Numbers<'_>, setup: &ScheduleSetup<'_>, slot: usize) -> Want
    ensures { result ≡ waiting.wanted pass.Queues (bounds_of setup.now) slot
        (calls_of (slot_at (world_of numbers.now) slot)) }
{
    match data_of(numbers, slot) {
        Standing::Absent => Want::Nothing,
        Standing::Front => Want::Nothing,
        Standing::Placed(slice) => {
            if queued_of(numbers, slot) > 0 {
                Want::Room(slice)
            } else {
                Want::Nothing
            }
        }
        Standing::Recalled(_, _) => Want::Nothing,
        Standing::Leaving => Want::Nothing,
    }
}

/// Whether a lane has room.
fn is_open(numbers: &Numbers<'_>, setup: &ScheduleSetup<'_>, pass: Pass, lane: usize) -> bool
    ensures { OnFalse result (IsFull pass setup.now.rooms (world_of numbers.now) lane) }
{
    match pass {
        Pass::Controls => orders_of(numbers, lane) < 64,
        Pass::Datas => lane_of(numbers, lane) < setup.lane(),
        Pass::Queues => lane_of(numbers, lane) < setup.lane(),
    }
}

/// The next slot that a pass visits, and what it wants.
#[derive(Clone, Copy)]
pub struct NextVisit {
    pub slot: usize,
    pub want: Want,
}

/// The lower one of the next slot so far and the first one of a set from a slot on.
fn lower(next: Option<NextVisit>, set: &SlotSet, from: usize, want: Want) -> Option<NextVisit>
    ensures from { IfSome next (λ own. from ≤ own.slot) → IfSome result (λ own. from ≤ own.slot) }
    ensures less { (t : ℕ) → IsBelow t (slot_of result) → IsBelow t (slot_of next)
        × (from ≤ t → is_in set.now t ≡ true → ⊥) }
{
    match set.first_from(from) {
        None => next,
        Some(slot) => match next {
            None => Some(NextVisit { slot, want }),
            Some(other) => {
                if other.slot <= slot {
                    Some(other)
                } else {
                    Some(NextVisit { slot, want })
                }
            }
        },
    }
}

/// Whether slots stand in a lane that has room.
fn is_due(
    numbers: &Numbers<'_>,
    setup: &ScheduleSetup<'_>,
    pass: Pass,
    lane: usize,
    set: &SlotSet,
) -> bool
    ensures { OnFalse result ((t : ℕ) → is_in set.now t ≡ true
        → IsFull pass setup.now.rooms (world_of numbers.now) lane) }
{
    !set.is_empty() && is_open(numbers, setup, pass, lane)
}

/// The lower one of the next slot so far and the first one from a slot on that stands in a lane, if that has room.
fn lower_in(
    numbers: &Numbers<'_>,
    setup: &ScheduleSetup<'_>,
    pass: Pass,
    lane: usize,
    set: &SlotSet,
    from: usize,
    next: Option<NextVisit>,
) -> Option<NextVisit>
    ensures from { IfSome next (λ own. from ≤ own.slot) → IfSome result (λ own. from ≤ own.slot) }
    ensures less { (t : ℕ) → IsBelow t (slot_of result) → IsBelow t (slot_of next)
        × (from ≤ t → is_in set.now t ≡ true → IsFull pass setup.now.rooms (world_of numbers.now) lane) }
{
    if is_due(numbers, setup, pass, lane, set) {
        return lower(next, set, from, Want::Room(lane));
    }
    next
}

/// The lowest slot from this one on that wants a visit, or room in a lane that has some.
fn next_of(
    numbers: &Numbers<'_>,
    setup: &ScheduleSetup<'_>,
    waits: &PassWaits,
    pass: Pass,
    from: usize,
) -> Option<NextVisit>
    ensures from { IfSome result (λ next. from ≤ next.slot) }
    ensures first { NoneBefore pass setup.now.rooms (world_of numbers.now) waits.now from (slot_of result) }
{
    let mut next = lower(None, &waits.visits, from, Want::Visit);
    for lane in 0..waits.lanes.len() {
        let set = &waits.lanes[lane];
        next = lower_in(numbers, setup, pass, lane, set, from, next);
    }
    next
}

fn visit(
    numbers: &mut Numbers<'_>,
    setup: &ScheduleSetup<'_>,
    pass: Pass,
    slot: usize,
) -> Result<(), AllocError>
    ensures { OnOk result (world_of numbers.new
        ≡ step_by pass setup.now.rooms (bounds_of setup.now) (world_of numbers.old) slot) }
{
    match pass {
        Pass::Controls => control_offer(numbers, setup, slot),
        Pass::Datas => data_offer(numbers, setup, slot),
        Pass::Queues => drain(numbers, setup, slot),
    }
}

/// A slot of which anything changed may want something of each pass, and its control half may have work.
pub fn touch(
    numbers: &Numbers<'_>,
    waiting: &mut WaitingSlots,
    setup: &ScheduleSetup<'_>,
    slot: usize,
) -> Result<(), AllocError>
    requires { AreListedBut (slot ∷ []) setup.now waiting.old (world_of numbers.now) }
    ensures { OnOk result (AreListed setup.now waiting.new (world_of numbers.now)) }
{
    let control = control_wants(numbers, setup, slot);
    waiting.controls.put(numbers.alloc, slot, control)?;
    let data_half = data_wants(numbers, setup, slot);
    waiting.datas.put(numbers.alloc, slot, data_half)?;
    let queue = queue_wants(numbers, setup, slot);
    waiting.queues.put(numbers.alloc, slot, queue)?;
    wake(numbers, &mut waiting.busy, setup, slot)
}

/// A pass over the slots, where any wants something.
#[inline(never)]
fn visit_all(
    numbers: &mut Numbers<'_>,
    waiting: &mut WaitingSlots,
    setup: &ScheduleSetup<'_>,
    pass: Pass,
) -> Result<(), AllocError>
    requires { AreListed setup.now waiting.old (world_of numbers.old) }
    ensures world { OnOk result (world_of numbers.new
        ≡ passed_by pass setup.now.rooms (bounds_of setup.now) (world_of numbers.old)) }
    ensures listed { OnOk result (AreListed setup.now waiting.new (world_of numbers.new)) }
{
    let count = numbers.slots.len();
    let mut from: usize = 0;
    while let Some(next) = next_of(numbers, setup, waiting.of_pass(pass), pass, from) {
        if next.slot >= count {
            return Ok(());
        }
        waiting.leave_out(pass, next.slot, next.want);
        visit(numbers, setup, pass, next.slot)?;
        touch(numbers, waiting, setup, next.slot)?;
        from = next.slot + 1;
    }
    Ok(())
}

/// A pass over the slots: mostly none wants anything.
#[inline(always)]
pub fn run_pass(
    numbers: &mut Numbers<'_>,
    waiting: &mut WaitingSlots,
    setup: &ScheduleSetup<'_>,
    pass: Pass,
) -> Result<(), AllocError>
    requires { AreListed setup.now waiting.old (world_of numbers.old) }
    ensures world { OnOk result (world_of numbers.new
        ≡ passed_by pass setup.now.rooms (bounds_of setup.now) (world_of numbers.old)) }
    ensures listed { OnOk result (AreListed setup.now waiting.new (world_of numbers.new)) }
{
    if waiting.of_pass(pass).is_idle() {
        return Ok(());
    }
    visit_all(numbers, waiting, setup, pass)
}
