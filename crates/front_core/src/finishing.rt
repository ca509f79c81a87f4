//! The subscribers are one again, slot after slot.
ghost use Rattle.std.specs.Prelude.{◌≡◌, ℕ, ◌≤◌, ◌<◌, ◌++◌, ◌∷◌, List, Option, Some, length, vec_len, reverse};
ghost use Rattle.std.specs.Prelude.{IfOk, OnOk};
ghost use Rattle.counter_half.specs.Half.{handled_by, places_of};
ghost use Rattle.counter_half.specs.Handled.{places_in};
ghost use Rattle.counter_half.specs.declared.items.DataItem.{DataItem};
ghost use Rattle.split_record.specs.Places.{at_closing};
ghost use Rattle.split_record.specs.Rejoined.{AreAccepted, AreOfOneSplit, Finishes, commands_sent, start_of};
ghost use Rattle.front_core.specs.declared.lot.Lot as lot;
ghost use Rattle.front_core.specs.declared.lot.Lot.TheVariants.{Split};
ghost use Rattle.front_core.specs.Ending.{
  CanEndAll,
  EndsNext,
  EndsSplit,
  HaveEnded,
  Tells,
  came_of,
};
ghost use Rattle.front_core.specs.Placed.{AnswersBelow, HomesBelow};

use crate::told::{ToldSlots, tell, tell_nothing};
use crate::{Lot, NoMemory};
use control_half::ControlHalf;
use counter_half::DataHalf;
use gather_home::Home;
use pc_base::Slot;
use split_record::{Finished, FrontEnd, finish};
use std::alloc::Global;
use std::sync::Wait;
use subscriber::Subscriber;

/// Each split subscriber is one again. The halves are those of the split ones, by slot.
pub(crate) fn finish_all<'p, R: Wait>(
    rt: &R,
    alloc: Global,
    mut lots: Vec<Option<Lot>>,
    mut controls: Vec<ControlHalf>,
    mut homes: Vec<Home<DataHalf<'p>>>,
    subscribers: &mut [Subscriber],
) -> Result<ToldSlots<'p>, NoMemory>
    requires may { (items : ℕ → List DataItem) × CanEndAll 0 items lots.items controls.items homes.items }
    requires lots { vec_len lots ≤ length subscribers.old }
    ensures ends { (items : ℕ → List DataItem) → CanEndAll 0 items lots.items controls.items homes.entry.items
        → IfOk result (λ told. HaveEnded items lots.items subscribers.old subscribers.new told) }
    ensures below { (n : ℕ) → HomesBelow n homes.entry.items → IfOk result (λ told. AnswersBelow n told.answers.items) }
{
    let mut told = ToldSlots {
        answers: Vec::with_capacity(alloc, lots.len())?,
        effects: Vec::new(alloc),
        rows: Vec::new(alloc),
    };
    lots.reverse();
    controls.reverse();
    homes.reverse();
    for place in 0..lots.len() {
        finish_next(
            rt,
            alloc,
            &mut lots,
            &mut controls,
            &mut homes,
            &mut subscribers[place],
            &mut told,
        )?;
    }
    Ok(told)
}

// The first of the slots that are left, which are in the order from the last, as their halves are.
fn finish_next<'p, R: Wait>(
    rt: &R,
    alloc: Global,
    lots: &mut Vec<Option<Lot>>,
    controls: &mut Vec<ControlHalf>,
    homes: &mut Vec<Home<DataHalf<'p>>>,
    subscriber: &mut Subscriber,
    told: &mut ToldSlots<'p>,
) -> Result<(), NoMemory>
    requires some { 0 < vec_len lots.old }
    requires may { (slot : ℕ) × (items : ℕ → List DataItem) × CanEndAll slot items (reverse lots.old.items)
        (reverse controls.old.items) (reverse homes.old.items) }
    ensures ends { (slot : ℕ) (items : ℕ → List DataItem) → CanEndAll slot items (reverse lots.old.items)
        (reverse controls.old.items) (reverse homes.old.items)
        → OnOk result (EndsNext slot items lots.old.items lots.new.items controls.new.items homes.new.items
        subscriber.old subscriber.new told.old told.new) }
    ensures below { (n : ℕ) → HomesBelow n homes.old.items → AnswersBelow n told.old.answers.items
        → OnOk result (HomesBelow n homes.new.items × AnswersBelow n told.new.answers.items) }
{
    let Some(lot) = lots.pop() else {
        unreachable!()
    };
    match lot {
        Some(Lot::Split(end)) => finish_split(rt, alloc, end, controls, homes, subscriber, told),
        Some(Lot::Moved) => tell_nothing(alloc, told),
        None => tell_nothing(alloc, told),
    }
}

// A split subscriber. Its halves are the first of those that are left.
fn finish_split<'p, R: Wait>(
    rt: &R,
    alloc: Global,
    end: FrontEnd,
    controls: &mut Vec<ControlHalf>,
    homes: &mut Vec<Home<DataHalf<'p>>>,
    subscriber: &mut Subscriber,
    told: &mut ToldSlots<'p>,
) -> Result<(), NoMemory>
    requires may { (slot : ℕ) × (items : ℕ → List DataItem) × (lots : List (Option lot.Lot))
        × CanEndAll slot items (Some (Split end) ∷ lots) (reverse controls.old.items) (reverse homes.old.items) }
    ensures ends { (slot : ℕ) (items : ℕ → List DataItem) (lots : List (Option lot.Lot))
        → CanEndAll slot items (Some (Split end) ∷ lots) (reverse controls.old.items) (reverse homes.old.items)
        → OnOk result (EndsSplit slot end items lots controls.new.items homes.new.items
        subscriber.old subscriber.new told.old told.new) }
    ensures below { (n : ℕ) → HomesBelow n homes.old.items → AnswersBelow n told.old.answers.items
        → OnOk result (HomesBelow n homes.new.items × AnswersBelow n told.new.answers.items) }
{
    let Some(control) = controls.pop() else {
        unreachable!()
    };
    let Some(home) = homes.pop() else {
        unreachable!()
    };
    let slot = end.slot();
    let finished = finish_slot(rt, alloc, end, control, home)?;
    end_slot(told, slot, subscriber, finished)
}

// One subscriber is one again. Where memory runs out, it is tried once more.
fn finish_slot<'p, R: Wait>(
    rt: &R,
    alloc: Global,
    end: FrontEnd,
    control: ControlHalf,
    home: Home<DataHalf<'p>>,
) -> Result<Finished<'p>, NoMemory>
    requires one { AreOfOneSplit end control home.half }
    requires accepted { AreAccepted end (handled_by home.half ++ home.left.items) }
    ensures finishes { IfOk result (λ made. Finishes (start_of end) (commands_sent end)
        (handled_by home.entry.half ++ home.entry.left.items) end.destination made) }
    ensures placed { IfOk result (λ made. places_in made.packets.items
        ≡ places_of home.entry.half ++ at_closing home.entry.left.items) }
{
    let Home { half, left } = home;
    match finish(rt, alloc, end, control, half, left) {
        Ok(finished) => Ok(finished),
        Err(parts) => match parts.again(rt) {
            Ok(finished) => Ok(finished),
            Err(_) => Err(NoMemory),
        },
    }
}

// What became of a slot is told. Where the subscriber is bound for stays as the front has it.
fn end_slot<'p>(
    told: &mut ToldSlots<'p>,
    slot: Slot,
    subscriber: &mut Subscriber,
    finished: Finished<'p>,
) -> Result<(), NoMemory>
    ensures { OnOk result ((subscriber.new
        ≡ record finished.entry.record { destination = subscriber.old.destination })
        × Tells (came_of slot finished.entry) told.old told.new) }
{
    let Finished {
        record: own,
        commands,
        packets,
        effects,
        rows,
    } = finished;
    let destination = subscriber.destination();
    *subscriber = own;
    subscriber.set_destination(destination);
    tell(told, slot, commands, packets, effects, rows)
}
