//! The open counters behind all events.

ghost use Rattle.std.specs.Prelude.{◌≡◌, ℕ, ◌==◌, ◌++◌, List, find, flat_map, length, IfOk, OnOk};
ghost use Rattle.std.specs.Option.{option_copied};
ghost use Rattle.bearer_state.specs.declared.version.ActiveBearer.{ActiveBearer};
ghost use Rattle.charging_book.specs.Rows.{Counters};
ghost use Rattle.gate_model.specs.declared.event.Event.{Event};
ghost use Rattle.lawful_run.specs.Merging.{Histories};
ghost use Rattle.lawful_run.specs.Outcomes.{opens};
ghost use Rattle.lawful_run.specs.Run.{by_slot};
ghost use Rattle.subscriber.specs.Standing.{Represents};
ghost use Rattle.at_rest.specs.Meant.{AreStanding};
ghost use Rattle.audit_core.specs.Opens.{open_for, open_of};

use crate::NoMemory;
use bearer_state::ActiveBearer;
use charging_book::Open;
use pc_base::Slot;
use report_lines::ChargeEntry;
use std::alloc::Global;
use subscriber::Subscriber;

/// The open counters of the active bearers, by slot and index.
pub(crate) fn opens_due(
    alloc: Global,
    subscribers: &[Subscriber],
) -> Result<Vec<ChargeEntry>, NoMemory>
    ensures { (histories : Histories) → AreStanding subscribers.now histories
        → IfOk result (λ all. all.items
        ≡ by_slot (length subscribers.now) (λ slot. opens slot (histories slot))) }
{
    let mut all = Vec::new(alloc);
    for subscriber in subscribers {
        push_opens(&mut all, subscriber)?;
    }
    Ok(all)
}

// Those of a subscriber.
fn push_opens(all: &mut Vec<ChargeEntry>, subscriber: &Subscriber) -> Result<(), NoMemory>
    ensures { (slot : ℕ) (events : List Event) → Represents subscriber.now slot events
        → OnOk result (all.new.items ≡ all.old.items ++ opens slot events) }
{
    let slot = subscriber.slot();
    let counted = subscriber.still_open();
    push_lives(all, slot, subscriber.bearers(), counted)
}

// Those of bearers, which are among these.
fn push_lives(
    all: &mut Vec<ChargeEntry>,
    slot: Slot,
    bearers: &[ActiveBearer],
    counted: &[Open],
) -> Result<(), NoMemory>
    ensures { OnOk result (all.new.items ≡ all.old.items
        ++ flat_map (λ (bearer : ActiveBearer). open_for slot counted.now bearer.life) bearers.now) }
{
    for bearer in bearers {
        push_life(all, slot, bearer.life, counted)?;
    }
    Ok(())
}

// Those of a life.
fn push_life(
    all: &mut Vec<ChargeEntry>,
    slot: Slot,
    life: u64,
    counted: &[Open],
) -> Result<(), NoMemory>
    ensures { OnOk result (all.new.items ≡ all.old.items ++ open_for slot counted.now life) }
{
    match counters_of(counted, life) {
        Some(counters) => push_open(all, slot, counters),
        None => Ok(()),
    }
}

fn push_open(all: &mut Vec<ChargeEntry>, slot: Slot, counters: &Open) -> Result<(), NoMemory>
    ensures { OnOk result (all.new.items ≡ all.old.items ++ open_of slot counters.now) }
{
    all.push(ChargeEntry::O {
        slot,
        counters: *counters,
    })?;
    Ok(())
}

// The counters of a life.
fn counters_of(counted: &[Open], life: u64) -> Option<&Open>
    ensures { option_copied result ≡ find (λ (counters : Counters). counters.life == life) counted.now }
{
    counted.iter().find(|counters| counters.life == life)
}
