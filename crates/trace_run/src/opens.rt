//! The open counters of subscribers.
ghost use Rattle.std.specs.Prelude.{◌≡◌, ℕ, ◌<◌, ◌==◌, ◌++◌, Bool, List, find, flat_map, get_or, length, OnOk};
ghost use Rattle.std.specs.Option.{option_copied};
ghost use Rattle.bearer_state.specs.declared.version.ActiveBearer.{ActiveBearer};
ghost use Rattle.charging_book.specs.Rows.{Counters};
ghost use Rattle.gate_model.specs.declared.event.Event.{Event};
ghost use Rattle.lawful_run.specs.Merging.{Histories};
ghost use Rattle.lawful_run.specs.Outcomes.{opens};
ghost use Rattle.lawful_run.specs.Run.{by_slot};
ghost use Rattle.report_lines.specs.declared.entry.ChargeEntry.TheVariants.{O};
ghost use Rattle.report_lines.specs.declared.entry.Entry.TheVariants as entry;
ghost use Rattle.subscriber.specs.Standing.{StandsFor, SubscriberState, Represents};
ghost use Rattle.trace_run.specs.Entries.{charges_text, line_of, open_for, opens_held};

use crate::entries::end_line;
use bearer_state::ActiveBearer;
use charging_book::Open;
use pc_base::Slot;
use std::alloc::AllocError;
use subscriber::Subscriber;
use text_fields::Text;

/// Appends the lines of the open counters of subscribers in their order, each one's by its bearers' indices.
pub fn push_opens(report: &mut Text, subscribers: &[Subscriber]) -> Result<(), AllocError>
    ensures after { (places : Bool) (events : Histories)
        → ((slot : ℕ) (none : SubscriberState) → slot < length subscribers.now
        → Represents (get_or subscribers.now slot none) slot (events slot))
        → OnOk result (report.new ≡ report.old ++ charges_text places
        (by_slot (length subscribers.now) (λ slot. opens slot (events slot)))) }
    ensures own { (places : Bool) → OnOk result (report.new
        ≡ report.old ++ charges_text places (flat_map opens_held subscribers.now)) }
{
    for subscriber in subscribers {
        push_subscriber(report, subscriber)?;
    }
    Ok(())
}

// Appends those of a subscriber.
fn push_subscriber(report: &mut Text, subscriber: &Subscriber) -> Result<(), AllocError>
    ensures after { (places : Bool) (slot : ℕ) (events : List Event) (taken : ℕ)
        → StandsFor subscriber.now slot events taken
        → OnOk result (report.new ≡ report.old ++ charges_text places (opens slot events)) }
    ensures own { (places : Bool) → OnOk result (report.new
        ≡ report.old ++ charges_text places (opens_held subscriber.now)) }
{
    let slot = subscriber.slot();
    let counted = subscriber.still_open();
    push_lives(report, slot, subscriber.bearers(), counted)
}

// Appends those of bearers, which are among these.
fn push_lives(
    report: &mut Text,
    slot: Slot,
    bearers: &[ActiveBearer],
    counted: &[Open],
) -> Result<(), AllocError>
    ensures { (places : Bool) → OnOk result (report.new ≡ report.old
        ++ charges_text places (flat_map
        (λ (bearer : ActiveBearer). open_for slot counted.now bearer.life) bearers.now)) }
{
    for bearer in bearers {
        push_life(report, slot, bearer.life, counted)?;
    }
    Ok(())
}

// Appends those of a life.
fn push_life(report: &mut Text, slot: Slot, life: u64, counted: &[Open]) -> Result<(), AllocError>
    ensures { (places : Bool) → OnOk result (report.new ≡ report.old
        ++ charges_text places (open_for slot counted.now life)) }
{
    match counters_of(counted, life) {
        Some(counters) => push_open(report, slot, counters),
        None => Ok(()),
    }
}

fn push_open(report: &mut Text, slot: Slot, counters: &Open) -> Result<(), AllocError>
    ensures { OnOk result (report.new ≡ report.old ++ line_of (entry.Charge (O slot counters.now))) }
{
    report_lines::push_open(report, slot, counters)?;
    end_line(report)
}

// The counters of a life.
fn counters_of(counted: &[Open], life: u64) -> Option<&Open>
    ensures { option_copied result ≡ find (λ (counters : Counters). counters.life == life) counted.now }
{
    counted.iter().find(|counters| counters.life == life)
}
