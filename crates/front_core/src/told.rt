//! What became of the slots is told one after another.
ghost use Rattle.std.specs.Prelude.{◌≡◌, ◌++◌, flat_map, map, OnOk};
ghost use Rattle.counter_half.specs.Tells.{effect_entries};
ghost use Rattle.report_lines.specs.declared.entry.ChargeEntry.TheVariants.{R};
ghost use Rattle.slot_execution.specs.Replaying.{effects_told, rows_told};
ghost use Rattle.front_core.specs.Ending.{Tells, nothing_came};

use crate::NoMemory;
use crate::answers::SlotAnswers;
use charging_book::ChargeRow;
use control_half::CommandDone;
use counter_half::{PacketDone, VersionDone};
use pc_base::Slot;
use slot_execution::{Caused, Closed};
use std::alloc::Global;

/// By slot: what is told of commands and packets, and all effects and charging records.
#[derive(Drop)]
pub(crate) struct ToldSlots<'p> {
    pub(crate) answers: Vec<SlotAnswers<'p>>,
    pub(crate) effects: Vec<Caused>,
    pub(crate) rows: Vec<Closed>,
}

/// Tells what became of the next slot, whose subscriber was split.
pub(crate) fn tell<'p>(
    told: &mut ToldSlots<'p>,
    slot: Slot,
    mut replies: Vec<CommandDone>,
    mut packets: Vec<PacketDone<'p>>,
    effects: Vec<VersionDone>,
    rows: Vec<ChargeRow>,
) -> Result<(), NoMemory>
    ensures { OnOk result (Tells (record {
      replies = replies.items;
      packets = packets.entry.items;
      effects = flat_map (effect_entries slot) effects.items;
      rows = map (R slot) rows.items;
    }) told.old told.new) }
{
    replies.reverse();
    packets.reverse();
    told.answers.push(SlotAnswers { replies, packets })?;
    add_effects(&mut told.effects, slot, effects)?;
    add_rows(&mut told.rows, slot, rows)
}

/// Tells that nothing became of the next slot.
pub(crate) fn tell_nothing(alloc: Global, told: &mut ToldSlots<'_>) -> Result<(), NoMemory>
    ensures { OnOk result (Tells nothing_came told.old told.new) }
{
    told.answers.push(SlotAnswers {
        replies: Vec::new(alloc),
        packets: Vec::new(alloc),
    })?;
    Ok(())
}

fn add_effects(all: &mut Vec<Caused>, slot: Slot, effects: Vec<VersionDone>) -> Result<(), NoMemory>
    ensures { OnOk result (effects_told all.new.items
        ≡ effects_told all.old.items ++ flat_map (effect_entries slot) effects.items) }
{
    for done in effects {
        let VersionDone { command, effects } = done;
        all.push(Caused {
            slot,
            command,
            effects,
        })?;
    }
    Ok(())
}

fn add_rows(all: &mut Vec<Closed>, slot: Slot, rows: Vec<ChargeRow>) -> Result<(), NoMemory>
    ensures { OnOk result (rows_told all.new.items ≡ rows_told all.old.items ++ map (R slot) rows.items) }
{
    if rows.is_empty() {
        return Ok(());
    }
    all.push(Closed { slot, rows })?;
    Ok(())
}
