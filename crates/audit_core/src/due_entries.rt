//! The entries that a report has to have of what lines lead to, lent.

ghost use Rattle.std.specs.Prelude.{◌≡◌, ◌↔◌, ◌++◌, IfOk, IsTrue, OnOk};
ghost use Rattle.slot_execution.specs.Replaying.{effects_caused, effects_told, rows_closed, rows_told};
ghost use Rattle.report_lines.specs.declared.entry.Entry.{Entry};
ghost use Rattle.audit_core.specs.Dues.{effected, effects_lent};
ghost use Rattle.audit_core.specs.Telling.{said_of};

use crate::NoMemory;
use crate::telling::{SaidEntry, effect_said};
use pc_base::Effect;
use report_lines::{ChargeEntry, EffectEntry};
use slot_execution::{Caused, Closed};
use std::alloc::Global;

/// An effect among those of a command.
#[derive(Clone, Copy)]
pub(crate) struct EffectDue<'m> {
    pub caused: &'m Caused,
    pub effect: &'m Effect,
}

/// Whether an entry tells an effect.
pub(crate) fn told_effect(due: &EffectDue<'_>, told: &EffectEntry) -> bool
    ensures { IsTrue result ↔ (told.now ≡ effected due.now) }
{
    let caused = due.caused;
    told.slot == caused.slot && told.command == caused.command && told.effect == *due.effect
}

/// An effect as an entry tells it.
pub(crate) fn told_said(alloc: Global, told: &EffectEntry) -> Result<SaidEntry, NoMemory>
    ensures { IfOk result (λ said. said ≡ said_of (Entry.Effect told.now)) }
{
    effect_said(alloc, told.slot, told.command, &told.effect)
}

/// The same of one that is due.
pub(crate) fn effect_due_said(alloc: Global, due: &EffectDue<'_>) -> Result<SaidEntry, NoMemory>
    ensures { IfOk result (λ said. said ≡ said_of (Entry.Effect (effected due.now))) }
{
    let caused = due.caused;
    effect_said(alloc, caused.slot, caused.command, due.effect)
}

/// The effects of commands, one behind another.
pub(crate) fn effects_due<'m>(
    alloc: Global,
    caused: &'m [Caused],
) -> Result<Vec<EffectDue<'m>>, NoMemory>
    ensures { IfOk result (λ all. effects_lent all.items ≡ effects_told caused.now) }
{
    let mut all = Vec::new(alloc);
    for own in caused {
        push_caused(&mut all, own)?;
    }
    Ok(all)
}

fn push_caused<'m>(all: &mut Vec<EffectDue<'m>>, caused: &'m Caused) -> Result<(), NoMemory>
    ensures { OnOk result (effects_lent all.new.items ≡ effects_lent all.old.items ++ effects_caused caused.now) }
{
    let effects = caused.effects.as_slice();
    for effect in effects {
        all.push(EffectDue { caused, effect })?;
    }
    Ok(())
}

/// The charging records of slots, one behind another.
pub(crate) fn rows_due(alloc: Global, closed: &[Closed]) -> Result<Vec<ChargeEntry>, NoMemory>
    ensures { IfOk result (λ all. all.items ≡ rows_told closed.now) }
{
    let mut all = Vec::new(alloc);
    for own in closed {
        push_closed(&mut all, own)?;
    }
    Ok(all)
}

fn push_closed(all: &mut Vec<ChargeEntry>, closed: &Closed) -> Result<(), NoMemory>
    ensures { OnOk result (all.new.items ≡ all.old.items ++ rows_closed closed.now) }
{
    for row in &closed.rows {
        all.push(ChargeEntry::R {
            slot: closed.slot,
            row: *row,
        })?;
    }
    Ok(())
}
