//! The sixth sentence, of a piece: the first entry that doesn't stand in its order.

ghost use Rattle.std.specs.Prelude.{◌≡◌, ◌++◌, List, drop, length, map, IfNone, IfOk, IfSome, OnOk, Some};
ghost use Rattle.report_lines.specs.declared.entry.Entry.{Entry};
ghost use Rattle.lawful_run.specs.LinesTold.{LineTold};
ghost use Rattle.audit_core.specs.Dues.{IsOther, StandsSo, effects_lent, entries_due, entry_due};
ghost use Rattle.audit_core.specs.Matched.{entries_stood};
ghost use Rattle.audit_core.specs.Meant.{lines_of};
ghost use Rattle.audit_core.specs.Places.{first_of};
ghost use Rattle.audit_core.specs.Why.{OrderBreak};

use crate::NoMemory;
use crate::due_entries::EffectDue;
use crate::order::{Due, entry_differs, entry_missing, entry_said};
use crate::report::Stood;
use crate::telling::{Break, tells};
use crate::told_line::ToldLine;
use report_lines::ChargeEntry;
use std::alloc::Global;

fn push_lines<'m>(all: &mut Vec<Due<'m>>, lines: &'m [ToldLine<'m>]) -> Result<(), NoMemory>
    ensures { OnOk result (map entry_due all.new.items ≡ map entry_due all.old.items
        ++ map Entry.Line (map (λ (told : LineTold). told.entry) (lines_of lines.now))) }
{
    for told in lines {
        all.push(Due::Line(told.entry))?;
    }
    Ok(())
}

fn push_effects<'m>(all: &mut Vec<Due<'m>>, effects: &'m [EffectDue<'m>]) -> Result<(), NoMemory>
    ensures { OnOk result (map entry_due all.new.items
        ≡ map entry_due all.old.items ++ map Entry.Effect (effects_lent effects.now)) }
{
    for effect in effects {
        all.push(Due::Effect(effect))?;
    }
    Ok(())
}

fn push_charges<'m>(all: &mut Vec<Due<'m>>, charges: &'m [ChargeEntry]) -> Result<(), NoMemory>
    ensures { OnOk result (map entry_due all.new.items
        ≡ map entry_due all.old.items ++ map Entry.Charge charges.now) }
{
    for charge in charges {
        all.push(Due::Charge(charge))?;
    }
    Ok(())
}

// What is told of the entry behind so many, or that there is none, where it isn't the one due.
fn differs_at(
    alloc: Global,
    entries: &[Stood],
    at: usize,
    due: &Due<'_>,
) -> Result<Option<Break>, NoMemory>
    ensures some { IfOk result (λ found. IfSome found
        (IsOther (first_of (drop at (entries_stood entries.now))) (entry_due due.now))) }
    ensures none { IfOk result (λ found. IfNone found
        (first_of (drop at (entries_stood entries.now)) ≡ Some (entry_due due.now))) }
{
    if at < entries.len() {
        return entry_differs(alloc, &entries[at].entry, due);
    }
    Ok(Some(entry_missing(alloc, due)?))
}

// The first entry that differs from those due, as far as one is due.
fn differs(alloc: Global, entries: &[Stood], due: &[Due<'_>]) -> Result<Option<Break>, NoMemory>
    ensures some { IfOk result (λ found. IfSome found
        (OrderBreak (entries_stood entries.now) (map entry_due due.now))) }
    ensures none { IfOk result (λ found. IfNone found
        (StandsSo (entries_stood entries.now) (map entry_due due.now) (length due.now))) }
{
    for at in 0..due.len() {
        let found = differs_at(alloc, entries, at, &due[at])?;
        if found.is_some() {
            return Ok(found);
        }
    }
    Ok(None)
}

// The first entry behind so many, where no more are due.
fn surplus(alloc: Global, entries: &[Stood], count: usize) -> Result<Option<Break>, NoMemory>
    ensures some { (asked : List Entry) → StandsSo (entries_stood entries.now) asked count
        → IfOk result (λ found. IfSome found (OrderBreak (entries_stood entries.now) asked)) }
    ensures none { (asked : List Entry) → StandsSo (entries_stood entries.now) asked count
        → IfOk result (λ found. IfNone found (entries_stood entries.now ≡ asked)) }
{
    if count >= entries.len() {
        return Ok(None);
    }
    let said = entry_said(alloc, &entries[count].entry)?;
    Ok(Some(tells(alloc, Some(said), None)?))
}

/// The first entry of a piece that isn't the one due: those of its lines, its effects, its charging records, and the
/// open counters that are asked for.
pub(crate) fn order_broken(
    alloc: Global,
    entries: &[Stood],
    lines: &[ToldLine<'_>],
    effects: &[EffectDue<'_>],
    rows: &[ChargeEntry],
    opens: &[ChargeEntry],
) -> Result<Option<Break>, NoMemory>
    ensures some { IfOk result (λ found. IfSome found (OrderBreak (entries_stood entries.now)
        (entries_due (lines_of lines.now) (effects_lent effects.now) rows.now ++ map Entry.Charge opens.now))) }
    ensures none { IfOk result (λ found. IfNone found (entries_stood entries.now
        ≡ entries_due (lines_of lines.now) (effects_lent effects.now) rows.now ++ map Entry.Charge opens.now)) }
{
    let mut due = Vec::new(alloc);
    push_lines(&mut due, lines)?;
    push_effects(&mut due, effects)?;
    push_charges(&mut due, rows)?;
    push_charges(&mut due, opens)?;
    let found = differs(alloc, entries, due.as_slice())?;
    if found.is_some() {
        return Ok(found);
    }
    surplus(alloc, entries, due.len())
}
