//! The lines of a report: an entry's text and a newline, made of lent parts.
ghost use Rattle.std.specs.Prelude.{◌≡◌, ◌++◌, ◌∷◌, [], Bool, codes, map, OnOk};
ghost use Rattle.lawful_run.specs.Outcomes.{effect_entry};
ghost use Rattle.report_lines.specs.declared.entry.ChargeEntry.TheVariants.{R};
ghost use Rattle.report_lines.specs.declared.entry.Entry.TheVariants as entry;
ghost use Rattle.report_lines.specs.declared.entry.LineEntry.TheVariants as line_entry;
ghost use Rattle.slot_execution.specs.Replaying.{effects_caused, effects_told, rows_closed, rows_told};
ghost use Rattle.trace_lines.specs.Word.{word_of};
ghost use Rattle.trace_run.specs.Entries.{charges_text, effects_text, line_of, lines_text};
ghost use Rattle.trace_run.specs.Noted.{noted};

use charging_book::ChargeRow;
use pc_base::{Effect, Reply, Slot};
use slot_execution::{Caused, Closed};
use std::alloc::AllocError;
use text_fields::Text;
use trace_lines::LineBad;

/// Ends a line.
pub fn end_line(report: &mut Text) -> Result<(), AllocError>
    ensures { OnOk result (report.new ≡ report.old ++ 10 ∷ []) }
{
    report.push(b'\n')
}

/// Appends the line of a note.
pub fn push_note(report: &mut Text, line: u64, note: &[u8]) -> Result<(), AllocError>
    ensures { OnOk result (report.new ≡ report.old
        ++ line_of (entry.Line (line_entry.N (record { line = line; note = note.now })))) }
{
    report_lines::push_note(report, line, note)?;
    end_line(report)
}

/// Appends the note of a line that can't be read, where there is one.
pub fn push_noted(report: &mut Text, bad: Option<LineBad>, line: u64) -> Result<(), AllocError>
    ensures { (places : Bool) → OnOk result (report.new ≡ report.old ++ lines_text places (noted bad line)) }
{
    match bad {
        Some(why) => push_bad(report, line, why),
        None => Ok(()),
    }
}

/// Appends the note of a line that can't be read.
pub fn push_bad(report: &mut Text, line: u64, why: LineBad) -> Result<(), AllocError>
    ensures { OnOk result (report.new ≡ report.old ++ line_of (entry.Line (line_entry.N
        (record { line = line; note = codes "line" ++ 32 ∷ word_of why })))) }
{
    report_lines::push_note(report, line, b"line")?;
    report.push_field(why.word().as_bytes())?;
    end_line(report)
}

/// Appends the line of a slot's command of this number, with its reply.
pub fn push_answer(
    report: &mut Text,
    line: u64,
    slot: Slot,
    number: u64,
    reply: &Reply,
) -> Result<(), AllocError>
    ensures { OnOk result (report.new ≡ report.old ++ line_of (entry.Line (line_entry.C
        (record { line = line; slot = slot; number = number; reply = reply.now })))) }
{
    report_lines::push_answer(report, line, slot, number, reply)?;
    end_line(report)
}

fn push_effect(
    report: &mut Text,
    slot: Slot,
    command: u64,
    effect: &Effect,
) -> Result<(), AllocError>
    ensures { OnOk result (report.new ≡ report.old ++ line_of (entry.Effect (effect_entry slot command effect.now))) }
{
    report_lines::push_effect(report, slot, command, effect)?;
    end_line(report)
}

fn push_caused(report: &mut Text, caused: &Caused) -> Result<(), AllocError>
    ensures { (places : Bool) → OnOk result (report.new ≡ report.old
        ++ effects_text places (effects_caused caused.now)) }
{
    for effect in caused.effects.as_slice() {
        push_effect(report, caused.slot, caused.command, effect)?;
    }
    Ok(())
}

/// Appends the lines of effects, in their order.
pub fn push_effects(report: &mut Text, effects: &[Caused]) -> Result<(), AllocError>
    ensures { (places : Bool) → OnOk result (report.new ≡ report.old
        ++ effects_text places (effects_told effects.now)) }
{
    for caused in effects {
        push_caused(report, caused)?;
    }
    Ok(())
}

fn push_row(report: &mut Text, slot: Slot, row: &ChargeRow) -> Result<(), AllocError>
    ensures { OnOk result (report.new ≡ report.old ++ line_of (entry.Charge (R slot row.now))) }
{
    report_lines::push_row(report, slot, row)?;
    end_line(report)
}

fn push_rows(report: &mut Text, slot: Slot, rows: &[ChargeRow]) -> Result<(), AllocError>
    ensures { (places : Bool) → OnOk result (report.new ≡ report.old
        ++ charges_text places (map (R slot) rows.now)) }
{
    for row in rows {
        push_row(report, slot, row)?;
    }
    Ok(())
}

fn push_closed(report: &mut Text, closed: &Closed) -> Result<(), AllocError>
    ensures { (places : Bool) → OnOk result (report.new ≡ report.old ++ charges_text places (rows_closed closed.now)) }
{
    push_rows(report, closed.slot, closed.rows.as_slice())
}

/// Appends the lines of charging records, in their order.
pub fn push_records(report: &mut Text, records: &[Closed]) -> Result<(), AllocError>
    ensures { (places : Bool) → OnOk result (report.new ≡ report.old ++ charges_text places (rows_told records.now)) }
{
    for closed in records {
        push_closed(report, closed)?;
    }
    Ok(())
}

/// Appends what an epoch has behind the entries of its lines: the note of a bad line of this number, if there is one,
/// effects and charging records.
pub fn push_closing(
    report: &mut Text,
    bad: Option<LineBad>,
    line: u64,
    effects: &[Caused],
    records: &[Closed],
) -> Result<(), AllocError>
    ensures { (places : Bool) → OnOk result (report.new ≡ report.old ++ (lines_text places (noted bad line)
        ++ (effects_text places (effects_told effects.now) ++ charges_text places (rows_told records.now)))) }
{
    push_noted(report, bad, line)?;
    push_effects(report, effects)?;
    push_records(report, records)
}
