//! The text of what is told of the lines of an epoch over slices.
ghost use Rattle.std.specs.Prelude.{◌≡◌, ◌++◌, map, OnOk};
ghost use Rattle.front_core.specs.Filled.{entry_told};
ghost use Rattle.report_lines.specs.declared.entry.Entry.TheVariants as report_entry;
ghost use Rattle.report_lines.specs.Text.{entry_text, line_shown};
ghost use Rattle.trace_run.specs.Entries.{line_of, lines_text};

use front_core::FrontEntry;
use report_lines::{push_answer, push_note, push_packet, push_placed, push_refusal};
use slot_execution::ToldEntry;
use std::alloc::AllocError;
use text_fields::Text;
use trace_run::end_line;

// Appends an entry, with its place or without.
fn push_entry(report: &mut Text, told: &FrontEntry<'_>, places: bool) -> Result<(), AllocError>
    ensures { OnOk result (report.new
        ≡ report.old ++ entry_text (report_entry.Line (line_shown places (entry_told told.now)))) }
{
    match told {
        ToldEntry::Note { line, text } => push_note(report, *line, text.as_slice()),
        ToldEntry::Answer {
            line,
            slot,
            number,
            reply,
        } => push_answer(report, *line, *slot, *number, reply),
        ToldEntry::Judgement {
            line,
            slot,
            number,
            commands,
            verdict,
            place,
            parked,
        } => {
            if places {
                push_placed(
                    report,
                    *line,
                    *slot,
                    *number,
                    *commands,
                    verdict.lent(),
                    *place,
                    *parked,
                )
            } else {
                push_packet(report, *line, *slot, *number, *commands, verdict.lent())
            }
        }
        ToldEntry::Refusal { line, slot, packet } => push_refusal(report, *line, *slot, *packet),
    }
}

// Appends its line.
fn push_line(report: &mut Text, told: &FrontEntry<'_>, places: bool) -> Result<(), AllocError>
    ensures { OnOk result (report.new ≡ report.old
        ++ line_of (report_entry.Line (line_shown places (entry_told told.now)))) }
{
    push_entry(report, told, places)?;
    end_line(report)
}

/// Appends the lines of entries, with places or without.
pub fn push_entries(
    report: &mut Text,
    entries: &[FrontEntry<'_>],
    places: bool,
) -> Result<(), AllocError>
    ensures { OnOk result (report.new ≡ report.old ++ lines_text places (map entry_told entries.now)) }
{
    for entry in entries {
        push_line(report, entry, places)?;
    }
    Ok(())
}
