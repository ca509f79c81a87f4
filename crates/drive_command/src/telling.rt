//! The text of what is told of the lines of an epoch.
ghost use Rattle.std.specs.Prelude.{◌≡◌, ◌++◌, map, OnOk};
ghost use Rattle.epoch_drive.specs.Telling.{AreShort, IsShortEntry, line_told};
ghost use Rattle.report_lines.specs.declared.entry.Entry.TheVariants as entry;
ghost use Rattle.report_lines.specs.Text.{entry_text, line_shown};
ghost use Rattle.trace_run.specs.Entries.{line_of, lines_text};

use epoch_drive::DrivenEntry;
use report_lines::{push_answer, push_note, push_packet, push_placed, push_refusal};
use slot_execution::ToldEntry;
use std::alloc::AllocError;
use text_fields::Text;
use trace_run::end_line;

// Appends an entry, with its place or without.
fn push_entry(report: &mut Text, told: &DrivenEntry<'_>, places: bool) -> Result<(), AllocError>
    requires { IsShortEntry told.now }
    ensures { OnOk result (report.new
        ≡ report.old ++ entry_text (entry.Line (line_shown places (line_told told.now)))) }
{
    match told {
        ToldEntry::Note { line, text } => push_note(report, *line, text),
        ToldEntry::Answer {
            line,
            slot,
            number,
            reply,
        } => push_answer(report, *line, *slot, *number, reply),
        ToldEntry::Judgement {
            line,
            slot,
            number,
            commands,
            verdict,
            place,
            parked,
        } => {
            if places {
                push_placed(
                    report, *line, *slot, *number, *commands, verdict, *place, *parked,
                )
            } else {
                push_packet(report, *line, *slot, *number, *commands, verdict)
            }
        }
        ToldEntry::Refusal { line, slot, packet } => push_refusal(report, *line, *slot, *packet),
    }
}

// Appends its line.
fn push_line(report: &mut Text, told: &DrivenEntry<'_>, places: bool) -> Result<(), AllocError>
    requires { IsShortEntry told.now }
    ensures { OnOk result (report.new ≡ report.old ++ line_of (entry.Line (line_shown places (line_told told.now)))) }
{
    push_entry(report, told, places)?;
    end_line(report)
}

/// Appends the lines of entries, with places or without.
pub fn push_lines(
    report: &mut Text,
    told: &[DrivenEntry<'_>],
    places: bool,
) -> Result<(), AllocError>
    requires { AreShort told.now }
    ensures { OnOk result (report.new ≡ report.old ++ lines_text places (map line_told told.now)) }
{
    for entry in told {
        push_line(report, entry, places)?;
    }
    Ok(())
}
