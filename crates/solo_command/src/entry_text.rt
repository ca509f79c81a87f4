//! The lines of a report that only a gateway of its own has: of an order to move, and of a packet handled in sequence.
ghost use Rattle.std.specs.Prelude.{◌≡◌, ◌++◌, OnOk};
ghost use Rattle.demux.specs.Texts.{move_note};
ghost use Rattle.packet_steps.specs.Lent.{verdict_of};
ghost use Rattle.report_lines.specs.declared.entry.Entry.TheVariants as entry;
ghost use Rattle.report_lines.specs.declared.entry.LineEntry.TheVariants as line_entry;
ghost use Rattle.report_lines.specs.Lent.{IsShort};
ghost use Rattle.solo_command.specs.Entries.{text_line, judged_by};

use demux::move_word;
use pc_base::{SliceNo, Slot};
use report_lines::{push_note, push_packet};
use std::alloc::AllocError;
use subscriber::Handled;
use text_fields::{Head, Text};
use trace_run::end_line;

/// Appends the entry of an order that a slot bound for a slice goes to another, or stays.
pub fn push_move(
    report: &mut Text,
    line: u64,
    bound_for: SliceNo,
    slot: Slot,
    slice: SliceNo,
) -> Result<(), AllocError>
    ensures { OnOk result (report.new ≡ report.old
        ++ text_line (entry.Line (line_entry.N
        (record { line = line; note = move_note bound_for slot slice })))) }
{
    push_note(report, line, move_word(bound_for, slice).as_bytes())?;
    let mut rest = Head::new();
    rest.put(b'\n');
    rest.put_number(u64::from(slice.0));
    rest.put_number(u64::from(slot.0));
    report.extend_from_slice(rest.as_slice())
}

/// Appends the entry of a slot's packet.
#[inline(always)]
pub fn push_handled(
    report: &mut Text,
    line: u64,
    slot: Slot,
    handled: Handled<'_>,
) -> Result<(), AllocError>
    requires { IsShort handled.judged }
    ensures { OnOk result (report.new ≡ report.old
        ++ text_line (entry.Line (line_entry.P
        (judged_by line slot handled.entry.number handled.entry.commands
        (verdict_of handled.entry.judged))))) }
{
    push_packet(
        report,
        line,
        slot,
        handled.number,
        handled.commands,
        &handled.judged,
    )?;
    end_line(report)
}
