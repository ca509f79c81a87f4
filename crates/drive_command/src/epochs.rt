//! An epoch, driven and told.
ghost use Rattle.std.specs.Prelude.{◌≡◌, ◌++◌, List, OnOk};
ghost use Rattle.trace_lines.specs.Line.{Line};
ghost use Rattle.lawful_run.specs.Report.{EpochReport};
ghost use Rattle.epoch_schedule.specs.TurnsTold.{AreWorkers};
ghost use Rattle.at_rest.specs.Rest.{Rest};
ghost use Rattle.epoch_drive.specs.Taken.{HasTaken, MayCome};
ghost use Rattle.epoch_drive.specs.Telling.{AreShort, told_by};
ghost use Rattle.trace_run.specs.Entries.{closing_text, lines_text};
ghost use Rattle.trace_run.specs.Noted.{noted};
ghost use Rattle.drive_command.specs.Driven.{Schedule};
ghost use Rattle.drive_command.specs.Standing.{DroveLines, Stands};

use crate::telling::push_lines;
use epoch_drive::{DrivenEpoch, DrivenGateway, EpochLines};
use epoch_schedule::Turns;
use std::alloc::AllocError;
use text_fields::Text;
use trace_lines::LineBad;
use trace_run::push_closing;

// Appends what is told of an epoch, with the note of a bad line of this number behind the entries of its lines.
fn tell(
    report: &mut Text,
    epoch: &DrivenEpoch<'_>,
    bad: Option<LineBad>,
    number: u64,
    places: bool,
) -> Result<(), AllocError>
    requires { AreShort epoch.now.lines.items }
    ensures { OnOk result (report.new ≡ report.old ++ (lines_text places (told_by epoch.now).lines
        ++ lines_text places (noted bad number) ++ closing_text places (told_by epoch.now))) }
{
    push_lines(report, epoch.lines.as_slice(), places)?;
    push_closing(
        report,
        bad,
        number,
        epoch.effects.as_slice(),
        epoch.rows.as_slice(),
    )
}

/// Drives the lines of the open epoch, and appends its text, with the note of a bad line of this number behind the
/// entries of its lines. Then the next epoch is open.
pub fn drive_lines(
    gateway: &mut DrivenGateway,
    lines: &mut EpochLines,
    turns: &mut Turns,
    bad: Option<LineBad>,
    number: u64,
    places: bool,
    report: &mut Text,
) -> Result<(), AllocError>
    requires { (start : Rest) × (taken : List Line) × (HasTaken start taken gateway.old lines.old
        × MayCome start taken × AreWorkers start.slices turns.old) }

    ensures { (start : Rest) (taken : List Line) (schedule : Schedule) (closed : List (List Line))
        (told : List EpochReport) → HasTaken start taken gateway.old lines.old → MayCome start taken
        → AreWorkers start.slices turns.old → Stands schedule start turns.old closed told
        → OnOk result (DroveLines schedule start turns.old closed told taken bad number places report.old
        report.new gateway.new lines.new turns.new) }
{
    let epoch = gateway.drive(lines, turns)?;
    tell(report, &epoch, bad, number, places)?;
    drop(epoch);
    gateway.begin(lines)
}
