//! An epoch, run over slices and told.
ghost use Rattle.std.specs.Prelude.{◌≡◌, ◌+◌, ◌≤◌, ◌^◌, ◌++◌, [], List, length, OnOk};
ghost use Rattle.trace_lines.specs.Line.{Line};
ghost use Rattle.lawful_run.specs.Merging.{Histories};
ghost use Rattle.at_rest.specs.Coming.{AreLater};
ghost use Rattle.at_rest.specs.Rest.{IsBehind, RepresentsAll};
ghost use Rattle.front_core.specs.Filled.{told_by};
ghost use Rattle.trace_run.specs.Entries.{closing_text, lines_text};
ghost use Rattle.trace_run.specs.Noted.{noted};
ghost use Rattle.replay_command.specs.Epoch.{IsReplayed};

use crate::push_blocks;
use at_rest::AtRest;
use front_core::{Ended, FrontEpoch};
use slice_core::{OpenGate, Pace, run_epoch};
use slot_execution::ToldEpoch;
use std::alloc::{AllocError, Global};
use std::mem;
use std::sync::Wait;
use std::thread::Threads;
use text_fields::Text;
use trace_lines::{LineBad, TraceLine};
use trace_run::push_closing;

// Appends what is told of an epoch, with the note of a bad line of this number behind the entries of its lines.
fn tell<'p, R: Threads + Sync>(
    rt: &R,
    alloc: Global,
    report: &mut Text,
    epoch: FrontEpoch<'p>,
    bad: Option<LineBad>,
    number: u64,
    places: bool,
    buffers: &mut Vec<Text>,
) -> Result<(), AllocError>
    ensures { OnOk result (report.new ≡ report.old ++ (lines_text places (told_by epoch.entry).lines
        ++ lines_text places (noted bad number) ++ closing_text places (told_by epoch.entry))) }
{
    let ToldEpoch {
        lines,
        effects,
        rows,
    } = epoch;
    push_blocks(rt, alloc, lines, places, buffers, report)?;
    push_closing(report, bad, number, effects.as_slice(), rows.as_slice())
}

/// Runs the lines of the open epoch over the slices, and appends its text, with the note of a bad line of this number
/// behind the entries of its lines. Then the next epoch is open, and the gateway at rest. Texts of blocks of entries
/// are made in the buffers.
pub(crate) fn replay_lines<R: Threads + Wait + Sync>(
    rt: &R,
    rest: &mut AtRest,
    lines: &mut Vec<TraceLine>,
    pace: Pace,
    bad: Option<LineBad>,
    number: u64,
    places: bool,
    buffers: &mut Vec<Text>,
    report: &mut Text,
) -> Result<(), AllocError>
    requires behind { (prior : List Line) × IsBehind rest.old prior }
    requires represents { (before : Histories) × RepresentsAll rest.old before }
    requires few { rest.old.lines + length lines.old.items ≤ 2 ^ 39 }
    requires late { AreLater rest.old.latest lines.old.items }

    ensures replayed { OnOk result (IsReplayed rest.old lines.old.items pace bad number places report.old report.new
        rest.new) }
    ensures emptied { OnOk result (lines.new.items ≡ []) }
{
    let gate = OpenGate;
    replay_lent(
        rt,
        rest,
        lines.as_slice(),
        pace,
        bad,
        number,
        places,
        buffers,
        report,
        &gate,
    )?;
    lines.clear();
    Ok(())
}

// The same of lines that lend their octets till their text is made.
fn replay_lent<'p, R: Threads + Wait + Sync>(
    rt: &'p R,
    rest: &mut AtRest,
    lines: &'p [TraceLine],
    pace: Pace,
    bad: Option<LineBad>,
    number: u64,
    places: bool,
    buffers: &mut Vec<Text>,
    report: &mut Text,
    gate: &'p OpenGate,
) -> Result<(), AllocError>
    requires behind { (prior : List Line) × IsBehind rest.old prior }
    requires represents { (before : Histories) × RepresentsAll rest.old before }
    requires few { rest.old.lines + length lines.now ≤ 2 ^ 39 }
    requires late { AreLater rest.old.latest lines.now }

    ensures { OnOk result (IsReplayed rest.old lines.now pace bad number places report.old report.new rest.new) }
{
    let alloc = *buffers.allocator();
    let given = mem::replace(rest, AtRest::new(alloc, 1, 1, 1));
    let Ended { epoch, rest: left } = run_epoch(rt, alloc, given, lines, pace, gate)?;
    *rest = left;
    tell(rt, alloc, report, epoch, bad, number, places, buffers)?;
    Ok(())
}
