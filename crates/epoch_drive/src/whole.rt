//! A whole epoch, driven by one call.
ghost use Rattle.std.specs.Prelude.{◌≡◌, ℕ, ◌+◌, ◌≤◌, ◌^◌, ◌++◌, List, length, IfOk, OnOk};
ghost use Rattle.trace_lines.specs.Line.{Line};
ghost use Rattle.lawful_run.specs.Trace.{meant_from};
ghost use Rattle.lawful_run.specs.Merging.{Histories, behind};
ghost use Rattle.lawful_run.specs.Run.{told_in};
ghost use Rattle.at_rest.specs.Rest.{IsBehind, RepresentsAll, Rest, bound_at};
ghost use Rattle.epoch_schedule.specs.TurnsTold.{AreWorkers, turns_behind, turns_told};
ghost use Rattle.epoch_drive.specs.Driven.{IsDriven};
ghost use Rattle.epoch_drive.specs.Runs.{bounds_behind};
ghost use Rattle.at_rest.specs.Coming.{AreLater, latest_behind};
ghost use Rattle.epoch_drive.specs.Lines.{rooms_of};
ghost use Rattle.epoch_drive.specs.Taken.{HasTaken, IsResting, rest_of};
ghost use Rattle.epoch_drive.specs.Telling.{AreShort, told_by};

use crate::{DrivenEpoch, DrivenGateway, EpochLines};
use at_rest::{AtRest, Sizes};
use epoch_schedule::Turns;
use std::alloc::AllocError;
use trace_lines::TraceLine;

/// Drives the lines of an epoch, behind each of them the turns: what is told of them is lent from where they are
/// kept. Lines are counted on from those before, and are at most 2^39 in all. Out of memory, nothing of the gateway
/// is left, and drawn turns may have gone on.
pub fn drive_epoch<'a>(
    rest: AtRest,
    lines: &[TraceLine],
    kept: &'a mut EpochLines,
    turns: &mut Turns,
) -> Result<(AtRest, DrivenEpoch<'a>), AllocError>
    requires workers { AreWorkers rest.slices turns.old }
    requires later { AreLater rest.latest lines.now }
    requires few { rest.lines + length lines.now ≤ 2 ^ 39 }

    // The entries are those of the driven epoch: from where the subscribers stand and are bound for, by
    // what the lines mean behind those before them, under the turns. Effects and charging records are
    // those of as many slots as the book has, or more.
    ensures driven { (prior : List Line) (before : Histories) (slots : ℕ) → IsBehind rest prior
        → RepresentsAll rest before
        → IfOk result (λ driven. length driven.0.book ≤ slots → IsDriven (rooms_of rest) (bound_at rest)
        (turns_told turns.old rest.slices (length lines.now)) slots (rest.lines + 1) before
        (meant_from rest.slices prior lines.now) (told_by driven.1)) }

    // The gateway at rest represents the events behind the epoch, and is what all lines leave.
    ensures represents { (prior : List Line) (before : Histories) → IsBehind rest prior → RepresentsAll rest before
        → IfOk result (λ driven. RepresentsAll driven.0 (behind before
        (told_in (meant_from rest.slices prior lines.now) (told_by driven.1)))) }
    ensures behind { (prior : List Line) → IsBehind rest prior
        → IfOk result (λ driven. IsBehind driven.0 (prior ++ lines.now)) }
    ensures bounds { (prior : List Line) → IsBehind rest prior → IfOk result (λ driven. (slot : ℕ)
        → bound_at driven.0 slot ≡ bounds_behind (bound_at rest) (meant_from rest.slices prior lines.now) slot) }
    ensures setup { IfOk result (λ driven. (driven.0.slices ≡ rest.slices) × (driven.0.room ≡ rest.room)
        × (driven.0.lane ≡ rest.lane) × (driven.0.fulls ≡ rest.fulls)) }
    ensures lines { IfOk result (λ driven. driven.0.lines ≡ rest.lines + length lines.now) }
    ensures latest { IfOk result (λ driven. driven.0.latest ≡ latest_behind rest.latest lines.now) }

    // Each verdict can be written.
    ensures short { IfOk result (λ driven. AreShort driven.1.lines.items) }

    // Listed turns stay, and drawn ones go on.
    ensures turns { OnOk result (turns.new ≡ turns_behind turns.old (length lines.now)) }
{
    let fulls = rest.fulls;
    let mut gateway = DrivenGateway::of(rest);
    take_all(&mut gateway, kept, lines)?;
    let epoch = gateway.drive(kept, turns)?;
    Ok((rest_again(gateway, fulls), epoch))
}

// Takes the lines of an epoch.
fn take_all(
    gateway: &mut DrivenGateway,
    kept: &mut EpochLines,
    lines: &[TraceLine],
) -> Result<(), AllocError>
    requires { (rest : Rest) × IsResting rest gateway.old }
    ensures { (rest : Rest) → IsResting rest gateway.old → OnOk result (HasTaken rest lines.now gateway.new kept.new) }
{
    gateway.begin(kept)?;
    for line in lines {
        gateway.take(kept, line)?;
    }
    Ok(())
}

// The gateway at rest, which had so many tries of lines that were answered Full.
fn rest_again(gateway: DrivenGateway, fulls: u64) -> AtRest
    requires resting { IsResting (rest_of gateway) gateway }
    requires room { (1 ≤ gateway.room) × (gateway.room ≤ 256) }
    requires lane { (1 ≤ gateway.lane) × (gateway.lane ≤ 16384) }
    requires few { gateway.lines ≤ 2 ^ 39 }
    ensures { result ≡ record (rest_of gateway) { fulls = fulls } }
{
    let DrivenGateway {
        slices,
        room,
        lane,
        book,
        subscribers,
        lines,
        latest,
    } = gateway;
    AtRest {
        sizes: Sizes { slices, room, lane },
        book,
        subscribers,
        lines,
        latest,
        fulls,
    }
}
