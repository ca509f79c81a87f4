//! An epoch is run.
ghost use Rattle.std.specs.Prelude.{◌≡◌, ◌+◌, ◌≤◌, ◌^◌, All, List, length, count_by, IfOk};
ghost use Rattle.trace_lines.specs.Line.{Line};
ghost use Rattle.lawful_run.specs.Accepted.{is_refused};
ghost use Rattle.lawful_run.specs.Merging.{Histories};
ghost use Rattle.at_rest.specs.Coming.{AreLater, latest_behind};
ghost use Rattle.at_rest.specs.Rest.{IsBehind, RepresentsAll};
ghost use Rattle.front_core.specs.Closing.{Closes};
ghost use Rattle.front_core.specs.Filled.{told_by};
ghost use Rattle.front_core.specs.Placed.{IsEntryBelow};
ghost use Rattle.slice_core.specs.Lines.{Counted, is_answered};
ghost use Rattle.slice_core.specs.Serving.{AreServed, Serves};

use crate::served::{Places, Posts, ServedEpoch, serve};
use crate::{Gate, NoMemory, Pace};
use at_rest::AtRest;
use front_core::{Ended, Front, close};
use std::alloc::Global;
use std::sync::Wait;
use std::thread::{self, Threads};
use trace_lines::TraceLine;

/// Runs an epoch of these lines over the gateway's slices, each with a thread of its own. A command or packet that
/// finds its queue or lane full is tried again as often as `patience` says. Behind the last line the front pumps until
/// workers find nothing more to do, at most as often as `linger` says, before they are stopped. Workers whose thread
/// can't be started, or runs out of memory, stop early, and what they left is done when the epoch is closed. Out of
/// memory at the front the gateway is given up.
pub fn run_epoch<'p, G: Gate, R: Threads + Wait + Sync>(
    rt: &'p R,
    alloc: Global,
    rest: AtRest,
    lines: &'p [TraceLine],
    pace: Pace,
    gate: &'p G,
) -> Result<Ended<'p>, NoMemory>
    requires behind { (prior : List Line) × IsBehind rest prior }
    requires represents { (before : Histories) × RepresentsAll rest before }
    requires few { rest.lines + length lines.now ≤ 2 ^ 39 }
    requires later { AreLater rest.latest lines.now }

    // Whatever the threads' schedule was, the report is a lawful epoch's, and the gateway at rest represents the
    // events behind it.
    ensures closes { IfOk result (λ ended. Closes rest lines.now ended.rest (told_by ended.epoch)) }
    ensures count { IfOk result (λ ended. ended.rest.lines ≡ rest.lines + length lines.now) }
    ensures latest { IfOk result (λ ended. ended.rest.latest ≡ latest_behind rest.latest lines.now) }

    // Each refusal is as many tries that were answered Full as `patience` says, and one; a command or packet that was
    // accepted had at most as many of them as `patience` says. Of nothing else is the count of full answers.
    ensures refusals { IfOk result (λ ended. Counted (pace.patience + 1)
        (count_by is_refused (told_by ended.epoch).lines) (count_by is_answered (told_by ended.epoch).lines)
        rest.fulls ended.rest.fulls) }

    // Each packet was handled at one of the slices, or as the epoch was closed.
    ensures placed { IfOk result (λ ended. All (IsEntryBelow rest.slices) (told_by ended.epoch).lines) }
{
    let opened = Front::open(alloc, rest)?;
    let slices = opened.controls.len();
    let places = Places::new(alloc, slices)?;
    let posts = Posts::new(alloc, slices)?;
    let shared = &posts;
    let served = thread::scope(
        thread::scope_env(),
        rt,
        |scope| -> ServedEpoch<'_>
            requires { AreServed opened places shared.now lines.now }
            ensures { Serves opened.entry (pace.patience + 1) lines.entry.now result }
        { serve(scope, rt, alloc, opened, places, shared, lines, pace, gate) },
    );
    close(rt, served.front?, served.controls, served.datas)
}
