//! A trace and a report of it, as they are heard line by line, and what is found of them.

ghost use Rattle.std.specs.Prelude.{◌≡◌, ℕ, ◌+◌, ◌<◌, ◌≤◌, ◌^◌, ◌++◌, ◌∷◌, ◌↔◌, [], List, length, vec_len, None};
ghost use Rattle.std.specs.Prelude.{get_or, IfOk, OnOk};
ghost use Rattle.report_lines.specs.declared.entry.Entry.{Entry};
ghost use Rattle.audit_core.specs.Evidence.{HasHeardOf, IsCaseOf, RunsNext, weight_of};
ghost use Rattle.audit_core.specs.Findings.{IsOf};
ghost use Rattle.audit_core.specs.Judged.{Case, Epoch, HasFound, HasJudged, StandsBehind};
ghost use Rattle.audit_core.specs.Refuting.{FindsAt};
ghost use Rattle.audit_core.specs.Said.{AreEntries, report_texts, trace_said};
ghost use Rattle.audit_core.specs.Setups.{IsSetup, setup_of};
ghost use Rattle.pc_outside.specs.Texts.{Text};

use crate::NoMemory;
use crate::judge::Judge;
use crate::report::{Report, Run};
use crate::sentence::{Refutation, Sentence};
use crate::setup::Setup;
use crate::telling::at_report;
use crate::trace::Trace;
use slot_execution::KeptMeaning;
use std::alloc::Global;
use subscriber::Subscriber;
use trace_lines::TraceLine;

// The line between a trace and its report.
const MARKER: &[u8] = b"REPORT";

/// What was heard of a trace, and of the report behind it: until it is judged all of it is kept.
#[derive(Drop)]
pub struct Evidence {
    setup: Setup,
    in_report: bool,
    /// The line that was read last; its memory is kept for the next one.
    line: TraceLine,
    trace: Trace,
    report: Report,
}

impl Evidence {
    /// Nothing was heard yet.
    pub fn new(alloc: Global, setup: &Setup) -> Evidence
        requires { IsSetup setup.now }
        ensures nothing { HasHeardOf result [] }
        ensures weight { weight_of result ≡ 0 }
        ensures setup { result.setup ≡ setup.now }
    {
        Evidence {
            setup: *setup,
            in_report: false,
            line: TraceLine::new(alloc),
            trace: Trace::new(alloc, setup.slices),
            report: Report::new(alloc),
        }
    }

    /// Hears the next line of the input.
    pub fn take(&mut self, alloc: Global, text: &[u8]) -> Result<(), NoMemory>
        requires short { length text.now < 2 ^ 24 }
        requires lines { vec_len self.old.trace.kept + 1 < 2 ^ 40 }
        requires entries { self.old.report.count + 1 < 2 ^ 40 }
        requires heard { (texts : List Text) × HasHeardOf self.old texts }
        ensures heard { (texts : List Text) → HasHeardOf self.old texts
            → OnOk result (HasHeardOf self.new (texts ++ text.now ∷ [])) }
        ensures weight { OnOk result (weight_of self.new ≤ weight_of self.old + length text.now + 1) }
        ensures setup { self.new.setup ≡ self.old.setup }
    {
        if self.in_report {
            let entry = self.report.take(alloc, self.trace.ends.as_slice(), text);
            return entry;
        }
        if text == MARKER {
            self.in_report = true;
            return self.trace.close();
        }
        let taken = self.trace.take(alloc, &mut self.line, text);
        taken
    }
}

/// What refutes the report of what was heard, and where; None where nothing does.
pub fn finding_of(alloc: Global, heard: Evidence) -> Result<Option<Refutation>, NoMemory>
    requires { (texts : List Text) × HasHeardOf heard texts }

    // None exactly where the lines behind `REPORT` are those of a lawful run of the trace.
    ensures yes { (texts : List Text) (entries : List Entry) → HasHeardOf heard texts
        → AreEntries (report_texts texts) entries
        → IfOk result (λ found. (found ≡ None) ↔ IsOf (setup_of heard.setup) (trace_said texts) entries) }

    // Else the number of the first sentence that is broken, and a break of it: each is read only where those before it
    // hold.
    ensures no { (texts : List Text) → HasHeardOf heard texts
        → IfOk result (FindsAt (setup_of heard.setup) texts) }
{
    let Evidence {
        setup,
        mut trace,
        report,
        ..
    } = heard;
    if report.none {
        let place = at_report(alloc, report.count + 1)?;
        return Ok(Some(Refutation {
            sentence: Sentence::Entries,
            place,
        }));
    }
    trace.close()?;
    judge_all(alloc, setup, trace, &report)
}

// What is found of all epochs, one after another.
fn judge_all(
    alloc: Global,
    setup: Setup,
    trace: Trace,
    report: &Report,
) -> Result<Option<Refutation>, NoMemory>
    requires { (own : Case) × IsCaseOf own setup trace report.now }
    ensures { (own : Case) → IsCaseOf own setup trace report.now → IfOk result (HasFound own) }
{
    let Trace {
        mut subscribers,
        kept,
        octets,
        ends,
        ..
    } = trace;
    let outside = report.outside(alloc)?;
    let mut judge = Judge::new(alloc, setup, &outside)?;
    let lines = kept.as_slice();
    let places = ends.as_slice();
    let epochs = places.len();
    let runs = report.by_epoch(alloc, epochs)?;
    for epoch in 0..epochs {
        if judge.is_over() {
            return Ok(judge.broken);
        }
        let begin = begin_of(places, epoch);
        let end = places[epoch];
        judge_epoch(
            alloc,
            &mut judge,
            &mut subscribers,
            &lines[begin..end],
            octets.as_slice(),
            report,
            runs[epoch].as_slice(),
        )?;
    }
    judge.end(
        alloc,
        subscribers.as_slice(),
        report,
        runs[epochs].as_slice(),
    )?;
    Ok(judge.broken)
}

// How many lines stand before an epoch.
fn begin_of(ends: &[usize], epoch: usize) -> usize
    requires { epoch < length ends.now }
    ensures first { epoch ≡ 0 → result ≡ 0 }
    ensures later { (before : ℕ) → epoch ≡ before + 1 → result ≡ get_or ends.now before 0 }
{
    if epoch == 0 { 0 } else { ends[epoch - 1] }
}

// One epoch more, with the entries of these runs.
fn judge_epoch(
    alloc: Global,
    judge: &mut Judge,
    subscribers: &mut Vec<Subscriber>,
    lines: &[KeptMeaning],
    octets: &[u8],
    report: &Report,
    runs: &[Run],
) -> Result<(), NoMemory>
    requires few { vec_len subscribers.old ≤ 65533 }
    requires next { (own : Case) × (at : Epoch) × RunsNext own at octets.now lines.now report.now runs.now
        subscribers.old.items judge.old }
    ensures judged { (own : Case) (at : Epoch)
        → RunsNext own at octets.now lines.now report.now runs.now subscribers.old.items judge.old
        → OnOk result (HasJudged own (at.prefix ++ at.now ∷ []) at.left (at.told ++ at.here ∷ []) at.later
        judge.new) }
    ensures stands { (own : Case) (at : Epoch)
        → RunsNext own at octets.now lines.now report.now runs.now subscribers.old.items judge.old
        → OnOk result (StandsBehind own (at.told ++ at.here ∷ []) at.left subscribers.new.items judge.new) }
    ensures setup { OnOk result (judge.new.setup ≡ judge.old.setup) }
    ensures many { OnOk result (vec_len subscribers.new ≡ vec_len subscribers.old) }
{
    let entries = report.entries_of(alloc, runs)?;
    judge.epoch(
        alloc,
        subscribers,
        lines,
        octets,
        report,
        entries.as_slice(),
    )
}
