//! The command `drive`.
ghost use Rattle.std.specs.Prelude.{◌≡◌, ◌≤◌, ℕ};
ghost use Rattle.command_words.specs.Job.{LanesInRange, TurnsInRange};
ghost use Rattle.drive_command.specs.Driven.{IsDrivenReport, turns_in};
ghost use Rattle.pc_outside.specs.Faults.{Rises};
ghost use Rattle.pepc.specs.Drive.{schedule_asked, turns_asked};
ghost use Rattle.epoch_schedule.specs.TurnsTold.{AreWorkers};
ghost use Rattle.trace_run.specs.Report.{Runs};

use command_words::{AskedTurns, Lanes};
use drive_command::Driver;
use epoch_schedule::Turns;
use pc_outside::{Sink, Source};
use std::alloc::Global;
use trace_run::{Status, run_report};

/// Reads a trace and writes its report under the schedule, epoch by epoch.
pub fn drive<S: Source, K: Sink>(
    alloc: Global,
    lanes: Lanes,
    turns: AskedTurns,
    places: bool,
    source: &mut S,
    sink: &mut K,
) -> Status
    requires lanes { LanesInRange lanes }
    requires turns { TurnsInRange lanes.slices turns }

    ensures runs { Runs (IsDrivenReport (schedule_asked lanes turns)) places result
        (Rises (S.faults source.old) (S.faults source.new)) (S.left source.old) (S.left source.new)
        (K.written sink.old) (K.written sink.new) }
    ensures no_usage { result ≡ Status.Usage → ⊥ }

    ensures source_later { S.faults source.old ≤ S.faults source.new }
    ensures sink_later { K.faults sink.old ≤ K.faults sink.new }
    ensures read_fault { result ≡ Status.ReadFault → Rises (S.faults source.old) (S.faults source.new) }
    ensures write_fault { result ≡ Status.WriteFault → Rises (K.faults sink.old) (K.faults sink.new) }
{
    let Lanes { slices, room, lane } = lanes;
    let driver = Driver::new(alloc, slices, room, lane, turns_of(alloc, turns), places);
    run_report(alloc, source, sink, driver)
}

// The turns of the schedule.
fn turns_of(alloc: Global, turns: AskedTurns) -> Turns
    ensures same { turns_in result ≡ turns_asked turns }
    ensures workers { (slices : ℕ) → TurnsInRange slices turns → AreWorkers slices result }
{
    match turns {
        AskedTurns::NoTurns => Turns::List(Vec::new(alloc)),
        AskedTurns::Listed(workers) => Turns::List(workers.into_vec()),
        AskedTurns::Drawn { seed, per } => Turns::Drawn { state: seed, per },
    }
}
