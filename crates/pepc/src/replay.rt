//! The command `replay`.
ghost use Rattle.std.specs.Prelude.{◌≡◌, ◌≤◌};
ghost use Rattle.command_words.specs.Job.{LanesInRange};
ghost use Rattle.lawful_run.specs.Trace.{IsReport};
ghost use Rattle.pc_outside.specs.Faults.{Rises};
ghost use Rattle.pepc.specs.Replay.{setup_asked};
ghost use Rattle.trace_run.specs.Report.{Runs};

use command_words::Lanes;
use pc_outside::{Sink, Source};
use replay_command::{Pace, Replayer, run_report_in_blocks};
use std::alloc::Global;
use std::sync::Wait;
use std::thread::Threads;
use trace_run::Status;

/// Reads a trace, has its epochs run over slices in threads, and writes its report, epoch by epoch. Whatever the
/// schedule of the threads, the report is a lawful one.
pub fn replay<R: Threads + Wait + Sync, S: Source, K: Sink>(
    rt: &R,
    alloc: Global,
    lanes: Lanes,
    pace: Pace,
    places: bool,
    source: &mut S,
    sink: &mut K,
) -> Status
    requires { LanesInRange lanes }

    ensures runs { Runs (IsReport (setup_asked lanes)) places result
        (Rises (S.faults source.old) (S.faults source.new)) (S.left source.old) (S.left source.new)
        (K.written sink.old) (K.written sink.new) }
    ensures no_usage { result ≡ Status.Usage → ⊥ }

    ensures source_later { S.faults source.old ≤ S.faults source.new }
    ensures sink_later { K.faults sink.old ≤ K.faults sink.new }
    ensures read_fault { result ≡ Status.ReadFault → Rises (S.faults source.old) (S.faults source.new) }
    ensures write_fault { result ≡ Status.WriteFault → Rises (K.faults sink.old) (K.faults sink.new) }
{
    let Lanes { slices, room, lane } = lanes;
    let replayer = Replayer::new(rt, alloc, slices, room, lane, pace, places);
    run_report_in_blocks(rt, alloc, source, sink, replayer)
}
