//! All commands of the program, those that start threads too.
ghost use Rattle.std.specs.Prelude.{◌≡◌, ◌≤◌, ◌⊎◌, ℕ, Bool, None, Some, map};
ghost use Rattle.std.specs.String.{string_bytes};
ghost use Rattle.command_words.specs.Job.{IsInRange, job_of};
ghost use Rattle.pc_outside.specs.Faults.{Rises};
ghost use Rattle.pepc.specs.Jobs.{Completes, Does};

use crate::plain::do_job;
use crate::replay::replay;
use command_words::{Job, job};
use pc_outside::{Sink, Source};
use record_codec::lines_say_one_state;
use replay_command::Pace;
use std::alloc::{AllocError, Global};
use std::sync::Wait;
use std::thread::Threads;
use trace_run::Status;

// Does a job, with threads where it starts some.
fn run_job<R: Threads + Wait + Sync, S: Source, K: Sink>(
    rt: &R,
    alloc: Global,
    asked: Job,
    source: &mut S,
    sink: &mut K,
) -> Status
    requires { IsInRange asked }

    ensures does { Does (Some asked) result (Rises (S.faults source.old) (S.faults source.new)) (S.left source.old)
        (S.left source.new) (K.written sink.old) (K.written sink.new) }
    ensures no_usage { result ≡ Status.Usage → ⊥ }
    ensures unread { (seed subs lines : ℕ) (summary : Bool) → asked ≡ Job.Make seed subs lines summary
        → source.new ≡ source.old }

    ensures source_later { S.faults source.old ≤ S.faults source.new }
    ensures sink_later { K.faults sink.old ≤ K.faults sink.new }
    ensures read_fault { result ≡ Status.ReadFault → Rises (S.faults source.old) (S.faults source.new) }
    ensures write_fault { result ≡ Status.WriteFault → Rises (K.faults sink.old) (K.faults sink.new) }
{
    match asked {
        Job::Replay {
            lanes,
            patience,
            linger,
            places,
        } => {
            let pace = Pace { patience, linger };
            replay(rt, alloc, lanes, pace, places, source, sink)
        }
        other => do_job(alloc, other, source, sink),
    }
}

/// Does what the arguments say, without the program's name: `replay` reads a trace from the source, runs it epoch by
/// epoch over slices in threads, and writes its report to the sink; all others are as `run_plain` does them. Other
/// arguments are Usage.
///
/// For every trace and every schedule of the threads: each accepted packet of a subscriber is handled exactly once, in
/// order of acceptance, across any number of migrations; its verdict and octets are those of the one-thread gateway
/// after a prefix of that subscriber's commands that never shrinks; charging records and open counters equal the
/// forwarded volume. A packet is parked only where its subscriber was moved before it in the epoch and all its packets
/// since the last move were parked too; a line is refused only where its queue or lane could be full. That is what
/// `Does` says of `replay`: what is written are the texts of a lawful run of the trace. No clause says that a run ends.
pub fn run_words<R: Threads + Wait + Sync, S: Source, K: Sink>(
    rt: &R,
    alloc: Global,
    arguments: &[String],
    source: &mut S,
    sink: &mut K,
) -> Status
    // The arguments decide whether anything is done. Memory may run out before they are read.
    ensures usage { result ≡ Status.Usage → job_of (map string_bytes arguments.now) ≡ None }
    ensures no_job { job_of (map string_bytes arguments.now) ≡ None
        → (result ≡ Status.Usage) ⊎ (result ≡ Status.NoMemory) }

    // Arguments that ask for no job touch nothing.
    ensures untouched { job_of (map string_bytes arguments.now) ≡ None
        → (source.new ≡ source.old) × (sink.new ≡ sink.old) }

    // `make` reads nothing.
    ensures unread { (seed subs lines : ℕ) (summary : Bool)
        → job_of (map string_bytes arguments.now) ≡ Some (Job.Make seed subs lines summary) → source.new ≡ source.old }

    // For every schedule of the threads what is written is that of the job and the status, where source and sink tell
    // their octets.
    ensures report { Does (job_of (map string_bytes arguments.now)) result
        (Rises (S.faults source.old) (S.faults source.new)) (S.left source.old) (S.left source.new)
        (K.written sink.old) (K.written sink.new) }

    // Where no count of faults rose, the job is done, unless memory ran out.
    ensures complete { ¬ Rises (S.faults source.old) (S.faults source.new)
        → ¬ Rises (K.faults sink.old) (K.faults sink.new)
        → Completes (job_of (map string_bytes arguments.now)) result (S.left source.old) }

    // Faults are those of the source and the sink.
    ensures source_later { S.faults source.old ≤ S.faults source.new }
    ensures sink_later { K.faults sink.old ≤ K.faults sink.new }
    ensures read_fault { result ≡ Status.ReadFault → Rises (S.faults source.old) (S.faults source.new) }
    ensures write_fault { result ≡ Status.WriteFault → Rises (K.faults sink.old) (K.faults sink.new) }
{
    lines_say_one_state();
    match job(alloc, arguments) {
        Ok(Some(asked)) => run_job(rt, alloc, asked, source, sink),
        Ok(None) => Status::Usage,
        Err(AllocError) => Status::NoMemory,
    }
}
