//! All commands of the program that need no threads.
ghost use Rattle.std.specs.Prelude.{◌≡◌, ◌≤◌, ◌⊎◌, ℕ, Bool, None, Some, map};
ghost use Rattle.std.specs.String.{string_bytes};
ghost use Rattle.command_words.specs.Job.{IsInRange, job_of};
ghost use Rattle.pc_outside.specs.Faults.{Rises};
ghost use Rattle.pepc.specs.Jobs.{Completes, Does, plain_job, without_threads};

use crate::along::along;
use crate::audit::audit;
use crate::drive::drive;
use crate::export::export;
use crate::import::import;
use crate::make::make;
use crate::resume::resume;
use audit_core::Setup;
use balance_plan::balance;
use command_words::{Job, job};
use pc_outside::{Sink, Source};
use record_codec::lines_say_one_state;
use save_command::save;
use solo_command::run_solo;
use std::alloc::{AllocError, Global};
use trace_run::Status;

/// Does a job without threads; one that starts some is Usage.
pub(crate) fn do_job<S: Source, K: Sink>(
    alloc: Global,
    asked: Job,
    source: &mut S,
    sink: &mut K,
) -> Status
    requires { IsInRange asked }

    ensures does { Does (without_threads asked) result (Rises (S.faults source.old) (S.faults source.new))
        (S.left source.old) (S.left source.new) (K.written sink.old) (K.written sink.new) }
    ensures usage { result ≡ Status.Usage → without_threads asked ≡ None }
    ensures no_job { without_threads asked ≡ None → result ≡ Status.Usage }
    ensures untouched { without_threads asked ≡ None → (source.new ≡ source.old) × (sink.new ≡ sink.old) }
    ensures unread { (seed subs lines : ℕ) (summary : Bool) → asked ≡ Job.Make seed subs lines summary
        → source.new ≡ source.old }

    ensures source_later { S.faults source.old ≤ S.faults source.new }
    ensures sink_later { K.faults sink.old ≤ K.faults sink.new }
    ensures read_fault { result ≡ Status.ReadFault → Rises (S.faults source.old) (S.faults source.new) }
    ensures write_fault { result ≡ Status.WriteFault → Rises (K.faults sink.old) (K.faults sink.new) }
{
    match asked {
        Job::Solo => run_solo(alloc, source, sink),
        Job::Drive {
            lanes,
            turns,
            places,
        } => drive(alloc, lanes, turns, places, source, sink),
        Job::Replay { .. } => Status::Usage,
        Job::Make {
            seed,
            subs,
            lines,
            summary,
        } => make(alloc, seed, subs, lines, summary, sink),
        Job::Import => import(alloc, source, sink),
        Job::Export => export(alloc, source, sink),
        Job::Audit {
            solo,
            slices,
            room,
            lane,
            why,
        } => {
            let setup = Setup {
                solo,
                slices,
                room,
                lane,
            };
            audit(alloc, &setup, why, source, sink)
        }
        Job::Along {
            solo,
            slices,
            room,
            lane,
            why,
        } => {
            let setup = Setup {
                solo,
                slices,
                room,
                lane,
            };
            along(alloc, &setup, why, source, sink)
        }
        Job::Balance { slices, most } => balance(alloc, slices, most, source, sink),
        Job::Save => save(alloc, source, sink),
        Job::Resume => resume(alloc, source, sink),
    }
}

/// Does what the arguments say, without the program's name. `solo` and `drive` read a trace from the source and write
/// its report to the sink, epoch by epoch, as one thread answers it or under a schedule of turns; `make` writes a
/// generated trace, or the summary of its report; `import` makes a trace of a capture, and `export` a capture of a
/// trace; `audit` reads a trace and a report of it, and writes whether the report is a lawful one, with `--along` of
/// each piece as it is read, and `balance` the trace with planned moves; `save` writes the state that a trace leaves,
/// and `resume` the report of a trace behind a state. Other arguments are Usage, and so is `replay`, which starts
/// threads.
pub fn run_plain<S: Source, K: Sink>(
    alloc: Global,
    arguments: &[String],
    source: &mut S,
    sink: &mut K,
) -> Status
    // The arguments decide whether anything is done. Memory may run out before they are read.
    ensures usage { result ≡ Status.Usage → plain_job (job_of (map string_bytes arguments.now)) ≡ None }
    ensures no_job { plain_job (job_of (map string_bytes arguments.now)) ≡ None
        → (result ≡ Status.Usage) ⊎ (result ≡ Status.NoMemory) }

    // Arguments that ask for no job touch nothing.
    ensures untouched { plain_job (job_of (map string_bytes arguments.now)) ≡ None
        → (source.new ≡ source.old) × (sink.new ≡ sink.old) }

    // `make` reads nothing.
    ensures unread { (seed subs lines : ℕ) (summary : Bool)
        → job_of (map string_bytes arguments.now) ≡ Some (Job.Make seed subs lines summary) → source.new ≡ source.old }

    // What is written is that of the job and the status, where source and sink tell their octets.
    ensures report { Does (plain_job (job_of (map string_bytes arguments.now))) result
        (Rises (S.faults source.old) (S.faults source.new)) (S.left source.old) (S.left source.new)
        (K.written sink.old) (K.written sink.new) }

    // Where no count of faults rose, the job is done, unless memory ran out.
    ensures complete { ¬ Rises (S.faults source.old) (S.faults source.new)
        → ¬ Rises (K.faults sink.old) (K.faults sink.new)
        → Completes (plain_job (job_of (map string_bytes arguments.now))) result (S.left source.old) }

    // Faults are those of the source and the sink.
    ensures source_later { S.faults source.old ≤ S.faults source.new }
    ensures sink_later { K.faults sink.old ≤ K.faults sink.new }
    ensures read_fault { result ≡ Status.ReadFault → Rises (S.faults source.old) (S.faults source.new) }
    ensures write_fault { result ≡ Status.WriteFault → Rises (K.faults sink.old) (K.faults sink.new) }
{
    lines_say_one_state();
    match job(alloc, arguments) {
        Ok(Some(asked)) => do_job(alloc, asked, source, sink),
        Ok(None) => Status::Usage,
        Err(AllocError) => Status::NoMemory,
    }
}
