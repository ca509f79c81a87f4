//! The command `resume`: the report of a trace behind a saved state.
ghost use Rattle.std.specs.Prelude.{◌≡◌, ◌≤◌, ◌^◌, [], false, IfErr, IfOk};
ghost use Rattle.std.specs.Io.KnownBytes.{prepend_known};
ghost use Rattle.pc_outside.specs.Faults.{Rises};
ghost use Rattle.pc_outside.specs.WhereTold.{WhereTold};
ghost use Rattle.trace_run.specs.Report.{RunsFrom};
ghost use Rattle.record_codec.specs.StateReading.{HasFound};
ghost use Rattle.solo_command.specs.Reports.{IsResumed};
ghost use Rattle.solo_command.specs.Resumes.{Resumes, StoppedFirst, begins_at};

use pc_outside::{LineBuf, Sink, Source};
use record_codec::{StateFile, StateRead, read_state};
use solo_command::Resumer;
use std::alloc::{AllocError, Global};
use trace_run::{Status, run_report_behind};

// The state that the input begins with; where there is none, how the run ends.
fn state_before<S: Source>(
    alloc: Global,
    source: &mut S,
    buf: &mut LineBuf,
) -> Result<StateFile, Status>
    requires fresh { buf.old ≡ record { line = []; last = false; buffered = []; room = 2 ^ 40 } }

    ensures found { IfOk result (λ file. WhereTold (S.left source.old)
        (prepend_known buf.new.buffered (S.left source.new)) (λ octets rest. HasFound file octets rest buf.new.room)) }
    ensures room { IfOk result (λ file. buf.new.room ≤ 2 ^ 40) }
    ensures stopped { IfErr result (λ ending. WhereTold (S.left source.old) (S.left source.new)
        (StoppedFirst ending)) }
    ensures no_usage { IfErr result (λ ending. ending ≡ Status.Usage → ⊥) }
    ensures no_write { IfErr result (λ ending. ending ≡ Status.WriteFault → ⊥) }

    ensures later { S.faults source.old ≤ S.faults source.new }
    ensures fault { IfErr result (λ ending. ending ≡ Status.ReadFault
        → Rises (S.faults source.old) (S.faults source.new)) }
{
    match read_state(alloc, source, buf) {
        Ok(StateRead::Found(file)) => Ok(file),
        Ok(StateRead::BadState) => Err(Status::BadState),
        Ok(StateRead::ReadFault) => Err(Status::ReadFault),
        Ok(StateRead::LineLong) => Err(Status::LineLong),
        Ok(StateRead::TooLong) => Err(Status::TooLong),
        Err(AllocError) => Err(Status::NoMemory),
    }
}

// Answers the trace behind a state, and writes its report.
fn go_on<S: Source, K: Sink>(
    alloc: Global,
    file: StateFile,
    buf: &mut LineBuf,
    source: &mut S,
    sink: &mut K,
) -> Status
    requires room { buf.old.room ≤ 2 ^ 40 }

    ensures runs { RunsFrom (begins_at file buf.old.room) (IsResumed 64 file) false result
        (Rises (S.faults source.old) (S.faults source.new)) (prepend_known buf.old.buffered (S.left source.old))
        (S.left source.new) (K.written sink.old) (K.written sink.new) }
    ensures no_usage { result ≡ Status.Usage → ⊥ }

    ensures source_later { S.faults source.old ≤ S.faults source.new }
    ensures sink_later { K.faults sink.old ≤ K.faults sink.new }
    ensures read_fault { result ≡ Status.ReadFault → Rises (S.faults source.old) (S.faults source.new) }
    ensures write_fault { result ≡ Status.WriteFault → Rises (K.faults sink.old) (K.faults sink.new) }
{
    let lines = file.lines;
    let least = file.moment;
    let resumer = Resumer::behind(alloc, file);
    run_report_behind(buf, alloc, source, sink, resumer, lines, least)
}

/// Does the command `resume`: reads a saved state from the source and a trace behind it, and writes the report of the
/// trace to the sink, as the subscribers of the state answer it.
pub fn resume<S: Source, K: Sink>(alloc: Global, source: &mut S, sink: &mut K) -> Status
    ensures resumes { Resumes result (Rises (S.faults source.old) (S.faults source.new)) (S.left source.old)
        (S.left source.new) (K.written sink.old) (K.written sink.new) }
    ensures no_usage { result ≡ Status.Usage → ⊥ }

    ensures source_later { S.faults source.old ≤ S.faults source.new }
    ensures sink_later { K.faults sink.old ≤ K.faults sink.new }
    ensures read_fault { result ≡ Status.ReadFault → Rises (S.faults source.old) (S.faults source.new) }
    ensures write_fault { result ≡ Status.WriteFault → Rises (K.faults sink.old) (K.faults sink.new) }
{
    let mut buf = match LineBuf::new(alloc) {
        Ok(buf) => buf,
        Err(AllocError) => return Status::NoMemory,
    };
    match state_before(alloc, source, &mut buf) {
        Ok(file) => go_on(alloc, file, &mut buf, source, sink),
        Err(ending) => ending,
    }
}
