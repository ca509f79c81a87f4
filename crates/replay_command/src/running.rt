//! A run over a trace whose lines are read by blocks in threads.
ghost use Rattle.std.specs.Prelude.{◌≡◌, ◌≤◌, []};
ghost use Rattle.pc_outside.specs.Faults.{Rises};
ghost use Rattle.trace_run.specs.Report.{Runs};
ghost use Rattle.trace_run.specs.Reporting.{SaysEpochs};

use crate::reader::BlockReader;
use pc_outside::{Sink, Source};
use std::alloc::{AllocError, Global};
use std::thread::Threads;
use trace_run::{Reporter, Status, run_report_by};

/// Reads a trace by blocks in threads, has it answered, and writes the report epoch by epoch, as
/// `trace_run::run_report` does.
pub fn run_report_in_blocks<R: Threads + Sync, S: Source, K: Sink, T: Reporter>(
    rt: &R,
    alloc: Global,
    source: &mut S,
    sink: &mut K,
    reporter: T,
) -> Status
    requires first { T.represents reporter reporter [] 0 [] [] [] [] }
    requires begins { T.begins reporter ≡ 1 }
    requires nothing { SaysEpochs (T.may_have reporter) (T.places reporter) [] [] }

    ensures runs { Runs (T.may_have reporter) (T.places reporter) result
        (Rises (S.faults source.old) (S.faults source.new)) (S.left source.old) (S.left source.new)
        (K.written sink.old) (K.written sink.new) }
    ensures no_usage { result ≡ Status.Usage → ⊥ }

    ensures source_later { S.faults source.old ≤ S.faults source.new }
    ensures sink_later { K.faults sink.old ≤ K.faults sink.new }
    ensures read_fault { result ≡ Status.ReadFault
        → Rises (S.faults source.old) (S.faults source.new) }
    ensures write_fault { result ≡ Status.WriteFault
        → Rises (K.faults sink.old) (K.faults sink.new) }
{
    match BlockReader::new(rt, alloc) {
        Ok(mut reader) => run_report_by(&mut reader, alloc, source, sink, reporter),
        Err(AllocError) => Status::NoMemory,
    }
}
