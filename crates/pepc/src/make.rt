//! The command `make`: a generated trace, or the summary of its report.
ghost use Rattle.std.specs.Prelude.{◌≡◌, ◌≤◌, true, false};
ghost use Rattle.pc_outside.specs.Faults.{Rises};
ghost use Rattle.pepc.specs.Make.{Makes};

use crate::summary::counted;
use pc_outside::{Sink, Unwritten, WriteFault, write_whole};
use report_lines::push_summary;
use std::alloc::{AllocError, Global};
use trace_run::Status;

/// Writes the trace of this seed, so many subscribers and so many lines to the sink, or the summary of
/// its report.
pub fn make<K: Sink>(
    alloc: Global,
    seed: u64,
    subs: u32,
    lines: u32,
    summary: bool,
    sink: &mut K,
) -> Status
    requires some { 1 ≤ subs }
    requires slots { subs ≤ 65533 }
    requires most { lines ≤ 100000 }

    ensures makes { Makes seed subs lines summary result (K.written sink.old) (K.written sink.new) }
    ensures no_usage { result ≡ Status.Usage → ⊥ }
    ensures no_read { result ≡ Status.ReadFault → ⊥ }

    ensures sink_later { K.faults sink.old ≤ K.faults sink.new }
    ensures write_fault { result ≡ Status.WriteFault → Rises (K.faults sink.old) (K.faults sink.new) }
{
    if summary {
        write_summary(alloc, seed, subs, lines, sink)
    } else {
        write_trace(alloc, seed, subs, lines, sink)
    }
}

fn write_trace<K: Sink>(alloc: Global, seed: u64, subs: u32, lines: u32, sink: &mut K) -> Status
    requires some { 1 ≤ subs }
    requires slots { subs ≤ 65533 }
    requires most { lines ≤ 100000 }

    ensures makes { Makes seed subs lines false result (K.written sink.old) (K.written sink.new) }
    ensures no_usage { result ≡ Status.Usage → ⊥ }
    ensures no_read { result ≡ Status.ReadFault → ⊥ }

    ensures later { K.faults sink.old ≤ K.faults sink.new }
    ensures fault { result ≡ Status.WriteFault → Rises (K.faults sink.old) (K.faults sink.new) }
{
    match trace_maker::make(alloc, seed, subs, lines, sink) {
        Ok(()) => Status::Ok,
        Err(Unwritten::WriteFault) => Status::WriteFault,
        Err(Unwritten::NoMemory) => Status::NoMemory,
    }
}

fn write_summary<K: Sink>(alloc: Global, seed: u64, subs: u32, lines: u32, sink: &mut K) -> Status
    requires some { 1 ≤ subs }
    requires slots { subs ≤ 65533 }
    requires most { lines ≤ 100000 }

    ensures makes { Makes seed subs lines true result (K.written sink.old) (K.written sink.new) }
    ensures no_usage { result ≡ Status.Usage → ⊥ }
    ensures no_read { result ≡ Status.ReadFault → ⊥ }

    ensures later { K.faults sink.old ≤ K.faults sink.new }
    ensures fault { result ≡ Status.WriteFault → Rises (K.faults sink.old) (K.faults sink.new) }
{
    let counts = match counted(alloc, seed, subs, lines) {
        Ok(counts) => counts,
        Err(AllocError) => return Status::NoMemory,
    };
    let mut text = Vec::new(alloc);
    match push_summary(&mut text, u64::from(subs) + u64::from(lines), &counts) {
        Ok(()) => {}
        Err(AllocError) => return Status::NoMemory,
    }
    match write_whole(sink, text.as_slice()) {
        Ok(()) => Status::Ok,
        Err(WriteFault) => Status::WriteFault,
    }
}
