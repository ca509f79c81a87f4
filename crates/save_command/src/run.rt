//! A run of `save`.
ghost use Rattle.std.specs.Prelude.{◌≡◌, ◌≤◌, ◌^◌, ℕ, List, length};
ghost use Rattle.pc_outside.specs.Faults.{Rises};
ghost use Rattle.trace_lines.specs.Line.{Line};
ghost use Rattle.save_command.specs.Left.{HasTaken};
ghost use Rattle.save_command.specs.Saves.{Saves, Wrote};

use crate::keeping::file_of;
use crate::saver::Saver;
use pc_outside::{Sink, Source};
use record_codec::saved_text;
use std::alloc::Global;
use trace_run::{Ending, Status, run_lines, status_at, status_without, write_octets};

/// Reads a trace, and writes the text of the state that it leaves; nothing where the trace isn't read whole.
pub fn save<S: Source, K: Sink>(alloc: Global, source: &mut S, sink: &mut K) -> Status
    ensures saves { Saves result (S.left source.old) (S.left source.new) (K.written sink.old) (K.written sink.new) }
    ensures no_usage { result ≡ Status.Usage → ⊥ }

    ensures source_later { S.faults source.old ≤ S.faults source.new }
    ensures sink_later { K.faults sink.old ≤ K.faults sink.new }
    ensures read_fault { result ≡ Status.ReadFault → Rises (S.faults source.old) (S.faults source.new) }
    ensures write_fault { result ≡ Status.WriteFault → Rises (K.faults sink.old) (K.faults sink.new) }
{
    let mut saver = Saver::new(alloc);
    let ending = match run_lines(alloc, source, sink, &mut saver) {
        Ok((ending, _)) => ending,
        Err(why) => return status_without(why),
    };
    match ending {
        Ending::Ended => write_file(alloc, saver, sink),
        _ => status_at(ending),
    }
}

/// Writes the text of what a trace leaves.
fn write_file<K: Sink>(alloc: Global, saver: Saver, sink: &mut K) -> Status
    requires { (done : List Line) × (latest : ℕ) × HasTaken saver done latest × (length done ≤ 2 ^ 39) }

    ensures wrote { (done : List Line) (latest : ℕ) → HasTaken saver done latest → length done ≤ 2 ^ 39
        → Wrote result done (K.written sink.old) (K.written sink.new) }

    ensures later { K.faults sink.old ≤ K.faults sink.new }
    ensures fault { result ≡ Status.WriteFault → Rises (K.faults sink.old) (K.faults sink.new) }
{
    let file = file_of(saver);
    let Ok(text) = saved_text(alloc, &file) else {
        return Status::NoMemory;
    };
    match write_octets(sink, text.as_slice()) {
        Ok(()) => Status::Ok,
        Err(why) => status_without(why),
    }
}
