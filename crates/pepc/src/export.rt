//! The command `export`: the capture of the lines that are kept.
ghost use Rattle.std.specs.Prelude.{◌≡◌, ◌≤◌, IfOk};
ghost use Rattle.pc_outside.specs.Faults.{Rises};
ghost use Rattle.pcap_form.specs.Export.{header};
ghost use Rattle.pepc.specs.Export.{Exports};

use pc_outside::{Sink, Source, Unwritten, write_text};
use pcap_form::{HEADER, push_record};
use std::alloc::{AllocError, Global};
use text_fields::Text;
use trace_lines::TraceLine;
use trace_run::{LineTaker, Status, run_lines, status_at, status_without};

// How many octets of a capture are gathered before they are written.
const PIECE_LEN: usize = 0x1_0000;

// What of a capture waits to be written.
#[derive(Drop)]
struct Capture {
    waiting: Text,
}

impl Capture {
    // The header waits.
    fn new(alloc: Global) -> Result<Capture, AllocError>
        ensures { IfOk result (λ capture. capture.waiting ≡ header) }
    {
        let mut waiting = Text::new(alloc);
        waiting.extend_from_slice(&HEADER)?;
        Ok(Capture { waiting })
    }
}

impl LineTaker for Capture {
    ghost use Rattle.pepc.specs.ExportProgress.{BreaksOff, Captures};

    ghost represents = { λ first now done latest. Captures now.waiting done };

    ghost begins = { λ first. 1 };

    ghost breaks = { λ first. BreaksOff };

    // Appends the record of the line. A piece that is long enough is written.
    fn take<K: Sink>(
        &mut self,
        line: &mut TraceLine,
        _len: usize,
        sink: &mut K,
    ) -> Result<(), Unwritten> {
        push_record(&mut self.waiting, line)?;
        if self.waiting.as_slice().len() < PIECE_LEN {
            return Ok(());
        }
        write_text(sink, &mut self.waiting)
    }
}

/// Does the command `export`: reads a trace from the source, and writes the capture of its lines to
/// the sink.
pub fn export<S: Source, K: Sink>(alloc: Global, source: &mut S, sink: &mut K) -> Status
    ensures exports { Exports result (Rises (S.faults source.old) (S.faults source.new)) (S.left source.old)
        (S.left source.new) (K.written sink.old) (K.written sink.new) }
    ensures no_usage { result ≡ Status.Usage → ⊥ }

    ensures source_later { S.faults source.old ≤ S.faults source.new }
    ensures sink_later { K.faults sink.old ≤ K.faults sink.new }
    ensures read_fault { result ≡ Status.ReadFault → Rises (S.faults source.old) (S.faults source.new) }
    ensures write_fault { result ≡ Status.WriteFault → Rises (K.faults sink.old) (K.faults sink.new) }
{
    let mut capture = match Capture::new(alloc) {
        Ok(capture) => capture,
        Err(AllocError) => return Status::NoMemory,
    };
    let ending = match run_lines(alloc, source, sink, &mut capture) {
        Ok((ending, _lines)) => ending,
        Err(why) => return status_without(why),
    };
    match write_text(sink, &mut capture.waiting) {
        Ok(()) => status_at(ending),
        Err(why) => status_without(why),
    }
}
