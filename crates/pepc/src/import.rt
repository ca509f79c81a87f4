//! A run of `import`: the status of what `import` of pcap_form does.
ghost use Rattle.std.specs.Prelude.{◌≡◌, ◌≤◌};
ghost use Rattle.pc_outside.specs.Faults.{Rises};
ghost use Rattle.pepc.specs.Import.{Imports, status_of};

use pc_outside::{Sink, Source};
use pcap_form::Imported;
use std::alloc::Global;
use trace_run::Status;

/// Does the command `import`: reads a capture from the source, and writes its trace to the sink.
pub fn import<S: Source, K: Sink>(alloc: Global, source: &mut S, sink: &mut K) -> Status
    ensures imports { Imports result (Rises (S.faults source.old) (S.faults source.new)) (S.left source.old)
        (S.left source.new) (K.written sink.old) (K.written sink.new) }
    ensures no_usage { result ≡ Status.Usage → ⊥ }

    ensures source_later { S.faults source.old ≤ S.faults source.new }
    ensures sink_later { K.faults sink.old ≤ K.faults sink.new }
    ensures read_fault { result ≡ Status.ReadFault → Rises (S.faults source.old) (S.faults source.new) }
    ensures write_fault { result ≡ Status.WriteFault → Rises (K.faults sink.old) (K.faults sink.new) }
{
    status_of(pcap_form::import(alloc, source, sink))
}

fn status_of(imported: Imported) -> Status
    ensures status { result ≡ status_of imported }
    ensures no_usage { result ≡ Status.Usage → ⊥ }
    ensures read_fault { result ≡ Status.ReadFault → imported ≡ Imported.ReadFault }
    ensures write_fault { result ≡ Status.WriteFault → imported ≡ Imported.WriteFault }
{
    match imported {
        Imported::Ended => Status::Ok,
        Imported::ReadFault => Status::ReadFault,
        Imported::WriteFault => Status::WriteFault,
        Imported::NoMemory => Status::NoMemory,
        Imported::TooLong => Status::TooLong,
        Imported::BadCapture => Status::BadCapture,
    }
}
