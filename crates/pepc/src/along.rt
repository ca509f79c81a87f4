//! A run of `audit --along`: the status of what audit_core does.
ghost use Rattle.std.specs.Prelude.{◌≡◌, ◌≤◌};
ghost use Rattle.pc_outside.specs.Faults.{Rises};
ghost use Rattle.audit_core.specs.Setups.{IsSetup, setup_of};
ghost use Rattle.pepc.specs.Along.{AuditsAlong};

use crate::audit::status_of;
use audit_core::Setup;
use pc_outside::{Sink, Source};
use std::alloc::Global;
use trace_run::Status;

/// Does the command `audit --along`: reads a trace and its report from the source in pieces, and writes to the sink
/// behind each of them that all is lawful so far, at the end `yes`, and of the first one that isn't what `audit` does.
pub fn along<S: Source, K: Sink>(
    alloc: Global,
    setup: &Setup,
    why: bool,
    source: &mut S,
    sink: &mut K,
) -> Status
    requires { IsSetup setup.now }

    ensures audits { AuditsAlong why (setup_of setup.now) result (S.left source.old) (S.left source.new)
        (K.written sink.old) (K.written sink.new) }
    ensures no_usage { result ≡ Status.Usage → ⊥ }

    ensures source_later { S.faults source.old ≤ S.faults source.new }
    ensures sink_later { K.faults sink.old ≤ K.faults sink.new }
    ensures read_fault { result ≡ Status.ReadFault → Rises (S.faults source.old) (S.faults source.new) }
    ensures write_fault { result ≡ Status.WriteFault → Rises (K.faults sink.old) (K.faults sink.new) }
{
    status_of(audit_core::audit_along(alloc, setup, why, source, sink))
}
