//! A run of `audit`: the status of what audit_core does.
ghost use Rattle.std.specs.Prelude.{◌≡◌, ◌≤◌};
ghost use Rattle.pc_outside.specs.Faults.{Rises};
ghost use Rattle.audit_core.specs.Setups.{IsSetup, setup_of};
ghost use Rattle.pepc.specs.Audit.{Audits, status_of};

use audit_core::{Audited, Setup};
use pc_outside::{Sink, Source};
use std::alloc::Global;
use trace_run::Status;

/// Does the command `audit`: reads a trace and its report from the source, and writes to the sink whether
/// the report is a lawful one; and where it isn't, if that is asked for.
pub fn audit<S: Source, K: Sink>(
    alloc: Global,
    setup: &Setup,
    why: bool,
    source: &mut S,
    sink: &mut K,
) -> Status
    requires { IsSetup setup.now }

    ensures audits { Audits why (setup_of setup.now) result (S.left source.old) (S.left source.new)
        (K.written sink.old) (K.written sink.new) }
    ensures no_usage { result ≡ Status.Usage → ⊥ }

    ensures source_later { S.faults source.old ≤ S.faults source.new }
    ensures sink_later { K.faults sink.old ≤ K.faults sink.new }
    ensures read_fault { result ≡ Status.ReadFault → Rises (S.faults source.old) (S.faults source.new) }
    ensures write_fault { result ≡ Status.WriteFault → Rises (K.faults sink.old) (K.faults sink.new) }
{
    status_of(audit_core::audit(alloc, setup, why, source, sink))
}

pub(crate) fn status_of(audited: Audited) -> Status
    ensures status { result ≡ status_of audited }
    ensures no_usage { result ≡ Status.Usage → ⊥ }
    ensures read_fault { result ≡ Status.ReadFault → audited ≡ Audited.ReadFault }
    ensures write_fault { result ≡ Status.WriteFault → audited ≡ Audited.WriteFault }
{
    match audited {
        Audited::Confirmed => Status::Ok,
        Audited::Refuted => Status::Refuted,
        Audited::ReadFault => Status::ReadFault,
        Audited::WriteFault => Status::WriteFault,
        Audited::NoMemory => Status::NoMemory,
        Audited::LineLong => Status::LineLong,
        Audited::TooLong => Status::TooLong,
    }
}
