//! The command `solo` as a program of its own, without words: a fraction of the sources of pepc_main to compile, for an
//! answer before any proof. It hands the standard streams to `run_solo`, and tells its status.
#![tactic(auto)]

use pc_outside::{StdSink, StdSource};
use solo_command::run_solo;
use std::process::ExitCode;
use trace_run::{Status, fault_text};

fn main(rt: HostRuntime) -> ExitCode {
    let mut source = StdSource::new(rt.stdin());
    let mut sink = StdSink::new(rt.stdout());
    let status = run_solo(rt.alloc(), &mut source, &mut sink);
    if status != Status::Ok {
        let text = fault_text(status);
        let _ = eprintln!(rt; "{text}");
    }
    ExitCode::from(status.code())
}
