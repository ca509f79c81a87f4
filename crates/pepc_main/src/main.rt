//! A 4G packet gateway that replays traces: it hands the command line and the standard streams to `run_words`, and
//! tells its status.
#![tactic(auto)]

use pc_outside::{StdSink, StdSource};
use pepc::{Status, fault_text, run_words};
use std::env::Env;
use std::process::ExitCode;
use std::{env, io};

// The arguments of the command line, without the program's name.
fn arguments_given<R: Env + AllocGlobal>(rt: &R) -> io::Result<Vec<String>> {
    let mut arguments = Vec::new(rt.alloc());
    for argument in env::args(rt)?.skip(1) {
        arguments.push(argument)?;
    }
    Ok(arguments)
}

// Arguments that aren't text are none of the program's.
fn without_arguments(error: &io::Error) -> Status {
    match error.kind() {
        io::ErrorKind::OutOfMemory => Status::NoMemory,
        _ => Status::Usage,
    }
}

fn main(rt: HostRuntime) -> ExitCode {
    let mut source = StdSource::new(rt.stdin());
    let mut sink = StdSink::new(rt.stdout());
    let status = match arguments_given(&rt) {
        Ok(arguments) => run_words(
            &rt,
            rt.alloc(),
            arguments.as_slice(),
            &mut source,
            &mut sink,
        ),
        Err(error) => without_arguments(&error),
    };
    if status != Status::Ok {
        let text = fault_text(status);
        let _ = eprintln!(rt; "{text}");
    }
    ExitCode::from(status.code())
}
