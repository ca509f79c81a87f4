//! Plays a trace over two slices in threads, as one epoch: standard input has its lines. Written is what is the same
//! whatever the threads' schedule is: what an audit finds of the report, whether the slices ran beside each other, and
//! at which slices packets were handled. Out of memory nothing is written, and the status is 5.
#![tactic(auto)]

mod lines;
mod meeting;
mod playing;

use playing::{PlayedTrace, play};
use std::alloc::Global;
use std::io::{self, Read, Write};
use std::process::ExitCode;
use std::sync::Wait;
use std::thread::Threads;
use text_fields::Text;

/// Why a trace has no report.
#[derive(Clone, Copy)]
pub enum TraceStop {
    /// Its lines can't be read.
    Lines,
    NoMemory,
}

impl From<std::alloc::AllocError> for TraceStop {
    fn from(_: std::alloc::AllocError) -> TraceStop {
        TraceStop::NoMemory
    }
}

fn say(text: &mut Text, what: &[u8], holds: bool) -> Result<(), TraceStop> {
    text.extend_from_slice(what)?;
    if holds {
        text.extend_from_slice(b": yes\n")?;
    } else {
        text.extend_from_slice(b": no\n")?;
    }
    Ok(())
}

fn told<R: Threads + Wait + Sync>(rt: &R, alloc: Global, octets: &[u8]) -> Result<Text, TraceStop> {
    let played: PlayedTrace = play(rt, alloc, octets)?;
    let mut text = Text::new(alloc);
    say(&mut text, b"audit", played.lawful)?;
    say(&mut text, b"slices met", played.met)?;
    say(&mut text, b"@0", played.at_first)?;
    say(&mut text, b"@1", played.at_second)?;
    Ok(text)
}

// Why standard input couldn't be read.
fn unread(error: &io::Error) -> TraceStop {
    match error.kind() {
        io::ErrorKind::OutOfMemory => TraceStop::NoMemory,
        _ => TraceStop::Lines,
    }
}

fn main(rt: HostRuntime) -> ExitCode {
    let mut octets = Vec::new(rt.alloc());
    let played = match rt.reader().read_to_end(&mut octets) {
        Ok(_) => told(&rt, rt.alloc(), octets.as_slice()),
        Err(error) => Err(unread(&error)),
    };
    let text = match played {
        Ok(text) => text,
        Err(TraceStop::NoMemory) => return ExitCode::from(5),
        Err(TraceStop::Lines) => return ExitCode::FAILURE,
    };
    match io::writer(&rt).write_all(text.as_slice()) {
        Ok(()) => ExitCode::SUCCESS,
        Err(_) => ExitCode::FAILURE,
    }
}
