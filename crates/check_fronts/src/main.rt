//! Takes the lines of traces through fronts whose workers are turned by hand, and writes the report of each trace,
//! epoch by epoch, with what an audit finds of it. Standard input has a trace behind each `#`: first a row
//! `run SLICES ROOM LANE PATIENCE PLACES TURNS`, then its lines. Behind each line each of TURNS is a turn of a
//! worker: of slice i those of numbers 2 i and 2 i + 1. A FENCE ends an epoch. Or it is a row `made SEED RUNS`: so
//! many traces and orders of turns are drawn, of four epochs each, and what an audit finds of their reports is
//! counted. Out of memory, nothing is written, and the status is 5.
#![tactic(auto)]

ghost use Rattle.std.specs.Prelude.{OnOk, IfOk};
ghost use Rattle.check_fronts.specs.Benches.{IsGateway};
ghost use Rattle.check_fronts.specs.Stands.{Stands};

mod bench;
mod drawing;
mod entries;
mod lines;
mod rows;
mod stop;
mod workers;

use bench::Bench;
use drawing::play_made;
use lines::lines_of;
use rows::{FrontRun, Row, row_of};
use std::alloc::Global;
use std::io::{self, Read, Write};
use std::process::ExitCode;
use std::sync::Wait;
use stop::RowStop;
use text_fields::{Text, cut};
use trace_lines::{LineKind, TraceLine};

// Turns workers one after another.
fn turn_all<R: Wait>(rt: &R, bench: &mut Bench<'_>, workers: &[u8]) -> Result<(), RowStop>
    requires { Stands bench.old }
    ensures { OnOk result (Stands bench.new) }
{
    for worker in workers {
        bench.turn(rt, *worker)?;
    }
    Ok(())
}

// A line, and the turns behind it.
fn play_line<'p, R: Wait>(
    rt: &R,
    mut bench: Bench<'p>,
    line: &'p TraceLine,
    run: &FrontRun,
) -> Result<Bench<'p>, RowStop>
    requires { Stands bench }
    ensures { IfOk result Stands }
{
    bench.take(rt, line)?;
    turn_all(rt, &mut bench, run.turns.as_slice())?;
    if matches!(line.kind, LineKind::Fence) {
        return bench.close(rt, run.places);
    }
    Ok(bench)
}

// The lines of a trace, from its row to what is found of its report.
fn play_lines<'p, R: Wait>(
    rt: &R,
    alloc: Global,
    run: &FrontRun,
    lines: &'p [TraceLine],
    text: &mut Text,
) -> Result<(), RowStop>
    requires { IsGateway run.now.setup }
{
    let mut bench = Bench::new(alloc, run.setup, run.patience)?;
    for line in lines {
        bench = play_line(rt, bench, line, run)?;
    }
    bench.end(rt, lines, run.places)?.push(text)
}

fn play<R: Wait>(rt: &R, alloc: Global, block: &[u8], text: &mut Text) -> Result<(), RowStop> {
    let (head, lines) = cut(b'\n', block);
    match row_of(alloc, head)? {
        Row::Run(run) => {
            let read = lines_of(alloc, lines.unwrap_or(&[]))?;
            play_lines(rt, alloc, &run, read.as_slice(), text)
        }
        Row::Made { seed, runs } => play_made(rt, alloc, seed, runs, text),
    }
}

fn play_all<R: Wait>(rt: &R, alloc: Global, octets: &[u8]) -> Result<Text, RowStop> {
    let mut text = Text::new(alloc);
    for block in octets.split(|octet| *octet == b'#') {
        if !block.is_empty() {
            play(rt, alloc, block, &mut text)?;
        }
    }
    Ok(text)
}

// Why standard input couldn't be read.
fn unread(error: &io::Error) -> RowStop {
    match error.kind() {
        io::ErrorKind::OutOfMemory => RowStop::NoMemory,
        _ => RowStop::Row,
    }
}

fn main(rt: HostRuntime) -> ExitCode {
    let mut octets = Vec::new(rt.alloc());
    let played = match rt.reader().read_to_end(&mut octets) {
        Ok(_) => play_all(&rt, rt.alloc(), octets.as_slice()),
        Err(error) => Err(unread(&error)),
    };
    let text = match played {
        Ok(text) => text,
        Err(RowStop::NoMemory) => return ExitCode::from(5),
        Err(RowStop::Row) => return ExitCode::FAILURE,
    };
    match io::writer(&rt).write_all(text.as_slice()) {
        Ok(()) => ExitCode::SUCCESS,
        Err(_) => ExitCode::FAILURE,
    }
}
