//! Runs the program's commands over sources and sinks of which one call fails, each call in turn, and asks what stands
//! at the program's ends: lines read in pieces, octets written in pieces, command lines, draws, counts, statuses. Each
//! line of standard input is a row, and has one line or some as its answer. What a row's fields are stands at its kind.
#![tactic(auto)]

mod call;
mod ends;
mod faults;
mod telling;
mod values;

use call::Call;
use std::alloc::{AllocError, Global};
use std::fs;
use std::io::{self, Read, Write};
use std::sync::Wait;
use std::thread::Threads;

// The inputs that rows name.
const NAMES: [&str; 7] = [
    "whole.trace",
    "whole.pcap",
    "whole.audit",
    "whole.pieces",
    "two-records.pcap",
    "entries.txt",
    "resumed.trace",
];

/// The files of these names.
#[derive(Drop)]
struct Inputs {
    octets: Vec<Vec<u8>>,
}

impl Inputs {
    // The octets of a name, and none of a name that isn't there.
    fn of(&self, name: &[u8]) -> &[u8] {
        for (known, octets) in NAMES.iter().zip(self.octets.iter()) {
            if known.as_bytes() == name {
                return octets.as_slice();
            }
        }
        &[]
    }
}

fn answer<R: Threads + Wait + Sync>(
    rt: &R,
    alloc: Global,
    inputs: &Inputs,
    row: &Call,
    text: &mut String,
) -> Result<(), AllocError> {
    match row.word(0) {
        b"reads" => faults::reads(rt, alloc, row, inputs.of(row.word(2)), text),
        b"writes" => faults::writes(rt, alloc, row, inputs.of(row.word(2)), text),
        b"runs" => faults::runs(rt, alloc, row, inputs.of(row.word(4)), text),
        b"surely" => faults::sure_status(alloc, row, inputs.of(row.word(1)), text),
        b"lines" => ends::lines(alloc, row, text),
        b"long" => ends::long(alloc, row, text),
        b"std" => ends::std_lines(alloc, row, text),
        b"sure" => ends::sure(alloc, row, text),
        b"broken" => ends::failing_streams(alloc, text),
        b"pieces" => ends::pieces(alloc, row, text),
        b"words" => values::words(alloc, row, text),
        b"draws" => values::draws(row, text),
        b"made" => values::made(alloc, row, text),
        b"counts" => values::counts(alloc, row, inputs.of(row.word(2)), text),
        b"statuses" => values::statuses(text),
        _ => text.push_str("no row\n"),
    }
}

fn tell<R: Threads + Wait + Sync>(
    rt: &R,
    alloc: Global,
    inputs: &Inputs,
    line: &[u8],
    text: &mut String,
) -> Result<(), AllocError> {
    let row = Call::read(alloc, line)?;
    answer(rt, alloc, inputs, &row, text)
}

/// The answers to rows, a line each.
fn told<R: Threads + Wait + Sync>(
    rt: &R,
    alloc: Global,
    inputs: &Inputs,
    rows: &[u8],
) -> Result<String, AllocError> {
    let mut text = String::new(alloc);
    for line in rows.split(|octet| *octet == b'\n') {
        tell(rt, alloc, inputs, line, &mut text)?;
    }
    Ok(text)
}

fn inputs_of(rt: &HostRuntime) -> io::Result<Inputs> {
    let mut octets = Vec::new(rt.alloc());
    for name in NAMES {
        octets.push(fs::read(rt, name)?)?;
    }
    Ok(Inputs { octets })
}

fn main(rt: HostRuntime) -> io::Result<()> {
    let alloc = rt.alloc();
    let inputs = inputs_of(&rt)?;
    let mut rows = Vec::new(alloc);
    rt.reader().read_to_end(&mut rows)?;
    let lines = rows.as_slice();
    let text = told(
        &rt,
        alloc,
        &inputs,
        lines.strip_suffix(b"\n").unwrap_or(lines),
    )?;
    io::writer(&rt).write_all(text.as_bytes())
}
