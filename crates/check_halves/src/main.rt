//! Plays a subscriber in two halves by hand: ten stated orders of turns over two traces. Each order ends with the
//! halves as one record again; its report is printed and held against the sentences of the lawful run, and once
//! more with one count changed. The words, where there are any, are the orders to play. Out of memory, a
//! step is done again.
#![tactic(auto)]

mod bench;
mod meaning;
mod patience;
mod report;
mod telling;
mod traces;

use bench::ended;
use patience::{OrderStop, again};
use std::alloc::Global;
use std::env::{self, Env};
use std::io::{self, Write};
use std::process::ExitCode;
use std::sync::Wait;
use telling::told;
use text_fields::Text;
use traces::{MOVED, NamedTrace, STILL, lines_of};

/// What is done between the split and the end: a turn of the control half (t), its arrival behind the move (a), a
/// learning (l), the next packet if its floor is met (p).
const ORDERS: [&str; 10] = [
    "",
    "tlpatlppp",
    "ppppattlp",
    "tptlappp",
    "pplatl",
    "tl",
    "patlpp",
    "at",
    "tplpattllpp",
    "lpltlpatpl",
];

/// The words of the command line, without the program's name.
fn words_given<R: Env + AllocGlobal>(rt: &R) -> io::Result<Vec<String>> {
    let mut words = Vec::new(rt.alloc());
    for word in env::args(rt)?.skip(1) {
        words.push(word)?;
    }
    Ok(words)
}

/// An order over a trace, from the split to what is printed of it.
fn play<R: Wait>(
    rt: &R,
    alloc: Global,
    trace: &NamedTrace,
    order: &str,
) -> Result<Text, OrderStop> {
    let read = again(|| lines_of(alloc, trace.text))?;
    let lines = read.as_slice();
    if lines.len() > 100 {
        return Err(OrderStop::Trace);
    }
    let finished = ended(rt, alloc, lines, order)?;
    Ok(again(|| told(alloc, trace.name, order, lines, &finished))?)
}

fn play_both<R: Wait, W: Write>(
    rt: &R,
    alloc: Global,
    order: &str,
    out: &mut W,
) -> Result<(), OrderStop> {
    for trace in [STILL, MOVED] {
        let text = play(rt, alloc, &trace, order)?;
        out.write_all(text.as_slice())?;
    }
    Ok(())
}

fn play_all<R: Wait, W: Write>(
    rt: &R,
    alloc: Global,
    words: &[String],
    out: &mut W,
) -> Result<(), OrderStop> {
    if words.is_empty() {
        for order in ORDERS {
            play_both(rt, alloc, order, out)?;
        }
    }
    for word in words {
        play_both(rt, alloc, word.as_str(), out)?;
    }
    Ok(())
}

fn main(rt: HostRuntime) -> ExitCode {
    let Ok(words) = again(|| words_given(&rt)) else {
        return ExitCode::FAILURE;
    };
    match play_all(&rt, rt.alloc(), words.as_slice(), &mut io::writer(&rt)) {
        Ok(()) => ExitCode::SUCCESS,
        Err(_) => ExitCode::FAILURE,
    }
}
