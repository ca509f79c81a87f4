//! Plays scripts of turns: a step a line, and the answer a line. With small halves of its own it plays a lane (L), a
//! side of halves that travel (W), or one of halves to which items come (F), each with its workers; of a subscriber a
//! batch (B, with its first version and its floor), a control half (C, with the room of its lanes) or a data half
//! (P, with the room of its lane). A line x closes it, and all come home. A line that begins with '#' is repeated.
//! Behind them the two halves of a subscriber go through a slice, each worker in a thread of its own.
#![tactic(auto)]

mod answers;
mod batching;
mod controlling;
mod counting;
mod data_travelling;
mod laning;
mod pupil;
mod step;
mod thread_control;
mod thread_data;
mod thread_stop;
mod thread_subject;
mod threads;
mod walker;
mod walking;

use answers::{StepStop, word_of};
use batching::Shelf;
use controlling::ControlBench;
use counting::CountBench;
use data_travelling::Stream;
use laning::Lane;
use std::alloc::{AllocError, Global};
use std::io::{self, Read, Write};
use std::sync::Wait;
use step::ScriptStep;
use text_fields::Text;
use walking::Walk;

/// What is played.
#[derive(Drop)]
enum ScriptStage {
    Nothing,
    Lane(Lane),
    Walk(Walk),
    Stream(Stream),
    Batch(Shelf),
    Control(ControlBench),
    Counter(CountBench),
}

/// The stage that a step asks for.
fn opened(alloc: Global, step: ScriptStep) -> Result<ScriptStage, StepStop> {
    match step.letter {
        b'L' => Ok(ScriptStage::Lane(Lane::new(alloc, step.one)?)),
        b'W' => Ok(ScriptStage::Walk(Walk::new(alloc)?)),
        b'F' => Ok(ScriptStage::Stream(Stream::new(alloc, step.one, step.two)?)),
        b'B' => Ok(ScriptStage::Batch(Shelf::new(alloc, step.one, step.two)?)),
        b'C' => Ok(ScriptStage::Control(ControlBench::new(alloc, step.one, step.two)?)),
        _ => Ok(ScriptStage::Counter(CountBench::new(alloc, step.one)?)),
    }
}

fn begin(alloc: Global, stage: &mut ScriptStage, step: ScriptStep) -> Result<Text, StepStop> {
    *stage = opened(alloc, step)?;
    word_of(alloc, b"opened")
}

fn go_on<R: Wait>(
    rt: &R,
    alloc: Global,
    stage: &mut ScriptStage,
    step: ScriptStep,
) -> Result<Text, StepStop> {
    let mut text = Text::new(alloc);
    match stage {
        ScriptStage::Nothing => return Err(StepStop::Step),
        ScriptStage::Lane(lane) => return lane.play(rt, alloc, step),
        ScriptStage::Walk(walk) => return walk.play(rt, alloc, step),
        ScriptStage::Stream(stream) => return stream.play(rt, alloc, step),
        ScriptStage::Batch(shelf) => shelf.play(step, &mut text)?,
        ScriptStage::Control(desk) => desk.play(rt, step, &mut text)?,
        ScriptStage::Counter(bench) => bench.play(rt, alloc, step, &mut text)?,
    }
    Ok(text)
}

fn close<R: Wait>(rt: &R, alloc: Global, stage: ScriptStage) -> Result<Text, StepStop> {
    match stage {
        ScriptStage::Nothing => Err(StepStop::Step),
        ScriptStage::Lane(lane) => lane.end(rt, alloc),
        ScriptStage::Walk(walk) => walk.end(rt, alloc),
        ScriptStage::Stream(stream) => stream.end(rt, alloc),
        ScriptStage::Batch(_) => word_of(alloc, b"closed"),
        ScriptStage::Control(desk) => desk.end(alloc),
        ScriptStage::Counter(bench) => bench.end(alloc),
    }
}

fn answer<R: Wait>(
    rt: &R,
    alloc: Global,
    stage: &mut ScriptStage,
    line: &[u8],
) -> Result<Text, StepStop> {
    let step = ScriptStep::read(line);
    match step.letter {
        b'#' => word_of(alloc, line),
        b'L' | b'W' | b'F' | b'B' | b'C' | b'P' => begin(alloc, stage, step),
        b'x' => close(rt, alloc, std::mem::replace(stage, ScriptStage::Nothing)),
        _ => go_on(rt, alloc, stage, step),
    }
}

// The line that answers a step, without the blank before its first number.
fn push_line(told: &mut Vec<u8>, answered: &Result<Text, StepStop>) -> Result<(), AllocError> {
    let text: &[u8] = match answered {
        Ok(text) => text.as_slice(),
        Err(StepStop::Step) => b"no such step",
        Err(StepStop::NoMemory) => b"no memory",
    };
    told.extend_from_slice(text.strip_prefix(b" ").unwrap_or(text))?;
    told.push(b'\n')?;
    Ok(())
}

// Answers each line of a script.
fn play<R: Wait>(
    rt: &R,
    alloc: Global,
    stage: &mut ScriptStage,
    script: &[u8],
    told: &mut Vec<u8>,
) -> Result<(), AllocError> {
    for line in script.split(|octet| *octet == b'\n') {
        let answered = answer(rt, alloc, stage, line);
        push_line(told, &answered)?;
    }
    Ok(())
}

/// The answers to a script, a line each.
fn played<R: Wait>(rt: &R, alloc: Global, script: &[u8]) -> Result<Vec<u8>, AllocError> {
    let mut told = Vec::new(alloc);
    let mut stage = ScriptStage::Nothing;
    match play(rt, alloc, &mut stage, script, &mut told) {
        Ok(()) => Ok(told),
        Err(none) => Err(none),
    }
}

fn main(rt: HostRuntime) -> io::Result<()> {
    let alloc = rt.alloc();
    let mut script = Vec::new(alloc);
    rt.reader().read_to_end(&mut script)?;
    let lines = script.as_slice();
    let told = played(&rt, alloc, lines.strip_suffix(b"\n").unwrap_or(lines))?;
    io::writer(&rt).write_all(told.as_slice())?;
    match threads::play(&rt, alloc) {
        Ok(text) => io::writer(&rt).write_all(text.as_slice()),
        Err(_) => io::writer(&rt).write_all(b"no home\n"),
    }
}
