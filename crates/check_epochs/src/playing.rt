//! A trace is played, and its report audited.
ghost use Rattle.std.specs.Prelude.{◌≤◌, length};
ghost use Rattle.at_rest.specs.Coming.{AreLater};

use crate::TraceStop;
use crate::lines::{input_of, lines_of};
use crate::meeting::Meeting;
use at_rest::AtRest;
use audit_core::{Audited, Setup, audit};
use front_core::{Ended, FrontEntry};
use pc_base::{Place, SliceNo};
use pc_outside::{SureSink, SureSource};
use replay_command::push_entries;
use slice_core::{Pace, run_epoch};
use slot_execution::ToldEntry;
use std::alloc::{AllocError, Global};
use std::sync::Wait;
use std::thread::Threads;
use text_fields::Text;
use trace_lines::TraceLine;
use trace_run::{push_effects, push_opens, push_records};

// A slice's lane has one place, and a slot's queues four, so that a worker has to get on before the front can.
const SLICES: u8 = 2;

const ROOM: u32 = 4;

const LANE: u32 = 1;

const PATIENCE: u32 = 1_000_000;

const LINGER: u32 = 100;

// What an audit finds is no longer.
const FINDING_LEN: usize = 16;

/// What is told of a trace: whether its report is lawful, whether the slices' threads met, and whether packets were
/// handled at slice 0 and at slice 1.
#[derive(Clone, Copy)]
pub struct PlayedTrace {
    pub lawful: bool,
    pub met: bool,
    pub at_first: bool,
    pub at_second: bool,
}

// Whether a packet was handled at this slice.
fn handled_at(entries: &[FrontEntry<'_>], slice: SliceNo) -> bool {
    for entry in entries {
        if let ToldEntry::Judgement {
            place: Some(Place::At(at)),
            ..
        } = entry
        {
            if *at == slice {
                return true;
            }
        }
    }
    false
}

// Whether an audit finds that the report of an epoch is a lawful one of these lines.
fn is_lawful(alloc: Global, lines: &[TraceLine], ended: Ended<'_>) -> Result<bool, TraceStop>
    requires { length lines.now ≤ 1000000 }
{
    let mut report = Text::new(alloc);
    push_entries(&mut report, ended.epoch.lines.as_slice(), true)?;
    push_effects(&mut report, ended.epoch.effects.as_slice())?;
    push_records(&mut report, ended.epoch.rows.as_slice())?;
    push_opens(&mut report, ended.rest.subscribers.as_slice())?;
    let setup = Setup {
        solo: false,
        slices: SLICES,
        room: ROOM,
        lane: LANE,
    };
    let mut source = SureSource::new(input_of(alloc, lines, report.as_slice())?)?;
    let mut sink = SureSink::new(alloc, FINDING_LEN)?;
    match audit(alloc, &setup, false, &mut source, &mut sink) {
        Audited::Confirmed => Ok(true),
        Audited::NoMemory => Err(TraceStop::NoMemory),
        _ => Ok(false),
    }
}

/// Plays the trace that these octets are.
pub fn play<R: Threads + Wait + Sync>(
    rt: &R,
    alloc: Global,
    octets: &[u8],
) -> Result<PlayedTrace, TraceStop> {
    let lines = lines_of(alloc, octets)?;
    let gate = Meeting::new();
    play_lines(rt, alloc, lines.as_slice(), &gate)
}

// Plays lines, with the threads' gate.
fn play_lines<'p, R: Threads + Wait + Sync>(
    rt: &'p R,
    alloc: Global,
    lines: &'p [TraceLine],
    gate: &'p Meeting,
) -> Result<PlayedTrace, TraceStop>
    requires later { AreLater 0 lines.now }
    requires few { length lines.now ≤ 1000000 }
{
    let rest = AtRest::new(alloc, SLICES, ROOM, LANE);
    let pace = Pace {
        patience: PATIENCE,
        linger: LINGER,
    };
    let ended = run_epoch(rt, alloc, rest, lines, pace, gate)?;
    let at_first = handled_at(ended.epoch.lines.as_slice(), SliceNo(0));
    let at_second = handled_at(ended.epoch.lines.as_slice(), SliceNo(1));
    let lawful = is_lawful(alloc, lines, ended)?;
    Ok(PlayedTrace {
        lawful,
        met: gate.met(),
        at_first,
        at_second,
    })
}
