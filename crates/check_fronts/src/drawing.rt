//! Traces and orders of turns that are drawn.
ghost use Rattle.std.specs.Prelude.{◌<◌, ◌≤◌, IfOk};
ghost use Rattle.check_fronts.specs.Benches.{IsGateway};
ghost use Rattle.check_fronts.specs.Stands.{Stands};

use crate::bench::{Bench, Told};
use crate::lines::{add_line, fence_at};
use crate::stop::RowStop;
use audit_core::Setup;
use pc_base::Moment;
use std::alloc::Global;
use std::sync::Wait;
use text_fields::Text;
use trace_lines::{LineKind, TraceLine};
use trace_maker::{Draws, Maker, made_line};

// Of a drawn trace.
const EPOCHS: u64 = 4;

const LINES: u32 = 10;

// A drawn gateway.
fn drawn_setup(draws: &mut Draws) -> Setup
    ensures { IsGateway result }
{
    Setup {
        solo: false,
        slices: draws.draw(3) as u8 + 1,
        room: draws.draw(4) + 1,
        lane: draws.draw(8) + 1,
    }
}

// The lines of the epochs, each with an order to end it behind them.
fn drawn_lines(alloc: Global, maker: &mut Maker) -> Result<Vec<TraceLine>, RowStop> {
    let mut lines: Vec<TraceLine> = Vec::new(alloc);
    let mut latest = Moment(0);
    for _ in 0..EPOCHS {
        for _ in 0..LINES {
            let Some(line) = made_line(alloc, maker)? else {
                continue;
            };
            latest = line.moment;
            add_line(&mut lines, line)?;
        }
        add_line(&mut lines, fence_at(alloc, latest))?;
    }
    Ok(lines)
}

// A line, and a few drawn turns behind it, or the end of an epoch.
fn play_line<'p, R: Wait>(
    rt: &R,
    mut bench: Bench<'p>,
    line: &'p TraceLine,
    draws: &mut Draws,
    workers: u32,
) -> Result<Bench<'p>, RowStop>
    requires workers { (0 < workers) × (workers ≤ 128) }
    requires stands { Stands bench }
    ensures { IfOk result Stands }
{
    bench.take(rt, line)?;
    if matches!(line.kind, LineKind::Fence) {
        return bench.close(rt, true);
    }
    for _ in 0..draws.draw(6) {
        bench.turn(rt, draws.draw(workers) as u8)?;
    }
    Ok(bench)
}

// The lines of a drawn trace, with drawn turns behind each.
fn play_lines<'p, R: Wait>(
    rt: &R,
    alloc: Global,
    setup: Setup,
    lines: &'p [TraceLine],
    draws: &mut Draws,
) -> Result<Told, RowStop>
    requires { IsGateway setup }
{
    let mut bench = Bench::new(alloc, setup, draws.draw(3))?;
    let workers = u32::from(setup.slices) * 2;
    for line in lines {
        bench = play_line(rt, bench, line, draws, workers)?;
    }
    bench.end(rt, lines, true)
}

// Whether an audit confirms the report of the trace and turns of a seed.
fn play_drawn<R: Wait>(rt: &R, alloc: Global, seed: u64) -> Result<bool, RowStop> {
    let mut draws = Draws::new(seed);
    let setup = drawn_setup(&mut draws);
    let subscribers = draws.draw(4) + 1;
    let mut maker = Maker::new(seed, subscribers, 40);
    let made = drawn_lines(alloc, &mut maker)?;
    Ok(play_lines(rt, alloc, setup, made.as_slice(), &mut draws)?.is_lawful())
}

/// Plays so many drawn traces, and tells of how many reports an audit says yes.
pub fn play_made<R: Wait>(
    rt: &R,
    alloc: Global,
    seed: u64,
    runs: u64,
    text: &mut Text,
) -> Result<(), RowStop> {
    let mut confirmed = 0u64;
    for run in 0..runs {
        if play_drawn(rt, alloc, seed.wrapping_add(run))? {
            confirmed = confirmed.saturating_add(1);
        }
    }
    text.extend_from_slice(b"made:")?;
    text.push_number(runs)?;
    text.extend_from_slice(b" traces of four epochs, audit: yes of")?;
    text.push_number(confirmed)?;
    text.push(b'\n')?;
    Ok(())
}
