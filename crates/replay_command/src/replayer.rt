//! What replays a trace, with the threads that it may start.
ghost use Rattle.std.specs.Prelude.{◌≡◌, ◌≤◌, []};
ghost use Rattle.std.specs.Thread.{IsSync};
ghost use Rattle.lawful_run.specs.Setup.{sliced};
ghost use Rattle.replay_command.specs.Standing.{Replayed, setup_of};

use crate::Pace;
use crate::replay::Replay;
use std::alloc::{AllocError, Global};
use std::sync::Wait;
use std::thread::Threads;
use text_fields::Text;
use trace_lines::TraceLine;
use trace_run::{Ending, Reporter, bad_at};

/// Replays a trace epoch by epoch over slices in threads.
#[derive(Drop)]
pub struct Replayer<'r, R: Threads + Wait + Sync> {
    rt: &'r R,
    replay: Replay,
}

impl<'r, R: Threads + Wait + Sync> Replayer<'r, R> {
    /// The gateway before the first line: 1 to 64 slices, room for 1 to 256 items of a subscriber and for 1 to 16,384
    /// of a slice. The report tells places, or leaves them out.
    pub fn new(
        rt: &'r R,
        alloc: Global,
        slices: u8,
        room: u32,
        lane: u32,
        pace: Pace,
        places: bool,
    ) -> Replayer<'r, R>
        requires slices { (1 ≤ slices) × (slices ≤ 64) }
        requires room { (1 ≤ room) × (room ≤ 256) }
        requires lane { (1 ≤ lane) × (lane ≤ 16384) }

        ensures setup { setup_of result.replay ≡ sliced slices room lane }
        ensures places { result.replay.places ≡ places }
        ensures first { Replayed result.replay result.replay [] 0 [] [] [] [] }
    {
        Replayer {
            rt,
            replay: Replay::new(alloc, slices, room, lane, pace, places),
        }
    }
}

impl<'r, R: Threads + Wait + Sync> Reporter for Replayer<'r, R> {
    ghost use Rattle.lawful_run.specs.Trace.{IsReport};

    ghost may_have = { λ first. IsReport (setup_of first.replay) };

    ghost places = { λ first. first.replay.places };

    ghost begins = { λ first. 1 };

    ghost represents = { λ first now done latest closed open_ sent waiting. IsSync R.row
        × Replayed first.replay now.replay done latest closed open_ sent waiting };

    fn take(&mut self, line: &mut TraceLine, _text: &mut Text) -> Result<(), AllocError> {
        self.replay.keep(line)
    }

    fn close(&mut self, text: &mut Text) -> Result<(), AllocError> {
        self.replay.run(self.rt, None, 0, text)
    }

    fn finish(&mut self, ending: Ending, lines: u64, text: &mut Text) -> Result<(), AllocError> {
        self.replay
            .run_rest(self.rt, bad_at(ending), lines + 1, text)?;
        self.replay.push_counters(text)
    }
}
