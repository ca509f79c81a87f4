//! The gateway over slices, between two lines of a trace.
ghost use Rattle.std.specs.Prelude.{◌≡◌, ◌+◌, ◌≤◌, ◌∷◌, ◌++◌, ℕ, [], Bool, List, None, MatchBool, length, OnOk};
ghost use Rattle.trace_lines.specs.Line.{Line};
ghost use Rattle.lawful_run.specs.Merging.{Histories};
ghost use Rattle.lawful_run.specs.Outcomes.{opens};
ghost use Rattle.lawful_run.specs.Run.{by_slot};
ghost use Rattle.lawful_run.specs.Setup.{sliced};
ghost use Rattle.at_rest.specs.Rest.{RepresentsAll};
ghost use Rattle.trace_run.specs.Entries.{charges_text};
ghost use Rattle.trace_run.specs.Takers.{IsNextOf};
ghost use Rattle.replay_command.specs.Standing.{Replayed, ReplayedAll, ReplayedOn, setup_of};

use crate::Pace;
use crate::epochs::replay_lines;
use at_rest::AtRest;
use std::alloc::{AllocError, Global};
use std::mem;
use std::sync::Wait;
use std::thread::Threads;
use text_fields::Text;
use trace_lines::{LineBad, TraceLine};
use trace_run::{push_noted, push_opens};

/// The gateway at rest, the lines of the open epoch, and how an epoch is run and told.
#[derive(Drop)]
pub(crate) struct Replay {
    rest: AtRest,
    lines: Vec<TraceLine>,
    pace: Pace,
    places: bool,
    /// What texts of blocks are made in.
    buffers: Vec<Text>,
}

impl Replay {
    pub(crate) fn new(
        alloc: Global,
        slices: u8,
        room: u32,
        lane: u32,
        pace: Pace,
        places: bool,
    ) -> Replay
        requires slices { (1 ≤ slices) × (slices ≤ 64) }
        requires room { (1 ≤ room) × (room ≤ 256) }
        requires lane { (1 ≤ lane) × (lane ≤ 16384) }

        ensures setup { setup_of result ≡ sliced slices room lane }
        ensures places { result.places ≡ places }
        ensures first { Replayed result result [] 0 [] [] [] [] }
    {
        Replay {
            rest: AtRest::new(alloc, slices, room, lane),
            lines: Vec::new(alloc),
            pace,
            places,
            buffers: Vec::new(alloc),
        }
    }

    /// Keeps a line. One without octets is left in its place.
    pub(crate) fn keep(&mut self, line: &mut TraceLine) -> Result<(), AllocError>
        ensures { (first : Replay) (done : List Line) (latest : ℕ) (closed : List (List Line)) (open_ : List Line)
            (sent waiting : List ℕ) → Replayed first self.old done latest closed open_ sent waiting
            → IsNextOf done latest line.old
            → OnOk result (Replayed first self.new (done ++ line.old ∷ []) line.old.moment closed
            (open_ ++ line.old ∷ []) sent waiting) }
    {
        let own = mem::replace(line, TraceLine::new(*self.lines.allocator()));
        self.lines.push(own)?;
        Ok(())
    }

    /// Runs the open epoch, with the note of a bad line of this number behind the entries of its lines.
    pub(crate) fn run<R: Threads + Wait + Sync>(
        &mut self,
        rt: &R,
        bad: Option<LineBad>,
        number: u64,
        text: &mut Text,
    ) -> Result<(), AllocError>
        requires { (first : Replay) × (done : List Line) × (latest : ℕ) × (closed : List (List Line))
            × (open_ : List Line) × (sent : List ℕ) × Replayed first self.old done latest closed open_ sent text.old }

        ensures { (first : Replay) (done : List Line) (latest : ℕ) (closed : List (List Line)) (open_ : List Line)
            (sent : List ℕ) → Replayed first self.old done latest closed open_ sent text.old
            → OnOk result (ReplayedOn first self.old self.new done latest closed open_ sent bad number text.new) }
    {
        replay_lines(
            rt,
            &mut self.rest,
            &mut self.lines,
            self.pace,
            bad,
            number,
            self.places,
            &mut self.buffers,
            text,
        )
    }

    /// The same, if there is an open epoch. The note of a bad line that stands alone needs no threads.
    pub(crate) fn run_rest<R: Threads + Wait + Sync>(
        &mut self,
        rt: &R,
        bad: Option<LineBad>,
        number: u64,
        text: &mut Text,
    ) -> Result<(), AllocError>
        requires { (first : Replay) × (done : List Line) × (latest : ℕ) × (closed : List (List Line))
            × (open_ : List Line) × (sent : List ℕ) × Replayed first self.old done latest closed open_ sent text.old }

        ensures { (first : Replay) (done : List Line) (latest : ℕ) (closed : List (List Line)) (open_ : List Line)
            (sent : List ℕ) → Replayed first self.old done latest closed open_ sent text.old
            → number ≡ length done + 1
            → OnOk result (ReplayedAll first self.new done closed open_ bad (sent ++ text.new)) }
    {
        if self.is_done(bad) {
            return Ok(());
        }
        if self.is_closed() {
            return push_noted(text, bad, number);
        }
        self.run(rt, bad, number, text)
    }

    // Whether no epoch is open.
    fn is_closed(&self) -> bool
        ensures { MatchBool result (self.now.lines.items ≡ []) (self.now.lines.items ≡ [] → ⊥) }
    {
        self.lines.is_empty()
    }

    // Whether no epoch is open, and no bad line is to be noted.
    fn is_done(&self, bad: Option<LineBad>) -> bool
        ensures { MatchBool result ((self.now.lines.items ≡ []) × (bad ≡ None))
            (self.now.lines.items ≡ [] → bad ≡ None → ⊥) }
    {
        self.lines.is_empty() && bad.is_none()
    }

    /// Appends the open counters of all subscribers.
    pub(crate) fn push_counters(&self, text: &mut Text) -> Result<(), AllocError>
        ensures { (places : Bool) (events : Histories) → RepresentsAll self.now.rest events
            → OnOk result (text.new ≡ text.old ++ charges_text places (by_slot (length self.now.rest.book)
            (λ slot. opens slot (events slot)))) }
    {
        push_counters(text, &self.rest)
    }
}

fn push_counters(text: &mut Text, rest: &AtRest) -> Result<(), AllocError>
    ensures { (places : Bool) (events : Histories) → RepresentsAll rest.now events
        → OnOk result (text.new ≡ text.old ++ charges_text places (by_slot (length rest.now.book)
        (λ slot. opens slot (events slot)))) }
{
    push_opens(text, rest.subscribers.as_slice())
}
