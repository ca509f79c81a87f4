//! The gateway under a schedule, between two lines of a trace.
ghost use Rattle.std.specs.Prelude.{◌≡◌, ◌+◌, ◌≤◌, ◌++◌, ℕ, [], Bool, List, None, MatchBool, length, OnOk};
ghost use Rattle.trace_lines.specs.Line.{Line};
ghost use Rattle.trace_lines.specs.declared.bad.LineBad.{LineBad};
ghost use Rattle.lawful_run.specs.Merging.{Histories};
ghost use Rattle.lawful_run.specs.Outcomes.{opens};
ghost use Rattle.lawful_run.specs.Run.{by_slot};
ghost use Rattle.at_rest.specs.Rest.{Rest};
ghost use Rattle.epoch_schedule.specs.TurnsTold.{AreWorkers};
ghost use Rattle.at_rest.specs.Meant.{AreStanding};
ghost use Rattle.epoch_drive.specs.Taken.{HasTaken};
ghost use Rattle.trace_run.specs.Entries.{charges_text};
ghost use Rattle.drive_command.specs.Driven.{IsDrivenReport, turns_in};
ghost use Rattle.drive_command.specs.Standing.{Drove, DroveAll, DroveOn, schedule_of};

use crate::epochs::drive_lines;
use at_rest::AtRest;
use epoch_drive::{DrivenGateway, EpochLines};
use epoch_schedule::Turns;
use std::alloc::{AllocError, Global};
use text_fields::Text;
use trace_lines::{LineBad, TraceLine};
use trace_run::{Ending, Reporter, bad_at, push_opens};

/// Drives a trace epoch by epoch: the gateway, what the lines of the open epoch mean, and how its turns go on.
#[derive(Drop)]
pub struct Driver {
    gateway: DrivenGateway,
    lines: EpochLines,
    turns: Turns,
    places: bool,
}

impl Driver {
    /// The gateway before the first line: 1 to 64 slices, room for 1 to 256 items of a subscriber and for 1 to 16,384
    /// of a slice. Listed turns are those of workers, whose numbers are below twice the number of slices. The report
    /// tells places, or leaves them out.
    pub fn new(
        alloc: Global,
        slices: u8,
        room: u32,
        lane: u32,
        turns: Turns,
        places: bool,
    ) -> Driver
        requires slices { (1 ≤ slices) × (slices ≤ 64) }
        requires room { (1 ≤ room) × (room ≤ 256) }
        requires lane { (1 ≤ lane) × (lane ≤ 16384) }
        requires workers { AreWorkers slices turns }

        ensures schedule { schedule_of result
            ≡ record { slices = slices; room = room; lane = lane; turns = turns_in turns } }
        ensures places { result.places ≡ places }
        ensures first { Drove result result [] 0 [] [] [] [] }
    {
        Driver {
            gateway: DrivenGateway::of(AtRest::new(alloc, slices, room, lane)),
            lines: EpochLines::new(alloc),
            turns,
            places,
        }
    }

    // Drives the open epoch, with the note of a bad line of this number behind the entries of its lines.
    fn drive(
        &mut self,
        bad: Option<LineBad>,
        number: u64,
        text: &mut Text,
    ) -> Result<(), AllocError>
        requires { (first : Driver) × (done : List Line) × (latest : ℕ) × (closed : List (List Line))
            × (open_ : List Line) × (sent : List ℕ) × Drove first self.old done latest closed open_ sent text.old }

        ensures { (first : Driver) (done : List Line) (latest : ℕ) (closed : List (List Line)) (open_ : List Line)
            (sent : List ℕ) → Drove first self.old done latest closed open_ sent text.old
            → OnOk result (DroveOn first self.old self.new done latest closed open_ sent bad number text.new) }
    {
        drive_lines(
            &mut self.gateway,
            &mut self.lines,
            &mut self.turns,
            bad,
            number,
            self.places,
            text,
        )
    }

    // The same, if there is an open epoch.
    fn drive_rest(
        &mut self,
        bad: Option<LineBad>,
        number: u64,
        text: &mut Text,
    ) -> Result<(), AllocError>
        requires { (first : Driver) × (done : List Line) × (latest : ℕ) × (closed : List (List Line))
            × (open_ : List Line) × (sent : List ℕ) × Drove first self.old done latest closed open_ sent text.old }

        ensures { (first : Driver) (done : List Line) (latest : ℕ) (closed : List (List Line)) (open_ : List Line)
            (sent : List ℕ) → Drove first self.old done latest closed open_ sent text.old
            → number ≡ length done + 1
            → OnOk result (DroveAll first self.new done closed open_ bad (sent ++ text.new)) }
    {
        if self.is_done(bad) {
            return Ok(());
        }
        self.drive(bad, number, text)
    }

    // Whether no epoch is open, and no bad line is to be noted.
    fn is_done(&self, bad: Option<LineBad>) -> bool
        ensures { (start : Rest) (taken : List Line) → HasTaken start taken self.now.gateway self.now.lines
            → MatchBool result ((taken ≡ []) × (bad ≡ None)) (taken ≡ [] → bad ≡ None → ⊥) }
    {
        self.lines.is_empty() && bad.is_none()
    }
}

// Appends the open counters of all subscribers.
fn push_counters(text: &mut Text, gateway: &DrivenGateway) -> Result<(), AllocError>
    ensures { (places : Bool) (events : Histories) → AreStanding gateway.now.subscribers.items events
        → OnOk result (text.new ≡ text.old ++ charges_text places (by_slot (length gateway.now.subscribers.items)
        (λ slot. opens slot (events slot)))) }
{
    push_opens(text, gateway.subscribers.as_slice())
}

impl Reporter for Driver {
    ghost may_have = { λ first. IsDrivenReport (schedule_of first) };

    ghost places = { λ first. first.places };

    ghost begins = { λ first. 1 };

    ghost represents = { Drove };

    fn take(&mut self, line: &mut TraceLine, _text: &mut Text) -> Result<(), AllocError> {
        self.gateway.take(&mut self.lines, line)?;
        Ok(())
    }

    fn close(&mut self, text: &mut Text) -> Result<(), AllocError> {
        self.drive(None, 0, text)
    }

    fn finish(&mut self, ending: Ending, lines: u64, text: &mut Text) -> Result<(), AllocError> {
        self.drive_rest(bad_at(ending), lines + 1, text)?;
        push_counters(text, &self.gateway)
    }
}
