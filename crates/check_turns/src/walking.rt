//! A side of halves that travel, and the workers of its three slices.
ghost use Rattle.std.specs.Prelude.{◌≡◌, [], ◌∷◌};
ghost use Rattle.worker_core.specs.Workers.{worker_lanes};
ghost use Rattle.worker_core.specs.Desks.{lanes_of};
ghost use Rattle.migration.specs.Words.{desks_of};

use crate::answers::{StepStop, letter_of, numbers, push_numbers, word_of, yes_or_no};
use crate::step::{ScriptStep, slice_of, slot_of};
use crate::walker::Walker;
use gather_home::gather;
use lane_core::{Did, NoMemory};
use migration::Side;
use pc_base::SliceNo;
use std::alloc::Global;
use std::sync::Wait;
use text_fields::Text;
use worker_core::{Worker, WorkerEnd, pair};

#[derive(Drop)]
pub struct Walk {
    side: Side<Walker>,
    first: Worker<Walker>,
    second: Worker<Walker>,
    third: Worker<Walker>,
    ghost lanes: { lanes_of (desks_of side) ≡ worker_lanes first ∷ worker_lanes second ∷ worker_lanes third ∷ [] },
}

impl Walk {
    pub fn new(alloc: Global) -> Result<Walk, StepStop> {
        let (one, first) = pair(alloc, SliceNo(0))?;
        let (two, second) = pair(alloc, SliceNo(1))?;
        let (three, third) = pair(alloc, SliceNo(2))?;
        let desks = Vec::from_array(alloc, [one, two, three])?;
        Ok(Walk {
            side: Side::new(alloc, desks),
            first,
            second,
            third,
        })
    }

    fn turn<R: Wait>(&mut self, rt: &R, slice: SliceNo) -> Result<Did, NoMemory> {
        match slice.0 {
            0 => self.first.turn(rt),
            1 => self.second.turn(rt),
            _ => self.third.turn(rt),
        }
    }

    // Admits a half with so much to do, if its slot is free.
    fn admit<R: Wait>(&mut self, rt: &R, step: ScriptStep) -> bool {
        let slot = slot_of(step.one);
        let slice = slice_of(step.two);
        if self.side.is_admitted(slot)
            || slice.0 as usize >= self.side.slices()
            || self.side.asked() > 9999
        {
            return false;
        }
        let half = Walker {
            slot,
            due: u64::from(step.three),
            done: 0,
            hop: 0,
            turns: 0,
            works: 0,
        };
        self.side.admit(rt, half, slice, 0).is_ok()
    }

    // Moves a slot, which leaves at a count, if it is admitted.
    fn go<R: Wait>(&mut self, rt: &R, step: ScriptStep) -> bool {
        let slot = slot_of(step.one);
        let slice = slice_of(step.two);
        if !self.side.is_admitted(slot)
            || slice.0 as usize >= self.side.slices()
            || self.side.asked() > 9999
        {
            return false;
        }
        self.side.go(rt, slot, slice, u64::from(step.three));
        true
    }

    // Turns of a worker, and what each came to.
    fn turns<R: Wait>(
        &mut self,
        rt: &R,
        alloc: Global,
        step: ScriptStep,
    ) -> Result<Text, StepStop> {
        let mut text = Text::new(alloc);
        for _ in 0..step.two {
            let did = self.turn(rt, slice_of(step.one));
            text.push(letter_of(did))?;
        }
        Ok(text)
    }

    /// An admission (a), a move (g), turns of a worker (w), a pumping (p), whether a slot is settled (s), and how often
    /// the side was asked (c).
    pub fn play<R: Wait>(
        &mut self,
        rt: &R,
        alloc: Global,
        step: ScriptStep,
    ) -> Result<Text, StepStop> {
        match step.letter {
            b'a' => {
                let took = self.admit(rt, step);
                yes_or_no(alloc, took)
            }
            b'g' => {
                let went = self.go(rt, step);
                yes_or_no(alloc, went)
            }
            b'w' => self.turns(rt, alloc, step),
            b'p' => {
                self.side.pump(rt);
                word_of(alloc, b"pumped")
            }
            b's' => yes_or_no(alloc, self.side.settled(slot_of(step.one))),
            b'c' => numbers(alloc, &[self.side.asked()]),
            _ => Err(StepStop::Step),
        }
    }

    /// The slots that each worker holds, in their order, and then of all halves that come home the slot, what they
    /// had to do and what they did, their hop, and their turns.
    pub fn end<R: Wait>(self, rt: &R, alloc: Global) -> Result<Text, StepStop> {
        let ends = Vec::from_array(
            alloc,
            [
                self.first.into_end(),
                self.second.into_end(),
                self.third.into_end(),
            ],
        )?;
        let mut text = Text::new(alloc);
        let held = push_all_held(&mut text, &ends);
        let Ok(halves) = gather(rt, alloc, self.side.into_end(), ends) else {
            return Err(StepStop::NoMemory);
        };
        held?;
        push_halves(&mut text, &halves)?;
        Ok(text)
    }
}

fn push_all_held(text: &mut Text, ends: &[WorkerEnd<Walker>]) -> Result<(), NoMemory> {
    for end in ends {
        push_held(text, end)?;
    }
    Ok(())
}

fn push_held(text: &mut Text, end: &WorkerEnd<Walker>) -> Result<(), NoMemory> {
    for half in end.held.iter() {
        push_numbers(text, &[u64::from(half.slot.0)])?;
    }
    text.extend_from_slice(b" /")
}

fn push_halves(text: &mut Text, halves: &[Walker]) -> Result<(), NoMemory> {
    for half in halves {
        push_numbers(
            text,
            &[
                u64::from(half.slot.0),
                half.due,
                half.done,
                half.hop,
                half.turns,
            ],
        )?;
        text.push(b';')?;
    }
    Ok(())
}
