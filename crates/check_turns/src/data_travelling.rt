//! A side of halves to which items come, and the workers of its three slices.
ghost use Rattle.std.specs.Prelude.{◌≡◌, [], ◌∷◌};
ghost use Rattle.worker_core.specs.DataWorkers.{worker_lanes};
ghost use Rattle.worker_core.specs.Desks.{lanes_of};
ghost use Rattle.migration.specs.DataWords.{desks_of};

use crate::answers::{StepStop, letter_of, numbers, push_numbers, word_of, yes_or_no};
use crate::pupil::{Pupil, Task};
use crate::step::{ScriptStep, slice_of, slot_of};
use gather_home::{Home, gather_data};
use lane_core::{Did, NoMemory};
use migration::{DataNo, DataSide};
use pc_base::{Place, SliceNo};
use std::alloc::Global;
use std::sync::Wait;
use text_fields::Text;
use worker_core::{DataWorker, data_pair};

#[derive(Drop)]
pub struct Stream {
    side: DataSide<Pupil>,
    first: DataWorker<Pupil>,
    second: DataWorker<Pupil>,
    third: DataWorker<Pupil>,
    ghost lanes: { lanes_of (desks_of side) ≡ worker_lanes first ∷ worker_lanes second ∷ worker_lanes third ∷ [] },
}

impl Stream {
    /// Lanes with room for so many orders, and queues with room for so many items.
    pub fn new(alloc: Global, room: u32, queue: u32) -> Result<Stream, StepStop> {
        if room == 0 || room > 16_384 || queue == 0 || queue > 256 {
            return Err(StepStop::Step);
        }
        let (one, first) = data_pair(alloc, SliceNo(0), room)?;
        let (two, second) = data_pair(alloc, SliceNo(1), room)?;
        let (three, third) = data_pair(alloc, SliceNo(2), room)?;
        let desks = Vec::from_array(alloc, [one, two, three])?;
        Ok(Stream {
            side: DataSide::new(alloc, desks, queue),
            first,
            second,
            third,
        })
    }

    fn turn<R: Wait>(&mut self, rt: &R, slice: SliceNo) -> Result<Did, NoMemory> {
        match slice.0 {
            0 => self.first.turn(rt),
            1 => self.second.turn(rt),
            _ => self.third.turn(rt),
        }
    }

    // Admits a half, if its slot is free: it learns once in so many asks, or, where that is 99, finds no memory once.
    fn admit<R: Wait>(&mut self, rt: &R, alloc: Global, step: ScriptStep) -> bool {
        let slot = slot_of(step.one);
        let slice = slice_of(step.two);
        if self.side.is_admitted(slot)
            || slice.0 as usize >= self.side.slices()
            || self.side.asked() > 99_999
        {
            return false;
        }
        let half = Pupil {
            slot,
            every: u64::from(step.three),
            asks: 0,
            known: 0,
            short: step.three == 99,
            handled: Vec::new(alloc),
            places: Vec::new(alloc),
        };
        self.side.admit(rt, half, slice, false).is_ok()
    }

    // Moves a slot, if it is admitted.
    fn go<R: Wait>(&mut self, rt: &R, step: ScriptStep) -> bool {
        let slot = slot_of(step.one);
        let slice = slice_of(step.two);
        if !self.side.is_admitted(slot)
            || slice.0 as usize >= self.side.slices()
            || self.side.asked() > 99_999
        {
            return false;
        }
        self.side.go(rt, slot, slice);
        true
    }

    // Gives an item to a slot that is admitted.
    fn give<R: Wait>(&mut self, rt: &R, step: ScriptStep) -> &'static [u8] {
        let slot = slot_of(step.one);
        if !self.side.is_admitted(slot) || self.side.asked() > 99_999 {
            return b"no";
        }
        let task = Task {
            slot,
            number: step.two,
            floor: u64::from(step.three),
        };
        match self.side.give(rt, task) {
            Ok(_) => b"ok",
            Err(DataNo::Full(_)) => b"full",
            Err(DataNo::NoMemory(_)) => b"memory",
        }
    }

    // Turns of a worker, and what each came to.
    fn turns<R: Wait>(
        &mut self,
        rt: &R,
        alloc: Global,
        step: ScriptStep,
    ) -> Result<Text, StepStop> {
        let mut text = Text::new(alloc);
        for _ in 0..step.two {
            let did = self.turn(rt, slice_of(step.one));
            text.push(letter_of(did))?;
        }
        Ok(text)
    }

    /// An admission (a), a move (g), an item (i), turns of a worker (w), a pumping (p), whether a slot parks (s), and
    /// how often the side was asked and refused (c).
    pub fn play<R: Wait>(
        &mut self,
        rt: &R,
        alloc: Global,
        step: ScriptStep,
    ) -> Result<Text, StepStop> {
        match step.letter {
            b'a' => {
                let took = self.admit(rt, alloc, step);
                yes_or_no(alloc, took)
            }
            b'g' => {
                let went = self.go(rt, step);
                yes_or_no(alloc, went)
            }
            b'i' => {
                let word = self.give(rt, step);
                word_of(alloc, word)
            }
            b'w' => self.turns(rt, alloc, step),
            b'p' => {
                self.side.pump(rt);
                word_of(alloc, b"pumped")
            }
            b's' => yes_or_no(alloc, self.side.parks(slot_of(step.one))),
            b'c' => numbers(alloc, &[self.side.asked(), self.side.refused()]),
            _ => Err(StepStop::Step),
        }
    }

    /// Of all halves that come home the slot, the asks and what it knows; the items that it handled, each with its
    /// slice; and those that are left.
    pub fn end<R: Wait>(self, rt: &R, alloc: Global) -> Result<Text, StepStop> {
        let ends = Vec::from_array(
            alloc,
            [
                self.first.into_end(),
                self.second.into_end(),
                self.third.into_end(),
            ],
        )?;
        let Ok(homes) = gather_data(rt, alloc, self.side.into_end(), ends) else {
            return Err(StepStop::NoMemory);
        };
        let mut text = Text::new(alloc);
        push_homes(&mut text, &homes)?;
        Ok(text)
    }
}

fn push_homes(text: &mut Text, homes: &[Home<Pupil>]) -> Result<(), NoMemory> {
    for home in homes {
        push_home(text, home)?;
    }
    Ok(())
}

fn push_home(text: &mut Text, home: &Home<Pupil>) -> Result<(), NoMemory> {
    let half = &home.half;
    push_numbers(text, &[u64::from(half.slot.0), half.asks, half.known])?;
    push_handled(text, half)?;
    push_left(text, &home.left)
}

fn push_handled(text: &mut Text, half: &Pupil) -> Result<(), NoMemory> {
    text.extend_from_slice(b" handled")?;
    for (task, place) in half.handled.iter().zip(half.places.iter()) {
        text.push_number(u64::from(task.number))?;
        push_place(text, *place)?;
    }
    Ok(())
}

fn push_place(text: &mut Text, place: Place) -> Result<(), NoMemory> {
    match place {
        Place::At(SliceNo(0)) => text.extend_from_slice(b"@0"),
        Place::At(SliceNo(1)) => text.extend_from_slice(b"@1"),
        Place::At(_) => text.extend_from_slice(b"@2"),
        Place::Closing => text.extend_from_slice(b"@"),
    }
}

fn push_left(text: &mut Text, left: &[Task]) -> Result<(), NoMemory> {
    text.extend_from_slice(b" left")?;
    for task in left {
        text.push_number(u64::from(task.number))?;
    }
    text.push(b';')?;
    Ok(())
}
