//! A lane of numbers.
ghost use Rattle.std.specs.Prelude.{◌≡◌, ◌<◌};
ghost use Rattle.lane_core.specs.Ends.{sender_lane, receiver_lane};

use crate::answers::{StepStop, numbers, push_numbers, word_of, yes_or_no};
use crate::step::ScriptStep;
use lane_core::{Carried, Full, NoMemory, Receiver, Sender, close, lane};
use std::alloc::Global;
use std::sync::Wait;
use text_fields::Text;

/// What a lane carries.
#[derive(Clone, Copy)]
struct Parcel(u32);

impl Carried for Parcel {}

/// Both ends of a lane.
#[derive(Drop)]
pub struct Lane {
    tx: Sender<Parcel>,
    rx: Receiver<Parcel>,
    ghost one: { sender_lane tx ≡ receiver_lane rx },
}

impl Lane {
    pub fn new(alloc: Global, room: u32) -> Result<Lane, StepStop> {
        if room == 0 || room > 65_536 {
            return Err(StepStop::Step);
        }
        let (tx, rx) = lane(alloc, room)?;
        Ok(Lane { tx, rx })
    }

    // Offers a number, and tells whether it was taken in.
    fn offer<R: Wait>(&mut self, rt: &R, number: u32) -> bool {
        if self.tx.offers() > 1_000_000 {
            return false;
        }
        match self.tx.offer(rt, Parcel(number)) {
            Ok(()) => true,
            Err(Full(_)) => false,
        }
    }

    // Offers the numbers below a count, and tells how many were taken in.
    fn fill<R: Wait>(&mut self, rt: &R, count: u32) -> u64 {
        let before = self.tx.offers();
        for number in 0..count {
            self.offer(rt, number);
        }
        self.tx.offers().saturating_sub(before)
    }

    /// An offer (o), a taking (t), offers of all numbers below one (f), or the counts of offers, of refusals and of
    /// takings in vain (c).
    pub fn play<R: Wait>(
        &mut self,
        rt: &R,
        alloc: Global,
        step: ScriptStep,
    ) -> Result<Text, StepStop> {
        match step.letter {
            b'o' => {
                let taken = self.offer(rt, step.one);
                word_of(alloc, if taken { b"ok" } else { b"full" })
            }
            b't' => match self.rx.take(rt) {
                Some(parcel) => numbers(alloc, &[u64::from(parcel.0)]),
                None => word_of(alloc, b"none"),
            },
            b'f' => {
                let taken = self.fill(rt, step.one);
                numbers(alloc, &[taken])
            }
            b'c' => numbers(
                alloc,
                &[self.tx.offers(), self.tx.fulls(), self.rx.empties()],
            ),
            _ => Err(StepStop::Step),
        }
    }

    /// How many are left, then the first and the last of them.
    pub fn end<R: Wait>(self, rt: &R, alloc: Global) -> Result<Text, StepStop> {
        let Ok(rest) = close(rt, alloc, self.tx, self.rx) else {
            return Err(StepStop::NoMemory);
        };
        let mut text = numbers(alloc, &[rest.len() as u64])?;
        push_ends(&mut text, &rest)?;
        Ok(text)
    }
}

fn push_ends(text: &mut Text, rest: &[Parcel]) -> Result<(), NoMemory> {
    match (rest.first(), rest.last()) {
        (Some(first), Some(last)) => push_numbers(text, &[u64::from(first.0), u64::from(last.0)]),
        _ => Ok(()),
    }
}
