//! The two ends of a lane.
ghost use Rattle.std.specs.Prelude.{◌≡◌, ◌<◌, ◌≤◌, ◌^◌, [], ◌∷◌, ◌++◌, true, length, OnOk, IfErr, MatchOption};
ghost use Rattle.std.specs.Arc.{arc_value};
ghost use Rattle.crossbeam_queue.specs.Passes.{view, IsPassOf};

use crate::Carried;
use crate::sequence::{EndLog, Line, Sends, Takes};
use crossbeam_queue::Pass;
use std::alloc::Global;
use std::sync::{Arc, Wait};

/// The end that sends.
#[derive(Drop)]
pub struct Sender<T: Carried> {
    pub(crate) queue: Arc<Line<T>, Global>,
    pub(crate) pass: Pass<T, EndLog<T>>,
    pub(crate) offers: u64,
    pub(crate) fulls: u64,
    ghost of_lane: { IsPassOf (arc_value queue) pass },
    ghost sends: { (view pass).pushes ≡ true },
    ghost counted: { offers ≡ length (view pass).sent },
    pub ghost few: { length (view pass).sent ≤ 2 ^ 50 },
}

/// The end that takes.
#[derive(Drop)]
pub struct Receiver<T: Carried> {
    pub(crate) queue: Arc<Line<T>, Global>,
    pub(crate) pass: Pass<T, EndLog<T>>,
    pub(crate) takes: u64,
    pub(crate) empties: u64,
    ghost of_lane: { IsPassOf (arc_value queue) pass },
    ghost takes_here: { (view pass).pops ≡ true },
    ghost counted: { takes ≡ length (view pass).got },
    pub ghost few: { length (view pass).got ≤ 2 ^ 50 },
}

/// An item that found no place.
#[derive(Debug, Drop, PartialEq, Eq)]
pub struct Full<T>(pub T);

impl<T: Carried> Sender<T> {
    ghost use Rattle.lane_core.specs.Sequence.{Lawful};
    ghost use Rattle.lane_core.specs.Ends.{sender_lane, sent, full_answers, raised};

    /// Puts an item last. `Full` hands it back, and comes only from the queue itself.
    pub fn offer<R: Wait>(&mut self, rt: &R, item: T) -> Result<(), Full<T>>
        requires few { length (sent self.old) < 2 ^ 50 }
        requires follows { T.follows (sent self.old) item }

        ensures lane { sender_lane self.new ≡ sender_lane self.old }
        ensures lawful { Lawful T.follows (sent self.new) }

        ensures ok { OnOk result ((sent self.new ≡ sent self.old ++ item ∷ [])
            × (full_answers self.new ≡ full_answers self.old)) }

        // The item comes back, nothing was sent, the answer is counted, and as many items as the lane
        // has places were sent in all.
        ensures full { IfErr result (λ full. (full.0 ≡ item) × (sent self.new ≡ sent self.old)
            × (full_answers self.new ≡ raised (full_answers self.old))
            × ((sender_lane self.old).room ≤ length (sent self.old))) }
    {
        match self.queue.push_as::<Sends, R>(rt, &mut self.pass, item) {
            Ok(()) => {
                self.offers += 1;
                Ok(())
            }
            Err(item) => {
                self.fulls = self.fulls.saturating_add(1);
                Err(Full(item))
            }
        }
    }

    /// How many items were sent.
    pub fn offers(&self) -> u64
        ensures { result ≡ length (sent self.now) }
    {
        self.offers
    }

    /// How many offers were answered `Full`; at the last u64 it stays.
    pub fn fulls(&self) -> u64
        ensures { result ≡ full_answers self.now }
    {
        self.fulls
    }
}

impl<T: Carried> Receiver<T> {
    ghost use Rattle.lane_core.specs.Sequence.{Lawful};
    ghost use Rattle.lane_core.specs.Ends.{receiver_lane, taken, empty_answers, raised};

    /// Takes the first item that is left. `None` comes only from the queue itself.
    pub fn take<R: Wait>(&mut self, rt: &R) -> Option<T>
        ensures lane { receiver_lane self.new ≡ receiver_lane self.old }
        ensures lawful { Lawful T.follows (taken self.new) }

        // The next item, or nothing, and that answer is counted.
        ensures next { MatchOption result
            ((taken self.new ≡ taken self.old) × (empty_answers self.new ≡ raised (empty_answers self.old)))
            (λ item. (taken self.new ≡ taken self.old ++ item ∷ [])
            × (empty_answers self.new ≡ empty_answers self.old)) }
    {
        match self.pop(rt) {
            Some(item) => Some(item),
            None => {
                self.empties = self.empties.saturating_add(1);
                None
            }
        }
    }

    // The item at the front, if the queue gives one.
    fn pop<R: Wait>(&mut self, rt: &R) -> Option<T>
        ensures lane { receiver_lane self.new ≡ receiver_lane self.old }
        ensures lawful { Lawful T.follows (taken self.new) }
        ensures next { MatchOption result (taken self.new ≡ taken self.old)
            (λ item. taken self.new ≡ taken self.old ++ item ∷ []) }
        ensures empties { empty_answers self.new ≡ empty_answers self.old }
    {
        let item = self.queue.pop_as::<Takes, R>(rt, &mut self.pass)?;
        self.takes += 1;
        Some(item)
    }

    /// How many takes were answered `None`; at the last u64 it stays.
    pub fn empties(&self) -> u64
        ensures { result ≡ empty_answers self.now }
    {
        self.empties
    }
}
