//! What is left of a side and its workers, until each half is found.
ghost use Rattle.std.specs.Prelude.{◌≡◌, ◌<◌, ◌+◌, ℕ, [], None, map, vec_len, OnOk, IfOk, IfErr};
ghost use Rattle.std.specs.List.{sum_by};
ghost use Rattle.worker_core.specs.Names.{weight};
ghost use Rattle.migration.specs.Places.{names_of, weight_at};
ghost use Rattle.migration.specs.Sides.{BySlot};
ghost use Rattle.gather_home.specs.Homecomings.{somes, AreEnds, AtSlots, IsWhole};

use crate::steps;
use lane_core::NoMemory;
use migration::{ControlPlace, SideEnd};
use std::alloc::Global;
use std::snapshot::Snapshot;
use std::sync::Wait;
use worker_core::{Desk, HomeLane, LaneDesk, Order, Traveller, WorkerEnd, close_home};

/// What is left of a side and its workers after running out of memory. No half is lost.
#[derive(Drop)]
pub struct HomeParts<H: Traveller> {
    alloc: Global,
    /// The places as they were when the side stopped, for clauses alone.
    admitted: Snapshot<Vec<Option<ControlPlace<H>>>>,
    /// Those that were not looked at yet.
    places: Vec<Option<ControlPlace<H>>>,
    found: Vec<H>,
    /// Orders that no worker took.
    left: Vec<Order<H>>,
    /// Halves that a worker held, or that were in its lane home.
    held: Vec<H>,
    /// The lane home of the worker whose lane of orders was closed last.
    opened: Option<HomeLane<H>>,
    desks: Vec<Desk<H>>,
    ends: Vec<WorkerEnd<H>>,
    ghost whole: { IsWhole H.name admitted.value.items places.items found.items left.items held.items opened
        desks.items },
    ghost slots: { BySlot H.slot_of (names_of H.name admitted.value.items) },
    ghost ends_of: { AreEnds desks.items ends.items },
}

impl<H: Traveller> HomeParts<H> {
    ghost use Rattle.gather_home.specs.Words.{admitted_of};

    pub(crate) fn new(alloc: Global, side: SideEnd<H>, ends: Vec<WorkerEnd<H>>) -> HomeParts<H>
        requires { AreEnds side.desks.items ends.items }
        ensures { admitted_of result ≡ side.places.items }
    {
        let SideEnd {
            desks,
            places,
            aside,
        } = side;
        let admitted = Snapshot::of(&places);
        HomeParts {
            alloc,
            admitted,
            places,
            found: aside,
            left: Vec::new(alloc),
            held: Vec::new(alloc),
            opened: None,
            desks,
            ends,
        }
    }

    /// Goes on where memory ran out.
    pub fn again<R: Wait>(mut self, rt: &R) -> Result<Vec<H>, HomeParts<H>>
        ensures home { IfOk result (λ halves. map H.name halves.items ≡ somes (names_of H.name (admitted_of self))) }
        ensures each { IfOk result (λ halves. AtSlots H.name H.slot_of (admitted_of self) halves.items) }
        ensures parts { IfErr result (λ parts. admitted_of parts ≡ admitted_of self) }
    {
        match self.collect(rt) {
            Ok(()) => Ok(self.sorted()),
            Err(_) => Err(self),
        }
    }

    // The halves by slot, once all are found.
    fn sorted(self) -> Vec<H>
        requires { (h : H.Name → ℕ) → weight H.name h self.found.items
            ≡ sum_by (weight_at h) (names_of H.name (admitted_of self)) }
        ensures { map H.name result.items ≡ somes (names_of H.name (admitted_of self)) }
    {
        let HomeParts { mut found, .. } = self;
        steps::sort(&mut found);
        found
    }

    // Finds all halves.
    fn collect<R: Wait>(&mut self, rt: &R) -> Result<(), NoMemory>
        ensures same { admitted_of self.new ≡ admitted_of self.old }
        ensures found { OnOk result ((h : H.Name → ℕ) → weight H.name h self.new.found.items
            ≡ sum_by (weight_at h) (names_of H.name (admitted_of self.new))) }
    {
        self.empty_out()?;
        self.close_home(rt)?;
        self.empty_out()?;
        for _ in 0..self.desks.len() {
            self.collect_one(rt)?;
        }
        Ok(())
    }

    // Finds the halves of the last slice.
    fn collect_one<R: Wait>(&mut self, rt: &R) -> Result<(), NoMemory>
        requires some { 0 < vec_len self.old.desks }
        requires empty { (self.old.places.items ≡ []) × (self.old.left.items ≡ []) × (self.old.held.items ≡ [])
            × (self.old.opened ≡ None) }
        ensures same { admitted_of self.new ≡ admitted_of self.old }
        ensures one { OnOk result (vec_len self.new.desks + 1 ≡ vec_len self.old.desks) }
        ensures empty { OnOk result ((self.new.places.items ≡ []) × (self.new.left.items ≡ [])
            × (self.new.held.items ≡ []) × (self.new.opened ≡ None)) }
    {
        self.close_orders(rt)?;
        self.empty_out()?;
        self.close_home(rt)?;
        self.empty_out()
    }

    // What is in hand is found.
    fn empty_out(&mut self) -> Result<(), NoMemory>
        ensures same { admitted_of self.new ≡ admitted_of self.old }
        ensures desks { vec_len self.new.desks ≡ vec_len self.old.desks }
        ensures opened { self.new.opened ≡ self.old.opened }
        ensures empty { OnOk result ((self.new.places.items ≡ []) × (self.new.left.items ≡ [])
            × (self.new.held.items ≡ [])) }
    {
        steps::take_fronts(&mut self.places, &mut self.found)?;
        steps::take_left(&mut self.left, &mut self.found)?;
        steps::take_held(&mut self.held, &mut self.found)
    }

    // Closes the lane home that is open.
    fn close_home<R: Wait>(&mut self, rt: &R) -> Result<(), NoMemory>
        requires { self.old.held.items ≡ [] }
        ensures same { admitted_of self.new ≡ admitted_of self.old }
        ensures desks { vec_len self.new.desks ≡ vec_len self.old.desks }
        ensures others { (self.new.places ≡ self.old.places) × (self.new.left ≡ self.old.left) }
        ensures closed { OnOk result (self.new.opened ≡ None) }
    {
        close_home(rt, self.alloc, &mut self.opened, &mut self.held)
    }

    // Closes the lane of orders of the last slice.
    fn close_orders<R: Wait>(&mut self, rt: &R) -> Result<(), NoMemory>
        requires some { 0 < vec_len self.old.desks }
        requires empty { (self.old.left.items ≡ []) × (self.old.held.items ≡ []) × (self.old.opened ≡ None) }
        ensures same { admitted_of self.new ≡ admitted_of self.old }
        ensures one { OnOk result (vec_len self.new.desks + 1 ≡ vec_len self.old.desks) }
        ensures places { self.new.places ≡ self.old.places }
    {
        let Some(desk) = self.desks.pop() else {
            unreachable!()
        };
        let Some(end) = self.ends.pop() else {
            unreachable!()
        };
        let LaneDesk { orders, home } = desk;
        let WorkerEnd {
            place,
            held,
            orders: taking,
            home: sending,
        } = end;
        match lane_core::close(rt, self.alloc, orders, taking) {
            Ok(left) => {
                self.left = left;
                self.held = held;
                self.opened = Some(HomeLane {
                    tx: sending,
                    rx: home,
                });
                Ok(())
            }
            Err(ends) => {
                self.desks.push_reserved(LaneDesk {
                    orders: ends.tx,
                    home,
                });
                self.ends.push_reserved(WorkerEnd {
                    place,
                    held,
                    orders: ends.rx,
                    home: sending,
                });
                Err(NoMemory)
            }
        }
    }
}
