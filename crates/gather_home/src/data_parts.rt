//! What is left of a side and its workers, until each half is home.
ghost use Rattle.std.specs.Prelude.{◌≡◌, ◌<◌, ◌+◌, [], None, Some, map};
ghost use Rattle.std.specs.Prelude.{vec_len, OnOk, IfOk, IfErr};
ghost use Rattle.gather_home.specs.Homecomings.{somes};
ghost use Rattle.migration.specs.DataPlaces.{names_of};
ghost use Rattle.migration.specs.DataSides.{BySlot};
ghost use Rattle.gather_home.specs.DataHomecomings.{AreEnds, AtSlots, ComeToAccepted, AllLaid, AreHome, IsEmptied};
ghost use Rattle.gather_home.specs.DataPlaced.{AllEven, AllPlaced, AreLeft, slices_served};

use crate::data_hand::Hand;
use crate::data_home::Home;
use crate::data_steps;
use lane_core::NoMemory;
use migration::{DataPlace, DataSideEnd, UnexpectedHalf};
use std::alloc::Global;
use std::snapshot::Snapshot;
use std::sync::Wait;
use worker_core::{DataDesk, DataEnd, DataTraveller, HomeLane, LaneDesk, close_home};

/// What is left of a side and its workers after running out of memory. No half and no item is lost.
#[derive(Drop)]
pub struct DataParts<H: DataTraveller> {
    alloc: Global,
    /// The places as they were when the side stopped, for clauses alone.
    admitted: Snapshot<Vec<Option<DataPlace<H>>>>,
    /// The ends of all workers, for clauses alone.
    stopped: Snapshot<Vec<DataEnd<H>>>,
    /// Those that were not looked at yet.
    places: Vec<Option<DataPlace<H>>>,
    aside: Vec<UnexpectedHalf<H>>,
    hand: Hand<H>,
    /// The lane home of the worker whose lane of orders was closed last.
    opened: Option<HomeLane<H>>,
    desks: Vec<DataDesk<H>>,
    ends: Vec<DataEnd<H>>,
    homes: Vec<Home<H>>,
    ghost laid: { AllLaid H.name H.slot_at H.item_slot H.handled admitted.value.items places.items aside.items hand
        opened desks.items homes.items },
    ghost slots: { BySlot H.slot_at (names_of H.name admitted.value.items) },
    ghost ends_of: { AreEnds desks.items ends.items },
    ghost even: { AllEven H.places (slices_served stopped.value.items) places.items aside.items hand opened desks.items
        homes.items },
    ghost left: { AreLeft (slices_served stopped.value.items) (slices_served ends.items) },
}

impl<H: DataTraveller> DataParts<H> {
    ghost use Rattle.gather_home.specs.DataWords.{admitted_of, origin_of, slices_of, AreClosed, IsBare};

    pub(crate) fn new(alloc: Global, side: DataSideEnd<H>, ends: Vec<DataEnd<H>>) -> DataParts<H>
        requires { AreEnds side.desks.items ends.items }
        ensures admitted { admitted_of result ≡ side.places.items }
        ensures slices { slices_of result ≡ slices_served ends.items }
    {
        let DataSideEnd {
            desks,
            places,
            aside,
        } = side;
        let admitted = Snapshot::of(&places);
        let stopped = Snapshot::of(&ends);
        let hand = Hand {
            found: Vec::new(alloc),
            lefts: Vec::new(alloc),
            item: None,
            left: Vec::new(alloc),
            held: Vec::new(alloc),
            waiting: None,
        };
        DataParts {
            alloc,
            admitted,
            stopped,
            places,
            aside,
            hand,
            opened: None,
            desks,
            ends,
            homes: Vec::new(alloc),
        }
    }

    /// Goes on where memory ran out.
    pub fn again<R: Wait>(mut self, rt: &R) -> Result<Vec<Home<H>>, DataParts<H>>
        ensures home { IfOk result (λ homes. map (λ home. H.name home.half) homes.items
            ≡ somes (names_of H.name (admitted_of self))) }
        ensures each { IfOk result (λ homes. AtSlots H.name H.slot_at (admitted_of self) homes.items) }
        ensures items { IfOk result
            (λ homes. ComeToAccepted H.name H.slot_at H.handled (admitted_of self) homes.items) }
        ensures placed { IfOk result (λ homes. AllPlaced H.places (slices_of self) homes.items) }
        ensures parts { IfErr result (λ parts. origin_of parts ≡ origin_of self) }
    {
        match self.collect(rt) {
            Ok(()) => Ok(self.sorted()),
            Err(_) => Err(self),
        }
    }

    // The halves by slot, once all are home.
    fn sorted(self) -> Vec<Home<H>>
        requires home { AreHome H.name H.slot_at H.handled (admitted_of self) self.homes.items }
        requires bare { IsBare self }
        ensures home { map (λ home. H.name home.half) result.items ≡ somes (names_of H.name (admitted_of self)) }
        ensures each { AtSlots H.name H.slot_at (admitted_of self) result.items }
        ensures items { ComeToAccepted H.name H.slot_at H.handled (admitted_of self) result.items }
        ensures placed { AllPlaced H.places (slices_of self) result.items }
    {
        let DataParts { mut homes, .. } = self;
        data_steps::sort(&mut homes);
        homes
    }

    // Brings all halves and all items home: first what the lanes have, and then what is at the front.
    fn collect<R: Wait>(&mut self, rt: &R) -> Result<(), NoMemory>
        ensures same { origin_of self.new ≡ origin_of self.old }
        ensures home { OnOk result (AreHome H.name H.slot_at H.handled (admitted_of self.new) self.new.homes.items) }
        ensures bare { OnOk result (IsBare self.new) }
    {
        self.close_all(rt)?;
        self.take_asides()?;
        self.take_places()?;
        self.bring_all()
    }

    // Closes all lanes.
    fn close_all<R: Wait>(&mut self, rt: &R) -> Result<(), NoMemory>
        ensures same { origin_of self.new ≡ origin_of self.old }
        ensures closed { OnOk result (AreClosed self.new) }
    {
        self.empty_out()?;
        self.close_home(rt)?;
        self.empty_out()?;
        for _ in 0..self.desks.len() {
            self.close_slice(rt)?;
        }
        Ok(())
    }

    // Closes the lanes of the last slice.
    fn close_slice<R: Wait>(&mut self, rt: &R) -> Result<(), NoMemory>
        requires some { 0 < vec_len self.old.desks }
        requires empty { IsEmptied self.old.hand × (self.old.opened ≡ None) }
        ensures same { origin_of self.new ≡ origin_of self.old }
        ensures one { OnOk result (vec_len self.new.desks + 1 ≡ vec_len self.old.desks) }
        ensures empty { OnOk result (IsEmptied self.new.hand × (self.new.opened ≡ None)) }
    {
        self.close_orders(rt)?;
        self.empty_out()?;
        self.close_home(rt)?;
        self.empty_out()
    }

    // What is in hand is found.
    fn empty_out(&mut self) -> Result<(), NoMemory>
        ensures same { origin_of self.new ≡ origin_of self.old }
        ensures desks { vec_len self.new.desks ≡ vec_len self.old.desks }
        ensures opened { self.new.opened ≡ self.old.opened }
        ensures empty { OnOk result (IsEmptied self.new.hand) }
    {
        data_steps::empty_out(self.alloc, &mut self.hand)
    }

    // Closes the lane home that is open.
    fn close_home<R: Wait>(&mut self, rt: &R) -> Result<(), NoMemory>
        requires { IsEmptied self.old.hand }
        ensures same { origin_of self.new ≡ origin_of self.old }
        ensures desks { vec_len self.new.desks ≡ vec_len self.old.desks }
        ensures closed { OnOk result (self.new.opened ≡ None) }
    {
        close_home(rt, self.alloc, &mut self.opened, &mut self.hand.held)
    }

    // Closes the lane of orders of the last slice.
    fn close_orders<R: Wait>(&mut self, rt: &R) -> Result<(), NoMemory>
        requires some { 0 < vec_len self.old.desks }
        requires empty { IsEmptied self.old.hand × (self.old.opened ≡ None) }
        ensures same { origin_of self.new ≡ origin_of self.old }
        ensures one { OnOk result (vec_len self.new.desks + 1 ≡ vec_len self.old.desks) }
    {
        let Some(desk) = self.desks.pop() else {
            unreachable!()
        };
        let Some(end) = self.ends.pop() else {
            unreachable!()
        };
        let LaneDesk { orders, home } = desk;
        let DataEnd {
            place,
            held,
            waiting,
            kept,
            orders: taking,
            home: sending,
        } = end;
        match lane_core::close(rt, self.alloc, orders, taking) {
            Ok(left) => {
                self.hand.item = kept;
                self.hand.left = data_steps::reversed(left);
                self.hand.held = held;
                self.hand.waiting = waiting;
                self.opened = Some(HomeLane {
                    tx: sending,
                    rx: home,
                });
                Ok(())
            }
            Err(ends) => {
                self.desks.push_reserved(LaneDesk {
                    orders: ends.tx,
                    home,
                });
                self.ends.push_reserved(DataEnd {
                    place,
                    held,
                    waiting,
                    kept,
                    orders: ends.rx,
                    home: sending,
                });
                Err(NoMemory)
            }
        }
    }

    // The halves that were kept aside are found.
    fn take_asides(&mut self) -> Result<(), NoMemory>
        requires { AreClosed self.old }
        ensures same { origin_of self.new ≡ origin_of self.old }
        ensures closed { AreClosed self.new }
        ensures empty { OnOk result (self.new.aside.items ≡ []) }
    {
        data_steps::take_asides(&mut self.aside, &mut self.hand.found)
    }

    // The halves at the front are found, and the items of all queues.
    fn take_places(&mut self) -> Result<(), NoMemory>
        requires { AreClosed self.old }
        ensures same { origin_of self.new ≡ origin_of self.old }
        ensures closed { AreClosed self.new }
        ensures aside { self.new.aside ≡ self.old.aside }
        ensures empty { OnOk result (self.new.places.items ≡ []) }
    {
        for _ in 0..self.places.len() {
            self.take_place()?;
        }
        Ok(())
    }

    // The last place.
    fn take_place(&mut self) -> Result<(), NoMemory>
        requires some { 0 < vec_len self.old.places }
        requires closed { AreClosed self.old }
        ensures same { origin_of self.new ≡ origin_of self.old }
        ensures closed { AreClosed self.new }
        ensures aside { self.new.aside ≡ self.old.aside }
        ensures one { OnOk result (vec_len self.new.places + 1 ≡ vec_len self.old.places) }
    {
        data_steps::take_place(
            self.alloc,
            &mut self.places,
            &mut self.hand.lefts,
            &mut self.hand.found,
        )
    }

    // All halves that are found come home.
    fn bring_all(&mut self) -> Result<(), NoMemory>
        requires closed { AreClosed self.old }
        requires empty { (self.old.aside.items ≡ []) × (self.old.places.items ≡ []) }
        ensures same { origin_of self.new ≡ origin_of self.old }
        ensures home { OnOk result (AreHome H.name H.slot_at H.handled (admitted_of self.new) self.new.homes.items) }
        ensures bare { OnOk result (IsBare self.new) }
    {
        for _ in 0..self.hand.found.len() {
            self.bring_home()?;
        }
        Ok(())
    }

    // The half that was found last comes home.
    fn bring_home(&mut self) -> Result<(), NoMemory>
        requires some { 0 < vec_len self.old.hand.found }
        requires closed { AreClosed self.old }
        requires empty { (self.old.aside.items ≡ []) × (self.old.places.items ≡ []) }
        ensures same { origin_of self.new ≡ origin_of self.old }
        ensures closed { AreClosed self.new }
        ensures empty { (self.new.aside.items ≡ []) × (self.new.places.items ≡ []) }
        ensures one { OnOk result (vec_len self.new.hand.found + 1 ≡ vec_len self.old.hand.found) }
    {
        data_steps::bring_home(
            self.alloc,
            &mut self.hand.found,
            &mut self.hand.lefts,
            &mut self.homes,
        )
    }
}
