//! Versions are learnt, and packets handled.
ghost use Rattle.std.specs.Prelude.{◌≡◌, ◌≢◌, ◌+◌, ◌<◌, ◌≤◌, [], ◌∷◌, ◌++◌, true, false};
ghost use Rattle.std.specs.Prelude.{None, Ok, IfOk, OnOk, OnErr, IsTrue, IsFalse};
ghost use Rattle.lane_core.specs.Ends.{empty_answers, raised};
ghost use Rattle.worker_core.specs.DataCounts.{learns_after};
ghost use Rattle.counter_half.specs.declared.items.DataItem.{DataItem};
ghost use Rattle.control_half.specs.Turns.{size as left_in};
ghost use Rattle.pc_base.specs.declared.packet.Place.TheVariants as places;

use crate::half::DataHalf;
use crate::inner::DataInner;
use crate::{DataItem, NoMemory};
use pc_base::{Place, SliceNo};
use std::sync::Wait;

/// How many packets a half handles at most.
const MOST_PACKETS: usize = 0x4_0000_0000_0000;

impl<'p> DataHalf<'p> {
    ghost use Rattle.counter_half.specs.Half.{name_of, handled_by, places_of, may_take, asks_of};
    ghost use Rattle.counter_half.specs.Half.{learns_of, batches_of, HalfStops, Judges};

    /// Learns at most so many batches, as long as they come and their floors are met. Tells whether it
    /// learnt one. When out of memory, what was learnt stays learnt, and nothing is lost.
    pub fn learn_at_most<R: Wait>(&mut self, rt: &R, most: u32) -> Result<bool, NoMemory>
        requires { 1 ≤ most }

        ensures name { name_of self.new ≡ name_of self.old }
        ensures handled { handled_by self.new ≡ handled_by self.old }
        ensures places { places_of self.new ≡ places_of self.old }
        ensures asks { asks_of self.new ≡ raised (asks_of self.old) }
        ensures learns { learns_of self.new ≡ learns_after result (learns_of self.old) }
        ensures done { self.new.inner.value.state.done ≡ self.old.inner.value.state.done }
        ensures takes { result ≡ Ok false → (item : DataItem) → may_take self.new item ≡ may_take self.old item }

        // How many batches were learnt, and why no more.
        ensures more { IfOk result (λ learnt. learnt ≡ true → batches_of self.old < batches_of self.new) }
        ensures most { OnOk result (batches_of self.new ≤ batches_of self.old + most) }
        ensures none { IfOk result (λ learnt. learnt ≡ false → batches_of self.new ≡ batches_of self.old) }
        ensures met { IfOk result (λ learnt. learnt ≡ false
            → self.new.inner.value.state.met ≡ self.old.inner.value.state.met) }
        ensures stopped { OnOk result (HalfStops most self.old self.new) }
    {
        self.inner.learn_at_most(rt, most)
    }

    /// Whether it has learnt as many commands as an item asks for, and may handle one more.
    pub fn may_handle(&self, item: &DataItem<'p>) -> bool
        ensures { result ≡ may_take self.now item.now }
    {
        self.inner.may_handle(item)
    }

    /// Handles an item at a slice, at the last one's moment where its own is earlier. When out of memory,
    /// nothing changes.
    pub fn handle(&mut self, place: SliceNo, item: &DataItem<'p>) -> Result<(), NoMemory>
        requires { may_take self.old item.now ≡ true }

        ensures name { name_of self.new ≡ name_of self.old }
        ensures ok { OnOk result (handled_by self.new ≡ handled_by self.old ++ item.now ∷ []) }
        ensures place { OnOk result (places_of self.new ≡ places_of self.old ++ places.At place ∷ []) }
        ensures judged { OnOk result (Judges item.now.packet self.old self.new) }
        ensures err { OnErr result (handled_by self.new ≡ handled_by self.old) }
        ensures no_place { OnErr result (places_of self.new ≡ places_of self.old) }
        ensures met { self.new.inner.value.state.met ≡ self.old.inner.value.state.met }
        ensures batches { OnOk result (batches_of self.new ≡ batches_of self.old) }
        ensures counts { (asks_of self.new ≡ asks_of self.old) × (learns_of self.new ≡ learns_of self.old) }
    {
        self.inner.handle(place, item)
    }
}

impl<'p> DataInner<'p> {
    ghost use Rattle.counter_half.specs.Half.{inner_name, inner_handled, inner_places, inner_takes, batches_learnt};
    ghost use Rattle.counter_half.specs.Half.{IsReady, HasNoMore, Stops, JudgesInner};

    // Learns, and counts that it was asked to.
    fn learn_at_most<R: Wait>(&mut self, rt: &R, most: u32) -> Result<bool, NoMemory>
        requires { 1 ≤ most }

        ensures name { inner_name self.new ≡ inner_name self.old }
        ensures handled { self.new.state.handled.items ≡ self.old.state.handled.items }
        ensures notes { self.new.state.notes.items ≡ self.old.state.notes.items }
        ensures asks { self.new.asks ≡ raised self.old.asks }
        ensures learns { self.new.learns ≡ learns_after result self.old.learns }
        ensures done { self.new.state.done ≡ self.old.state.done }
        ensures more { IfOk result (λ learnt. learnt ≡ true → batches_learnt self.old < batches_learnt self.new) }
        ensures most { OnOk result (batches_learnt self.new ≤ batches_learnt self.old + most) }
        ensures none { IfOk result (λ learnt. learnt ≡ false → batches_learnt self.new ≡ batches_learnt self.old) }
        ensures met { IfOk result (λ learnt. learnt ≡ false → self.new.state.met ≡ self.old.state.met) }
        ensures stopped { OnOk result (Stops most self.old self.new) }
    {
        self.asks = self.asks.saturating_add(1);
        let learnt = self.learn_batches(rt, most)?;
        if learnt {
            self.learns = self.learns.saturating_add(1);
        }
        Ok(learnt)
    }

    fn may_handle(&self, item: &DataItem<'p>) -> bool
        ensures { result ≡ inner_takes self.now item.now }
    {
        item.floor <= self.state.met && self.state.notes.len() < MOST_PACKETS
    }

    fn handle(&mut self, place: SliceNo, item: &DataItem<'p>) -> Result<(), NoMemory>
        requires { inner_takes self.old item.now ≡ true }

        ensures name { inner_name self.new ≡ inner_name self.old }
        ensures ok { OnOk result (inner_handled self.new ≡ inner_handled self.old ++ item.now ∷ []) }
        ensures place { OnOk result (inner_places self.new ≡ inner_places self.old ++ places.At place ∷ []) }
        ensures judged { OnOk result (JudgesInner item.now.packet self.old self.new) }
        ensures err { OnErr result (inner_handled self.new ≡ inner_handled self.old) }
        ensures no_place { OnErr result (inner_places self.new ≡ inner_places self.old) }
        ensures met { self.new.state.met ≡ self.old.state.met }
        ensures batches { OnOk result (batches_learnt self.new ≡ batches_learnt self.old) }
        ensures counts { (self.new.asks ≡ self.old.asks) × (self.new.learns ≡ self.old.learns) }
    {
        self.state.meet(Place::At(place), item)?;
        Ok(())
    }

    /// Learns batches as long as they come and are ready.
    fn learn_batches<R: Wait>(&mut self, rt: &R, most: u32) -> Result<bool, NoMemory>
        requires { 1 ≤ most }

        ensures name { inner_name self.new ≡ inner_name self.old }
        ensures handled { self.new.state.handled.items ≡ self.old.state.handled.items }
        ensures notes { self.new.state.notes.items ≡ self.old.state.notes.items }
        ensures done { self.new.state.done ≡ self.old.state.done }
        ensures counts { (self.new.asks ≡ self.old.asks) × (self.new.learns ≡ self.old.learns) }
        ensures more { IfOk result (λ learnt. learnt ≡ true → batches_learnt self.old < batches_learnt self.new) }
        ensures most { OnOk result (batches_learnt self.new ≤ batches_learnt self.old + most) }
        ensures none { IfOk result (λ learnt. learnt ≡ false → batches_learnt self.new ≡ batches_learnt self.old) }
        ensures met { IfOk result (λ learnt. learnt ≡ false → self.new.state.met ≡ self.old.state.met) }
        ensures stopped { OnOk result (Stops most self.old self.new) }
    {
        for learnt in 0..most {
            let more = self.learn_next(rt)?;
            if !more {
                return Ok(learnt > 0);
            }
        }
        Ok(true)
    }

    /// Learns a batch, if one is there whose floor is met.
    fn learn_next<R: Wait>(&mut self, rt: &R) -> Result<bool, NoMemory>
        ensures name { inner_name self.new ≡ inner_name self.old }
        ensures handled { self.new.state.handled.items ≡ self.old.state.handled.items }
        ensures notes { self.new.state.notes.items ≡ self.old.state.notes.items }
        ensures done { self.new.state.done ≡ self.old.state.done }
        ensures counts { (self.new.asks ≡ self.old.asks) × (self.new.learns ≡ self.old.learns) }
        ensures learnt { IfOk result (λ learnt. learnt ≡ true → batches_learnt self.new ≡ batches_learnt self.old + 1) }
        ensures same { IfOk result (λ learnt. learnt ≡ false
            → (self.new.state.met ≡ self.old.state.met) × (batches_learnt self.new ≡ batches_learnt self.old)) }
        ensures asked { IfOk result (λ learnt. learnt ≡ true
            → empty_answers self.new.versions ≡ empty_answers self.old.versions) }
        ensures none { IfOk result (λ learnt. learnt ≡ false → HasNoMore self.old self.new) }
    {
        if !self.has_batch(rt) {
            return Ok(false);
        }
        self.learn_batch()?;
        Ok(true)
    }

    /// Whether a batch is there whose floor is met.
    fn has_batch<R: Wait>(&mut self, rt: &R) -> bool
        ensures name { inner_name self.new ≡ inner_name self.old }
        ensures state { self.new.state ≡ self.old.state }
        ensures counts { (self.new.asks ≡ self.old.asks) × (self.new.learns ≡ self.old.learns) }
        ensures learnt { batches_learnt self.new ≡ batches_learnt self.old }
        ensures ready { IsTrue result → IsReady self.new.state.done self.new.batch }
        ensures asked { IsTrue result → empty_answers self.new.versions ≡ empty_answers self.old.versions }
        ensures none { IsFalse result → HasNoMore self.old self.new }
    {
        self.look(rt);
        match &self.batch {
            Some(batch) => batch.floor() <= self.state.done,
            None => false,
        }
    }

    /// Takes a batch, where none is kept.
    fn look<R: Wait>(&mut self, rt: &R)
        ensures name { inner_name self.new ≡ inner_name self.old }
        ensures state { self.new.state ≡ self.old.state }
        ensures counts { (self.new.asks ≡ self.old.asks) × (self.new.learns ≡ self.old.learns) }
        ensures learnt { batches_learnt self.new ≡ batches_learnt self.old }
        ensures none { self.new.batch ≡ None → empty_answers self.new.versions
            ≡ raised (empty_answers self.old.versions) }
        ensures some { self.new.batch ≢ None → empty_answers self.new.versions ≡ empty_answers self.old.versions }
    {
        if self.batch.is_none() {
            self.batch = self.versions.take(rt);
        }
    }

    /// Learns the batch that is kept, whole.
    fn learn_batch(&mut self) -> Result<(), NoMemory>
        requires { IsReady self.old.state.done self.old.batch }

        ensures name { inner_name self.new ≡ inner_name self.old }
        ensures handled { self.new.state.handled.items ≡ self.old.state.handled.items }
        ensures notes { self.new.state.notes.items ≡ self.old.state.notes.items }
        ensures done { self.new.state.done ≡ self.old.state.done }
        ensures versions { self.new.versions ≡ self.old.versions }
        ensures counts { (self.new.asks ≡ self.old.asks) × (self.new.learns ≡ self.old.learns) }
        ensures whole { OnOk result (self.new.batch ≡ None) }
    {
        while self.learn_one()? {}
        self.batch = None;
        Ok(())
    }

    /// Learns the first version of the batch that is kept; tells whether there was one.
    fn learn_one(&mut self) -> Result<bool, NoMemory>
        requires { IsReady self.old.state.done self.old.batch }

        ensures name { inner_name self.new ≡ inner_name self.old }
        ensures handled { self.new.state.handled.items ≡ self.old.state.handled.items }
        ensures notes { self.new.state.notes.items ≡ self.old.state.notes.items }
        ensures done { self.new.state.done ≡ self.old.state.done }
        ensures versions { self.new.versions ≡ self.old.versions }
        ensures counts { (self.new.asks ≡ self.old.asks) × (self.new.learns ≡ self.old.learns) }
        ensures ready { IsReady self.new.state.done self.new.batch }
        ensures one { IfOk result (λ learnt. learnt ≡ true → left_in self.old.batch ≡ left_in self.new.batch + 1) }
        ensures none { IfOk result (λ learnt. learnt ≡ false → left_in self.new.batch ≡ 0) }
    {
        match &mut self.batch {
            Some(batch) => self.state.learn_first(batch),
            None => Ok(false),
        }
    }
}
