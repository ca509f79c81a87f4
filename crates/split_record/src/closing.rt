//! The closing pass: commands are applied, versions learnt, packets handled.
ghost use Rattle.std.specs.Prelude.{◌≡◌, ◌+◌, [], ◌∷◌, true, false, None, length};
ghost use Rattle.std.specs.Prelude.{IfOk, OnOk, IsTrue, IsFalse, MatchOption};
ghost use Rattle.split_record.specs.Rejoined.{AreAccepted, Finishes};
ghost use Rattle.counter_half.specs.Half.{IsReady};
ghost use Rattle.counter_half.specs.Handled.{places_in};
ghost use Rattle.split_record.specs.Closing.{IsSpent, Waits, to_learn};

use crate::laws::known_pasts;
use crate::origin::Origin;
use crate::parts::Commanded;
use crate::{Finished, NoMemory};
use bearer_state::Version;
use control_half::{Batch, Controller};
use counter_half::{DataItem, HalfState};
use pc_base::{Place, SliceNo};
use std::alloc::Global;
use subscriber::Subscriber;

/// A subscriber whose lanes are closed.
#[derive(Drop)]
pub(crate) struct Closing<'p> {
    pub(crate) control: Commanded,
    /// How many of the commands that were left in the lane are applied.
    pub(crate) applied: usize,
    pub(crate) state: HalfState<'p>,
    /// A batch in hand, which is learnt before the others.
    pub(crate) taken: Option<Batch<Version>>,
    /// Batches that aren't learnt, in the order in which they are published.
    pub(crate) batches: Vec<Batch<Version>>,
    /// Packets that were accepted and not handled, and how many are handled now.
    pub(crate) left: Vec<DataItem<'p>>,
    pub(crate) handled: usize,
}

impl<'p> Closing<'p> {
    ghost use Rattle.split_record.specs.Origin.{start_in, commands_in, items_in_all, places_in_all, LeftMeetAll};
    ghost use Rattle.split_record.specs.Origin.{IsClosing, IsApplied, IsDone, commands_left, items_left};

    /// Applies what commands are left. Then each packet is handled behind every version whose floor is met
    /// there, and at last every version is learnt. Out of memory, what is done stays done.
    pub(crate) fn work(&mut self, alloc: Global, origin: &Origin<'p>) -> Result<(), NoMemory>
        requires at { IsClosing origin.now self.old }
        requires accepted { AreAccepted origin.now.front.value (items_in_all origin.now) }

        ensures at { IsClosing origin.now self.new }
        ensures done { OnOk result (IsDone origin.now self.new) }
    {
        self.queue(origin)?;
        self.apply_all(alloc, origin)?;
        self.handle_all(origin)
    }

    /// Puts the batch that wasn't sent behind those that were.
    fn queue(&mut self, origin: &Origin<'p>) -> Result<(), NoMemory>
        requires at { IsClosing origin.now self.old }

        ensures at { IsClosing origin.now self.new }
        ensures none { OnOk result (self.new.control.kept ≡ None) }
    {
        self.batches.reserve(1)?;
        let Some(batch) = self.control.kept.take() else {
            return Ok(());
        };
        self.batches.push_reserved(batch);
        Ok(())
    }

    /// Applies every command, and makes its version.
    fn apply_all(&mut self, alloc: Global, origin: &Origin<'p>) -> Result<(), NoMemory>
        requires at { IsClosing origin.now self.old }
        requires none { self.old.control.kept ≡ None }

        ensures at { IsClosing origin.now self.new }
        ensures applied { OnOk result (IsApplied origin.now self.new) }
    {
        self.publish(alloc, origin)?;
        while self.apply_next(origin)? {
            self.publish(alloc, origin)?;
        }
        Ok(())
    }

    /// Applies the next command; tells whether there was one.
    fn apply_next(&mut self, origin: &Origin<'p>) -> Result<bool, NoMemory>
        requires at { IsClosing origin.now self.old }
        requires due { self.old.control.due ≡ None }

        ensures at { IsClosing origin.now self.new }
        ensures kept { self.new.control.kept ≡ self.old.control.kept }
        ensures more { IfOk result (λ more. more ≡ true
            → length (commands_left self.old) ≡ length (commands_left self.new) + 1) }
        ensures none { IfOk result (λ more. more ≡ false
            → (self.new ≡ self.old) × (commands_left self.old ≡ [])) }
    {
        if self.apply_head(origin)? {
            return Ok(true);
        }
        self.apply_rest(origin)
    }

    /// Applies the command that was taken from the lane; tells whether there was one.
    fn apply_head(&mut self, origin: &Origin<'p>) -> Result<bool, NoMemory>
        requires at { IsClosing origin.now self.old }
        requires due { self.old.control.due ≡ None }

        ensures at { IsClosing origin.now self.new }
        ensures kept { self.new.control.kept ≡ self.old.control.kept }
        ensures more { IfOk result (λ more. more ≡ true
            → length (commands_left self.old) ≡ length (commands_left self.new) + 1) }
        ensures none { IfOk result (λ more. more ≡ false
            → (self.new ≡ self.old) × (self.old.control.head ≡ None)) }
    {
        let Some(item) = &self.control.head else {
            return Ok(false);
        };
        self.control.controller.apply(item)?;
        self.control.due = Some(item.floor);
        self.control.head = None;
        Ok(true)
    }

    /// Applies the next one of those that were left in the lane; tells whether there was one.
    fn apply_rest(&mut self, origin: &Origin<'p>) -> Result<bool, NoMemory>
        requires at { IsClosing origin.now self.old }
        requires due { self.old.control.due ≡ None }
        requires head { self.old.control.head ≡ None }

        ensures at { IsClosing origin.now self.new }
        ensures kept { self.new.control.kept ≡ self.old.control.kept }
        ensures more { IfOk result (λ more. more ≡ true
            → length (commands_left self.old) ≡ length (commands_left self.new) + 1) }
        ensures none { IfOk result (λ more. more ≡ false
            → (self.new ≡ self.old) × (commands_left self.old ≡ [])) }
    {
        let Some(item) = self.control.rest.get(self.applied) else {
            return Ok(false);
        };
        self.control.controller.apply(item)?;
        self.control.due = Some(item.floor);
        self.applied += 1;
        Ok(true)
    }

    /// Makes the version that is due. It is put into a batch of its own, since it is learnt here.
    fn publish(&mut self, alloc: Global, origin: &Origin<'p>) -> Result<(), NoMemory>
        requires at { IsClosing origin.now self.old }
        requires none { self.old.control.kept ≡ None }

        ensures at { IsClosing origin.now self.new }
        ensures kept { self.new.control.kept ≡ None }
        ensures due { OnOk result (self.new.control.due ≡ None) }
        ensures left { commands_left self.new ≡ commands_left self.old }
    {
        let Some(floor) = self.control.due else {
            return Ok(());
        };
        self.batches.reserve(1)?;
        let version = self.control.controller.version()?;
        let batch = Batch::new(alloc, version, floor)?;
        self.batches.push_reserved(batch);
        self.control.due = None;
        Ok(())
    }

    /// Handles every packet that is left, and learns every version.
    fn handle_all(&mut self, origin: &Origin<'p>) -> Result<(), NoMemory>
        requires at { IsClosing origin.now self.old }
        requires accepted { AreAccepted origin.now.front.value (items_in_all origin.now) }
        requires applied { IsApplied origin.now self.old }

        ensures at { IsClosing origin.now self.new }
        ensures done { OnOk result (IsDone origin.now self.new) }
    {
        while self.handle_next(origin)? {}
        Ok(())
    }

    /// Learns every version whose floor is met, and handles the next packet; tells whether there was one.
    fn handle_next(&mut self, origin: &Origin<'p>) -> Result<bool, NoMemory>
        requires at { IsClosing origin.now self.old }
        requires accepted { AreAccepted origin.now.front.value (items_in_all origin.now) }
        requires applied { IsApplied origin.now self.old }

        ensures at { IsClosing origin.now self.new }
        ensures applied { IsApplied origin.now self.new }
        ensures more { IfOk result (λ more. more ≡ true
            → length (items_left self.old) ≡ length (items_left self.new) + 1) }
        ensures done { IfOk result (λ more. more ≡ false → IsDone origin.now self.new) }
    {
        self.learn_met(origin)?;
        let Some(item) = self.left.get(self.handled) else {
            return Ok(false);
        };
        self.state.meet(Place::Closing, item)?;
        self.handled += 1;
        Ok(true)
    }

    /// Learns versions as long as their floors are met.
    fn learn_met(&mut self, origin: &Origin<'p>) -> Result<(), NoMemory>
        requires at { IsClosing origin.now self.old }

        ensures at { IsClosing origin.now self.new }
        ensures control { self.new.control ≡ self.old.control }
        ensures left { items_left self.new ≡ items_left self.old }
        ensures met { OnOk result (Waits self.new.state.done self.new.taken self.new.batches.items) }
    {
        while self.learn_next(origin)? {}
        Ok(())
    }

    /// Learns the next version, or lets a batch go that is learnt whole; tells whether there was either. A
    /// version waits where its floor isn't met.
    fn learn_next(&mut self, origin: &Origin<'p>) -> Result<bool, NoMemory>
        requires at { IsClosing origin.now self.old }

        ensures at { IsClosing origin.now self.new }
        ensures control { self.new.control ≡ self.old.control }
        ensures left { items_left self.new ≡ items_left self.old }
        ensures more { IfOk result (λ more. more ≡ true
            → to_learn self.old.taken self.old.batches.items ≡ to_learn self.new.taken self.new.batches.items + 1) }
        ensures none { IfOk result (λ more. more ≡ false
            → Waits self.new.state.done self.new.taken self.new.batches.items) }
    {
        self.look(origin);
        if is_spent(&self.taken) {
            self.taken = None;
            return Ok(true);
        }
        if !is_ready(&self.taken, self.state.done) {
            return Ok(false);
        }
        self.learn_first(origin)?;
        Ok(true)
    }

    /// Learns the first version of the batch in hand.
    fn learn_first(&mut self, origin: &Origin<'p>) -> Result<(), NoMemory>
        requires at { IsClosing origin.now self.old }
        requires ready { IsReady self.old.state.done self.old.taken }
        requires more { ¬ IsSpent self.old.taken }

        ensures at { IsClosing origin.now self.new }
        ensures control { self.new.control ≡ self.old.control }
        ensures left { items_left self.new ≡ items_left self.old }
        ensures one { OnOk result (to_learn self.old.taken self.old.batches.items
            ≡ to_learn self.new.taken self.new.batches.items + 1) }
    {
        let Some(batch) = &mut self.taken else {
            return Ok(());
        };
        self.state.learn_first(batch)?;
        Ok(())
    }

    /// Takes the next batch in hand, where none is.
    fn look(&mut self, origin: &Origin<'p>)
        requires at { IsClosing origin.now self.old }

        ensures at { IsClosing origin.now self.new }
        ensures control { self.new.control ≡ self.old.control }
        ensures left { items_left self.new ≡ items_left self.old }
        ensures count { to_learn self.new.taken self.new.batches.items
            ≡ to_learn self.old.taken self.old.batches.items }
        ensures none { self.new.taken ≡ None → self.new.batches.items ≡ [] }
    {
        if self.taken.is_none() {
            self.taken = take_first(&mut self.batches);
        }
    }

    /// One record again.
    pub(crate) fn finished(self, origin: &Origin<'p>, destination: SliceNo) -> Finished<'p>
        requires at { IsClosing origin.now self }
        requires done { IsDone origin.now self }
        requires accepted { AreAccepted origin.now.front.value (items_in_all origin.now) }

        ensures finished { Finishes (start_in origin.now) (commands_in origin.now) (items_in_all origin.now)
            destination result }
        ensures placed { places_in result.packets.items ≡ places_in_all origin.now }
        ensures met { LeftMeetAll origin.now result.packets.items }
    {
        known_pasts();
        let Closing { control, state, .. } = self;
        let Commanded { controller, .. } = control;
        let Controller { session, notes, .. } = controller;
        let HalfState {
            version,
            mut counters,
            done,
            notes: packets,
            effects,
            ..
        } = state;
        let rows = counters.take_closed();
        Finished {
            record: Subscriber {
                session,
                version,
                counters,
                packets: done,
                destination,
            },
            commands: notes,
            packets,
            effects,
            rows,
        }
    }
}

/// The first batch, if there is one.
fn take_first(batches: &mut Vec<Batch<Version>>) -> Option<Batch<Version>>
    ensures { MatchOption result ((batches.old.items ≡ []) × (batches.new.items ≡ []))
        (λ batch. batches.old.items ≡ batch ∷ batches.new.items) }
{
    if batches.is_empty() {
        return None;
    }
    Some(batches.remove(0))
}

/// Whether a batch in hand is learnt whole.
fn is_spent(batch: &Option<Batch<Version>>) -> bool
    ensures yes { IsTrue result → IsSpent batch.now }
    ensures no { IsFalse result → ¬ IsSpent batch.now }
{
    match batch {
        Some(batch) => batch.versions().is_empty(),
        None => false,
    }
}

/// Whether a batch is in hand whose floor is met.
fn is_ready(batch: &Option<Batch<Version>>, done: u64) -> bool
    ensures yes { IsTrue result → IsReady done batch.now }
    ensures no { IsFalse result → ¬ IsReady done batch.now }
{
    match batch {
        Some(batch) => batch.floor() <= done,
        None => false,
    }
}
