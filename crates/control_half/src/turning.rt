//! A turn of the half.
ghost use Rattle.std.specs.Prelude.{◌≡◌, ◌≢◌, ◌+◌, ◌<◌, ◌≤◌, [], ◌∷◌};
ghost use Rattle.std.specs.Prelude.{◌++◌, true, false, None, Some, length};
ghost use Rattle.std.specs.Prelude.{IfOk, OnOk, OnErr, IsTrue, IsFalse};
ghost use Rattle.lane_core.specs.Ends.{sent, taken, full_answers, empty_answers, raised};
ghost use Rattle.control_half.specs.Batch.{versions_of};
ghost use Rattle.control_half.specs.Applied.{JoinsBatch, NextOf};
ghost use Rattle.control_half.specs.Published.{in_batch, in_kept, under};
ghost use Rattle.control_half.specs.Turns.{Grew, size, IsOfBatch, Fits, Stops, SendsAs, Ended, came_to};

use crate::batch::MOST;
use crate::inner::ControlInner;
use crate::{Batch, NoMemory};
use bearer_state::Version;
use lane_core::{Did, Full};
use std::alloc::Global;
use std::sync::Wait;

impl ControlInner {
    ghost use Rattle.worker_core.specs.Turns.{works_after};
    ghost use Rattle.control_half.specs.Half.{IsSameHalf, inner_name, seen_of};

    /// A turn, which is counted.
    pub(crate) fn turn<R: Wait>(&mut self, rt: &R) -> Result<Did, NoMemory>
        ensures name { inner_name self.new ≡ inner_name self.old }
        ensures hop { self.new.hop ≡ self.old.hop }
        ensures turns { self.new.turns ≡ raised self.old.turns }
        ensures works { self.new.works ≡ works_after result self.old.works }
        ensures taken { Grew (taken self.old.commands) (taken self.new.commands) }
        ensures sent { Grew (sent self.old.versions) (sent self.new.versions) }
        ensures noted { Grew self.old.control.notes.items self.new.control.notes.items }
        ensures ended { IfOk result (λ did. Ended did (seen_of self.old) (seen_of self.new)) }
    {
        self.turns = self.turns.saturating_add(1);
        let did = self.work(rt)?;
        if did == Did::Worked {
            self.works = self.works.saturating_add(1);
        }
        Ok(did)
    }

    /// Sends the batch that is kept, if there is one. Then commands are applied, as long as they come
    /// and fit. Then the batch is sent, or kept.
    fn work<R: Wait>(&mut self, rt: &R) -> Result<Did, NoMemory>
        ensures same { IsSameHalf self.old self.new }

        // Nothing is lost, whatever the answer.
        ensures taken { Grew (taken self.old.commands) (taken self.new.commands) }
        ensures sent { Grew (sent self.old.versions) (sent self.new.versions) }
        ensures noted { Grew self.old.control.notes.items self.new.control.notes.items }

        // Why each answer comes, and why no more was applied.
        ensures ended { IfOk result (λ did. Ended did (seen_of self.old) (seen_of self.new)) }
    {
        let Some(before) = self.send(rt) else {
            return Ok(Did::Held);
        };
        let applied = self.apply_all(rt)?;
        let behind = self.send(rt);
        Ok(came_to(applied, before, behind))
    }

    /// Sends the batch, if one is kept: whether there was one. None where it is refused, and kept.
    fn send<R: Wait>(&mut self, rt: &R) -> Option<bool>
        ensures same { IsSameHalf self.old self.new }
        ensures control { self.new.control ≡ self.old.control }
        ensures head { self.new.head ≡ self.old.head }
        ensures due { self.new.due ≡ self.old.due }
        ensures commands { self.new.commands ≡ self.old.commands }
        ensures sends { SendsAs result self.old.batch self.new.batch (sent self.old.versions) (sent self.new.versions)
            (full_answers self.old.versions) (full_answers self.new.versions) }
    {
        let Some(batch) = self.batch.take() else {
            return Some(false);
        };
        match self.versions.offer(rt, batch) {
            Ok(()) => Some(true),
            Err(Full(refused)) => {
                self.batch = Some(refused);
                None
            }
        }
    }

    /// Applies commands into the batch, as long as they come and fit. Tells whether there was one.
    fn apply_all<R: Wait>(&mut self, rt: &R) -> Result<bool, NoMemory>
        ensures same { IsSameHalf self.old self.new }
        ensures versions { self.new.versions ≡ self.old.versions }
        ensures taken { Grew (taken self.old.commands) (taken self.new.commands) }
        ensures noted { Grew self.old.control.notes.items self.new.control.notes.items }
        ensures due { OnOk result (self.new.due ≡ None) }
        ensures applied { IfOk result (λ applied. applied ≡ true → self.old.control.number < self.new.control.number) }
        ensures none { IfOk result (λ applied. applied ≡ false → self.new.control.number ≡ self.old.control.number) }
        ensures few { OnOk result (self.new.control.number ≤ self.old.control.number + 16) }
        ensures stops { OnOk result (Stops self.new.hop self.new.batch self.new.head
            (empty_answers self.old.commands) (empty_answers self.new.commands)) }
    {
        self.publish()?;
        let mut applied = false;
        while self.has_next(rt) {
            self.apply()?;
            applied = true;
            self.publish()?;
        }
        Ok(applied)
    }

    /// Whether a command is there that fits.
    fn has_next<R: Wait>(&mut self, rt: &R) -> bool
        ensures same { IsSameHalf self.old self.new }
        ensures control { self.new.control ≡ self.old.control }
        ensures due { self.new.due ≡ self.old.due }
        ensures batch { self.new.batch ≡ self.old.batch }
        ensures versions { self.new.versions ≡ self.old.versions }
        ensures taken { Grew (taken self.old.commands) (taken self.new.commands) }
        ensures fits { IsTrue result → Fits self.new.hop self.new.batch self.new.head }
        ensures asked { IsTrue result → empty_answers self.new.commands ≡ empty_answers self.old.commands }
        ensures stops { IsFalse result → Stops self.new.hop self.new.batch self.new.head
            (empty_answers self.old.commands) (empty_answers self.new.commands) }
    {
        if !has_room(&self.batch) {
            return false;
        }
        self.look(rt);
        match &self.head {
            Some(item) => item.hop <= self.hop && has_floor(&self.batch, item.floor),
            None => false,
        }
    }

    /// Takes a command to the head, where none is kept there.
    fn look<R: Wait>(&mut self, rt: &R)
        ensures same { IsSameHalf self.old self.new }
        ensures control { self.new.control ≡ self.old.control }
        ensures due { self.new.due ≡ self.old.due }
        ensures batch { self.new.batch ≡ self.old.batch }
        ensures versions { self.new.versions ≡ self.old.versions }
        ensures taken { Grew (taken self.old.commands) (taken self.new.commands) }
        ensures none { self.new.head ≡ None
            → empty_answers self.new.commands ≡ raised (empty_answers self.old.commands) }
        ensures some { self.new.head ≢ None → empty_answers self.new.commands ≡ empty_answers self.old.commands }
    {
        if self.head.is_none() {
            self.head = self.commands.take(rt);
        }
    }

    /// Applies the command at the head. Out of memory, it stays there.
    fn apply(&mut self) -> Result<(), NoMemory>
        requires done { self.old.due ≡ None }
        requires fits { Fits self.old.hop self.old.batch self.old.head }

        ensures same { IsSameHalf self.old self.new }
        ensures batch { self.new.batch ≡ self.old.batch }
        ensures versions { self.new.versions ≡ self.old.versions }
        ensures commands { self.new.commands ≡ self.old.commands }
        ensures noted { Grew self.old.control.notes.items self.new.control.notes.items }
        ensures number { OnOk result (self.new.control.number ≡ self.old.control.number + 1) }
        ensures due { OnOk result (self.new.due ≢ None) }
    {
        let Some(item) = &self.head else {
            return Ok(());
        };
        self.control.apply(item)?;
        self.due = Some(item.floor);
        self.head = None;
        Ok(())
    }

    /// Makes the version that is due, and puts it into the batch. Out of memory, it stays due.
    fn publish(&mut self) -> Result<(), NoMemory>
        ensures same { IsSameHalf self.old self.new }
        ensures control { self.new.control ≡ self.old.control }
        ensures head { self.new.head ≡ self.old.head }
        ensures versions { self.new.versions ≡ self.old.versions }
        ensures commands { self.new.commands ≡ self.old.commands }
        ensures due { OnOk result (self.new.due ≡ None) }
        ensures more { OnOk result (self.old.due ≢ None → size self.new.batch ≡ size self.old.batch + 1) }
    {
        let Some(floor) = self.due else {
            return Ok(());
        };
        let version = self.control.version()?;
        let alloc = *self.control.notes.allocator();
        let batch = joined(alloc, self.batch.take(), version, floor)?;
        self.batch = Some(batch);
        self.due = None;
        Ok(())
    }
}

/// What a turn came to.
fn came_to(applied: bool, before: bool, behind: Option<bool>) -> Did
    ensures { result ≡ came_to applied before behind }
{
    if applied || before {
        return Did::Worked;
    }
    match behind {
        None => Did::Held,
        Some(true) => Did::Worked,
        Some(false) => Did::Idle,
    }
}

/// Whether a version more finds room.
fn has_room(batch: &Option<Batch<Version>>) -> bool
    ensures some { IsTrue result → size batch.now < 16 }
    ensures none { IsFalse result → 16 ≤ size batch.now }
{
    match batch {
        Some(batch) => batch.versions().len() < MOST,
        None => true,
    }
}

/// Whether a version of this floor may go into the batch.
fn has_floor(batch: &Option<Batch<Version>>, floor: u64) -> bool
    ensures same { IsTrue result → IsOfBatch floor batch.now }
    ensures other { IsFalse result → ¬ IsOfBatch floor batch.now }
{
    match batch {
        Some(batch) => batch.floor() == floor,
        None => true,
    }
}

/// The batch with a version more, which has its floor and finds room there; a new one where none is
/// kept, and only then memory is taken.
fn joined(
    alloc: Global,
    batch: Option<Batch<Version>>,
    version: Version,
    floor: u64,
) -> Result<Batch<Version>, NoMemory>
    requires joins { JoinsBatch (Some floor) batch }
    requires next { NextOf batch version }
    ensures versions { IfOk result (λ made. in_batch made ≡ in_kept batch ++ under floor version ∷ []) }
    ensures size { IfOk result (λ made. length (versions_of made) ≡ size batch + 1) }
    ensures none { OnErr result (batch ≡ None) }
{
    match batch {
        Some(mut batch) => match batch.add(version, floor) {
            Ok(()) => Ok(batch),
            Err(_) => unreachable!(),
        },
        None => Batch::new(alloc, version, floor),
    }
}
