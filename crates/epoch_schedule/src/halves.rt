//! What the halves of a slot do when they are turned, and what is left of a slot as its epoch closes.
ghost use Rattle.std.specs.Prelude.{◌≡◌, ◌+◌, ◌==◌, ◌≤◌, if◌then◌else◌, Some, None, ◌∷◌, [], ◌++◌};
ghost use Rattle.std.specs.Prelude.{IfOk, OnOk, OnErr, length, min, get_or, nat_le};
ghost use Rattle.std.specs.Bool.{OnTrue};
ghost use Rattle.epoch_schedule.specs.Halves as halves;
ghost use Rattle.epoch_schedule.specs.Busy as busy;
ghost use Rattle.epoch_schedule.specs.Parts.{sent_behind, unsent_behind, all_learnt, met_behind};

use crate::Met;
use crate::met::SlotMets;
use crate::slot::SlotNumbers;
use crate::standing::{CommandTags, Standing};
use bumpalo::Bump;
use pc_base::Place;
use std::alloc::AllocError;
use std::collections::VecDeque;

/// Whether a command goes into a batch of this floor.
fn fits(hop: usize, floor: usize, tags: &CommandTags) -> bool
    ensures { result ≡ halves.fits hop floor tags.now }
{
    tags.hop <= hop && tags.floor == floor
}

/// Whether a command waits for no more packets than these.
fn is_known(tags: &CommandTags, handled: usize) -> bool
    ensures { result ≡ nat_le tags.now.floor handled }
{
    tags.floor <= handled
}

/// How many of these commands go into one batch.
fn batch_of(hop: usize, commands: &[CommandTags]) -> usize
    ensures batch { result ≡ halves.batch_of hop commands.now }
    ensures few { result ≤ length commands.now }
{
    if commands.is_empty() {
        return 0;
    }
    let first = &commands[0];
    let floor = first.floor;
    let mut count: usize = 0;
    for tags in commands {
        if count == 16 {
            return 16;
        }
        if !fits(hop, floor, tags) {
            return count;
        }
        count += 1;
    }
    count
}

/// How many commands are taken behind a batch of so many.
fn taken_behind(applied: usize, batch: usize, commands: usize) -> usize
    requires { applied + batch ≤ commands }
    ensures { result ≡ (if batch == 16 then applied + batch else min (applied + batch + 1) commands) }
{
    if batch == 16 || applied + batch == commands {
        applied + batch
    } else {
        applied + batch + 1
    }
}

/// Sends a batch of so many commands; what isn't sent is kept.
fn send(
    sent: &mut VecDeque<usize, &Bump>,
    unsent: Option<usize>,
    room: usize,
    batch: usize,
) -> Result<Option<usize>, AllocError>
    ensures sent { OnOk result (sent.new.items ≡ sent_behind room sent.old.items batch) }
    ensures unsent { IfOk result (λ kept. kept ≡ unsent_behind room sent.old.items unsent batch) }
    ensures failed { OnErr result (sent.new.items ≡ sent.old.items) }
{
    if batch == 0 {
        return Ok(unsent);
    }
    if sent.len() < room {
        sent.push_back(batch)?;
        return Ok(unsent);
    }
    Ok(Some(batch))
}

/// The packets that a command waits for.
fn floor_at(commands: &[CommandTags], number: usize) -> usize
    ensures { result ≡ (get_or commands.now number (record { hop = 0; floor = 0 })).floor }
{
    if number < commands.len() {
        let tags = &commands[number];
        tags.floor
    } else {
        0
    }
}

impl SlotNumbers<'_> {
    fn next_batch(&self) -> usize
        ensures batch { result ≡ halves.next_batch self.now }
        ensures few { self.now.applied + result ≤ length self.now.commands }
    {
        batch_of(self.arrived, &self.commands.as_slice()[self.applied..])
    }

    /// Applies the next batch and sends it, and returns how many commands it has.
    fn apply_batch(&mut self, room: usize) -> Result<usize, AllocError>
        requires { self.old.unsent ≡ None }
        ensures slot { OnOk result (self.new ≡ halves.apply_batch room self.old) }
        ensures batch { IfOk result (λ batch. batch ≡ halves.next_batch self.old) }
    {
        let batch = self.next_batch();
        self.unsent = send(&mut self.sent, self.unsent, room, batch)?;
        self.taken = taken_behind(self.applied, batch, self.commands.len());
        self.applied += batch;
        Ok(batch)
    }

    fn send_kept(&mut self, batch: usize) -> Result<(), AllocError>
        requires { self.old.unsent ≡ Some batch }
        ensures { OnOk result (self.new ≡ record self.old { unsent = None; sent = self.old.sent ++ batch ∷ [] }) }
    {
        self.sent.push_back(batch)?;
        self.unsent = None;
        Ok(())
    }

    /// A turn of the control half, and whether that worked.
    pub fn control_work(&mut self, room: usize) -> Result<bool, AllocError>
        ensures slot { OnOk result (self.new ≡ (halves.control_work room self.old).slot) }
        ensures worked { IfOk result (λ worked. worked ≡ (halves.control_work room self.old).worked) }
    {
        match self.unsent {
            None => {
                let batch = self.apply_batch(room)?;
                Ok(batch > 0)
            }
            Some(batch) => {
                if self.sent.len() >= room {
                    return Ok(false);
                }
                self.send_kept(batch)?;
                self.apply_batch(room)?;
                Ok(true)
            }
        }
    }

    /// Whether the control half has looked at the next command, if there is one.
    fn has_looked(&self) -> bool
        ensures { result ≡ (self.now.taken == min (self.now.applied + 1) (length self.now.commands)) }
    {
        if self.applied < self.commands.len() {
            self.taken == self.applied + 1
        } else {
            self.taken == self.commands.len()
        }
    }

    /// Whether a turn of the control half changes nothing: it has nothing to apply, or keeps a batch and its lane of so
    /// many is full.
    pub fn is_still(&self, room: usize) -> bool
        ensures { result ≡ busy.is_still room self.now }
    {
        match self.unsent {
            None => self.has_looked() && self.next_batch() == 0,
            Some(_) => room <= self.sent.len(),
        }
    }

    fn take_batch(&mut self)
        ensures { self.new ≡ halves.take_batch self.old self.old.batch self.old.sent }
    {
        if self.batch.is_none() {
            self.batch = self.sent.pop_front();
        }
    }

    fn learn_taken(&mut self)
        ensures { self.new ≡ halves.learn_taken self.old }
    {
        if let Some(batch) = self.batch {
            let last = (self.learnt + batch).saturating_sub(1);
            if floor_at(self.commands.as_slice(), last) <= self.met.len() {
                self.batch = None;
                self.learnt += batch;
            }
        }
    }

    fn learn_one(&mut self)
        ensures { self.new ≡ halves.learn_one self.old }
    {
        self.take_batch();
        self.learn_taken();
    }

    /// Whether nothing more may be learnt now.
    fn is_stuck(&self) -> bool
        ensures { OnTrue result (halves.learn_one self.now ≡ self.now) }
    {
        match self.batch {
            None => self.sent.is_empty(),
            Some(batch) => {
                let last = (self.learnt + batch).saturating_sub(1);
                floor_at(self.commands.as_slice(), last) > self.met.len()
            }
        }
    }

    /// Whether the data half has nothing to learn.
    pub fn has_learnt(&self) -> bool
        ensures { OnTrue result (halves.learn self.now ≡ self.now) }
    {
        self.is_stuck()
    }

    /// The data half learns what it may.
    pub fn learn(&mut self)
        ensures { self.new ≡ halves.learn self.old }
    {
        for _ in 0..16u32 {
            if self.is_stuck() {
                return;
            }
            self.learn_one();
        }
    }

    /// Whether its next packet may be handled.
    pub fn may_handle(&self) -> bool
        ensures { result ≡ halves.may_handle self.now }
    {
        let next = self.met.len();
        next < self.packets.len() && self.packets.at(next) <= self.learnt
    }

    /// Its next packet is handled.
    pub fn handle(&mut self, place: Place) -> Result<(), AllocError>
        ensures { OnOk result (self.new ≡ halves.handle place self.old) }
    {
        let commands = self.learnt;
        self.met.push(Met { commands, place })
    }

    /// The epoch closes: the packets that are left are handled.
    pub fn close(&mut self) -> Result<(), AllocError>
        ensures { OnOk result (self.new.met ≡ (halves.closed self.old).met) }
    {
        let rest = self.packets.len().saturating_sub(self.met.len());
        close_rest(self.commands.as_slice(), self.learnt, &mut self.met, rest)
    }
}

/// How many commands are learnt where so many packets are handled, as the epoch closes.
fn learn_all(commands: &[CommandTags], learnt: usize, handled: usize) -> usize
    requires { learnt ≤ length commands.now }
    ensures learnt { result ≡ all_learnt commands.now learnt handled }
    ensures few { result ≤ length commands.now }
{
    let mut count = learnt;
    for tags in &commands[learnt..] {
        if !is_known(tags, handled) {
            return count;
        }
        count += 1;
    }
    count
}

/// Handles so many packets as the epoch closes.
fn close_rest(
    commands: &[CommandTags],
    learnt: usize,
    met: &mut SlotMets<'_>,
    rest: usize,
) -> Result<(), AllocError>
    requires { learnt ≤ length commands.now }
    ensures { OnOk result (met.new ≡ met_behind commands.now learnt met.old rest) }
{
    let mut known = learnt;
    for _ in 0..rest {
        known = learn_all(commands, known, met.len());
        met.push(Met {
            commands: known,
            place: Place::Closing,
        })?;
    }
    Ok(())
}
