//! The split subscribers: their front ends, and the two sides that their halves are admitted to.
ghost use Rattle.std.specs.Prelude.{◌≡◌, ◌<◌, ◌≤◌, ◌+◌, ℕ, None, length, is_some, vec_len, OnOk, OnErr, IfOk, IfErr};
ghost use Rattle.worker_core.specs.BySlot.{Grown};

use crate::lot::{self, Lot};
use crate::tried::{Given, Tried};
use crate::{BothSides, NoMemory};
use control_half::{BoxedCommand, ControlHalf};
use counter_half::{DataHalf, SentPacket};
use lane_core::Full;
use migration::DataNo;
use pc_base::{SliceNo, Slot};
use split_record::split;
use std::alloc::Global;
use std::sync::Wait;
use std::{mem, thread};
use subscriber::Subscriber;
use worker_core::{Post, grow, wake_all};

#[derive(Drop)]
pub struct Halves<'p> {
    pub alloc: Global,
    /// The room of a slot's lanes, and of its queue at the front.
    pub room: u32,
    /// By slot, as far as there were lines for one.
    pub lots: Vec<Option<Lot>>,
    pub sides: BothSides<ControlHalf, DataHalf<'p>>,
    /// How many tries were answered Full; at the last u64 it stays.
    pub fulls: u64,
}

impl<'p> Halves<'p> {
    ghost use Rattle.front_core.specs.Lots.{lot_of, end_of};
    ghost use Rattle.front_core.specs.Steps.{Settles, Pumps, MayMove, SlotMoves, MayAdmit, IsReady, MayGive};
    ghost use Rattle.front_core.specs.Steps.{Commanded, CommandsFull};
    ghost use Rattle.front_core.specs.Tries.{GivesCommand, GivesPacket, RisesBy, TriesPacket, lane_fulls};
    ghost use Rattle.front_core.specs.Tries.{CountsTries, CountsTry};

    /// Takes home what came, and gives what orders and items wait.
    pub fn pump<R: Wait>(&mut self, rt: &R)
        ensures pumps { Pumps self.old self.new }
        ensures fulls { self.new.fulls ≡ self.old.fulls }
    {
        self.sides.pump(rt);
    }

    /// A slot moves to a slice.
    pub fn go<R: Wait>(&mut self, rt: &R, slot: Slot, slice: SliceNo) -> Result<(), NoMemory>
        requires { MayMove slot slice self.old }
        ensures moves { OnOk result (SlotMoves slot slice self.old self.new) }
        ensures lots { (most : ℕ) → slot < most → length self.old.lots.items ≤ most
            → length self.new.lots.items ≤ most }
        ensures fulls { self.new.fulls ≡ self.old.fulls }

        // For a split subscriber it takes no memory.
        ensures memory { OnErr result (end_of (lot_of self.old.lots.items slot) ≡ None) }
    {
        reach(&mut self.lots, slot)?;
        let Some(until) = lot::move_on(&mut self.lots[slot.0 as usize]) else {
            return Ok(());
        };
        self.sides.go(rt, slot, slice, until);
        Ok(())
    }

    /// Splits the subscriber of a slot, unless it is split, and admits its halves. In its place stands
    /// one without events, which is bound for the same slice.
    pub fn admit<R: Wait>(
        &mut self,
        rt: &R,
        slot: Slot,
        subscriber: &mut Subscriber,
    ) -> Result<(), NoMemory>
        requires { MayAdmit slot subscriber.old self.old }
        ensures ready { OnOk result (IsReady slot subscriber.old subscriber.new self.old self.new) }
        ensures lots { (most : ℕ) → slot < most → length self.old.lots.items ≤ most
            → length self.new.lots.items ≤ most }
        ensures fulls { self.new.fulls ≡ self.old.fulls }
    {
        if self.is_split(slot) {
            return Ok(());
        }
        self.split_at(rt, slot, subscriber)
    }

    // The same for one that isn't split.
    #[inline(never)]
    fn split_at<R: Wait>(
        &mut self,
        rt: &R,
        slot: Slot,
        subscriber: &mut Subscriber,
    ) -> Result<(), NoMemory>
        requires may { MayAdmit slot subscriber.old self.old }
        requires unsplit { end_of (lot_of self.old.lots.items slot) ≡ None }
        ensures ready { OnOk result (IsReady slot subscriber.old subscriber.new self.old self.new) }
        ensures lots { (most : ℕ) → slot < most → length self.old.lots.items ≤ most
            → length self.new.lots.items ≤ most }
        ensures fulls { self.new.fulls ≡ self.old.fulls }
    {
        grow(&mut self.lots, slot.0 as usize + 1)?;
        let moved = lot::has_moved(&self.lots[slot.0 as usize]);
        let slice = subscriber.destination();
        let fresh = Subscriber::new(self.alloc, slot, slice)?;
        let own = mem::replace(subscriber, fresh);
        let Ok((end, control, data_half)) = split(self.alloc, own, self.room, 0) else {
            return Err(NoMemory);
        };
        self.sides.admit(rt, control, data_half, slice, moved)?;
        self.lots[slot.0 as usize] = Some(Lot::Split(end));
        Ok(())
    }

    // Whether the subscriber of a slot is split.
    fn is_split(&self, slot: Slot) -> bool
        ensures { result ≡ is_some (end_of (lot_of self.now.lots.items slot)) }
    {
        match self.lots.get(slot.0 as usize) {
            Some(lot) => lot::is_split(lot),
            None => false,
        }
    }

    /// Sends a command of a split subscriber. Where its lane is full, it is tried again so many times, and threads that
    /// sleep are woken before each.
    pub fn give_command<R: Wait>(
        &mut self,
        rt: &R,
        slot: Slot,
        line: u64,
        command: BoxedCommand,
        patience: u32,
        posts: &[Post],
    ) -> Given
        requires { MayGive slot self.old }
        ensures gives { GivesCommand slot line command (patience + 1) result self.old self.new }
        ensures counts { CountsTries (patience + 1) result self.old.fulls self.new.fulls }
        ensures rises { self.old.fulls ≤ self.new.fulls }
    {
        let mut command = command;
        for _ in 0..patience {
            match self.try_command(rt, slot, line, command) {
                Ok(()) => return Given::Accepted { parked: false },
                Err(Full(back)) => command = back,
            }
            wake_all(posts);
            thread::yield_now();
        }
        match self.try_command(rt, slot, line, command) {
            Ok(()) => Given::Accepted { parked: false },
            Err(_) => Given::Full,
        }
    }

    fn try_command<R: Wait>(
        &mut self,
        rt: &R,
        slot: Slot,
        line: u64,
        command: BoxedCommand,
    ) -> Result<(), Full<BoxedCommand>>
        requires { MayGive slot self.old }
        ensures sent { OnOk result (Commanded slot line command self.old self.new) }
        ensures counts { OnOk result (self.new.fulls ≡ self.old.fulls) }
        ensures full { IfErr result (λ full. (full.0 ≡ command) × Settles self.old self.new
            × CommandsFull slot self.new × RisesBy 1 self.old.fulls self.new.fulls
            × RisesBy 1 (lane_fulls slot self.old) (lane_fulls slot self.new)) }
        ensures rises { self.old.fulls ≤ self.new.fulls }
    {
        match lot::send(rt, &mut self.lots[slot.0 as usize], line, command) {
            Ok(()) => Ok(()),
            Err(full) => {
                self.fulls = self.fulls.saturating_add(1);
                Err(full)
            }
        }
    }

    /// Sends or parks a packet of a split subscriber. Where its lane or queue is full, it is tried again
    /// so many times, behind a pump, and threads that sleep are woken before each.
    pub fn give_packet<R: Wait>(
        &mut self,
        rt: &R,
        slot: Slot,
        line: u64,
        packet: SentPacket<'p>,
        patience: u32,
        posts: &[Post],
    ) -> Result<Given, NoMemory>
        requires { MayGive slot self.old }
        ensures gives { IfOk result (λ given. GivesPacket slot line packet.entry (patience + 1) given
            self.old self.new) }
        ensures counts { IfOk result (λ given. CountsTries (patience + 1) given self.old.fulls self.new.fulls) }
        ensures rises { self.old.fulls ≤ self.new.fulls }
    {
        let mut packet = packet;
        for _ in 0..patience {
            match self.try_packet(rt, slot, line, packet) {
                Tried::Accepted { parked } => return Ok(Given::Accepted { parked }),
                Tried::Full(back) => packet = back,
                Tried::NoMemory => return Err(NoMemory),
            }
            wake_all(posts);
            thread::yield_now();
            self.sides.pump(rt);
        }
        match self.try_packet(rt, slot, line, packet) {
            Tried::Accepted { parked } => Ok(Given::Accepted { parked }),
            Tried::Full(_) => Ok(Given::Full),
            Tried::NoMemory => Err(NoMemory),
        }
    }

    fn try_packet<R: Wait>(
        &mut self,
        rt: &R,
        slot: Slot,
        line: u64,
        packet: SentPacket<'p>,
    ) -> Tried<'p>
        requires { MayGive slot self.old }
        ensures tries { TriesPacket slot line packet.entry result self.old self.new }
        ensures counts { CountsTry result self.old.fulls self.new.fulls }
        ensures rises { self.old.fulls ≤ self.new.fulls }
    {
        let place = slot.0 as usize;
        let item = lot::item_of(&self.lots[place], line, packet);
        match self.sides.give(rt, item) {
            Ok(parked) => {
                lot::accept(&mut self.lots[place]);
                Tried::Accepted { parked }
            }
            Err(DataNo::Full(item)) => {
                self.fulls = self.fulls.saturating_add(1);
                Tried::Full(item.packet)
            }
            Err(DataNo::NoMemory(_)) => Tried::NoMemory,
        }
    }
}

// Makes places for lots, until there is one for a slot.
fn reach(lots: &mut Vec<Option<Lot>>, slot: Slot) -> Result<(), NoMemory>
    ensures grown { Grown lots.old.items lots.new.items }
    ensures short { (most : ℕ) → slot < most → vec_len lots.old ≤ most → vec_len lots.new ≤ most }
    ensures enough { OnOk result (slot < vec_len lots.new) }
    ensures memory { OnErr result (vec_len lots.old ≤ slot) }
{
    if (slot.0 as usize) < lots.len() {
        return Ok(());
    }
    grow(lots, slot.0 as usize + 1)
}
