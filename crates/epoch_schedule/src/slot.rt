//! The numbers of a slot.
ghost use Rattle.std.specs.Prelude.{◌≡◌, ◌+◌, ◌-◌, ◌^◌, ◌<◌, ◌==◌, false, OnOk, get_or, length, nat_lt};
ghost use Rattle.std.specs.Bool.{OnTrue};
ghost use Rattle.epoch_schedule.specs.Slots.{SlotNow, fresh_slot};
ghost use Rattle.epoch_schedule.specs.Slots as slots;
ghost use Rattle.epoch_schedule.specs.Front.{control_called, with_command, parks, with_packet, moved};
ghost use Rattle.epoch_schedule.specs.Front as front;
ghost use Rattle.epoch_schedule.specs.Halves as halves;
ghost use Rattle.epoch_schedule.specs.WorldNumbers.{standing_of};

use crate::Met;
use crate::floors::Floors;
use crate::met::SlotMets;
use crate::standing::{CommandTags, Standing};
use bumpalo::Bump;
use pc_base::Place;
use std::alloc::AllocError;
use std::collections::VecDeque;
use std::marker::Model;

/// A slot in an epoch: what was accepted, and cut points in that.
#[derive(Drop)]
pub struct SlotNumbers<'b> {
    pub(crate) moves: Vec<u8, &'b Bump>,
    pub(crate) commands: Vec<CommandTags, &'b Bump>,
    pub(crate) packets: Floors<'b>,
    pub(crate) commands_before: usize,
    pub(crate) packets_before: usize,
    pub(crate) control: Standing,
    pub(crate) arrived: usize,
    pub(crate) taken: usize,
    pub(crate) applied: usize,
    pub(crate) unsent: Option<usize>,
    pub(crate) sent: VecDeque<usize, &'b Bump>,
    pub(crate) data_half: Standing,
    pub(crate) batch: Option<usize>,
    pub(crate) learnt: usize,
    pub(crate) met: SlotMets<'b>,
    pub(crate) queued: usize,
}

impl<'b> Model for SlotNumbers<'b> {
    ghost use Rattle.std.specs.Prelude.{length};
    ghost use Rattle.epoch_schedule.specs.Slots.{SlotNow};
    ghost use Rattle.epoch_schedule.specs.Fits.{Sizes};
    ghost use Rattle.epoch_schedule.specs.WorldNumbers.{standing_of, last_of};

    ghost Value = { SlotNow };

    ghost view = { λ slot. record {
      hop = length slot.moves.items;
      bound = last_of slot.moves.items;
      commands = slot.commands.items;
      packets = slot.packets;
      commands_before = slot.commands_before;
      packets_before = slot.packets_before;
      control = standing_of slot.control;
      arrived = slot.arrived;
      taken = slot.taken;
      applied = slot.applied;
      unsent = slot.unsent;
      sent = slot.sent.items;
      data_half = standing_of slot.data_half;
      batch = slot.batch;
      learnt = slot.learnt;
      met = slot.met;
      queued = slot.queued;
    } };

    ghost invariant = { λ slot.
        Sizes slot.learnt slot.batch slot.sent.items slot.unsent slot.applied (length slot.commands.items) };
}

/// Whether there is no half yet.
pub fn is_absent(standing: Standing) -> bool
    ensures { result ≡ slots.is_absent (standing_of standing) }
{
    matches!(standing, Standing::Absent)
}

pub fn is_front(standing: Standing) -> bool
    ensures { result ≡ front.is_front (standing_of standing) }
{
    matches!(standing, Standing::Front)
}

impl<'b> SlotNumbers<'b> {
    /// A slot without a line.
    pub fn new(arena: &'b Bump) -> SlotNumbers<'b>
        ensures { result ≡ fresh_slot }
    {
        SlotNumbers {
            moves: Vec::new(arena),
            commands: Vec::new(arena),
            packets: Floors::new(arena),
            commands_before: 0,
            packets_before: 0,
            control: Standing::Absent,
            arrived: 0,
            taken: 0,
            applied: 0,
            unsent: None,
            sent: VecDeque::new(arena),
            data_half: Standing::Absent,
            batch: None,
            learnt: 0,
            met: SlotMets::new(arena),
            queued: 0,
        }
    }

    /// Where its control half is.
    pub fn control(&self) -> Standing
        ensures { standing_of result ≡ self.now.control }
    {
        self.control
    }

    /// Where its data half is.
    pub fn data_half(&self) -> Standing
        ensures { standing_of result ≡ self.now.data_half }
    {
        self.data_half
    }

    pub fn set_control(&mut self, standing: Standing)
        ensures { self.new ≡ record self.old { control = standing_of standing } }
    {
        self.control = standing;
    }

    pub fn set_data(&mut self, standing: Standing)
        ensures { self.new ≡ record self.old { data_half = standing_of standing } }
    {
        self.data_half = standing;
    }

    /// Whether the control half knows of all moves.
    pub fn is_told(&self) -> bool
        ensures { result ≡ (self.now.arrived == self.now.hop) }
    {
        self.arrived == self.moves.len()
    }

    /// The control half is told of all moves.
    pub fn tell_moves(&mut self)
        ensures { self.new ≡ record self.old { arrived = self.old.hop } }
    {
        self.arrived = self.moves.len();
    }

    /// The slice of its last move.
    pub fn bound(&self) -> Option<usize>
        ensures { result ≡ self.now.bound }
    {
        match self.moves.last() {
            Some(slice) => Some(usize::from(*slice)),
            None => None,
        }
    }

    /// Whether a command may be taken.
    pub fn has_room(&self, room: usize) -> bool
        ensures { result ≡ nat_lt (length self.now.commands - self.now.taken) room }
    {
        self.commands.len().saturating_sub(self.taken) < room
    }

    pub fn add_command(&mut self) -> Result<(), AllocError>
        ensures { OnOk result (self.new ≡ with_command self.old) }
    {
        let hop = self.moves.len();
        let floor = self.packets_before;
        self.commands.push(CommandTags { hop, floor })?;
        Ok(())
    }

    pub fn add_packet(&mut self) -> Result<(), AllocError>
        ensures { OnOk result (self.new ≡ with_packet self.old) }
    {
        let floor = self.commands_before;
        self.packets.push(floor)?;
        Ok(())
    }

    /// A packet waits at the front.
    pub fn park(&mut self) -> Result<(), AllocError>
        requires { self.old.queued < 2 ^ 32 }
        ensures { OnOk result (self.new ≡ record (with_packet self.old) { queued = self.old.queued + 1 }) }
    {
        let floor = self.commands_before;
        self.packets.push(floor)?;
        self.queued += 1;
        Ok(())
    }

    /// Whether the next packet waits at the front.
    pub fn parks(&self) -> bool
        ensures { result ≡ parks self.now }
    {
        !self.moves.is_empty()
            && (!matches!(self.data_half, Standing::Placed(_)) || self.queued > 0)
    }

    /// Whether the next packet goes into the lane of its slice at once.
    pub fn is_settled(&self) -> bool
        ensures made { OnTrue result (slots.is_absent self.now.control ≡ false) }
        ensures parks { OnTrue result (parks self.now ≡ false) }
        ensures gone { OnTrue result (front.is_front self.now.data_half ≡ false) }
    {
        !is_absent(self.control) && !is_front(self.data_half) && !self.parks()
    }

    /// How many packets wait at the front.
    pub fn queued(&self) -> usize
        ensures { result ≡ self.now.queued }
    {
        self.queued
    }

    pub fn set_queued(&mut self, queued: usize)
        ensures { self.new ≡ record self.old { queued = queued } }
    {
        self.queued = queued;
    }

    /// A move to this slice.
    pub fn go(&mut self, slice: u8) -> Result<(), AllocError>
        ensures { OnOk result (self.new ≡ moved slice self.old) }
    {
        self.moves.push(slice)?;
        self.commands_before = self.commands.len();
        self.packets_before = self.packets.len();
        Ok(())
    }

    /// A control half on a slice is called back, once all commands so far are done.
    pub fn call_control(&mut self)
        ensures { self.new ≡ record self.old { control = control_called self.old.control (length self.old.commands) } }
    {
        if let Standing::Placed(slice) = self.control {
            self.control = Standing::Recalled(slice, self.commands.len());
        }
    }

    /// A data half on a slice is called back.
    pub fn call_data(&mut self)
        ensures { self.new ≡ record self.old { data_half = control_called self.old.data_half 0 } }
    {
        if let Standing::Placed(slice) = self.data_half {
            self.data_half = Standing::Recalled(slice, 0);
        }
    }

    /// How many commands are applied.
    pub fn applied(&self) -> usize
        ensures { result ≡ self.now.applied }
    {
        self.applied
    }

    /// Makes room for so many packets, and for what they meet.
    pub fn make_room(&mut self, packets: usize) -> Result<(), AllocError>
        ensures { OnOk result (self.new ≡ self.old) }
    {
        self.packets.make_room(packets)?;
        self.met.make_room(packets)
    }

    /// How many of its packets are handled.
    pub fn met_count(&self) -> usize
        ensures { result ≡ length self.now.met }
    {
        self.met.len()
    }

    /// What its packet of this number met.
    pub fn met_at(&self, number: usize) -> Met
        requires { number < length self.now.met }
        ensures { result ≡ get_or self.now.met number result }
    {
        self.met.at(number)
    }
}
