//! What the reference gateway keeps of packets.
ghost use Rattle.std.specs.Prelude.{◌≡◌, IfOk, OnOk, unwrap_or};
ghost use Rattle.packet_steps.specs.Past.{row_for, with_row};
ghost use Rattle.packet_steps.specs.Policing.{costs, history_for, is_policed_with, rate_for, passes};
ghost use Rattle.gate_model.specs.Memory.{past_at};

use crate::NoMemory;
use bearer_state::{ActiveBearer, Version, is_guaranteed};
use charging_book::Posting;
use packet_steps::{Forwarded, HeldPacket, copies_of, same_way};
use pc_base::{Kbps, Moment};
use rate_policer::{Cost, conforms};
use std::alloc::Global;
use std::marker::Model;

/// The plain lists of what was forwarded, what is held and what the book heard, and the moment of the last
/// packet.
#[derive(Drop)]
pub struct Memory {
    forwarded: Vec<Forwarded>,
    held: Vec<HeldPacket>,
    last: Option<Moment>,
    charged: Vec<Posting>,
}

impl Model for Memory {
    ghost use Rattle.std.specs.Prelude.{map};
    ghost use Rattle.charging_book.specs.Postings.{happening_of};
    ghost use Rattle.gate_model.specs.Memory.{MemoryState};

    ghost Value = { MemoryState };

    ghost view = { λ memory. record {
      forwarded = memory.forwarded.items;
      held = memory.held.items;
      last = memory.last;
      charged = map happening_of memory.charged.items;
    } };
}

impl Memory {
    ghost use Rattle.std.specs.Prelude.{[], ◌∷◌, ◌++◌, None, Some, map, if◌then◌else◌};
    ghost use Rattle.charging_book.specs.Postings.{happening_of};
    ghost use Rattle.packet_steps.specs.Past.{happening_for};
    ghost use Rattle.gate_model.specs.Memory.{MemoryState};

    /// Nothing yet.
    pub(crate) fn new(alloc: Global) -> Memory
        ensures { result ≡ record { forwarded = []; held = []; last = None; charged = [] } }
    {
        Memory {
            forwarded: Vec::new(alloc),
            held: Vec::new(alloc),
            last: None,
            charged: Vec::new(alloc),
        }
    }

    /// A copy.
    pub(crate) fn copied(&self) -> Result<Memory, NoMemory>
        ensures { IfOk result (λ copy. copy ≡ self.now) }
    {
        let alloc = self.allocator();
        Ok(Memory {
            forwarded: Vec::from_slice(alloc, &self.forwarded)?,
            held: copies_of(alloc, &self.held)?,
            last: self.last,
            charged: Vec::from_slice(alloc, &self.charged)?,
        })
    }

    /// Where its memory comes from.
    pub(crate) fn allocator(&self) -> Global {
        *self.held.allocator()
    }

    /// The packets that are held.
    pub(crate) fn held(&self) -> &[HeldPacket]
        ensures { result.now ≡ self.now.held }
    {
        &self.held
    }

    /// A packet comes at this moment.
    pub(crate) fn come(&mut self, at: Moment)
        ensures { self.new ≡ record self.old { last = Some at } }
    {
        self.last = Some(at);
    }

    /// What the book heard.
    pub(crate) fn postings(&self) -> &[Posting]
        ensures { map happening_of result.now ≡ self.now.charged }
    {
        &self.charged
    }

    /// The packets that were held are held no more.
    pub(crate) fn take_held(&mut self) -> Vec<HeldPacket>
        ensures taken { result.items ≡ self.old.held }
        ensures left { self.new ≡ record self.old { held = [] } }
    {
        let alloc = self.allocator();
        std::mem::replace(&mut self.held, Vec::new(alloc))
    }

    /// One packet more is held.
    pub(crate) fn hold(&mut self, packet: HeldPacket) -> Result<(), NoMemory>
        ensures { OnOk result (self.new ≡ record self.old { held = self.old.held ++ packet ∷ [] }) }
    {
        self.held.push(packet)?;
        Ok(())
    }

    /// The book hears of these.
    pub(crate) fn mark(&mut self, postings: &[Posting]) -> Result<(), NoMemory>
        ensures { OnOk result (self.new ≡ record self.old {
          charged = self.old.charged
              ++ map happening_of postings.now;
        }) }
    {
        self.charged.extend_from_slice(postings)?;
        Ok(())
    }

    /// Whether octets of a bearer pass now; those that pass are forwarded, and charged.
    pub(crate) fn forward(
        &mut self,
        version: &Version,
        bearer: &ActiveBearer,
        up: bool,
        octets: u32,
    ) -> Result<bool, NoMemory>
        ensures passes { IfOk result (λ fits. fits ≡ passes (past_at version.now self.old) bearer.now up octets) }
        ensures past { IfOk result (λ fits. past_at version.now self.new
            ≡ (if fits then with_row (past_at version.now self.old)
            (row_for (past_at version.now self.old) bearer.now up octets) else past_at version.now self.old)) }
    {
        if !self.passes(version, bearer, up, octets)? {
            return Ok(false);
        }
        self.push(Forwarded {
            life: bearer.life,
            up,
            octets,
            at: self.moment(),
            qci: bearer.qos.qci,
            rates: version.rates,
        })?;
        Ok(true)
    }

    fn push(&mut self, row: Forwarded) -> Result<(), NoMemory>
        ensures { OnOk result (self.new ≡ record self.old {
          forwarded = self.old.forwarded ++ row ∷ [];
          charged = self.old.charged ++ happening_for row ∷ [];
        }) }
    {
        let Forwarded {
            life,
            up,
            octets,
            at,
            ..
        } = row;
        self.forwarded.push(row)?;
        self.charged.push(Posting::Packet {
            life,
            up,
            octets,
            at,
        })?;
        Ok(())
    }

    /// The moment of the last packet, 0 before the first.
    fn moment(&self) -> Moment
        ensures { result ≡ unwrap_or self.now.last 0 }
    {
        match self.last {
            Some(moment) => moment,
            None => Moment(0),
        }
    }

    fn passes(
        &self,
        version: &Version,
        bearer: &ActiveBearer,
        up: bool,
        octets: u32,
    ) -> Result<bool, NoMemory>
        ensures { IfOk result (λ fits. fits ≡ passes (past_at version.now self.now) bearer.now up octets) }
    {
        let passed = costs_of(self.allocator(), version, bearer, up, &self.forwarded)?;
        let rate = rate_for(version, bearer, up);
        Ok(conforms(rate, &passed, Cost::of(octets, self.moment())))
    }
}

/// The rate that polices a bearer one way.
fn rate_for(version: &Version, bearer: &ActiveBearer, up: bool) -> Kbps
    ensures { result ≡ rate_for version.now bearer.now up }
{
    match (is_guaranteed(bearer.qos.qci), up) {
        (true, true) => bearer.qos.mbr_up,
        (true, false) => bearer.qos.mbr_down,
        (false, true) => version.up,
        (false, false) => version.down,
    }
}

/// Whether a row is policed by that rate too.
fn is_policed_with(version: &Version, bearer: &ActiveBearer, up: bool, row: &Forwarded) -> bool
    ensures { result ≡ is_policed_with version.now bearer.now up row.now }
{
    if is_guaranteed(bearer.qos.qci) {
        row.life == bearer.life && same_way(row.up, up)
    } else {
        !is_guaranteed(row.qci) && row.rates == version.rates && same_way(row.up, up)
    }
}

/// What such rows cost.
fn costs_of(
    alloc: Global,
    version: &Version,
    bearer: &ActiveBearer,
    up: bool,
    rows: &[Forwarded],
) -> Result<Vec<Cost>, NoMemory>
    ensures { IfOk result (λ list. list.items ≡ costs (history_for version.now bearer.now up rows.now)) }
{
    rows.iter()
        .filter(|row| is_policed_with(version, bearer, up, row))
        .map(|row| Cost::of(row.octets, row.at))
        .collect(alloc)
}
