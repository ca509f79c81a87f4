//! The reference gateway of a slot.
use crate::copying::session_of;
use crate::memory::Memory;
use crate::{Command, Event, Happened, NoMemory, Packet, Slot};
use bearer_state::{Session, Version};
use charging_book::Posting;
use control_steps::step;
use std::alloc::Global;
use std::marker::Model;

/// A count above this doesn't rise any more, so that none passes 2^61.
const MOST_COUNT: u64 = 0x2000_0000_0000_0000 - 20;

/// The gateway of one slot: its session, how many commands it had, and plain lists of what became of its
/// packets. It looks through these lists at each event, and copies them first. A contract sees the past of
/// the slot.
#[derive(Drop)]
pub struct Gateway {
    alloc: Global,
    session: Session,
    commands: u64,
    memory: Memory,
}

impl Model for Gateway {
    ghost use Rattle.bearer_state.specs.Version.{version_of};
    ghost use Rattle.gate_model.specs.SlotPast.{SlotPast};
    ghost use Rattle.gate_model.specs.Memory.{past_at};

    ghost Value = { SlotPast };

    ghost view = { λ gateway. record {
      session = gateway.session;
      commands = gateway.commands;
      packets = past_at (version_of gateway.session gateway.commands) gateway.memory;
    } };
}

impl Gateway {
    ghost use Rattle.std.specs.Prelude.{◌≡◌, ℕ, List, [], ◌∷◌, ◌++◌, map, OnOk, OnErr, IfOk, IsTrue, ◌↔◌};
    ghost use Rattle.charging_book.specs.Postings.{happening_of};
    ghost use Rattle.gate_model.specs.declared.event.Event.{Event};
    ghost use Rattle.gate_model.specs.SlotPast.{past_of, happens, happened_after, commanded, met};
    ghost use Rattle.gate_model.specs.SlotPast.{command_happens, packet_happens};
    ghost use Rattle.gate_model.specs.Room.{HasRoom};

    /// The gateway of a slot before its first event.
    pub fn new(alloc: Global, slot: Slot) -> Gateway
        ensures { result ≡ past_of slot [] }
    {
        Gateway {
            alloc,
            session: Session::new(alloc, slot),
            commands: 0,
            memory: Memory::new(alloc),
        }
    }

    /// Whether the counts of a slot may rise: they may where few events came (fewer than 2^40).
    pub fn has_room(&self) -> bool
        ensures { IsTrue result ↔ HasRoom self.now }
    {
        self.session.has_room() && self.commands <= MOST_COUNT
    }

    /// What becomes of an event. Where memory runs out, the gateway is as before.
    #[tactic(auto, unfolding(crate::specs::SlotPast::happens))]
    pub fn event(&mut self, event: &Event) -> Result<Happened, NoMemory>
        requires { HasRoom self.old }

        // What happens is what the definition says of the past, and leaves the past that it says.
        ensures happened { IfOk result (λ happened. happened ≡ (happens self.old event.now).1) }
        ensures past { OnOk result (self.new ≡ (happens self.old event.now).0) }

        // So a gateway that represents a slot's events represents them and this one.
        ensures told { (slot : ℕ) (before : List Event) → self.old ≡ past_of slot before
            → IfOk result (λ happened. happened ≡ happened_after slot before event.now) }
        ensures stands { (slot : ℕ) (before : List Event) → self.old ≡ past_of slot before
            → OnOk result (self.new ≡ past_of slot (before ++ event.now ∷ [])) }

        ensures unchanged { OnErr result (self.new ≡ self.old) }
    {
        match event {
            Event::Command(command) => self.command(command),
            Event::Packet(packet) => self.packet(packet),
        }
    }

    /// What the slot's charging book heard, in order.
    pub fn postings(&self) -> &[Posting]
        ensures { map happening_of result.now ≡ self.now.packets.charged }
    {
        self.memory.postings()
    }

    /// The version that packets go by now.
    pub fn version(&self) -> Result<Version, NoMemory>
        requires { HasRoom self.now }
        ensures { IfOk result (λ version. version ≡ self.now.packets.version) }
    {
        self.session.version(self.commands)
    }

    /// What becomes of a command.
    pub fn command(&mut self, command: &Command) -> Result<Happened, NoMemory>
        requires { HasRoom self.old }
        ensures happened { IfOk result (λ happened. happened ≡ command_happens self.old command.now) }
        ensures past { OnOk result (self.new ≡ commanded self.old command.now) }
        ensures unchanged { OnErr result (self.new ≡ self.old) }
    {
        let before = self.session.version(self.commands)?;
        let mut session = session_of(self.alloc, &self.session)?;
        let reply = step(self.alloc, &mut session, command)?;
        let after = session.version(self.commands + 1)?;
        let mut memory = self.memory.copied()?;
        let effects = memory.learn(&before, &after)?;
        self.session = session;
        self.commands += 1;
        self.memory = memory;
        Ok(Happened::Replied(reply, effects))
    }

    /// What becomes of a packet.
    pub fn packet(&mut self, packet: &Packet) -> Result<Happened, NoMemory>
        requires { HasRoom self.old }
        ensures happened { IfOk result (λ happened. happened ≡ packet_happens self.old packet.now) }
        ensures past { OnOk result (self.new ≡ met self.old packet.now) }
        ensures unchanged { OnErr result (self.new ≡ self.old) }
    {
        let version = self.session.version(self.commands)?;
        let mut memory = self.memory.copied()?;
        let verdict = memory.judge(&version, packet)?;
        self.memory = memory;
        Ok(Happened::Judged(verdict))
    }
}
