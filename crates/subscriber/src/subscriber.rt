//! A subscriber at rest.
use crate::laws::known_pasts;
use crate::{Handled, NoMemory};
use bearer_state::{ActiveBearer, Session, Version};
use charging_book::{ChargeRow, Open};
use control_steps::{Command, step};
use ipv4_packet::Ip4;
use packet_steps::{Counters, Effects, advance, handle, judge};
use pc_base::{Moment, Packet, Reply, SliceNo, Slot, Verdict, Way};
use std::alloc::Global;
use std::marker::Model;

/// No subscriber has as many commands and packets.
const MOST_EVENTS: u64 = 0x10_0000_0000_0000;

/// A subscriber between two events. A contract speaks of it by the events of its slot, and by how many
/// of their charging records were taken out: it represents these.
#[derive(Drop)]
pub struct Subscriber {
    pub session: Session,
    /// The version that its packets go by.
    pub version: Version,
    pub counters: Counters,
    /// How many packets came.
    pub packets: u64,
    /// The slice that it is bound for.
    pub destination: SliceNo,
}

impl Model for Subscriber {
    ghost use Rattle.subscriber.specs.Standing.{SubscriberState, subscriber_of};

    ghost Value = { SubscriberState };

    ghost view = { λ s. subscriber_of s.session s.version s.counters s.packets s.destination };
}

impl Subscriber {
    ghost use Rattle.std.specs.Prelude.{◌≡◌, ℕ, ◌≤◌, List, [], ◌∷◌, ◌++◌, length, drop, IfOk, IfSome};
    ghost use Rattle.std.specs.Prelude.{◌+◌, ◌⊎◌, ◌↔◌, OnOk, OnErr, None, Some, IsTrue};
    ghost use Rattle.gate_model.specs.declared.event.Event.{Event};
    ghost use Rattle.gate_model.specs.declared.event.Event.TheVariants as event;
    ghost use Rattle.gate_model.specs.SlotPast.{reply_after, effects_after, verdict_after, records_after};
    ghost use Rattle.gate_model.specs.SlotPast.{opens_after, version_after};
    ghost use Rattle.bearer_state.specs.Version.{version_of};
    ghost use Rattle.packet_steps.specs.Lent.{verdict_of};
    ghost use Rattle.packet_steps.specs.Plans.{verdict_by};
    ghost use Rattle.packet_steps.specs.Running.{planned, GoesOn, brought, Advances};
    ghost use Rattle.control_steps.specs.Table.{controlled};
    ghost use Rattle.subscriber.specs.Standing.{StandsFor, StandsForPackets, HasRoom, commands_met, new_subscriber};
    ghost use Rattle.subscriber.specs.Standing.{last_of, packet_of};

    /// The subscriber of a slot before its first event, bound for a slice.
    pub fn new(alloc: Global, slot: Slot, destination: SliceNo) -> Result<Subscriber, NoMemory>
        ensures stands { IfOk result (λ subscriber. StandsFor subscriber slot [] 0) }
        ensures new { IfOk result (λ subscriber. subscriber ≡ new_subscriber slot destination) }
        ensures destination { IfOk result (λ subscriber. subscriber.destination ≡ destination) }
        ensures last { IfOk result (λ subscriber. last_of subscriber ≡ None) }
    {
        let session = Session::new(alloc, slot);
        let version = session.version(0)?;
        let counters = Counters::new(alloc);
        Ok(Subscriber {
            session,
            version,
            counters,
            packets: 0,
            destination,
        })
    }

    /// Does a command, whose version is learnt at once: the reply, and the effects. Where memory runs
    /// out, packets and records go on as before, but the session may have done the command: the
    /// subscriber takes no command any more.
    pub fn command(
        &mut self,
        alloc: Global,
        command: &Command,
    ) -> Result<(Reply, Effects), NoMemory>
        requires { HasRoom self.old }

        ensures reply { (slot : ℕ) (events : List Event) (taken : ℕ) → StandsFor self.old slot events taken
            → IfOk result (λ told. told.0 ≡ reply_after slot events command.now) }
        ensures effects { (slot : ℕ) (events : List Event) (taken : ℕ) → StandsFor self.old slot events taken
            → IfOk result (λ told. told.1 ≡ effects_after slot events command.now) }
        ensures stands { (slot : ℕ) (events : List Event) (taken : ℕ) → StandsFor self.old slot events taken
            → OnOk result (StandsFor self.new slot (events ++ event.Command command.now ∷ []) taken) }
        ensures last { last_of self.new ≡ last_of self.old }
        ensures destination { self.new.destination ≡ self.old.destination }
        ensures stepped { OnOk result (self.new.session ≡ (controlled self.old.session command.now).0) }
        ensures counted { OnOk result ((commands_met self.new ≡ commands_met self.old + 1)
            × (self.new.packets ≡ self.old.packets)) }

        // The same by the subscriber alone, also of one whose counters were made of parts.
        ensures answered { IfOk result (λ told. told.0 ≡ (controlled self.old.session command.now).1) }
        ensures versioned { OnOk result
            (self.new.version ≡ version_of self.new.session (commands_met self.old + 1)) }
        ensures brings { OnOk result
            (IfOk result (λ told. told.1 ≡ (brought self.old.version self.new.version self.old.counters).effects)) }
        ensures advances { OnOk result
            (Advances self.old.version self.new.version self.old.counters self.new.counters) }

        // Where memory ran out: all but the session is as before, and that has done the command or not.
        ensures kept { OnErr result (self.new ≡ record self.old { session = self.new.session }) }
        ensures session { OnErr result ((self.new.session ≡ self.old.session)
            ⊎ (self.new.session ≡ (controlled self.old.session command.now).0)) }
        ensures goes_on { (slot : ℕ) (events : List Event) (taken : ℕ) → StandsFor self.old slot events taken
            → OnErr result (StandsForPackets self.new slot events taken) }
    {
        known_pasts();
        let before = &self.version;
        let number = before.number + 1;
        let reply = step(alloc, &mut self.session, command)?;
        let after = self.session.version(number)?;
        let effects = advance(&mut self.counters, before, &after)?;
        self.version = after;
        Ok((reply, effects))
    }

    /// What becomes of a packet, by all commands so far. Its number is the count of the packets before
    /// it, and its moment isn't earlier than that of the last one. Where memory runs out, nothing
    /// changes.
    pub fn packet(&mut self, packet: &Packet) -> Result<Verdict, NoMemory>
        requires room { HasRoom self.old }
        requires number { packet.now.number ≡ self.old.packets }
        requires late { IfSome (last_of self.old) (λ last. last ≤ packet.now.moment) }

        ensures verdict { (slot : ℕ) (events : List Event) (taken : ℕ) → StandsFor self.old slot events taken
            → IfOk result (λ verdict. verdict ≡ verdict_after slot events packet.now) }
        ensures stands { (slot : ℕ) (events : List Event) (taken : ℕ) → StandsFor self.old slot events taken
            → OnOk result (StandsFor self.new slot (events ++ event.Packet packet.now ∷ []) taken) }

        // The same by the subscriber alone, also of one whose counters were made of parts.
        ensures planned { IfOk result (λ verdict. verdict
            ≡ verdict_by (planned self.old.version self.old.counters packet.now) packet.now.octets) }
        ensures goes_on { OnOk result (GoesOn (planned self.old.version self.old.counters packet.now)
            packet.now self.old.counters self.new.counters) }
        ensures last { OnOk result (last_of self.new ≡ Some packet.now.moment) }
        ensures counted { OnOk result (self.new ≡ record self.old {
          counters = self.new.counters;
          packets = self.old.packets + 1;
        }) }
        ensures destination { self.new.destination ≡ self.old.destination }
        ensures unchanged { OnErr result (self.new ≡ self.old) }
    {
        known_pasts();
        let verdict = handle(&mut self.counters, &self.version, packet)?;
        self.packets += 1;
        Ok(verdict)
    }

    /// The same of a packet whose octets lie elsewhere, and are lent again: it takes the next number.
    #[inline(always)]
    pub fn judge<'a>(
        &mut self,
        moment: Moment,
        way: Way,
        ip: &'a Ip4<'_>,
    ) -> Result<Handled<'a>, NoMemory>
        requires room { HasRoom self.old }
        requires late { IfSome (last_of self.old) (λ last. last ≤ moment) }

        ensures number { IfOk result (λ handled. handled.number ≡ self.old.packets) }
        ensures commands { IfOk result (λ handled. handled.commands ≡ commands_met self.old) }
        ensures verdict { (slot : ℕ) (events : List Event) (taken : ℕ) → StandsFor self.old slot events taken
            → IfOk result (λ handled. verdict_of handled.judged
            ≡ verdict_after slot events (packet_of self.old.packets moment way ip.now)) }
        ensures stands { (slot : ℕ) (events : List Event) (taken : ℕ) → StandsFor self.old slot events taken
            → OnOk result (StandsFor self.new slot
            (events ++ event.Packet (packet_of self.old.packets moment way ip.now) ∷ []) taken) }

        // The same by the subscriber alone, also of one whose counters were made of parts.
        ensures planned { IfOk result (λ handled. verdict_of handled.judged ≡ verdict_by
            (planned self.old.version self.old.counters (packet_of self.old.packets moment way ip.now)) ip.now) }
        ensures goes_on { OnOk result (GoesOn
            (planned self.old.version self.old.counters (packet_of self.old.packets moment way ip.now))
            (packet_of self.old.packets moment way ip.now) self.old.counters self.new.counters) }
        ensures last { OnOk result (last_of self.new ≡ Some moment) }
        ensures counted { OnOk result (self.new ≡ record self.old {
          counters = self.new.counters;
          packets = self.old.packets + 1;
        }) }
        ensures destination { self.new.destination ≡ self.old.destination }
        ensures unchanged { OnErr result (self.new ≡ self.old) }
    {
        known_pasts();
        let number = self.packets;
        let version = &self.version;
        let commands = version.number;
        match judge(&mut self.counters, version, number, moment, way, ip) {
            Ok(judged) => {
                self.packets = number + 1;
                Ok(Handled {
                    number,
                    commands,
                    judged,
                })
            }
            Err(failed) => Err(failed),
        }
    }

    /// Takes the charging records out that weren't taken yet, in the order in which they were made.
    pub fn take_closed(&mut self) -> Vec<ChargeRow>
        ensures rows { (slot : ℕ) (events : List Event) (taken : ℕ) → StandsFor self.old slot events taken
            → result.items ≡ drop taken (records_after slot events) }
        ensures stands { (slot : ℕ) (events : List Event) (taken : ℕ) → StandsFor self.old slot events taken
            → StandsFor self.new slot events (length (records_after slot events)) }
        ensures last { (slot : ℕ) (events : List Event) (taken : ℕ) → StandsFor self.old slot events taken
            → last_of self.new ≡ last_of self.old }
        ensures destination { self.new.destination ≡ self.old.destination }
        ensures same { self.new ≡ record self.old { counters = self.new.counters } }
        ensures closed { result.items ≡ self.old.counters.book.rows }
        ensures left { self.new.counters
            ≡ record self.old.counters { book = record self.old.counters.book { rows = [] } } }
    {
        self.counters.take_closed()
    }

    /// The open counters of the subscriber's bearers.
    pub fn still_open(&self) -> &[Open]
        ensures after { (slot : ℕ) (events : List Event) (taken : ℕ) → StandsFor self.now slot events taken
            → result.now ≡ opens_after slot events }
        ensures own { result.now ≡ self.now.counters.book.opens }
    {
        self.counters.book().still_open()
    }

    /// The bearers that its packets go by, by index.
    pub fn bearers(&self) -> &[ActiveBearer]
        ensures after { (slot : ℕ) (events : List Event) (taken : ℕ) → StandsFor self.now slot events taken
            → result.now ≡ (version_after slot events).bearers }
        ensures own { result.now ≡ self.now.version.bearers }
    {
        self.version.bearers()
    }

    /// Whether its counts may rise: each is below 2^52.
    pub fn has_room(&self) -> bool
        ensures { IsTrue result ↔ HasRoom self.now }
    {
        let most = MOST_EVENTS;
        let session = &self.session;
        let commands = self.version.number;
        session.rates < most
            && session.lives < most
            && commands < most
            && self.packets < most - commands
    }

    /// The subscriber's slot.
    pub fn slot(&self) -> Slot
        ensures after { (slot : ℕ) (events : List Event) (taken : ℕ) → StandsFor self.now slot events taken
            → result ≡ slot }
        ensures own { result ≡ self.now.session.slot }
    {
        known_pasts();
        self.session.slot
    }

    /// How many commands it was given.
    pub fn commands(&self) -> u64
        ensures { result ≡ commands_met self.now }
    {
        self.version.number
    }

    /// How many packets it was given.
    pub fn packets(&self) -> u64
        ensures { result ≡ self.now.packets }
    {
        self.packets
    }

    /// The moment of its last packet, None before the first.
    pub fn last(&self) -> Option<Moment>
        ensures { result ≡ last_of self.now }
    {
        self.counters.last()
    }

    /// The slice that it is bound for.
    pub fn destination(&self) -> SliceNo
        ensures { result ≡ self.now.destination }
    {
        self.destination
    }

    /// Binds it for a slice.
    pub fn set_destination(&mut self, destination: SliceNo)
        ensures { self.new ≡ record self.old { destination = destination } }
    {
        self.destination = destination;
    }
}
