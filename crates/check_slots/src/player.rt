//! A slot that is played twice: by the plain gateway, and by a subscriber with its running counters.
use crate::printing::{end_line, push_effects, push_opens, push_verdict};
use crate::stop::EventStop;
use gate_model::{Command, Event, Gateway, Happened, Packet, Reply, Slot, Verdict};
use ipv4_packet::Ip4;
use packet_steps::{Counters, Effects, LentVerdict, gpdu};
use pc_base::{LAST_MOMENT, Moment, Octets, SliceNo};
use report_lines::{push_answer, push_row};
use std::alloc::Global;
use subscriber::Subscriber;
use text_fields::Text;

/// The two gateways of a slot.
#[derive(Drop)]
pub struct SlotPlayer {
    slot: Slot,
    plain: Gateway,
    subscriber: Subscriber,
}

impl SlotPlayer {
    pub fn new(alloc: Global, slot: u32) -> Result<SlotPlayer, EventStop> {
        if slot > 65_532 {
            return Err(EventStop::Line);
        }
        let slot = Slot(slot);
        Ok(SlotPlayer {
            slot,
            plain: Gateway::new(alloc, slot),
            subscriber: Subscriber::new(alloc, slot, SliceNo(0))?,
        })
    }

    /// Appends the entries of the event of a line, where both gateways say the same. A packet's octets are
    /// lent to the subscriber, or its own.
    pub fn play(
        &mut self,
        alloc: Global,
        line: u64,
        event: &Event,
        lent: bool,
        text: &mut Text,
    ) -> Result<(), EventStop> {
        if let Event::Packet(packet) = event {
            if !self.may_come(packet) {
                return Err(EventStop::Line);
            }
        }
        if !self.plain.has_room() {
            return Err(EventStop::Line);
        }
        let happened = self.plain.event(event)?;
        match event {
            Event::Command(command) => self.command(alloc, line, command, &happened, text),
            Event::Packet(packet) => self.packet(alloc, line, packet, lent, &happened, text),
        }
    }

    /// How many of some packets up pass, one a microsecond, each as the first one with so many octets.
    pub fn flood(
        &mut self,
        alloc: Global,
        first: &Packet,
        len: u16,
        count: u8,
    ) -> Result<u32, EventStop> {
        let mut passed = 0u32;
        for late in 0..count {
            let event = Event::Packet(Packet {
                number: self.subscriber.packets(),
                moment: Moment(
                    first
                        .moment
                        .0
                        .saturating_add(u64::from(late))
                        .min(LAST_MOMENT),
                ),
                way: first.way,
                octets: sized(alloc, first.octets.as_slice(), len)?,
            });
            if self.passes(&event)? {
                passed = passed.saturating_add(1);
            }
        }
        Ok(passed)
    }

    fn passes(&mut self, event: &Event) -> Result<bool, EventStop> {
        let Event::Packet(packet) = event else {
            return Err(EventStop::Line);
        };
        if !self.plain.has_room() {
            return Err(EventStop::Line);
        }
        let happened = self.plain.event(event)?;
        let verdict = self.handled(packet)?;
        if !judges(&happened, &verdict) {
            return Err(EventStop::Differ);
        }
        Ok(matches!(&verdict, Verdict::Up { .. }))
    }

    fn command(
        &mut self,
        alloc: Global,
        line: u64,
        command: &Command,
        happened: &Happened,
        text: &mut Text,
    ) -> Result<(), EventStop> {
        let number = self.subscriber.commands();
        if !self.subscriber.has_room() {
            return Err(EventStop::Line);
        }
        let (reply, effects) = self.subscriber.command(alloc, command)?;
        if !replies(happened, &reply, &effects) {
            return Err(EventStop::Differ);
        }
        push_answer(text, line, self.slot, number, &reply)?;
        end_line(text)?;
        push_effects(text, self.slot, number, effects.as_slice())?;
        Ok(())
    }

    fn packet(
        &mut self,
        alloc: Global,
        line: u64,
        packet: &Packet,
        lent: bool,
        happened: &Happened,
        text: &mut Text,
    ) -> Result<(), EventStop> {
        let at = (line, self.slot, packet.number, self.subscriber.commands());
        let verdict = if lent {
            self.judged(alloc, packet)?
        } else {
            self.handled(packet)?
        };
        if !judges(happened, &verdict) {
            return Err(EventStop::Differ);
        }
        push_verdict(text, at, &verdict)?;
        end_line(text)?;
        Ok(())
    }

    /// A packet has the next number, and no earlier moment than the last one.
    fn may_come(&self, packet: &Packet) -> bool {
        let late = match self.subscriber.last() {
            Some(last) => last <= packet.moment,
            None => true,
        };
        late && packet.number == self.subscriber.packets()
    }

    fn handled(&mut self, packet: &Packet) -> Result<Verdict, EventStop> {
        if let Some(last) = self.subscriber.last() {
            if packet.moment < last {
                return Err(EventStop::Line);
            }
        }
        if packet.number != self.subscriber.packets() || !self.subscriber.has_room() {
            return Err(EventStop::Line);
        }
        Ok(self.subscriber.packet(packet)?)
    }

    fn judged(&mut self, alloc: Global, packet: &Packet) -> Result<Verdict, EventStop> {
        if let Some(last) = self.subscriber.last() {
            if packet.moment < last {
                return Err(EventStop::Line);
            }
        }
        if !self.subscriber.has_room() {
            return Err(EventStop::Line);
        }
        let Ok(ip) = Ip4::read(packet.octets.as_slice()) else {
            return Err(EventStop::Line);
        };
        let handled = self.subscriber.judge(packet.moment, packet.way, &ip)?;
        if handled.number != packet.number || handled.commands != self.subscriber.commands() {
            return Err(EventStop::Differ);
        }
        owned(alloc, handled.judged)
    }

    /// Binds the subscriber for a slice.
    pub fn go(&mut self, slice: u8) {
        if slice < 64 {
            self.subscriber.set_destination(SliceNo(slice));
        }
    }

    /// What the subscriber says of itself: its slot, its slice, how many commands and packets came, and
    /// the last packet's moment.
    pub fn tell(&self) -> (u32, u8, u64, u64, Option<u64>) {
        let last = match self.subscriber.last() {
            Some(last) => Some(last.0),
            None => None,
        };
        let subscriber = &self.subscriber;
        (
            subscriber.slot().0,
            subscriber.destination().0,
            subscriber.commands(),
            subscriber.packets(),
            last,
        )
    }

    /// Makes the subscriber's counters again, of the parts that they have. Tells whether they fit; none is made
    /// where charging records weren't taken, as parts have none.
    pub fn remake(&mut self) -> Result<bool, EventStop> {
        if !self.subscriber.counters.book().closed().is_empty() {
            return Err(EventStop::Line);
        }
        let parts = self.subscriber.counters.parts(&self.subscriber.version)?;
        match Counters::of(&self.subscriber.version, parts)? {
            Some(counters) => {
                self.subscriber.counters = counters;
                Ok(true)
            }
            None => Ok(false),
        }
    }

    /// Appends the charging records, and the open counters by index.
    pub fn finish(&mut self, text: &mut Text) -> Result<(), EventStop> {
        self.take(text)?;
        self.opens(text)
    }

    /// Appends the charging records that weren't taken.
    pub fn take(&mut self, text: &mut Text) -> Result<(), EventStop> {
        for row in &self.subscriber.take_closed() {
            push_row(text, self.slot, row)?;
            end_line(text)?;
        }
        Ok(())
    }

    /// Appends the open counters by index.
    pub fn opens(&self, text: &mut Text) -> Result<(), EventStop> {
        let opens = self.subscriber.still_open();
        for bearer in self.subscriber.bearers() {
            push_opens(text, self.slot, bearer.life, opens)?;
        }
        Ok(())
    }
}

/// Octets with this length, which the head of a packet tells.
fn sized(alloc: Global, octets: &[u8], len: u16) -> Result<Octets, EventStop> {
    let mut packet = Vec::from_slice(alloc, octets)?;
    packet.resize(usize::from(len), 0)?;
    if packet.len() < 4 {
        return Err(EventStop::Line);
    }
    let [high, low] = len.to_be_bytes();
    packet[2] = high;
    packet[3] = low;
    Ok(Octets::of(packet))
}

fn owned(alloc: Global, judged: LentVerdict<'_>) -> Result<Verdict, EventStop> {
    match judged {
        LentVerdict::Up { life, octets } => Ok(Verdict::Up {
            life,
            octets: Octets::of(Vec::from_slice(alloc, octets)?),
        }),
        LentVerdict::Down { life, peer, octets } => {
            if octets.len() > 65_535 {
                return Err(EventStop::Line);
            }
            Ok(Verdict::Down {
                life,
                peer: peer.addr,
                octets: gpdu(alloc, peer, octets)?,
            })
        }
        LentVerdict::NoBearer => Ok(Verdict::NoBearer),
        LentVerdict::Spoof => Ok(Verdict::Spoof),
        LentVerdict::Idle { life } => Ok(Verdict::Idle { life }),
        LentVerdict::Held { life, message } => Ok(Verdict::Held { life, message }),
        LentVerdict::Policed { life } => Ok(Verdict::Policed { life }),
    }
}

fn replies(happened: &Happened, reply: &Reply, effects: &Effects) -> bool {
    match happened {
        Happened::Replied(plain, plain_effects) => {
            plain == reply && plain_effects.as_slice() == effects.as_slice()
        }
        Happened::Judged(_) => false,
    }
}

fn judges(happened: &Happened, verdict: &Verdict) -> bool {
    match happened {
        Happened::Judged(plain) => plain == verdict,
        Happened::Replied(..) => false,
    }
}
