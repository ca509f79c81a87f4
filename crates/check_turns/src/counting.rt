//! A data half at its lane, which learns and judges by hand.
use crate::answers::{StepStop, push_word, push_yes};
use crate::step::ScriptStep;
use bearer_state::{Ask, Asks, Qos, Session, Version};
use control_half::Batch;
use control_steps::{Command, CommandKind, step};
use counter_half::{DataHalf, DataItem, DataRest, HalfState, PacketDone, SentPacket};
use ipv4_packet::Ip4;
use lane_core::{NoMemory, Sender, lane};
use packet_steps::{Counters, LentVerdict, gpdu};
use pc_base::{Addr4, Effect, Fate, Kbps, Moment, Octets, Peer, Place, SliceNo, Slot, Teid, Way};
use std::alloc::Global;
use std::sync::Wait;
use text_fields::Text;

// 28 octets of UDP from 203.0.113.9, port 5060, to 10.45.0.2.
const DOWN: &[u8] =
    b"\x45\0\0\x1c\0\0\0\0\x40\x11\0\0\xcb\0\x71\x09\x0a\x2d\0\x02\x13\xc4\x27\x10\0\x08\0\0";

/// A half, the far end of its lane, and the session whose versions are sent there.
#[derive(Drop)]
pub struct CountBench {
    half: DataHalf<'static>,
    versions: Sender<Batch<Version>>,
    session: Session,
    number: u64,
    packets: u64,
}

// The Create Session Request of EBI 5.
fn create() -> CommandKind {
    CommandKind::Create {
        seq: 1,
        mme: Peer {
            teid: Teid(0x1000),
            addr: Addr4(0xc633_6401),
        },
        pdn: 3,
        ebi: 5,
        qos: Qos {
            arp: 0x24,
            qci: 9,
            mbr_up: Kbps(0),
            mbr_down: Kbps(0),
            gbr_up: Kbps(0),
            gbr_down: Kbps(0),
        },
        enb: None,
        up: Kbps(50_000),
        down: Kbps(100_000),
    }
}

// A Modify Bearer Request: EBI 5 has the eNodeB of this number, 1 to 100.
fn modify(alloc: Global, enb: u32) -> Result<CommandKind, StepStop> {
    if enb > 100 {
        return Err(StepStop::Step);
    }
    let mut asks = Vec::new(alloc);
    asks.push(Ask {
        ebi: 5,
        enb: Some(Peer {
            teid: Teid(0xa00 + enb),
            addr: Addr4(0xc633_6406 + enb),
        }),
    })?;
    match Asks::of(asks) {
        Some(asks) => Ok(CommandKind::Modify {
            seq: 1 + enb,
            mme: None,
            asks,
        }),
        None => Err(StepStop::Step),
    }
}

impl CountBench {
    /// A new half, over a lane of so many batches.
    pub fn new(alloc: Global, batches: u32) -> Result<CountBench, StepStop> {
        if batches == 0 || batches > 100 {
            return Err(StepStop::Step);
        }
        let (versions, taking) = lane(alloc, batches)?;
        let session = Session::new(alloc, Slot(0));
        let version = session.version(0)?;
        match DataHalf::new(&session, version, Counters::new(alloc), 0, taking) {
            Ok(half) => Ok(CountBench {
                half,
                versions,
                session,
                number: 0,
                packets: 0,
            }),
            Err(_) => Err(StepStop::NoMemory),
        }
    }

    // The version that a command leaves.
    fn version_of(&mut self, alloc: Global, kind: CommandKind) -> Result<Version, StepStop> {
        if self.number > 100 || !self.session.has_room() {
            return Err(StepStop::Step);
        }
        let Some(command) = Command::of(kind) else {
            return Err(StepStop::Step);
        };
        step(alloc, &mut self.session, &command)?;
        self.number += 1;
        Ok(self.session.version(self.number)?)
    }

    // Sends the version that a command leaves, in a batch of its own; whether the lane takes it.
    fn send<R: Wait>(
        &mut self,
        rt: &R,
        alloc: Global,
        kind: CommandKind,
        floor: u32,
    ) -> Result<bool, StepStop> {
        let version = self.version_of(alloc, kind)?;
        let batch = Batch::new(alloc, version, u64::from(floor))?;
        if self.versions.offers() > 100 {
            return Err(StepStop::Step);
        }
        Ok(self.versions.offer(rt, batch).is_ok())
    }

    // The next packet down. It is ten lines behind its number.
    fn item(&self, floor: u32, moment: u32) -> Result<DataItem<'static>, StepStop> {
        let number = self.packets;
        if number > 100 {
            return Err(StepStop::Step);
        }
        let Some(ip) = Ip4::whole(DOWN) else {
            return Err(StepStop::Step);
        };
        Ok(DataItem {
            slot: Slot(0),
            number,
            floor: u64::from(floor),
            line: number + 10,
            packet: SentPacket {
                number,
                moment: Moment(u64::from(moment)),
                way: Way::Down,
                ip,
            },
        })
    }

    // Handles the next packet at slice 1, if it may; whether it does.
    fn handle(&mut self, item: &DataItem<'static>) -> Result<bool, NoMemory> {
        if !self.half.may_handle(item) {
            return Ok(false);
        }
        self.half.handle(SliceNo(1), item)?;
        self.packets = self.packets.saturating_add(1);
        Ok(true)
    }

    // The version that the session's making leaves, or another eNodeB.
    fn publish<R: Wait>(
        &mut self,
        rt: &R,
        alloc: Global,
        step: ScriptStep,
    ) -> Result<bool, StepStop> {
        if step.letter == b's' {
            return self.send(rt, alloc, create(), step.one);
        }
        let kind = modify(alloc, step.one)?;
        self.send(rt, alloc, kind, step.two)
    }

    /// The version that the session's making leaves (s, with a floor) or another eNodeB (n, with a floor); whether a
    /// packet of a floor may be handled (m), a learning of at most so many batches (l), or a packet of a floor and a
    /// moment (p).
    pub fn play<R: Wait>(
        &mut self,
        rt: &R,
        alloc: Global,
        step: ScriptStep,
        text: &mut Text,
    ) -> Result<(), StepStop> {
        match step.letter {
            b's' | b'n' => {
                let took = self.publish(rt, alloc, step)?;
                push_word(text, if took { b"ok" } else { b"full" })
            }
            b'm' => {
                let item = self.item(step.one, 0)?;
                push_yes(text, self.half.may_handle(&item))
            }
            b'l' if step.one > 0 => {
                let learnt = self.half.learn_at_most(rt, step.one)?;
                push_yes(text, learnt)
            }
            b'p' => {
                let item = self.item(step.one, step.two)?;
                let handled = self.handle(&item)?;
                push_word(text, if handled { b"ok" } else { b"waits" })
            }
            _ => Err(StepStop::Step),
        }
    }

    /// How many commands were learnt and packets handled, the floor of a batch that is kept, the moment of the last
    /// packet; then each packet's verdict, and each effect with its command.
    pub fn end(self, alloc: Global) -> Result<Text, StepStop> {
        let mut text = Text::new(alloc);
        let rest = self.half.into_rest();
        push_rest(alloc, &mut text, &rest)?;
        Ok(text)
    }
}

fn push_rest(alloc: Global, text: &mut Text, rest: &DataRest<'_>) -> Result<(), NoMemory> {
    let state = &rest.state;
    text.push_number(state.met)?;
    text.push_number(state.done)?;
    push_floor(text, &rest.batch)?;
    push_last(text, state)?;
    push_notes(alloc, text, state)?;
    push_effects(text, state)
}

fn push_floor(text: &mut Text, batch: &Option<Batch<Version>>) -> Result<(), NoMemory> {
    match batch {
        Some(batch) => text.push_number(batch.floor()),
        None => text.push_field(b"-"),
    }
}

fn push_last(text: &mut Text, state: &HalfState<'_>) -> Result<(), NoMemory> {
    match state.counters.last() {
        Some(moment) => text.push_number(moment.0),
        None => text.push_field(b"-"),
    }
}

// What goes to an eNodeB.
fn push_down(text: &mut Text, word: &[u8], life: u64, octets: &Octets) -> Result<(), NoMemory> {
    text.push_field(word)?;
    text.push_number(life)?;
    text.push_octets(octets.as_slice())
}

fn push_verdict(alloc: Global, text: &mut Text, verdict: &LentVerdict<'_>) -> Result<(), NoMemory> {
    match verdict {
        LentVerdict::Down { life, peer, octets } if octets.len() < 0x1_0000 => {
            push_down(text, b"down", *life, &gpdu(alloc, *peer, octets)?)
        }
        LentVerdict::Held { life, .. } => {
            text.push_field(b"held")?;
            text.push_number(*life)
        }
        _ => text.push_field(b"neither"),
    }
}

fn push_effect(text: &mut Text, effect: &Effect) -> Result<(), NoMemory> {
    match effect {
        Effect::Marker { life, octets, .. } => push_down(text, b"marker", *life, octets),
        Effect::Fate {
            packet,
            fate: Fate::Down { life, octets, .. },
        } => {
            text.push_field(b"packet")?;
            text.push_number(*packet)?;
            push_down(text, b"down", *life, octets)
        }
        Effect::Fate { .. } => text.push_field(b"neither"),
    }
}

fn push_notes(alloc: Global, text: &mut Text, state: &HalfState<'_>) -> Result<(), NoMemory> {
    for note in state.notes.as_slice() {
        push_note(alloc, text, note)?;
    }
    Ok(())
}

fn push_note(alloc: Global, text: &mut Text, note: &PacketDone<'_>) -> Result<(), NoMemory> {
    text.push(b';')?;
    text.push_number(note.line)?;
    text.push_number(note.number)?;
    text.push_number(note.commands)?;
    text.push_field(match note.place {
        Place::At(SliceNo(1)) => b"@1",
        Place::At(_) => b"@another",
        Place::Closing => b"@closing",
    })?;
    push_verdict(alloc, text, note.verdict.lent())
}

fn push_effects(text: &mut Text, state: &HalfState<'_>) -> Result<(), NoMemory> {
    for done in state.effects.as_slice() {
        for effect in done.effects.as_slice() {
            text.push(b';')?;
            text.push_number(done.command)?;
            push_effect(text, effect)?;
        }
    }
    Ok(())
}
