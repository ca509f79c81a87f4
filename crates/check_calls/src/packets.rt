//! GTP-U messages, and IPv4 packets.
use crate::kinds::Kind;
use crate::line::Words;
use crate::shown::AnswerLine;
use crate::stop::CallStop;
use gtpu_codec::{GtpU, gpdu_head, read, write, write_gpdu};
use ipv4_packet::Ip4;
use pc_base::{Addr4, Effect, Fate, Moment, Octets, Outcome, Packet, Reply, Teid, Verdict, Way};
use std::alloc::Global;

pub fn answer(
    alloc: Global,
    kind: Kind,
    words: &mut Words<'_>,
    line: &mut AnswerLine,
) -> Result<(), CallStop> {
    match kind {
        Kind::Gtpu => message(alloc, words, line),
        Kind::Send => sent(alloc, words, line),
        Kind::Ip => packet(alloc, words, line),
        Kind::Packet => printed(alloc, words, line),
        _ => copies(alloc, words, line),
    }
}

fn message(alloc: Global, words: &mut Words<'_>, line: &mut AnswerLine) -> Result<(), CallStop> {
    let octets = words.octets(alloc)?;
    match read(&octets) {
        Ok((head, body)) => {
            line.word("ok");
            line.shown(&head.kind.octet());
            line.shown(&head.teid.0);
            line.shown_or(&head.seq, "-");
            line.octets(body);
        }
        Err(bad) => line.fault(&bad),
    }
    Ok(())
}

fn sent(alloc: Global, words: &mut Words<'_>, line: &mut AnswerLine) -> Result<(), CallStop> {
    let message = match words.word() {
        b"echo" => GtpU::EchoRequest {
            seq: words.short()?,
        },
        b"answer" => GtpU::EchoResponse {
            seq: words.short()?,
        },
        b"error" => GtpU::ErrorIndication {
            seq: words.short()?,
            teid: Teid(words.long()?),
            peer: Addr4(words.long()?),
        },
        b"end" => GtpU::EndMarker {
            teid: Teid(words.long()?),
        },
        b"gpdu" => return gpdu(alloc, Teid(words.long()?), words.octets(alloc)?, line),
        _ => return Err(CallStop::Line),
    };
    let copy = message.try_clone()?;
    if copy != message {
        return Err(CallStop::Differ);
    }
    line.octets(write(alloc, &copy)?.as_slice());
    Ok(())
}

/// A G-PDU, as it is written in three ways.
fn gpdu(
    alloc: Global,
    teid: Teid,
    payload: Vec<u8>,
    line: &mut AnswerLine,
) -> Result<(), CallStop> {
    if payload.len() > 0xffff {
        return Err(CallStop::Line);
    }
    let mut parts = Vec::from_slice(alloc, &gpdu_head(teid, payload.len() as u16))?;
    parts.extend_from_slice(&payload)?;
    let alone = write_gpdu(alloc, teid, &payload)?;
    let payload = Octets::of(payload);
    let whole = write(alloc, &GtpU::Gpdu { teid, payload })?;
    if alone != whole || parts.as_slice() != whole.as_slice() {
        return Err(CallStop::Differ);
    }
    line.octets(whole.as_slice());
    Ok(())
}

fn packet(alloc: Global, words: &mut Words<'_>, line: &mut AnswerLine) -> Result<(), CallStop> {
    let octets = words.octets(alloc)?;
    match Ip4::read(&octets) {
        Ok(packet) => fields(&packet, line),
        Err(bad) => line.fault(&bad),
    }
    Ok(())
}

fn fields(packet: &Ip4<'_>, line: &mut AnswerLine) {
    line.word("ok");
    line.shown(&packet.tos());
    line.shown(&packet.protocol());
    line.shown(&packet.source());
    line.shown(&packet.destination());
    line.shown(&packet.fragment_offset());
    match packet.ports() {
        Some((source, destination)) => {
            line.numbers(',', &[u64::from(source), u64::from(destination)]);
        }
        None => line.word("-"),
    }
    line.shown_or(&packet.spi(), "-");
    line.shown(&packet.octets().len());
}

/// A packet as its copy prints.
fn printed(alloc: Global, words: &mut Words<'_>, line: &mut AnswerLine) -> Result<(), CallStop> {
    let octets = words.octets(alloc)?;
    match Ip4::read(&octets) {
        Ok(packet) => {
            let copy = packet.copied();
            if copy != packet {
                return Err(CallStop::Differ);
            }
            line.debugged(&copy);
        }
        Err(bad) => line.fault(&bad),
    }
    Ok(())
}

/// How many values with these octets equal their copy.
fn copies(alloc: Global, words: &mut Words<'_>, line: &mut AnswerLine) -> Result<(), CallStop> {
    let octets = Octets::of(words.octets(alloc)?);
    let mut equal: u8 = 0;
    if packet_copies(&octets)? && verdict_copies(&octets)? {
        equal += 2;
    }
    if reply_copies(&octets)? && effect_copies(&octets)? {
        equal += 2;
    }
    if fate_of(&octets)? != (Fate::Gone { life: 3 }) {
        equal += 1;
    }
    line.shown(&equal);
    line.debugged(&octets);
    Ok(())
}

fn packet_copies(octets: &Octets) -> Result<bool, CallStop> {
    let packet = Packet {
        number: 1,
        moment: Moment(2),
        way: Way::Up(0),
        octets: octets.try_clone()?,
    };
    Ok(packet.try_clone()? == packet)
}

fn verdict_copies(octets: &Octets) -> Result<bool, CallStop> {
    let verdict = Verdict::Held {
        life: 3,
        message: Some(octets.try_clone()?),
    };
    Ok(verdict.try_clone()? == verdict)
}

fn reply_copies(octets: &Octets) -> Result<bool, CallStop> {
    let reply = Reply {
        outcome: Outcome::Again,
        message: Some(octets.try_clone()?),
    };
    Ok(reply.try_clone()? == reply)
}

fn effect_copies(octets: &Octets) -> Result<bool, CallStop> {
    let effect = Effect::Fate {
        packet: 1,
        fate: fate_of(octets)?,
    };
    Ok(effect.try_clone()? == effect)
}

/// The copy of a packet's fate.
fn fate_of(octets: &Octets) -> Result<Fate, CallStop> {
    let fate = Fate::Down {
        life: 3,
        peer: Addr4(4),
        octets: octets.try_clone()?,
    };
    Ok(fate.try_clone()?)
}
