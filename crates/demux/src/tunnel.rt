//! What octets of an eNodeB (S1-U, TS 29.281) and of the internet (SGi, RFC 791) mean.
ghost use Rattle.std.specs.Prelude.{◌≡◌, ℕ, Option, unwrap_or, IfOk};
ghost use Rattle.demux.specs.Tunnel.{tunnel_echo_note, unknown_note, carried, tunnelled};
ghost use Rattle.demux.specs.Tunnel.{tunnel_asked, delivered, packet_asked};
ghost use Rattle.demux.specs.Resolved.{granted, resolved};

use crate::packets::{addressee_in_book, bearer_in_book};
use crate::texts::{carried_note, octets_note, packet_note, tunnel_note, words};
use crate::{Decision, LentPacket};
use address_book::AddressBook;
use gtpu_codec::{GtpU, GtpUKind, read, write};
use ipv4_packet::Ip4;
use pc_base::{Addr4, GATEWAY_ADDR, Moment, NoMemory, Octets, Slot, Teid, Way};
use std::alloc::Global;

/// What octets of an eNodeB mean.
#[tactic(auto, unfolding(crate::specs::Resolved::resolved))]
pub fn decide_tunnel<'a>(
    alloc: Global,
    book: &AddressBook,
    moment: Moment,
    octets: &'a [u8],
) -> Result<Decision<'a>, NoMemory>
    ensures { (slices : ℕ) → IfOk result (λ decision. decision
        ≡ resolved slices book.now (tunnel_asked moment octets.now)) }
{
    match read(octets) {
        Ok((head, body)) => match head.kind {
            GtpUKind::EchoRequest => {
                let seq = head.seq.unwrap_or(0);
                Ok(Decision::Note(echo_note(alloc, seq)?))
            }
            GtpUKind::EchoResponse | GtpUKind::ErrorIndication | GtpUKind::EndMarker => {
                Ok(Decision::Note(words(alloc, "s1u noted")?))
            }
            GtpUKind::Gpdu => decide_tunnelled(alloc, book, moment, head.teid, body),
        },
        Err(bad) => Ok(Decision::Note(words(alloc, tunnel_note(bad))?)),
    }
}

// What came through the tunnel of a TEID.
#[tactic(auto, unfolding(crate::specs::Tunnel::tunnelled, crate::specs::Resolved::resolved))]
fn decide_tunnelled<'a>(
    alloc: Global,
    book: &AddressBook,
    moment: Moment,
    teid: Teid,
    payload: &'a [u8],
) -> Result<Decision<'a>, NoMemory>
    ensures { (slices : ℕ) → IfOk result (λ decision. decision
        ≡ resolved slices book.now (tunnelled moment teid payload.now)) }
{
    match bearer_in_book(book, teid) {
        Some((slot, index)) => decide_carried(alloc, moment, slot, index, payload),
        None => Ok(Decision::Note(unknown_note(alloc, teid)?)),
    }
}

// What came up on a bearer of a slot.
fn decide_carried<'a>(
    alloc: Global,
    moment: Moment,
    slot: Slot,
    index: u8,
    payload: &'a [u8],
) -> Result<Decision<'a>, NoMemory>
    ensures { (slices : ℕ) → IfOk result (λ decision. decision
        ≡ granted slices slot (carried moment index payload.now)) }
{
    match Ip4::read(payload) {
        Ok(ip) => Ok(Decision::Packet {
            slot,
            packet: LentPacket {
                moment,
                way: Way::Up(index),
                ip,
            },
        }),
        Err(bad) => Ok(Decision::Note(words(alloc, carried_note(bad))?)),
    }
}

/// What octets of the internet mean.
#[tactic(auto, unfolding(crate::specs::Resolved::resolved))]
pub fn decide_packet<'a>(
    alloc: Global,
    book: &AddressBook,
    moment: Moment,
    octets: &'a [u8],
) -> Result<Decision<'a>, NoMemory>
    ensures { (slices : ℕ) → IfOk result (λ decision. decision
        ≡ resolved slices book.now (packet_asked moment octets.now)) }
{
    match Ip4::read(octets) {
        Ok(ip) => {
            let packet = LentPacket {
                moment,
                way: Way::Down,
                ip,
            };
            decide_delivered(alloc, book, packet)
        }
        Err(bad) => Ok(Decision::Note(words(alloc, packet_note(bad))?)),
    }
}

// A packet for its destination.
#[tactic(auto, unfolding(crate::specs::Resolved::resolved))]
fn decide_delivered<'a>(
    alloc: Global,
    book: &AddressBook,
    packet: LentPacket<'a>,
) -> Result<Decision<'a>, NoMemory>
    ensures { (slices : ℕ) → IfOk result (λ decision. decision ≡ resolved slices book.now (delivered packet.entry)) }
{
    match addressee_in_book(book, Addr4(packet.ip.destination())) {
        Some(slot) => Ok(Decision::Packet { slot, packet }),
        None => Ok(Decision::Note(words(alloc, "sgi unknown")?)),
    }
}

fn echo_note(alloc: Global, seq: u16) -> Result<Octets, NoMemory>
    ensures { (asked : Option ℕ) → unwrap_or asked 0 ≡ seq → IfOk result (λ note. note ≡ tunnel_echo_note asked) }
{
    let reply = write(alloc, &GtpU::EchoResponse { seq })?;
    octets_note(alloc, "s1u echo", reply.as_slice())
}

fn unknown_note(alloc: Global, teid: Teid) -> Result<Octets, NoMemory>
    ensures { IfOk result (λ note. note ≡ unknown_note teid) }
{
    let reply = write(
        alloc,
        &GtpU::ErrorIndication {
            seq: 0,
            teid,
            peer: GATEWAY_ADDR,
        },
    )?;
    octets_note(alloc, "s1u unknown", reply.as_slice())
}
