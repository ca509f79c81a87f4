//! What the captured octets of a record say.
ghost use Rattle.std.specs.Prelude.{◌≡◌, ◌%◌, ◌^◌, ◌==◌, not, IfOk, if◌then◌else◌};
ghost use Rattle.std.specs.Option.{option_map};
ghost use Rattle.wire_octets.specs.Numbers.{be16_at};
ghost use Rattle.ipv4_packet.specs.Payload.{payload_of};
ghost use Rattle.trace_lines.specs.Beside.{with_octets};
ghost use Rattle.pcap_form.specs.Lent.{kind_of, said_by};
ghost use Rattle.pcap_form.specs.Packet.{frame_kind, ip_kind, is_datagram, is_ipv4_frame, is_for_user, kind_in};
ghost use Rattle.pcap_form.specs.Packet.{message_kind};
ghost use Rattle.pcap_form.specs.Packet.{message_of, packet_kind, port_of};

use crate::{CaptureHead, LentKind, NoMemory};
use ipv4_packet::{Ip4, UDP};
use pc_base::{Addr4, GATEWAY_ADDR, Octets, slot_of_addr};
use std::alloc::Global;
use trace_lines::LineKind;
use wire_octets::be16_at;

/// The port of GTPv2-C (TS 29.274, section 4.1).
pub const S11_PORT: u16 = 2123;

/// The port of GTP-U (TS 29.281, section 4.4.2).
pub const S1U_PORT: u16 = 2152;

// What stands before the packet in a frame of Ethernet, and the type of IPv4, its last two octets.
const LINK_LEN: usize = 14;

const TYPE_AT: usize = 12;

const IPV4_TYPE: u16 = 0x0800;

// What stands before the message in a datagram (RFC 768).
const UDP_LEN: usize = 8;

/// The line that the captured octets of a record are, as its kind and the octets beside it: None where they carry no
/// IPv4 packet, or one that is neither a message to the gateway nor a packet to a user's address.
pub fn import_one(
    alloc: Global,
    head: &CaptureHead,
    octets: &[u8],
) -> Result<Option<(LineKind, Octets)>, NoMemory>
    ensures { IfOk result (λ one. option_map (λ said. with_octets said.0 said.1) one
        ≡ kind_in head.now.ethernet octets.now) }
{
    match lent_kind(head, octets) {
        Some(said) => Ok(Some(owned(alloc, said)?)),
        None => Ok(None),
    }
}

fn owned(alloc: Global, said: LentKind<'_>) -> Result<(LineKind, Octets), NoMemory>
    ensures { IfOk result (λ one. with_octets one.0 one.1 ≡ kind_of said.entry) }
{
    match said {
        LentKind::S11(message) => Ok((LineKind::S11, copied(alloc, message)?)),
        LentKind::S1u(message) => Ok((LineKind::S1u, copied(alloc, message)?)),
        LentKind::Sgi(octets) => Ok((LineKind::Sgi, copied(alloc, octets)?)),
    }
}

fn copied(alloc: Global, octets: &[u8]) -> Result<Octets, NoMemory>
    ensures { IfOk result (λ copy. copy ≡ octets.now) }
{
    Ok(Octets::of(octets.to_vec(alloc)?))
}

/// The same with the octets lent, without memory.
pub fn lent_kind<'a>(head: &CaptureHead, octets: &'a [u8]) -> Option<LentKind<'a>>
    ensures { said_by result ≡ kind_in head.now.ethernet octets.now }
{
    if head.ethernet {
        frame_kind(octets)
    } else {
        ip_kind(octets)
    }
}

fn frame_kind(octets: &[u8]) -> Option<LentKind<'_>>
    ensures { said_by result ≡ frame_kind octets.now }
{
    if !is_ipv4_frame(octets) {
        return None;
    }
    ip_kind(&octets[LINK_LEN..])
}

// Whether octets are a frame whose type is IPv4.
fn is_ipv4_frame(octets: &[u8]) -> bool
    ensures { result ≡ is_ipv4_frame octets.now }
{
    octets.len() >= LINK_LEN && be16_at(octets, TYPE_AT) == IPV4_TYPE
}

#[tactic(auto, unfolding(crate::specs::Packet::ip_kind))]
fn ip_kind(octets: &[u8]) -> Option<LentKind<'_>>
    ensures { said_by result ≡ ip_kind octets.now }
{
    match Ip4::read(octets) {
        Ok(packet) => packet_kind(&packet),
        Err(_) => None,
    }
}

fn packet_kind<'a>(packet: &Ip4<'a>) -> Option<LentKind<'a>>
    ensures { said_by result ≡ packet_kind packet.now }
{
    if packet.destination() == GATEWAY_ADDR.0 {
        message_kind(packet)
    } else if is_for_user(packet) {
        Some(LentKind::Sgi(packet.octets()))
    } else {
        None
    }
}

// Whether the packet goes to a user's address.
pub(crate) fn is_for_user(packet: &Ip4<'_>) -> bool
    ensures { result ≡ is_for_user packet.now }
{
    slot_of_addr(Addr4(packet.destination())).is_some()
}

// What a packet to the gateway is: a whole datagram to a port of messages.
fn message_kind<'a>(packet: &Ip4<'a>) -> Option<LentKind<'a>>
    ensures { said_by result ≡ (if is_datagram packet.now
        then message_kind (port_of packet.now) (message_of packet.now) else None) }
{
    let payload = payload(packet);
    if packet.protocol() != UDP || is_fragment(packet) || payload.len() < UDP_LEN {
        return None;
    }
    let length = be16_at(payload, 4) as usize;
    if length <= UDP_LEN || length > payload.len() {
        return None;
    }
    by_port(be16_at(payload, 2), &payload[UDP_LEN..length])
}

// A message to this port.
fn by_port(port: u16, message: &[u8]) -> Option<LentKind<'_>>
    ensures { said_by result ≡ message_kind port message.now }
{
    match port {
        S11_PORT => Some(LentKind::S11(message)),
        S1U_PORT => Some(LentKind::S1u(message)),
        _ => None,
    }
}

// Whether more fragments follow, or the packet is a later one (RFC 791, 3.1).
fn is_fragment(packet: &Ip4<'_>) -> bool
    ensures { result ≡ not (be16_at packet.now 6 % 2 ^ 14 == 0) }
{
    be16_at(packet.octets(), 6) % 0x4000 != 0
}

// The octets behind the header.
fn payload<'a>(packet: &Ip4<'a>) -> &'a [u8]
    ensures { result.now ≡ payload_of packet.now }
{
    let octets = packet.octets();
    &octets[4 * (octets[0] % 16) as usize..]
}
