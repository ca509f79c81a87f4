//! The record that a line gives.
ghost use Rattle.std.specs.Prelude.{◌≡◌, ◌+◌, ◌++◌, ◌&&◌, ◌≤◌, length, IfOk, OnOk, OnErr};
ghost use Rattle.pcap_form.specs.Export.{captured, framed, is_packet, message_in, message_max, packet_in, record_head};
ghost use Rattle.pcap_form.specs.Export.{record_of, wrapped, wrapped_head};
ghost use Rattle.pcap_form.specs.Packet.{is_for_user};

use crate::NoMemory;
use crate::record_line::{S1U_PORT, S11_PORT, is_for_user};
use ipv4_packet::{Ip4, UDP};
use pc_base::{Moment, Octets};
use std::alloc::Global;
use text_fields::Text;
use trace_lines::{LineKind, TraceLine};
use wire_octets::{be16_octets, be32_octets};

/// The header of each capture that is written: network byte order, microseconds, version 2.4, a
/// snapshot length of 262,144, packets without a link header.
pub const HEADER: [u8; 24] = [
    0xa1, 0xb2, 0xc3, 0xd4, 0, 2, 0, 4, 0, 0, 0, 0, 0, 0, 0, 0, 0, 4, 0, 0, 0, 0, 0, 0x65,
];

/// The most octets of a message that go into one packet.
pub const MESSAGE_MAX: usize = 65_507;

/// The captured octets of a line's record, without the record's head: None where the line isn't
/// kept. Kept are messages of at most 65,507 octets, wrapped in IPv4 and UDP, and packets to a
/// user's address that are of just their total length.
pub fn export_one(alloc: Global, line: &TraceLine) -> Result<Option<Octets>, NoMemory>
    ensures { IfOk result (λ one. one ≡ captured line.now.kind) }
{
    match &line.kind {
        LineKind::S11 => message_in(alloc, S11_PORT, line.octets.as_slice()),
        LineKind::S1u => message_in(alloc, S1U_PORT, line.octets.as_slice()),
        LineKind::Sgi => packet_in(alloc, line.octets.as_slice()),
        _ => Ok(None),
    }
}

fn message_in(alloc: Global, port: u16, message: &[u8]) -> Result<Option<Octets>, NoMemory>
    ensures { IfOk result (λ one. one ≡ message_in port message.now) }
{
    if message.len() > MESSAGE_MAX {
        return Ok(None);
    }
    let mut out = Vec::new(alloc);
    push_wrapped(&mut out, port, message)?;
    Ok(Some(Octets::of(out)))
}

fn packet_in(alloc: Global, octets: &[u8]) -> Result<Option<Octets>, NoMemory>
    ensures { IfOk result (λ one. one ≡ packet_in octets.now) }
{
    if !is_kept(octets) {
        return Ok(None);
    }
    Ok(Some(Octets::of(octets.to_vec(alloc)?)))
}

/// Appends the record of a line, if the line is kept: its head with the line's moment, and the
/// captured octets. Where memory runs out, nothing is.
pub fn push_record(out: &mut Text, line: &TraceLine) -> Result<(), NoMemory>
    ensures appended { OnOk result (out.new ≡ out.old ++ record_of line.now) }
    ensures kept { OnErr result (out.new ≡ out.old) }
{
    match &line.kind {
        LineKind::S11 => push_message(out, line.moment, S11_PORT, line.octets.as_slice()),
        LineKind::S1u => push_message(out, line.moment, S1U_PORT, line.octets.as_slice()),
        LineKind::Sgi => push_packet(out, line.moment, line.octets.as_slice()),
        _ => Ok(()),
    }
}

fn push_message(out: &mut Text, moment: Moment, port: u16, message: &[u8]) -> Result<(), NoMemory>
    ensures appended { OnOk result (out.new ≡ out.old ++ framed moment (message_in port message.now)) }
    ensures kept { OnErr result (out.new ≡ out.old) }
{
    if message.len() > MESSAGE_MAX {
        return Ok(());
    }
    out.push_parts(&message_head(moment, port, message.len() as u16), message)
}

// The head of a message's record, and the headers of the packet that it is put in.
fn message_head(moment: Moment, port: u16, len: u16) -> [u8; 44]
    requires { len ≤ message_max }
    ensures { result ≡ record_head moment (28 + len) ++ wrapped_head port len }
{
    let mut head = [0; 44];
    head[..16].copy_from_slice(&record_head(moment, 28 + u32::from(len)));
    head[16..].copy_from_slice(&wrapped_head(port, len));
    head
}

fn push_packet(out: &mut Text, moment: Moment, octets: &[u8]) -> Result<(), NoMemory>
    ensures appended { OnOk result (out.new ≡ out.old ++ framed moment (packet_in octets.now)) }
    ensures kept { OnErr result (out.new ≡ out.old) }
{
    if !is_kept(octets) {
        return Ok(());
    }
    out.push_parts(&record_head(moment, octets.len() as u32), octets)
}

// Whether octets are a packet of just its total length, to a user's address.
fn is_kept(octets: &[u8]) -> bool
    ensures { result ≡ (is_packet octets.now && is_for_user octets.now) }
{
    match Ip4::read(octets) {
        Ok(packet) => packet.octets().len() == octets.len() && is_for_user(&packet),
        Err(_) => false,
    }
}

// A record's head, for so many octets.
#[tactic(auto, unfolding(crate::specs::Export::record_head))]
fn record_head(moment: Moment, len: u32) -> [u8; 16]
    ensures { result ≡ record_head moment len }
{
    let [s0, s1, s2, s3] = be32_octets((moment.0 / 1_000_000) as u32);
    let [m0, m1, m2, m3] = be32_octets((moment.0 % 1_000_000) as u32);
    let [n0, n1, n2, n3] = be32_octets(len);
    [
        s0, s1, s2, s3, m0, m1, m2, m3, n0, n1, n2, n3, n0, n1, n2, n3,
    ]
}

// A message in a packet.
fn push_wrapped(out: &mut Vec<u8>, port: u16, message: &[u8]) -> Result<(), NoMemory>
    requires { length message.now ≤ message_max }
    ensures { OnOk result (out.new.items ≡ out.old.items ++ wrapped port message.now) }
{
    out.extend_from_slice(&wrapped_head(port, message.len() as u16))?;
    out.extend_from_slice(message)?;
    Ok(())
}

// The headers of IPv4 (RFC 791, 3.1) and UDP (RFC 768) in front of so many octets: from 192.0.2.2
// to 192.0.2.1, a time to live of 64, one port for both ends, no checksums.
#[tactic(auto, unfolding(crate::specs::Export::wrapped_head))]
fn wrapped_head(port: u16, len: u16) -> [u8; 28]
    requires { len ≤ message_max }
    ensures { result ≡ wrapped_head port len }
{
    let [total_high, total_low] = be16_octets(28 + len);
    let [port_high, port_low] = be16_octets(port);
    let [len_high, len_low] = be16_octets(8 + len);
    [
        0x45, 0, total_high, total_low, 0, 0, 0, 0, 0x40, UDP, 0, 0, 192, 0, 2, 2, 192, 0, 2, 1,
        port_high, port_low, port_high, port_low, len_high, len_low, 0, 0,
    ]
}
