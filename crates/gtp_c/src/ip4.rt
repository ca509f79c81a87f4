//! IPv4.
ghost use Rattle.std.specs.Prelude.{◌≡◌, ◌==◌, if◌then◌else◌, Some, None, IfSome, IfOk, IfErr, OnOk, MatchOption};
ghost use Rattle.ipv4_packet.specs.Packet.{packet_of};
ghost use Rattle.ipv4_packet.specs.Refusal.{first_fault};
ghost use Rattle.ipv4_packet.specs.Payload.{ports_of, spi_of};
ghost use Rattle.gtp_c.specs.Ip4.{Says, code_of, bad_number};

use gtp_c_base::code::{HEADER, SHORT, TOTAL, VERSION};
use ipv4_packet::{Ip4, IpBad, MINIMUM_LEN};
use wire_octets::be16_at;

/// Octet 1 of a packet without options: version 4, and a header of five words.
const WITHOUT_OPTIONS: u8 = 0x45;

/// The fields of a packet. The ports count where `has_ports` is 1, `spi` where `has_spi` is 1.
#[repr(C)]
#[derive(Clone, Copy, Drop)]
pub struct Ip4Head {
    pub source: u32,
    pub destination: u32,
    pub spi: u32,
    pub source_port: u16,
    pub destination_port: u16,
    pub total_len: u16,
    pub fragment_offset: u16,
    pub protocol: u8,
    pub tos: u8,
    pub has_ports: u8,
    pub has_spi: u8,
}

/// The packet at the start of octets, where it has no options, as packets commonly come in; None of all else.
#[inline]
#[tactic(auto, using(crate::proofs::HeadLemmas::plain_faultless))]
fn plain_packet(bytes: &[u8]) -> Option<Ip4<'_>>
    ensures faultless { IfSome result (λ _. first_fault bytes.now ≡ None) }
    ensures packet { IfSome result (λ packet. packet ≡ packet_of bytes.now) }
{
    if bytes.len() < MINIMUM_LEN || bytes[0] != WITHOUT_OPTIONS {
        return None;
    }
    let total = be16_at(bytes, 2) as usize;
    if total < MINIMUM_LEN || bytes.len() < total {
        return None;
    }
    Some(Ip4::known(&bytes[..total]))
}

/// The packet at the start of octets: one without options wants fewer tests than all that a header may have.
#[inline]
pub(crate) fn packet_at(bytes: &[u8]) -> Result<Ip4<'_>, IpBad>
    ensures packet { IfOk result (λ packet. packet ≡ packet_of bytes.now) }
    ensures faultless { OnOk result (first_fault bytes.now ≡ None) }
    ensures refused { IfErr result (λ bad. first_fault bytes.now ≡ Some bad) }
{
    match plain_packet(bytes) {
        Some(packet) => Ok(packet),
        None => Ip4::read(bytes),
    }
}

pub(crate) fn bad_number(bad: IpBad) -> u32
    ensures { result ≡ bad_number bad }
{
    match bad {
        IpBad::Short => SHORT,
        IpBad::Version => VERSION,
        IpBad::Header => HEADER,
        IpBad::Total => TOTAL,
    }
}

fn port_numbers(ports: Option<(u16, u16)>) -> (u8, u16, u16)
    ensures { ports ≡ (if result.0 == 0 then None else Some (result.1, result.2)) }
{
    match ports {
        Some((source, destination)) => (1, source, destination),
        None => (0, 0, 0),
    }
}

fn spi_numbers(spi: Option<u32>) -> (u8, u32)
    ensures { spi ≡ (if result.0 == 0 then None else Some result.1) }
{
    match spi {
        Some(spi) => (1, spi),
        None => (0, 0),
    }
}

/// The SPI of a packet with these ports: where there are any, it isn't looked for.
#[tactic(auto, using(crate::proofs::HeadLemmas::no_spi))]
fn spi_beside(packet: &Ip4<'_>, ports: Option<(u16, u16)>) -> Option<u32>
    requires { ports ≡ ports_of packet.now }
    ensures { result ≡ spi_of packet.now }
{
    match ports {
        Some(_) => None,
        None => packet.spi(),
    }
}

/// The fields of the packet at the start of some octets (RFC 791, section 3.1).
#[unsafe(no_mangle)]
pub extern "C" fn gtp_c_ip4_read(bytes: &[u8], head: &mut Ip4Head) -> u32
    ensures code { result ≡ code_of (first_fault bytes.now) }
    ensures packet { MatchOption (first_fault bytes.now) (Says head.new (packet_of bytes.now))
        (λ _. head.new ≡ head.old) }
{
    match packet_at(bytes) {
        Err(bad) => bad_number(bad),
        Ok(packet) => {
            let ports = packet.ports();
            let (has_spi, spi) = spi_numbers(spi_beside(&packet, ports));
            let (has_ports, source_port, destination_port) = port_numbers(ports);
            *head = Ip4Head {
                source: packet.source(),
                destination: packet.destination(),
                spi,
                source_port,
                destination_port,
                total_len: packet.total_len(),
                fragment_offset: packet.fragment_offset(),
                protocol: packet.protocol(),
                tos: packet.tos(),
                has_ports,
                has_spi,
            };
            0
        }
    }
}
