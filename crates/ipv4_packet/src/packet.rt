//! An IPv4 packet where it lies.
ghost use Rattle.std.specs.Prelude.{◌≡◌, ℕ, List, length, OnOk, IfOk, IfErr, IfSome, IsOkAnd, IsSomeAnd, nat_eq};
ghost use Rattle.std.specs.Cmp.Rules.{comparing};
ghost use Rattle.std.specs.Cmp.Lexicographic.{pointwise};
ghost use Rattle.std.proofs.Common.{rules};
ghost use Rattle.ipv4_packet.specs.Fields.{
  total_length,
  tos_of,
  fragment_offset_of,
  protocol_of,
  source_of,
  destination_of,
};
ghost use Rattle.ipv4_packet.specs.Packet.{IsPacket, Spells, packet_of};
ghost use Rattle.ipv4_packet.specs.Refusal.{first_fault};
ghost use Rattle.ipv4_packet.specs.Payload.{payload_of, begins, ports_of, spi_of};

use crate::fault::IpBad;
use crate::header::{MINIMUM_LEN, MINIMUM_WORDS, VERSION};
use crate::protocol::{AH, ESP, SCTP, TCP, UDP};
use std::fmt;
use std::marker::Model;
use wire_octets::{be16_at, be32_at};

/// One IPv4 packet, of just its total length. Contracts see it as its octets, and it prints as their
/// hexadecimal digits.
///
/// The octets (RFC 791, 3.1):
/// 0: version (4) IHL (4)   1: type of service   2-3: total length
/// 4-5: identification   6-7: flags (3) fragment offset (13)
/// 8: time to live   9: protocol   10-11: header checksum
/// 12-15: source   16-19: destination   then options up to 4 * IHL, and the payload
#[derive(Drop)]
pub struct Ip4<'a> {
    octets: &'a [u8],
}

impl<'a> Model for Ip4<'a> {
    ghost use Rattle.std.specs.Prelude.{ℕ, List};
    ghost use Rattle.ipv4_packet.specs.Packet.{IsPacket};

    ghost Value = { List ℕ };

    ghost view = { λ p. p.octets.now };

    ghost invariant = { λ p. IsPacket p.octets.now };
}

impl<'a> Ip4<'a> {
    /// The packet at the start of octets. What follows its total length is no part of it.
    #[inline(always)]
    pub fn read(bytes: &'a [u8]) -> Result<Ip4<'a>, IpBad>
        // What is read is spelled so, and what is spelled so is read.
        ensures found { IfOk result (Spells bytes.now) }
        ensures only { (packet : List ℕ) → Spells bytes.now packet → IsOkAnd result (λ lent. lent ≡ packet) }
        ensures whole { IsPacket bytes.now → IsOkAnd result (λ packet. packet ≡ bytes.now) }

        // It is the first octets, as many as the total length says.
        ensures lent { IfOk result (λ packet. packet ≡ packet_of bytes.now) }

        // What is read has no fault, a refusal is the first fault, and each fault is refused.
        ensures faultless { OnOk result (first_fault bytes.now ≡ None) }
        ensures refused { IfErr result (λ bad. first_fault bytes.now ≡ Some bad) }
        ensures fault { IfSome (first_fault bytes.now) (λ bad. result ≡ Err bad) }
    {
        if bytes.len() < MINIMUM_LEN {
            return Err(IpBad::Short);
        }
        if bytes[0] / 16 != VERSION {
            return Err(IpBad::Version);
        }
        let words = bytes[0] % 16;
        let header = 4 * words as usize;
        if words < MINIMUM_WORDS || bytes.len() < header {
            return Err(IpBad::Header);
        }
        let total = be16_at(bytes, 2) as usize;
        if total < header || bytes.len() < total {
            return Err(IpBad::Total);
        }
        Ok(Ip4 {
            octets: &bytes[..total],
        })
    }

    /// The packet that octets are, whole; None exactly where they aren't one packet, of just its length.
    pub fn whole(octets: &'a [u8]) -> Option<Ip4<'a>>
        ensures packet { IfSome result (λ ip. (ip ≡ octets.now) × IsPacket octets.now) }
        ensures found { IsPacket octets.now → IsSomeAnd result (λ ip. ip ≡ octets.now) }
    {
        match Ip4::read(octets) {
            Ok(ip) if ip.octets().len() == octets.len() => Some(ip),
            _ => None,
        }
    }

    /// The packet that octets are, of which it is known that they are one: nothing of them is looked at.
    pub fn known(octets: &'a [u8]) -> Ip4<'a>
        requires { IsPacket octets.now }
        ensures { result ≡ octets.now }
    {
        Ip4 { octets }
    }

    /// How many octets the packet has, as it says itself: its total length, 20 to 65,535.
    #[inline(always)]
    pub fn total_len(&self) -> u16
        ensures total { result ≡ total_length self.now }
        ensures len { result ≡ length self.now }
    {
        be16_at(self.octets, 2)
    }

    /// All octets of the packet, header and payload.
    #[inline(always)]
    pub fn octets(&self) -> &'a [u8]
        ensures octets { result.now ≡ self.now }
        ensures whole { IsPacket result.now }
    {
        self.octets
    }

    /// The same packet once more, where it lies.
    pub fn copied(&self) -> Ip4<'a>
        ensures { result ≡ self.now }
    {
        Ip4 {
            octets: self.octets,
        }
    }

    /// The type of service.
    pub fn tos(&self) -> u8
        ensures { result ≡ tos_of self.now }
    {
        self.octets[1]
    }

    /// Where the payload stands in its datagram, in units of eight octets: 0 to 8,191.
    pub fn fragment_offset(&self) -> u16
        ensures { result ≡ fragment_offset_of self.now }
    {
        be16_at(self.octets, 6) % 0x2000
    }

    /// The number of the protocol that the payload is of.
    pub fn protocol(&self) -> u8
        ensures { result ≡ protocol_of self.now }
    {
        self.octets[9]
    }

    /// The source address.
    #[inline(always)]
    pub fn source(&self) -> u32
        ensures { result ≡ source_of self.now }
    {
        be32_at(self.octets, 12)
    }

    /// The destination address.
    #[inline(always)]
    pub fn destination(&self) -> u32
        ensures { result ≡ destination_of self.now }
    {
        be32_at(self.octets, 16)
    }

    /// The source and the destination port of TCP, UDP or SCTP. None where the packet is of another
    /// protocol, is a later fragment, or carries fewer than four octets.
    pub fn ports(&self) -> Option<(u16, u16)>
        ensures { result ≡ ports_of self.now }
    {
        if self.begins(TCP, 4) || self.begins(UDP, 4) || self.begins(SCTP, 4) {
            let payload = self.payload();
            Some((be16_at(payload, 0), be16_at(payload, 2)))
        } else {
            None
        }
    }

    /// The security parameters index of ESP or AH. None where the packet is of another protocol, is
    /// a later fragment, or carries fewer octets than four of ESP or eight of AH.
    pub fn spi(&self) -> Option<u32>
        ensures { result ≡ spi_of self.now }
    {
        if self.begins(ESP, 4) {
            Some(be32_at(self.payload(), 0))
        } else if self.begins(AH, 8) {
            Some(be32_at(self.payload(), 4))
        } else {
            None
        }
    }

    // Whether the packet is of this protocol, and begins with at least so many octets of its header.
    fn begins(&self, protocol: u8, least: usize) -> bool
        ensures { result ≡ begins protocol least self.now }
    {
        self.protocol() == protocol && self.fragment_offset() == 0 && self.payload().len() >= least
    }

    fn payload(&self) -> &[u8]
        ensures { result.now ≡ payload_of self.now }
    {
        &self.octets[4 * (self.octets[0] % 16) as usize..]
    }
}

impl PartialEq for Ip4<'_> {
    ghost eq = { pointwise nat_eq };

    ghost laws = { Prim.search (comparing, rules) };

    fn eq(&self, other: &Self) -> bool {
        self.octets == other.octets
    }
}

impl Eq for Ip4<'_> {
    ghost laws = { Prim.search (comparing, rules) };
}

impl fmt::Debug for Ip4<'_> {
    fn fmt<W: fmt::Write>(&self, f: &mut fmt::Formatter<W>) -> fmt::Result {
        for octet in self.octets {
            write!(f, "{octet:02x}")?;
        }
        Ok(())
    }
}
