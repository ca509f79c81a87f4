//! A packet of a line.
use ipv4_packet::Ip4;
use pc_base::{Moment, NoMemory, Octets, Packet, Way};
use std::alloc::Global;

/// A packet where it lies in its line, before it has a number among its subscriber's packets.
#[derive(Debug, Drop, PartialEq, Eq)]
pub struct LentPacket<'a> {
    pub moment: Moment,
    pub way: Way,
    /// One IPv4 packet, of just its total length.
    pub ip: Ip4<'a>,
}

impl LentPacket<'_> {
    ghost use Rattle.std.specs.Prelude.{◌≡◌, IfOk};
    ghost use Rattle.demux.specs.Packets.{numbered};

    /// The packet under its number, with octets of its own.
    pub fn numbered(&self, alloc: Global, number: u64) -> Result<Packet, NoMemory>
        ensures { IfOk result (λ packet. packet ≡ numbered number self.now) }
    {
        Ok(Packet {
            number,
            moment: self.moment,
            way: self.way,
            octets: Octets::of(Vec::from_slice(alloc, self.ip.octets())?),
        })
    }
}
