//! What a packet has at its remote and at its local end, found once for all filters.
ghost use Rattle.std.specs.Prelude.{◌≡◌};
ghost use Rattle.tft_match.specs.Ends.{AreEnds};

use crate::direction::Direction;
use ipv4_packet::Ip4;

/// Where a packet goes, and its addresses and ports by that; it may have no ports. Remote is the far end, local the
/// user (TS 24.008, section 10.5.6.12).
#[derive(Drop)]
pub struct PacketEnds {
    pub direction: Direction,
    pub remote_address: u32,
    pub local_address: u32,
    pub remote_port: Option<u16>,
    pub local_port: Option<u16>,
}

/// The ends of a packet: a downlink packet comes from the far end, and an uplink packet goes there.
pub fn ends_of(packet: &Ip4<'_>, direction: Direction) -> PacketEnds
    ensures ends { AreEnds packet.now result }
    ensures direction { result.direction ≡ direction }
{
    let (source_port, destination_port) = match packet.ports() {
        Some((source, destination)) => (Some(source), Some(destination)),
        None => (None, None),
    };
    match direction {
        Direction::Down => PacketEnds {
            direction,
            remote_address: packet.source(),
            local_address: packet.destination(),
            remote_port: source_port,
            local_port: destination_port,
        },
        Direction::Up => PacketEnds {
            direction,
            remote_address: packet.destination(),
            local_address: packet.source(),
            remote_port: destination_port,
            local_port: source_port,
        },
    }
}
