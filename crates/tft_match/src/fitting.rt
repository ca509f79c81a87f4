//! Whether a packet fits a filter.
ghost use Rattle.std.specs.Prelude.{◌≡◌, ◌↔◌, IsTrue};
ghost use Rattle.std.specs.List.{list_all};
ghost use Rattle.tft_match.specs.Ends.{AreEnds};
ghost use Rattle.tft_match.specs.Fit.{agree_under, is_within, holds, Fits, fits};

use crate::direction::{Direction, counts_in};
use crate::ends::{PacketEnds, ends_of};
use ipv4_packet::Ip4;
use tft_codec::{Component, Filter};

/// Whether a packet of this direction fits a filter: the filter counts for the direction, and each
/// of its components holds. A filter of no components is fitted by every packet.
pub fn matches(filter: &Filter, packet: &Ip4<'_>, direction: Direction) -> bool
    ensures fits { IsTrue result ↔ Fits direction packet.now filter.now }
    ensures tested { result ≡ fits direction packet.now filter.now }
{
    fits(filter, packet, &ends_of(packet, direction))
}

/// The same, where the ends of the packet are found.
pub(crate) fn fits(filter: &Filter, packet: &Ip4<'_>, ends: &PacketEnds) -> bool
    requires { AreEnds packet.now ends.now }
    ensures { result ≡ fits ends.now.direction packet.now filter.now }
{
    counts_in(ends.direction, filter.direction)
        && all_hold(filter.components.as_slice(), packet, ends)
}

fn all_hold(components: &[Component], packet: &Ip4<'_>, ends: &PacketEnds) -> bool
    requires { AreEnds packet.now ends.now }
    ensures { result ≡ list_all (holds ends.now.direction packet.now) components.now }
{
    components
        .iter()
        .all(|component| holds(component, packet, ends))
}

/// Whether a packet with these ends meets a component (TS 24.008, section 10.5.6.12).
pub fn holds(component: &Component, packet: &Ip4<'_>, ends: &PacketEnds) -> bool
    requires { AreEnds packet.now ends.now }
    ensures { result ≡ holds ends.now.direction packet.now component.now }
{
    match component {
        Component::RemoteAddr(address, mask) => agree_under(*mask, *address, ends.remote_address),
        Component::LocalAddr(address, mask) => agree_under(*mask, *address, ends.local_address),
        Component::Protocol(number) => packet.protocol() == *number,
        Component::LocalPort(port) => ends.local_port == Some(*port),
        Component::LocalRange(low, high) => is_within(*low, *high, ends.local_port),
        Component::RemotePort(port) => ends.remote_port == Some(*port),
        Component::RemoteRange(low, high) => is_within(*low, *high, ends.remote_port),
        Component::Spi(index) => packet.spi() == Some(*index),
        Component::Tos(value, mask) => *value & *mask == packet.tos() & *mask,
    }
}

/// Whether two addresses have the same bits where the mask has ones.
fn agree_under(mask: u32, wanted: u32, address: u32) -> bool
    ensures { result ≡ agree_under mask wanted address }
{
    wanted & mask == address & mask
}

/// Whether there is a port, from the lowest to the highest of a range.
fn is_within(low: u16, high: u16, found: Option<u16>) -> bool
    ensures { result ≡ is_within low high found }
{
    match found {
        Some(port) => low <= port && port <= high,
        None => false,
    }
}
