//! A packet that comes to a slot.
use demux::LentPacket;
use pc_base::Place;

/// An accepted packet: how many commands of its slot stand before it, from the first one ever on, and
/// where it is handled.
#[derive(Drop)]
pub struct Placed<'a> {
    pub commands: u64,
    pub place: Place,
    pub packet: LentPacket<'a>,
}
