//! What a line means, kept until its slot's commands and packets are done: a packet's octets stand behind those of the
//! others.
ghost use Rattle.std.specs.Prelude.{◌≡◌, IfOk};
ghost use Rattle.slot_execution.specs.Kept.{IsPlacedPacket, Places, packet_in};

use control_steps::Command;
use demux::LentPacket;
use ipv4_packet::Ip4;
use pc_base::{Moment, Octets, SliceNo, Slot, Way};
use std::alloc::AllocError;

/// A packet whose octets stand from one place to before another.
#[derive(Clone, Copy)]
pub struct KeptPacket {
    pub moment: Moment,
    pub way: Way,
    pub from: usize,
    pub to: usize,
}

/// A command or packet of a slot, an order that it moves to a slice, with its note, or a note alone.
#[derive(Drop)]
pub enum KeptMeaning {
    Command {
        slot: Slot,
        command: Box<Command>,
    },
    Packet {
        slot: Slot,
        packet: KeptPacket,
    },
    Move {
        slot: Slot,
        slice: SliceNo,
        text: Octets,
    },
    Note(Octets),
}

/// Puts the octets of a packet behind those before.
pub fn place_packet(octets: &mut Vec<u8>, packet: &LentPacket<'_>) -> Result<KeptPacket, AllocError>
    ensures { IfOk result (Places octets.old.items octets.new.items packet.now) }
{
    let from = octets.len();
    octets.extend_from_slice(packet.ip.octets())?;
    Ok(KeptPacket {
        moment: packet.moment,
        way: packet.way,
        from,
        to: octets.len(),
    })
}

/// The packet where it stands.
pub fn packet_at<'a>(octets: &'a [u8], packet: &KeptPacket) -> LentPacket<'a>
    requires { IsPlacedPacket octets.now packet.now }
    ensures { result ≡ packet_in octets.now packet.now }
{
    LentPacket {
        moment: packet.moment,
        way: packet.way,
        ip: Ip4::known(&octets[packet.from..packet.to]),
    }
}
