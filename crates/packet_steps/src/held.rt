//! A packet that waits for its bearer's eNodeB.
ghost use Rattle.std.specs.Prelude.{◌≡◌, IfOk};

use crate::NoMemory;
use pc_base::Packet;
use std::alloc::Global;
use std::marker::Model;

/// A downlink packet that is held, of fewer than 2^16 octets, and the life of the bearer that it waits for.
#[derive(Debug, Drop)]
pub struct HeldPacket {
    pub packet: Packet,
    pub life: u64,
}

impl Model for HeldPacket {
    ghost use Rattle.std.specs.Prelude.{◌<◌, ◌^◌, length};
    ghost use Rattle.packet_steps.specs.Rows.{HeldRow};

    ghost Value = { HeldRow };

    ghost view = { λ held. record { packet = held.packet; life = held.life } };

    ghost invariant = { λ held. length held.packet.octets < 2 ^ 16 };
}

impl HeldPacket {
    /// A copy of the packet.
    pub fn try_clone(&self) -> Result<HeldPacket, NoMemory>
        ensures { IfOk result (λ copy. copy ≡ self.now) }
    {
        Ok(HeldPacket {
            packet: self.packet.try_clone()?,
            life: self.life,
        })
    }
}

/// Copies of packets that are held.
pub fn copies_of(alloc: Global, held: &[HeldPacket]) -> Result<Vec<HeldPacket>, NoMemory>
    ensures { IfOk result (λ copies. copies.items ≡ held.now) }
{
    let mut copies = Vec::new(alloc);
    for row in held {
        copies.push(row.try_clone()?)?;
    }
    Ok(copies)
}
