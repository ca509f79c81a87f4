//! What lines mean, kept until their epoch is judged: a packet's octets stand behind those of the others.

ghost use Rattle.std.specs.Prelude.{◌≡◌, IfOk};
ghost use Rattle.audit_core.specs.Kept.{Keeps};

use crate::NoMemory;
use demux::Meant;
use pc_base::Octets;
use slot_execution::{KeptMeaning, place_packet};
use std::alloc::Global;

/// What a line means, kept: a packet's octets are put behind those before.
pub(crate) fn keep(
    alloc: Global,
    octets: &mut Vec<u8>,
    meant: Meant<'_>,
) -> Result<KeptMeaning, NoMemory>
    ensures { IfOk result (Keeps octets.old.items octets.new.items meant.entry) }
{
    match meant {
        Meant::Packet { slot, packet } => Ok(KeptMeaning::Packet {
            slot,
            packet: place_packet(octets, &packet)?,
        }),
        Meant::Command { slot, command } => Ok(KeptMeaning::Command {
            slot,
            command: Box::new(alloc, command)?,
        }),
        Meant::Move { slot, slice, text } => Ok(KeptMeaning::Move {
            slot,
            slice,
            text: without_room(&text)?,
        }),
        Meant::Note(text) => Ok(KeptMeaning::Note(without_room(&text)?)),
    }
}

// A note is made with room for more, which isn't kept.
fn without_room(text: &Octets) -> Result<Octets, NoMemory>
    ensures { IfOk result (λ own. own ≡ text.now) }
{
    text.try_clone()
}
