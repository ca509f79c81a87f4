//! The lines of an epoch with their entries.

ghost use Rattle.std.specs.Prelude.{◌≡◌, ℕ, List};
ghost use Rattle.slot_execution.specs.Kept.{meaning_in};
ghost use Rattle.audit_core.specs.Meant.{slot_in};

use control_steps::Command;
use demux::LentPacket;
use pc_base::Slot;
use report_lines::LineEntry;
use slot_execution::{KeptMeaning, packet_at};

/// What a line means, where the octets of packets stand, and its entry.
#[derive(Clone, Copy)]
pub struct ToldLine<'a> {
    pub meant: &'a KeptMeaning,
    pub octets: &'a [u8],
    pub entry: &'a LineEntry,
}

/// The slot that a line is about.
pub(crate) fn slot_meant(meant: &KeptMeaning) -> Option<Slot>
    ensures { (octets : List ℕ) → result ≡ slot_in (meaning_in octets meant.now) }
{
    match meant {
        KeptMeaning::Command { slot, .. } => Some(*slot),
        KeptMeaning::Packet { slot, .. } => Some(*slot),
        KeptMeaning::Move { slot, .. } => Some(*slot),
        KeptMeaning::Note(_) => None,
    }
}

impl<'a> ToldLine<'a> {
    ghost use Rattle.std.specs.Prelude.{◌≡◌, option_copied};
    ghost use Rattle.lawful_run.specs.Accepted.{is_refused};
    ghost use Rattle.audit_core.specs.Meant.{StandsTold, line_told, slot_in, is_move, command_taken, packet_taken};

    /// The slot that the line is about.
    pub fn slot(&self) -> Option<Slot>
        ensures { result ≡ slot_in (line_told self.now).meaning }
    {
        slot_meant(self.meant)
    }

    /// Whether the entry refuses its line.
    pub fn is_refused(&self) -> bool
        ensures { result ≡ is_refused (line_told self.now).entry }
    {
        matches!(self.entry, LineEntry::F(_))
    }

    /// The command of an accepted line.
    pub fn command(&self) -> Option<&'a Command>
        ensures { option_copied result ≡ command_taken (line_told self.now) }
    {
        if self.is_refused() {
            return None;
        }
        match self.meant {
            KeptMeaning::Command { command, .. } => Some(&**command),
            _ => None,
        }
    }

    /// The packet of an accepted line.
    pub fn packet(&self) -> Option<LentPacket<'a>>
        requires { StandsTold self.now }
        ensures { result ≡ packet_taken (line_told self.now) }
    {
        if self.is_refused() {
            return None;
        }
        match self.meant {
            KeptMeaning::Packet { packet, .. } => Some(packet_at(self.octets, packet)),
            _ => None,
        }
    }

    /// Whether the line moves its slot.
    pub fn moves(&self) -> bool
        ensures { result ≡ is_move (line_told self.now).meaning }
    {
        matches!(self.meant, KeptMeaning::Move { .. })
    }
}
