//! What is kept of a line that was taken, until the epoch closes.
ghost use Rattle.std.specs.Prelude.{◌≡◌};
ghost use Rattle.front_core.specs.Entries.{commanded_by, took_of};

use crate::Took;
use pc_base::{Octets, Slot};
use std::snapshot::Snapshot;
use trace_lines::TraceLine;

/// The entry of a line, left open for what becomes of its command or packet.
#[derive(Drop)]
pub enum OpenEntry {
    Note(Octets),
    Command(Slot),
    Packet { slot: Slot, parked: bool },
    Full { slot: Slot, packet: bool },
}

impl OpenEntry {
    /// What became of the line.
    pub(crate) fn took(&self) -> Took
        ensures { result ≡ took_of self.now }
    {
        match self {
            OpenEntry::Note(_) => Took::Answered,
            OpenEntry::Command(_) => Took::Accepted { parked: false },
            OpenEntry::Packet { parked, .. } => Took::Accepted { parked: *parked },
            OpenEntry::Full { .. } => Took::Full,
        }
    }

    /// The slot of a command or packet.
    pub(crate) fn slot(&self) -> Option<Slot> {
        match self {
            OpenEntry::Note(_) => None,
            OpenEntry::Command(slot) => Some(*slot),
            OpenEntry::Packet { slot, .. } => Some(*slot),
            OpenEntry::Full { slot, .. } => Some(*slot),
        }
    }

    /// The slot of a command that was accepted.
    pub(crate) fn commanded(&self) -> Option<Slot>
        ensures { result ≡ commanded_by self.now }
    {
        match self {
            OpenEntry::Command(slot) => Some(*slot),
            OpenEntry::Note(_) => None,
            OpenEntry::Packet { .. } => None,
            OpenEntry::Full { .. } => None,
        }
    }
}

/// A line, which clauses alone read, and its entry.
#[derive(Drop)]
pub struct Taken {
    pub line: Snapshot<TraceLine>,
    pub open: OpenEntry,
}
