//! The entries of a report, by what they answer.
ghost use Rattle.std.specs.Prelude.{◌≡◌, IfOk};

use crate::NoMemory;
use charging_book::{ChargeRow, Open};
use pc_base::{Effect, Octets, Place, Reply, Slot, Verdict};
use std::marker::Model;

/// An entry of a report. It prints as its text, with its place.
#[derive(Debug, Drop, PartialEq, Eq)]
pub enum Entry {
    Line(LineEntry),
    Effect(EffectEntry),
    Charge(ChargeEntry),
}

impl Entry {
    /// A copy that owns its octets.
    pub fn try_clone(&self) -> Result<Entry, NoMemory>
        ensures { IfOk result (λ copy. copy ≡ self.now) }
    {
        Ok(match self {
            Entry::Line(entry) => Entry::Line(entry.try_clone()?),
            Entry::Effect(entry) => Entry::Effect(entry.try_clone()?),
            Entry::Charge(entry) => Entry::Charge(*entry),
        })
    }
}

/// The answer to a line of the trace: each line has one.
#[derive(Debug, Drop, PartialEq, Eq)]
pub enum LineEntry {
    /// A note: the line is neither a command nor a packet, or is refused.
    N(Note),
    /// A command and its reply.
    C(CommandReply),
    /// A packet and its verdict.
    P(Judgement),
    /// A command or packet that found its queue full.
    F(Refusal),
}

impl LineEntry {
    /// A copy that owns its octets.
    pub fn try_clone(&self) -> Result<LineEntry, NoMemory>
        ensures { IfOk result (λ copy. copy ≡ self.now) }
    {
        Ok(match self {
            LineEntry::N(note) => LineEntry::N(note.try_clone()?),
            LineEntry::C(answer) => LineEntry::C(answer.try_clone()?),
            LineEntry::P(judgement) => LineEntry::P(judgement.try_clone()?),
            LineEntry::F(refusal) => LineEntry::F(*refusal),
        })
    }
}

/// What is charged for a slot.
#[derive(Clone, Copy, Debug, PartialEq, Eq)]
pub enum ChargeEntry {
    /// A charging record.
    R { slot: Slot, row: ChargeRow },
    /// The open counters of a bearer's life.
    O { slot: Slot, counters: Open },
}

/// A note on a line: one or more octets of printable ASCII.
#[derive(Debug, Drop, PartialEq, Eq)]
pub struct Note {
    pub line: u64,
    pub note: Octets,
}

impl Model for Note {
    ghost use Rattle.report_lines.specs.Records.{Noted, IsNote};

    ghost Value = { Noted };

    ghost view = { λ held. record { line = held.line; note = held.note } };

    ghost invariant = { λ held. IsNote held.note };

    ghost inverse = { λ noted. record { line = noted.line; note = noted.note } };
}

impl Note {
    fn try_clone(&self) -> Result<Note, NoMemory>
        ensures { IfOk result (λ copy. copy ≡ self.now) }
    {
        Ok(Note {
            line: self.line,
            note: self.note.try_clone()?,
        })
    }
}

/// The reply to the command of this number of a slot. A message has at least one octet.
#[derive(Debug, Drop, PartialEq, Eq)]
pub struct CommandReply {
    pub line: u64,
    pub slot: Slot,
    pub number: u64,
    pub reply: Reply,
}

impl Model for CommandReply {
    ghost use Rattle.report_lines.specs.Records.{Answered, KeepsReply};

    ghost Value = { Answered };

    ghost view = { λ held. record { line = held.line; slot = held.slot; number = held.number; reply = held.reply } };

    ghost invariant = { λ held. KeepsReply held.reply };

    ghost inverse = { λ told. record { line = told.line; slot = told.slot; number = told.number; reply = told.reply } };
}

impl CommandReply {
    fn try_clone(&self) -> Result<CommandReply, NoMemory>
        ensures { IfOk result (λ copy. copy ≡ self.now) }
    {
        Ok(CommandReply {
            line: self.line,
            slot: self.slot,
            number: self.number,
            reply: self.reply.try_clone()?,
        })
    }
}

/// The verdict on the packet of this number of a slot, judged behind so many of the slot's commands;
/// where it was handled, and whether it was parked, which only a packet with a place was. Octets are at
/// least one.
#[derive(Debug, Drop, PartialEq, Eq)]
pub struct Judgement {
    pub line: u64,
    pub slot: Slot,
    pub number: u64,
    pub commands: u64,
    pub verdict: Verdict,
    pub place: Option<Place>,
    pub parked: bool,
}

impl Model for Judgement {
    ghost use Rattle.report_lines.specs.Records.{PacketTold, KeepsVerdict, KeepsPlace};

    ghost Value = { PacketTold };

    ghost view = { λ held. record {
      line = held.line;
      slot = held.slot;
      number = held.number;
      commands = held.commands;
      verdict = held.verdict;
      place = held.place;
      parked = held.parked;
    } };

    ghost invariant = { λ held. KeepsVerdict held.verdict × KeepsPlace held.parked held.place };

    ghost inverse = { λ told. record {
      line = told.line;
      slot = told.slot;
      number = told.number;
      commands = told.commands;
      verdict = told.verdict;
      place = told.place;
      parked = told.parked;
    } };
}

impl Judgement {
    fn try_clone(&self) -> Result<Judgement, NoMemory>
        ensures { IfOk result (λ copy. copy ≡ self.now) }
    {
        Ok(Judgement {
            line: self.line,
            slot: self.slot,
            number: self.number,
            commands: self.commands,
            verdict: self.verdict.try_clone()?,
            place: self.place,
            parked: self.parked,
        })
    }
}

/// What found its queue full.
#[derive(Clone, Copy, Debug, PartialEq, Eq)]
pub struct Refusal {
    pub line: u64,
    pub slot: Slot,
    /// A packet, or a command.
    pub packet: bool,
}

/// What the slot's command of this number did beside its reply: an End Marker (M), or what became of a
/// packet that was held (H). Octets are at least one.
#[derive(Debug, Drop, PartialEq, Eq)]
pub struct EffectEntry {
    pub slot: Slot,
    pub command: u64,
    pub effect: Effect,
}

impl Model for EffectEntry {
    ghost use Rattle.report_lines.specs.Records.{Effected, KeepsEffect};

    ghost Value = { Effected };

    ghost view = { λ held. record { slot = held.slot; command = held.command; effect = held.effect } };

    ghost invariant = { λ held. KeepsEffect held.effect };

    ghost inverse = { λ told. record { slot = told.slot; command = told.command; effect = told.effect } };
}

impl EffectEntry {
    /// A copy that owns its octets.
    pub fn try_clone(&self) -> Result<EffectEntry, NoMemory>
        ensures { IfOk result (λ copy. copy ≡ self.now) }
    {
        Ok(EffectEntry {
            slot: self.slot,
            command: self.command,
            effect: self.effect.try_clone()?,
        })
    }
}
