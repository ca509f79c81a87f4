//! What is asked of a session.
ghost use Rattle.std.specs.Prelude.{◌≡◌, ◌↔◌, IsTrue};
ghost use Rattle.bearer_state.specs.Bearer.{IsEbi, IsSeq};
ghost use Rattle.control_steps.specs.Command.{AreRates, IsCreate, IsCommand};

use crate::NoMemory;
use bearer_state::{Asks, Qos};
use pc_base::{Kbps, Peer};
use std::marker::Model;
use tft_codec::Tft;

/// A request or an answer of the MME, or an order of the operator. Sequence numbers are below 2^24,
/// EBIs 5 to 15, rates up and down below 2^32 kbps.
#[derive(Clone, Debug, Drop)]
pub enum CommandKind {
    /// Order: attach the subscriber at this eNodeB.
    Attach {
        enb: Peer,
        up: Kbps,
        down: Kbps,
    },
    /// Create Session Request (TS 29.274, 7.2.1), of PDN type 1 to 3.
    Create {
        seq: u32,
        mme: Peer,
        pdn: u8,
        ebi: u8,
        qos: Qos,
        enb: Option<Peer>,
        up: Kbps,
        down: Kbps,
    },
    /// Modify Bearer Request (7.2.7).
    Modify {
        seq: u32,
        mme: Option<Peer>,
        asks: Asks,
    },
    /// Release Access Bearers Request (7.2.21).
    Release {
        seq: u32,
    },
    /// Delete Session Request (7.2.9).
    Delete {
        seq: u32,
    },
    /// Order: one bearer more, of this class and these rates, with the filters of a template.
    AddBearer {
        seq: u32,
        qci: u8,
        mbr_up: Kbps,
        mbr_down: Kbps,
        gbr_up: Kbps,
        gbr_down: Kbps,
        tft: Tft,
    },
    /// Order: a template for the filters of a bearer.
    Filters {
        seq: u32,
        ebi: u8,
        tft: Tft,
    },
    /// Order: a bearer goes.
    Drop {
        seq: u32,
        ebi: u8,
    },
    /// Order: other rates.
    Ambr {
        seq: u32,
        up: Kbps,
        down: Kbps,
    },
    /// Create Bearer Response (7.2.4): its cause, and EBI, cause and eNodeB of its Bearer Context.
    CreateAns {
        seq: u32,
        cause: u8,
        /// 5 to 15, or 0.
        ebi: u8,
        row_cause: u8,
        enb: Option<Peer>,
    },
    /// Update Bearer Response (7.2.16).
    UpdateAns {
        seq: u32,
    },
    /// Delete Bearer Response (7.2.10).
    DeleteAns {
        seq: u32,
    },
}

/// A command, which keeps the ranges that `IsCommand` names. A contract sees its kind.
#[derive(Debug, Drop)]
pub struct Command {
    pub kind: CommandKind,
}

impl Model for Command {
    ghost use Rattle.control_steps.specs.declared.command.CommandKind.{CommandKind};

    ghost Value = { CommandKind };

    ghost use Rattle.control_steps.specs.Command.{IsCommand};

    ghost view = { λ command. command.kind };

    ghost invariant = { λ command. IsCommand command.kind };
}

impl Command {
    ghost use Rattle.std.specs.Prelude.{◌≡◌, IfOk, IfSome, IfNone};
    ghost use Rattle.control_steps.specs.Command.{IsCommand};

    /// The command of a kind; None where a number is out of its range.
    pub fn of(kind: CommandKind) -> Option<Command>
        ensures made { IfSome result (λ command. (command ≡ kind) × IsCommand kind) }
        ensures none { IfNone result (¬ IsCommand kind) }
    {
        if is_command(&kind) {
            Some(Command { kind })
        } else {
            None
        }
    }

    /// A copy of the command.
    pub fn try_clone(&self) -> Result<Command, NoMemory>
        ensures { IfOk result (λ copy. copy ≡ self.now) }
    {
        Ok(Command {
            kind: self.kind.clone()?,
        })
    }
}

fn is_seq(seq: u32) -> bool
    ensures { IsTrue result ↔ IsSeq seq }
{
    seq < 0x100_0000
}

fn is_ebi(ebi: u8) -> bool
    ensures { IsTrue result ↔ IsEbi ebi }
{
    ebi >= 5 && ebi <= 15
}

fn are_rates(up: Kbps, down: Kbps) -> bool
    ensures { IsTrue result ↔ AreRates up down }
{
    up.0 < 0x1_0000_0000 && down.0 < 0x1_0000_0000
}

fn is_create(seq: u32, pdn: u8, ebi: u8, qos: &Qos, up: Kbps, down: Kbps) -> bool
    ensures { IsTrue result ↔ IsCreate seq pdn ebi qos.now up down }
{
    is_seq(seq) && pdn >= 1 && pdn <= 3 && is_ebi(ebi) && qos.is_in_range() && are_rates(up, down)
}

/// Whether the numbers of a command are in their ranges.
fn is_command(kind: &CommandKind) -> bool
    ensures { IsTrue result ↔ IsCommand kind.now }
{
    match kind {
        CommandKind::Attach { up, down, .. } => are_rates(*up, *down),
        CommandKind::Create {
            seq,
            pdn,
            ebi,
            qos,
            up,
            down,
            ..
        } => is_create(*seq, *pdn, *ebi, qos, *up, *down),
        CommandKind::Modify { seq, asks, .. } => {
            let _asks = asks.as_slice();
            is_seq(*seq)
        }
        CommandKind::Release { seq }
        | CommandKind::Delete { seq }
        | CommandKind::AddBearer { seq, .. }
        | CommandKind::UpdateAns { seq }
        | CommandKind::DeleteAns { seq } => is_seq(*seq),
        CommandKind::Filters { seq, ebi, .. } | CommandKind::Drop { seq, ebi } => {
            is_seq(*seq) && is_ebi(*ebi)
        }
        CommandKind::Ambr { seq, up, down } => is_seq(*seq) && are_rates(*up, *down),
        CommandKind::CreateAns { seq, ebi, .. } => is_seq(*seq) && (*ebi == 0 || is_ebi(*ebi)),
    }
}
