//! Laws of the table, each the contract of a function that does nothing but look at ranges.
ghost use Rattle.std.specs.Prelude.{◌<◌, ◌^◌, IfSome};
ghost use Rattle.control_steps.specs.ReadBack.{HasTeid, HasNumbers, HasOwnNumbers, ReadsBack};
ghost use Rattle.control_steps.specs.Rise.{CountsRise};
ghost use Rattle.control_steps.specs.Row.{row_of};
ghost use Rattle.control_steps.specs.Table.{written};

use crate::{Command, CommandKind};
use bearer_state::Session;
use gtpv2_msg::messages_read_back;
use pc_base::{Kbps, Peer};

/// A command raises the counts of lives and of rates by one at most, and lowers none.
pub fn counts_rise_by_one()
    ensures { CountsRise }
{}

/// What is written for a command reads back as the message that it is, with any octets behind it: it
/// has the elements which its type asks for.
pub fn written_messages_read_back(session: &Session, command: &Command)
    ensures { IfSome (written (row_of session.now command.now) session.now command.now) ReadsBack }
{
    session.known();
    numbers(session);
    own_numbers(&command.kind);
    messages_read_back();
}

fn teid(peer: &Peer)
    ensures { HasTeid peer.now }
{
    let _teid = peer.teid.0;
}

/// The slot and the MME of a session are in range.
fn numbers(session: &Session)
    ensures { HasNumbers session.now }
{
    let _slot = session.slot.0;
    if let Some(mme) = &session.mme {
        teid(mme);
    }
}

fn rate(kbps: &Kbps)
    ensures { kbps.now < 2 ^ 40 }
{
    let _kbps = kbps.0;
}

/// The numbers that a command has of its own are in range.
fn own_numbers(kind: &CommandKind)
    ensures { HasOwnNumbers kind.now }
{
    match kind {
        CommandKind::Create { mme, .. } => teid(mme),
        CommandKind::Modify { mme, .. } => {
            if let Some(mme) = mme {
                teid(mme);
            }
        }
        CommandKind::AddBearer {
            qci,
            mbr_up,
            mbr_down,
            gbr_up,
            gbr_down,
            tft,
            ..
        } => {
            let _qci = *qci;
            rate(mbr_up);
            rate(mbr_down);
            rate(gbr_up);
            rate(gbr_down);
            tft.known();
        }
        CommandKind::Filters { tft, .. } => tft.known(),
        _ => {}
    }
}
