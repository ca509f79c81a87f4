//! One command after another.
ghost use Rattle.std.specs.Prelude.{◌≡◌, true, false, Some, OnOk, OnErr, IfOk, IfErr, IfSome, IfNone};
ghost use Rattle.bearer_state.specs.Session.{HasRoom};
ghost use Rattle.control_steps.specs.Command.{IsCommand, request_of};
ghost use Rattle.control_steps.specs.Row.{first_row, is_repeat, row_of, takes_memory};
ghost use Rattle.control_steps.specs.Steps.{Does};
ghost use Rattle.control_steps.specs.Table.{controlled, kept_reply};

use crate::answer::silent;
use crate::asking::{BearerTerms, add_bearer};
use crate::creating::{Creation, attach, create};
use crate::ending::{delete, release};
use crate::granting::settle;
use crate::modifying::modify;
use crate::ordering::{drop_bearer, refilter, rerate};
use crate::{Command, CommandKind, NoMemory};
use bearer_state::Session;
use gtpv2_msg::{
    CREATE_SESSION_REQUEST, DELETE_SESSION_REQUEST, MODIFY_BEARER_REQUEST,
    RELEASE_ACCESS_BEARERS_REQUEST,
};
use pc_base::{Octets, Outcome, Reply};
use std::alloc::Global;

/// The type and the sequence number of a request.
fn request_of(command: &CommandKind) -> Option<(u8, u32)>
    ensures { result ≡ request_of command.now }
{
    match command {
        CommandKind::Create { seq, .. } => Some((CREATE_SESSION_REQUEST, *seq)),
        CommandKind::Modify { seq, .. } => Some((MODIFY_BEARER_REQUEST, *seq)),
        CommandKind::Release { seq } => Some((RELEASE_ACCESS_BEARERS_REQUEST, *seq)),
        CommandKind::Delete { seq } => Some((DELETE_SESSION_REQUEST, *seq)),
        _ => None,
    }
}

/// The kept answer, where the command is a repeat of its request.
fn kept_answer<'a>(session: &'a Session, command: &CommandKind) -> Option<&'a Octets>
    ensures again { IfSome result (λ reply. is_repeat session.now command.now ≡ true) }
    ensures kept { IfSome result (λ reply. kept_reply session.now.last ≡ Some reply.now) }
    ensures first { IfNone result (is_repeat session.now command.now ≡ false) }
{
    let Some(kept) = &session.last else {
        return None;
    };
    let Some((kind, seq)) = request_of(command) else {
        return None;
    };
    if kept.kind == kind && kept.seq == seq {
        Some(&kept.reply)
    } else {
        None
    }
}

/// A command that is no repeat.
fn first_step(
    alloc: Global,
    session: &mut Session,
    command: &CommandKind,
) -> Result<Reply, NoMemory>
    requires valid { IsCommand command.now }
    requires room { HasRoom session.old }
    ensures { Does (first_row session.old command.now) command.now session.old session.new result }
{
    match command {
        CommandKind::Attach { enb, up, down } => attach(session, *enb, *up, *down),
        CommandKind::Create {
            seq,
            mme,
            pdn,
            ebi,
            qos,
            enb,
            up,
            down,
        } => {
            let asked = Creation {
                seq: *seq,
                mme: *mme,
                pdn: *pdn,
                ebi: *ebi,
                qos: *qos,
                enb: *enb,
                up: *up,
                down: *down,
            };
            create(alloc, session, &asked)
        }
        CommandKind::Modify { seq, mme, asks } => modify(alloc, session, *seq, mme, asks),
        CommandKind::Release { seq } => release(alloc, session, *seq),
        CommandKind::Delete { seq } => delete(alloc, session, *seq),
        CommandKind::AddBearer {
            seq,
            qci,
            mbr_up,
            mbr_down,
            gbr_up,
            gbr_down,
            tft,
        } => {
            let asked = BearerTerms {
                seq: *seq,
                qci: *qci,
                mbr_up: *mbr_up,
                mbr_down: *mbr_down,
                gbr_up: *gbr_up,
                gbr_down: *gbr_down,
            };
            add_bearer(alloc, session, &asked, tft)
        }
        CommandKind::Filters { seq, ebi, tft } => refilter(alloc, session, *seq, *ebi, tft),
        CommandKind::Drop { seq, ebi } => drop_bearer(alloc, session, *seq, *ebi),
        CommandKind::Ambr { seq, up, down } => rerate(alloc, session, *seq, *up, *down),
        CommandKind::CreateAns {
            seq,
            cause,
            ebi,
            row_cause,
            enb,
        } => Ok(settle(session, *seq, *cause, *ebi, *row_cause, *enb)),
        CommandKind::UpdateAns { .. } | CommandKind::DeleteAns { .. } => {
            Ok(silent(Outcome::Done))
        }
    }
}

/// Does a command, by the control table. Where memory runs out, the session is as it was.
pub fn step(alloc: Global, session: &mut Session, command: &Command) -> Result<Reply, NoMemory>
    requires { HasRoom session.old }

    // What the table says, of the session and of the reply.
    ensures session { OnOk result (session.new ≡ (controlled session.old command.now).0) }
    ensures reply { IfOk result (λ reply. reply ≡ (controlled session.old command.now).1) }

    // A refused order and an answer of the MME take no memory.
    ensures unchanged { OnErr result (session.new ≡ session.old) }
    ensures memory { IfErr result (λ no_memory. takes_memory (row_of session.old command.now) ≡ true) }
{
    if let Some(reply) = kept_answer(session, &command.kind) {
        return Ok(Reply {
            outcome: Outcome::Again,
            message: Some(reply.try_clone()?),
        });
    }
    first_step(alloc, session, &command.kind)
}
