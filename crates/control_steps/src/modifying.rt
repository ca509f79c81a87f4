//! Modify Bearer Requests: another MME, other eNodeBs (TS 23.401, 5.3.4, 5.4.7, 5.5.1).
ghost use Rattle.std.specs.Prelude.{◌≡◌, IfOk};
ghost use Rattle.std.specs.Option.{option_or};
ghost use Rattle.bearer_state.specs.Ask.{AreAsks};
ghost use Rattle.bearer_state.specs.Bearer.{IsSeq};
ghost use Rattle.control_steps.specs.declared.command.CommandKind.TheVariants as commands;
ghost use Rattle.control_steps.specs.Answer.{Answers};
ghost use Rattle.control_steps.specs.Messages.{modify_bearer_response};
ghost use Rattle.control_steps.specs.Table.{teid_of_mme};
ghost use Rattle.control_steps.specs.Row as rows;
ghost use Rattle.control_steps.specs.Row.{first_row, all_active};
ghost use Rattle.control_steps.specs.Steps.{Does};

use crate::answer::{Answer, answer_to, cause_answer, given, teid_of_mme};
use crate::messages::modify_bearer_response;
use crate::{CONTEXT_NOT_FOUND, NoMemory};
use bearer_state::{Ask, Asks, Bearers, Session};
use gtpv2_msg::MODIFY_BEARER_REQUEST;
use pc_base::{Outcome, Peer, Reply};
use std::alloc::Global;

/// Whether each ask is for an active bearer.
fn all_active(bearers: &Bearers, asks: &[Ask]) -> bool
    ensures { result ≡ all_active bearers.now asks.now }
{
    asks.iter().all(|ask| bearers.has_active(ask.ebi))
}

/// No session, or no bearer of some EBI.
fn refuse(
    alloc: Global,
    session: &mut Session,
    seq: u32,
    mme: &Option<Peer>,
    asks: &Asks,
) -> Result<Reply, NoMemory>
    requires { IsSeq seq }
    ensures session { Does rows.no_session (commands.Modify seq mme.now asks.now) session.old session.new result }
    ensures bearer { Does rows.no_bearer (commands.Modify seq mme.now asks.now) session.old session.new result }
{
    let teid = teid_of_mme(session.mme);
    let answer = cause_answer(alloc, teid, MODIFY_BEARER_REQUEST, seq, CONTEXT_NOT_FOUND)?;
    Ok(given(session, Outcome::No, answer))
}

/// The answer to a request whose asks are all for active bearers.
fn acceptance(
    alloc: Global,
    session: &Session,
    seq: u32,
    mme: &Option<Peer>,
    asks: &[Ask],
) -> Result<Answer, NoMemory>
    requires seq { IsSeq seq }
    requires asks { AreAsks asks.now }
    ensures { IfOk result (λ answer. Answers answer MODIFY_BEARER_REQUEST seq
        (modify_bearer_response session.now.slot (teid_of_mme (option_or mme.now session.now.mme)) seq
        session.now.bearers asks.now)) }
{
    let teid = teid_of_mme(mme.or(session.mme));
    let message = modify_bearer_response(alloc, session.slot, teid, seq, &session.bearers, asks)?;
    answer_to(alloc, MODIFY_BEARER_REQUEST, seq, &message)
}

/// All asks are done, and the MME is replaced where one is given.
fn rebind(
    alloc: Global,
    session: &mut Session,
    seq: u32,
    mme: &Option<Peer>,
    asks: &Asks,
) -> Result<Reply, NoMemory>
    requires { IsSeq seq }
    ensures { Does rows.modified (commands.Modify seq mme.now asks.now) session.old session.new result }
{
    let asks = asks.as_slice();
    let answer = acceptance(alloc, session, seq, mme, asks)?;
    session.set_mme(*mme);
    session.rebind(asks);
    Ok(given(session, Outcome::Done, answer))
}

/// A Modify Bearer Request that is no repeat: all or nothing.
pub fn modify(
    alloc: Global,
    session: &mut Session,
    seq: u32,
    mme: &Option<Peer>,
    asks: &Asks,
) -> Result<Reply, NoMemory>
    requires { IsSeq seq }
    ensures { Does (first_row session.old (commands.Modify seq mme.now asks.now))
        (commands.Modify seq mme.now asks.now) session.old session.new result }
{
    if !session.live {
        refuse(alloc, session, seq, mme, asks)
    } else if !all_active(&session.bearers, asks.as_slice()) {
        refuse(alloc, session, seq, mme, asks)
    } else {
        rebind(alloc, session, seq, mme, asks)
    }
}
