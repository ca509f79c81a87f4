//! A subscriber becomes idle (TS 23.401, 5.3.5), or detaches (5.3.8).
ghost use Rattle.bearer_state.specs.Bearer.{IsSeq};
ghost use Rattle.control_steps.specs.declared.command.CommandKind.TheVariants as commands;
ghost use Rattle.control_steps.specs.Row.{first_row};
ghost use Rattle.control_steps.specs.Steps.{Does};

use crate::answer::{cause_answer, given, teid_of_mme};
use crate::{CONTEXT_NOT_FOUND, NoMemory, REQUEST_ACCEPTED};
use bearer_state::Session;
use gtpv2_msg::{DELETE_SESSION_REQUEST, RELEASE_ACCESS_BEARERS_REQUEST};
use pc_base::{Outcome, Reply};
use std::alloc::Global;

/// A Release Access Bearers Request that is no repeat.
pub fn release(alloc: Global, session: &mut Session, seq: u32) -> Result<Reply, NoMemory>
    requires { IsSeq seq }
    ensures { Does (first_row session.old (commands.Release seq))
        (commands.Release seq) session.old session.new result }
{
    let kind = RELEASE_ACCESS_BEARERS_REQUEST;
    let teid = teid_of_mme(session.mme);
    if !session.live {
        let answer = cause_answer(alloc, teid, kind, seq, CONTEXT_NOT_FOUND)?;
        return Ok(given(session, Outcome::No, answer));
    }
    let answer = cause_answer(alloc, teid, kind, seq, REQUEST_ACCEPTED)?;
    session.release();
    Ok(given(session, Outcome::Done, answer))
}

/// A Delete Session Request that is no repeat.
pub fn delete(alloc: Global, session: &mut Session, seq: u32) -> Result<Reply, NoMemory>
    requires { IsSeq seq }
    ensures { Does (first_row session.old (commands.Delete seq)) (commands.Delete seq) session.old session.new result }
{
    let kind = DELETE_SESSION_REQUEST;
    let teid = teid_of_mme(session.mme);
    if !session.live {
        let answer = cause_answer(alloc, teid, kind, seq, CONTEXT_NOT_FOUND)?;
        return Ok(given(session, Outcome::No, answer));
    }
    let answer = cause_answer(alloc, teid, kind, seq, REQUEST_ACCEPTED)?;
    session.detach();
    Ok(given(session, Outcome::Done, answer))
}
