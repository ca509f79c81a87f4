//! Create Bearer Responses: a bearer that was asked for becomes active, or goes (TS 23.401, 5.4.1).
ghost use Rattle.control_steps.specs.Granting.{response};
ghost use Rattle.control_steps.specs.Row.{first_row};
ghost use Rattle.control_steps.specs.Steps.{IsDone};

use crate::answer::silent;
use crate::{CommandKind, REQUEST_ACCEPTED};
use bearer_state::Session;
use pc_base::{Outcome, Peer, Reply};

/// What a Create Bearer Response says: its cause, and the EBI, cause and eNodeB of its Bearer Context.
#[derive(Clone, Copy, Debug)]
struct Response {
    seq: u32,
    cause: u8,
    ebi: u8,
    row_cause: u8,
    enb: Option<Peer>,
}

/// A Create Bearer Response of these fields. Takes no memory.
pub fn settle(
    session: &mut Session,
    seq: u32,
    cause: u8,
    ebi: u8,
    row_cause: u8,
    enb: Option<Peer>,
) -> Reply
    ensures { IsDone (first_row session.old (CommandKind.CreateAns seq cause ebi row_cause enb))
        (CommandKind.CreateAns seq cause ebi row_cause enb) session.old session.new result }
{
    let said = Response {
        seq,
        cause,
        ebi,
        row_cause,
        enb,
    };
    settle_by(session, &said)
}

fn settle_by(session: &mut Session, said: &Response) -> Reply
    ensures { IsDone (first_row session.old (response said.now)) (response said.now) session.old session.new result }
{
    if !session.bearers.has_asked(said.seq) {
        return silent(Outcome::No);
    }
    match said.enb {
        Some(enb)
            if said.cause == REQUEST_ACCEPTED
                && said.row_cause == REQUEST_ACCEPTED
                && said.ebi >= 5
                && said.ebi <= 15
                && !session.bearers.has_active(said.ebi) => {
            session.grant(said.seq, said.ebi, enb);
            silent(Outcome::Done)
        }
        _ => {
            session.deny(said.seq);
            silent(Outcome::No)
        }
    }
}
