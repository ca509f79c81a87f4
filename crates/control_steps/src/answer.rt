//! The answer to a request: the octets that go out, and the same for its repeats.
ghost use Rattle.std.specs.Prelude.{◌≡◌, Some, None, IfOk};
ghost use Rattle.gtpv2_msg.specs.Spelling.{spelling};
ghost use Rattle.bearer_state.specs.Bearer.{IsSeq};
ghost use Rattle.bearer_state.specs.Session.{IsKept};
ghost use Rattle.bearer_state.specs.Changes.{keeping};
ghost use Rattle.control_steps.specs.Answer.{Answers};
ghost use Rattle.control_steps.specs.Kinds.{IsAnswered};
ghost use Rattle.control_steps.specs.Messages.{cause_alone};
ghost use Rattle.control_steps.specs.Table.{teid_of_mme};

use crate::{NoMemory, messages};
use bearer_state::{Kept, Session};
use gtpv2_msg::{Msg, write};
use pc_base::{Octets, Outcome, Peer, Reply};
use std::alloc::Global;

/// An answer with all its memory.
#[derive(Debug, Drop)]
pub struct Answer {
    octets: Octets,
    kept: Kept,
}

/// The octets of a message.
pub fn octets_of(alloc: Global, message: &Msg) -> Result<Octets, NoMemory>
    ensures { IfOk result (λ octets. octets ≡ spelling message.now) }
{
    Ok(Octets::of(write(alloc, message)?))
}

/// The answer to a request of a type, under its sequence number.
pub fn answer_to(alloc: Global, kind: u8, seq: u32, message: &Msg) -> Result<Answer, NoMemory>
    requires { IsSeq seq }
    ensures { IfOk result (λ answer. Answers answer kind seq message.now) }
{
    let octets = octets_of(alloc, message)?;
    let reply = octets.try_clone()?;
    Ok(Answer {
        octets,
        kept: Kept { kind, seq, reply },
    })
}

/// The TEID of an MME, 0 where none is kept.
pub fn teid_of_mme(mme: Option<Peer>) -> u32
    ensures { result ≡ teid_of_mme mme }
{
    match mme {
        Some(mme) => mme.teid.0,
        None => 0,
    }
}

/// The answer that is a cause alone, to the TEID of an MME.
pub fn cause_answer(
    alloc: Global,
    teid: u32,
    kind: u8,
    seq: u32,
    code: u8,
) -> Result<Answer, NoMemory>
    requires kind { IsAnswered kind }
    requires seq { IsSeq seq }
    ensures { IfOk result (λ answer. Answers answer kind seq (cause_alone teid kind seq code)) }
{
    let message = messages::cause_alone(alloc, teid, kind, seq, code)?;
    answer_to(alloc, kind, seq, &message)
}

/// An answer is kept and given. Takes no memory.
pub fn given(session: &mut Session, outcome: Outcome, answer: Answer) -> Reply
    requires { IsKept answer.kept }
    ensures kept { session.new ≡ keeping session.old answer.kept }
    ensures reply { result ≡ record { outcome = outcome; message = Some answer.octets } }
{
    session.keep(answer.kept);
    Reply {
        outcome,
        message: Some(answer.octets),
    }
}

/// An order or an answer of the MME was done, or not, without a message.
pub fn silent(outcome: Outcome) -> Reply
    ensures { result ≡ record { outcome = outcome; message = None } }
{
    Reply {
        outcome,
        message: None,
    }
}
