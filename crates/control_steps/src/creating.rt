//! A subscriber attaches: by a Create Session Request, or by order.
ghost use Rattle.bearer_state.specs.Session.{HasRoom, IsAmbr};
ghost use Rattle.control_steps.specs.declared.command.CommandKind.TheVariants as commands;
ghost use Rattle.control_steps.specs.Command.{IsCreate};
ghost use Rattle.control_steps.specs.Creation.{creation};
ghost use Rattle.control_steps.specs.Row as rows;
ghost use Rattle.control_steps.specs.Row.{first_row};
ghost use Rattle.control_steps.specs.Steps.{Does};

use crate::answer::{answer_to, cause_answer, given, silent};
use crate::messages::create_session_response;
use crate::{NoMemory, PREFERRED_PDN_TYPE_NOT_SUPPORTED, REQUEST_REJECTED};
use bearer_state::{Qos, Session, is_guaranteed};
use gtpv2_msg::CREATE_SESSION_REQUEST;
use pc_base::{Kbps, Outcome, Peer, Reply};
use std::alloc::Global;

/// A PDN type (TS 29.274, 8.34).
const IPV6: u8 = 2;

/// The default bearer of an ordered attach: its EBI, and best effort at priority level 9.
const ORDERED_EBI: u8 = 5;

const ORDERED_ARP: u8 = 0x24;

const BEST_EFFORT: u8 = 9;

/// What a Create Session Request asks for.
#[derive(Clone, Copy, Debug)]
pub struct Creation {
    pub seq: u32,
    pub mme: Peer,
    pub pdn: u8,
    pub ebi: u8,
    pub qos: Qos,
    pub enb: Option<Peer>,
    pub up: Kbps,
    pub down: Kbps,
}

/// IPv6 alone is refused.
fn refuse_pdn(alloc: Global, session: &mut Session, asked: &Creation) -> Result<Reply, NoMemory>
    requires { IsCreate asked.now.seq asked.now.pdn asked.now.ebi asked.now.qos asked.now.up asked.now.down }
    ensures { Does rows.pdn_refused (creation asked.now) session.old session.new result }
{
    let answer = cause_answer(
        alloc,
        asked.mme.teid.0,
        CREATE_SESSION_REQUEST,
        asked.seq,
        PREFERRED_PDN_TYPE_NOT_SUPPORTED,
    )?;
    Ok(given(session, Outcome::No, answer))
}

/// A default bearer of a class with a guaranteed rate is refused.
fn refuse_class(alloc: Global, session: &mut Session, asked: &Creation) -> Result<Reply, NoMemory>
    requires { IsCreate asked.now.seq asked.now.pdn asked.now.ebi asked.now.qos asked.now.up asked.now.down }
    ensures { Does rows.class_refused (creation asked.now) session.old session.new result }
{
    let answer = cause_answer(
        alloc,
        asked.mme.teid.0,
        CREATE_SESSION_REQUEST,
        asked.seq,
        REQUEST_REJECTED,
    )?;
    Ok(given(session, Outcome::No, answer))
}

/// A session comes in the place of what was there.
fn begin(alloc: Global, session: &mut Session, asked: &Creation) -> Result<Reply, NoMemory>
    requires valid { IsCreate asked.now.seq asked.now.pdn asked.now.ebi asked.now.qos asked.now.up asked.now.down }
    requires room { HasRoom session.old }
    ensures { Does rows.created (creation asked.now) session.old session.new result }
{
    let message = create_session_response(
        alloc,
        session.slot,
        asked.mme.teid.0,
        asked.seq,
        asked.pdn,
        asked.ebi,
    )?;
    let answer = answer_to(alloc, CREATE_SESSION_REQUEST, asked.seq, &message)?;
    session.attach(
        Some(asked.mme),
        asked.up,
        asked.down,
        asked.ebi,
        asked.qos,
        asked.enb,
    )?;
    Ok(given(session, Outcome::Done, answer))
}

/// A Create Session Request that is no repeat.
pub fn create(alloc: Global, session: &mut Session, asked: &Creation) -> Result<Reply, NoMemory>
    requires valid { IsCreate asked.now.seq asked.now.pdn asked.now.ebi asked.now.qos asked.now.up asked.now.down }
    requires room { HasRoom session.old }
    ensures { Does (first_row session.old (creation asked.now)) (creation asked.now) session.old session.new result }
{
    if asked.pdn == IPV6 {
        refuse_pdn(alloc, session, asked)
    } else if is_guaranteed(asked.qos.qci) {
        refuse_class(alloc, session, asked)
    } else {
        begin(alloc, session, asked)
    }
}

/// The order to attach (TS 23.401, 5.3.2).
pub fn attach(session: &mut Session, enb: Peer, up: Kbps, down: Kbps) -> Result<Reply, NoMemory>
    requires up { IsAmbr up }
    requires down { IsAmbr down }
    requires room { HasRoom session.old }
    ensures { Does rows.attached (commands.Attach enb up down) session.old session.new result }
{
    let qos = Qos {
        arp: ORDERED_ARP,
        qci: BEST_EFFORT,
        mbr_up: Kbps(0),
        mbr_down: Kbps(0),
        gbr_up: Kbps(0),
        gbr_down: Kbps(0),
    };
    session.attach(None, up, down, ORDERED_EBI, qos, Some(enb))?;
    Ok(silent(Outcome::Done))
}
