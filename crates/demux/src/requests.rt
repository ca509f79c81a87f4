//! What a message of the MME asks, by its elements (TS 29.274, 7.2).
ghost use Rattle.std.specs.Prelude.{◌≡◌, ◌<◌, ◌≤◌, IfSome, IfOk, option_copied};
ghost use Rattle.gtpv2_ie.specs.Validity.{IsValue, IsContext, IsEbi, IsQos};
ghost use Rattle.gtpv2_msg.specs.Lookup.{is_of, first_value};
ghost use Rattle.bearer_state.specs.Bearer as bearers;
ghost use Rattle.bearer_state.specs.Qos as classes;
ghost use Rattle.demux.specs.Requests.{imsi_in, cause_in, rates_in, pdn_in, mme_in};
ghost use Rattle.demux.specs.Requests.{context_in, assigned, peer_of, enb_in};
ghost use Rattle.demux.specs.Requests.{qos_of, creation, modification, bearer_answer, session_command};

use crate::asks::asks_in;
use bearer_state::Qos;
use control_steps::{Command, CommandKind};
use gtpv2_ie::interface::S1_U_ENODEB;
use gtpv2_ie::{Context, Fteid, Fteids, Ie, IeKind, IeValue, QosIe};
use gtpv2_msg::{
    CREATE_BEARER_RESPONSE, DELETE_BEARER_RESPONSE, DELETE_SESSION_REQUEST, MODIFY_BEARER_REQUEST,
    Msg, RELEASE_ACCESS_BEARERS_REQUEST, UPDATE_BEARER_RESPONSE,
};
use pc_base::{Addr4, Imsi, Kbps, NoMemory, Peer, Teid};
use std::alloc::Global;

fn is_of(ie: &Ie, kind: IeKind) -> bool
    ensures { result ≡ is_of kind 0 ie.now }
{
    ie.value.kind().octet() == kind.octet() && ie.instance == 0
}

// The value of the first element of a kind and instance 0.
fn first(message: &Msg, kind: IeKind) -> Option<&IeValue>
    ensures value { option_copied result ≡ first_value kind 0 message.now.ies }
    ensures valid { IfSome result (λ value. IsValue value.now) }
{
    let ie = message.ies.as_slice().iter().find(|ie| is_of(ie, kind))?;
    Some(&ie.value)
}

/// Whose session it is about.
pub fn imsi_in(message: &Msg) -> Option<Imsi>
    ensures { result ≡ imsi_in message.now.ies }
{
    match first(message, IeKind::Imsi)? {
        IeValue::Imsi(digits) => Imsi::of(digits.as_slice()),
        _ => None,
    }
}

fn cause_in(message: &Msg) -> Option<u8>
    ensures { result ≡ cause_in message.now.ies }
{
    match first(message, IeKind::Cause)? {
        IeValue::Cause(cause) => Some(cause.cause),
        _ => None,
    }
}

fn rates_in(message: &Msg) -> Option<(u32, u32)>
    ensures { result ≡ rates_in message.now.ies }
{
    match first(message, IeKind::Ambr)? {
        IeValue::Ambr(up, down) => Some((*up, *down)),
        _ => None,
    }
}

fn pdn_in(message: &Msg) -> Option<u8>
    ensures value { result ≡ pdn_in message.now.ies }
    ensures least { IfSome result (λ pdn. 1 ≤ pdn) }
    ensures most { IfSome result (λ pdn. pdn ≤ 3) }
{
    match first(message, IeKind::Pdn)? {
        IeValue::Pdn(pdn) => Some(*pdn),
        _ => None,
    }
}

fn peer_of(fteid: &Fteid) -> Peer
    ensures { result ≡ peer_of fteid.now }
{
    Peer {
        teid: Teid(fteid.teid),
        addr: Addr4(fteid.addr),
    }
}

/// The sender's end of the tunnel for signalling.
pub fn mme_in(message: &Msg) -> Option<Peer>
    ensures { result ≡ mme_in message.now.ies }
{
    match first(message, IeKind::Fteid)? {
        IeValue::Fteid(fteid) => Some(peer_of(fteid)),
        _ => None,
    }
}

fn context_in(message: &Msg) -> Option<&Context>
    ensures value { option_copied result ≡ context_in message.now.ies }
    ensures valid { IfSome result (λ context. IsContext context.now) }
{
    match first(message, IeKind::Context)? {
        IeValue::Context(context) => Some(context),
        _ => None,
    }
}

/// The EBI of a Context, where a bearer has it.
pub fn assigned(context: &Context) -> Option<u8>
    requires { IsContext context.now }
    ensures value { result ≡ assigned context.now.ebi }
    ensures valid { IfSome result bearers.IsEbi }
{
    match context.ebi {
        Some(ebi) if ebi != 0 => Some(ebi),
        _ => None,
    }
}

/// The eNodeB's end among the F-TEIDs of a Context.
pub fn enb_in(fteids: &Fteids) -> Option<Peer>
    ensures { result ≡ enb_in fteids.now }
{
    let (_, fteid) = fteids
        .as_slice()
        .iter()
        .find(|fteid| fteid.1.interface == S1_U_ENODEB)?;
    Some(peer_of(fteid))
}

fn qos_of(qos: &QosIe) -> Qos
    requires { IsQos qos.now }
    ensures value { result ≡ qos_of qos.now }
    ensures valid { classes.IsQos result }
{
    Qos {
        arp: qos.arp,
        qci: qos.qci,
        mbr_up: Kbps(qos.mbr_up),
        mbr_down: Kbps(qos.mbr_down),
        gbr_up: Kbps(qos.gbr_up),
        gbr_down: Kbps(qos.gbr_down),
    }
}

/// The session that a Create Session Request asks for; None where it lacks what that takes.
#[tactic(auto, unfolding(crate::specs::Requests::creation))]
pub fn creation(message: &Msg) -> Option<Command>
    ensures { result ≡ creation message.now }
{
    let mme = mme_in(message)?;
    let pdn = pdn_in(message)?;
    let (up, down) = rates_in(message)?;
    let context = context_in(message)?;
    let ebi = assigned(context)?;
    let qos = qos_of(&context.qos?);
    let enb = enb_in(&context.fteids);
    Some(Command {
        kind: CommandKind::Create {
            seq: message.seq,
            mme,
            pdn,
            ebi,
            qos,
            enb,
            up: Kbps(u64::from(up)),
            down: Kbps(u64::from(down)),
        },
    })
}

// The answer of a Create Bearer Response; None where it lacks what one says.
#[tactic(auto, unfolding(crate::specs::Requests::bearer_answer))]
fn bearer_answer(message: &Msg) -> Option<Command>
    ensures { result ≡ bearer_answer message.now }
{
    let cause = cause_in(message)?;
    let context = context_in(message)?;
    let ebi = context.ebi?;
    let row_cause = context.cause?;
    Some(Command {
        kind: CommandKind::CreateAns {
            seq: message.seq,
            cause,
            ebi,
            row_cause: row_cause.cause,
            enb: enb_in(&context.fteids),
        },
    })
}

fn modification(alloc: Global, message: &Msg) -> Result<Command, NoMemory>
    ensures { IfOk result (λ command. command ≡ modification message.now) }
{
    let asks = asks_in(alloc, message)?;
    Ok(Command {
        kind: CommandKind::Modify {
            seq: message.seq,
            mme: mme_in(message),
            asks,
        },
    })
}

/// The command that a message is to the session of its TEID; None of another type.
#[tactic(auto, unfolding(crate::specs::Requests::session_command))]
pub fn session_command(alloc: Global, message: &Msg) -> Result<Option<Command>, NoMemory>
    ensures { IfOk result (λ command. command ≡ session_command message.now) }
{
    let seq = message.seq;
    let kind = match message.kind {
        MODIFY_BEARER_REQUEST => return Ok(Some(modification(alloc, message)?)),
        CREATE_BEARER_RESPONSE => return Ok(bearer_answer(message)),
        DELETE_SESSION_REQUEST => CommandKind::Delete { seq },
        RELEASE_ACCESS_BEARERS_REQUEST => CommandKind::Release { seq },
        UPDATE_BEARER_RESPONSE => CommandKind::UpdateAns { seq },
        DELETE_BEARER_RESPONSE => CommandKind::DeleteAns { seq },
        _ => return Ok(None),
    };
    Ok(Some(Command { kind }))
}
