//! The messages that the gateway writes to an MME (TS 29.274, 7.2).
ghost use Rattle.std.specs.Prelude.{◌≡◌, ◌<◌, ◌≤◌, ◌∷◌, IfOk, IfSome};
ghost use Rattle.std.specs.List.{filter_map};
ghost use Rattle.tft_codec.specs.Spelling.{spelling};
ghost use Rattle.gtpv2_ie.specs.Validity.{IsEbi, IsOctets};
ghost use Rattle.bearer_state.specs.Ask.{AreAsks};
ghost use Rattle.bearer_state.specs.Bearer.{IsSeq};
ghost use Rattle.bearer_state.specs.Bearer as bearers;
ghost use Rattle.bearer_state.specs.Qos.{IsQos};
ghost use Rattle.bearer_state.specs.Session.{IsAmbr};
ghost use Rattle.control_steps.specs.Kinds.{IsAnswered};
ghost use Rattle.control_steps.specs.Messages.{pdn_cause, cause_element, ask_accepted, cause_alone};
ghost use Rattle.control_steps.specs.Messages.{create_session_response, modify_bearer_response};
ghost use Rattle.control_steps.specs.Messages.{create_bearer_request, update_bearer_request, delete_bearer_request};

use crate::contexts::{
    accepted, cause_element, changed_context, control_end, new_context, user_address,
};
use crate::{NEW_PDN_TYPE, NoMemory, REQUEST_ACCEPTED};
use bearer_state::{Ask, Bearers, Qos};
use gtpv2_ie::{Ie, IeValue};
use gtpv2_msg::{
    CREATE_BEARER_REQUEST, CREATE_SESSION_RESPONSE, DELETE_BEARER_REQUEST, Ies,
    MODIFY_BEARER_RESPONSE, Msg, UPDATE_BEARER_REQUEST,
};
use pc_base::{Kbps, Octets, Slot};
use std::alloc::Global;
use tft_codec::Tft;

/// A bearer that the MME is asked for.
#[derive(Debug, Drop)]
pub struct BearerAsked {
    /// 0 to 10.
    pub index: u8,
    /// Its filters as a template.
    pub tft: Octets,
    pub qos: Qos,
}

/// The answer to a request that is a cause alone.
pub fn cause_alone(
    alloc: Global,
    teid: u32,
    request: u8,
    seq: u32,
    code: u8,
) -> Result<Msg, NoMemory>
    requires request { IsAnswered request }
    requires seq { IsSeq seq }
    ensures { IfOk result (λ message. message ≡ cause_alone teid request seq code) }
{
    Ok(Msg {
        kind: request + 1,
        teid: Some(teid),
        seq,
        ies: Ies::of(vec![in alloc; cause_element(code)]?),
    })
}

/// Of both versions of IP the subscriber gets IPv4 alone.
fn pdn_cause(pdn: u8) -> u8
    ensures { result ≡ pdn_cause pdn }
{
    if pdn == 3 {
        NEW_PDN_TYPE
    } else {
        REQUEST_ACCEPTED
    }
}

/// A Create Session Response: IPv4, also where both versions were asked for.
pub fn create_session_response(
    alloc: Global,
    slot: Slot,
    teid: u32,
    seq: u32,
    pdn: u8,
    ebi: u8,
) -> Result<Msg, NoMemory>
    requires seq { IsSeq seq }
    requires ebi { bearers.IsEbi ebi }
    ensures { IfOk result (λ message. message ≡ create_session_response slot teid seq pdn ebi) }
{
    let ies = vec![in alloc;
        cause_element(pdn_cause(pdn)),
        Ie {
            instance: 0,
            value: IeValue::Fteid(control_end(slot))
        },
        user_address(slot),
        accepted(alloc, slot, ebi, 0)?,
    ]?;
    Ok(Msg {
        kind: CREATE_SESSION_RESPONSE,
        teid: Some(teid),
        seq,
        ies: Ies::of(ies),
    })
}

/// A Modify Bearer Response.
pub fn modify_bearer_response(
    alloc: Global,
    slot: Slot,
    teid: u32,
    seq: u32,
    bearers: &Bearers,
    asks: &[Ask],
) -> Result<Msg, NoMemory>
    requires seq { IsSeq seq }
    requires asks { AreAsks asks.now }
    ensures { IfOk result (λ message. message ≡ modify_bearer_response slot teid seq bearers.now asks.now) }
{
    let ies = asks_accepted(alloc, slot, bearers, asks)?;
    Ok(Msg {
        kind: MODIFY_BEARER_RESPONSE,
        teid: Some(teid),
        seq,
        ies: Ies::of(ies),
    })
}

/// The cause, and one Context for each ask, of the active bearer that it names.
fn asks_accepted(
    alloc: Global,
    slot: Slot,
    bearers: &Bearers,
    asks: &[Ask],
) -> Result<Vec<Ie>, NoMemory>
    requires { AreAsks asks.now }
    ensures { IfOk result (λ ies. ies.items ≡ cause_element REQUEST_ACCEPTED
        ∷ filter_map (ask_accepted slot bearers.now) asks.now) }
{
    let mut ies = Vec::with_capacity(alloc, asks.len() + 1)?;
    ies.push(cause_element(REQUEST_ACCEPTED))?;
    for ask in asks {
        match bearers.active_index(ask.ebi) {
            Some(index) => ies.push(accepted(alloc, slot, ask.ebi, index)?)?,
            None => {}
        }
    }
    Ok(ies)
}

/// The octets of a template.
pub fn tft_octets(alloc: Global, tft: &Tft) -> Result<Octets, NoMemory>
    ensures octets { IfOk result (λ octets. octets ≡ spelling tft.now) }
    ensures valid { IfOk result (IsOctets 1000) }
{
    Ok(Octets::of(tft_codec::write(alloc, tft)?))
}

/// A Create Bearer Request, linked to the default bearer of this EBI.
pub fn create_bearer_request(
    alloc: Global,
    slot: Slot,
    teid: u32,
    seq: u32,
    linked: u8,
    bearer: BearerAsked,
) -> Result<Msg, NoMemory>
    requires seq { IsSeq seq }
    requires linked { bearers.IsEbi linked }
    requires index { bearer.index ≤ 10 }
    requires tft { IsOctets 1000 bearer.tft }
    requires qos { IsQos bearer.qos }
    ensures { IfOk result (λ message. message ≡ create_bearer_request slot teid seq linked bearer.index bearer.tft
        bearer.qos) }
{
    let ies = vec![in alloc;
        Ie {
            instance: 0,
            value: IeValue::Ebi(linked)
        },
        new_context(alloc, slot, bearer.index, bearer.tft, &bearer.qos)?,
    ]?;
    Ok(Msg {
        kind: CREATE_BEARER_REQUEST,
        teid: Some(teid),
        seq,
        ies: Ies::of(ies),
    })
}

/// An Update Bearer Request, with the template where the filters change.
pub fn update_bearer_request(
    alloc: Global,
    teid: u32,
    seq: u32,
    ebi: u8,
    tft: Option<Octets>,
    up: Kbps,
    down: Kbps,
) -> Result<Msg, NoMemory>
    requires seq { IsSeq seq }
    requires ebi { bearers.IsEbi ebi }
    requires tft { IfSome tft (IsOctets 1000) }
    requires up { IsAmbr up }
    requires down { IsAmbr down }
    ensures { IfOk result (λ message. message ≡ update_bearer_request teid seq ebi tft up down) }
{
    let ies = vec![in alloc;
        changed_context(alloc, ebi, tft),
        Ie {
            instance: 0,
            value: IeValue::Ambr(up.0 as u32, down.0 as u32)
        },
    ]?;
    Ok(Msg {
        kind: UPDATE_BEARER_REQUEST,
        teid: Some(teid),
        seq,
        ies: Ies::of(ies),
    })
}

/// A Delete Bearer Request: its EBI has instance 1.
pub fn delete_bearer_request(alloc: Global, teid: u32, seq: u32, ebi: u8) -> Result<Msg, NoMemory>
    requires seq { IsSeq seq }
    requires ebi { bearers.IsEbi ebi }
    ensures { IfOk result (λ message. message ≡ delete_bearer_request teid seq ebi) }
{
    let ies = vec![in alloc;
        Ie {
            instance: 1,
            value: IeValue::Ebi(ebi)
        },
    ]?;
    Ok(Msg {
        kind: DELETE_BEARER_REQUEST,
        teid: Some(teid),
        seq,
        ies: Ies::of(ies),
    })
}
