//! The elements of the messages that the gateway writes.
ghost use Rattle.std.specs.Prelude.{◌≡◌, ◌<◌, ◌≤◌, IfOk, IfSome};
ghost use Rattle.pc_base.specs.Addresses.{addr_of};
ghost use Rattle.gtpv2_ie.specs.Validity.{IsEbi, IsOctets, IsFteid};
ghost use Rattle.gtpv2_ie.specs.Validity as elements;
ghost use Rattle.bearer_state.specs.Qos.{IsQos};
ghost use Rattle.control_steps.specs.Messages.{cause_element, accepted, new_context, changed_context};
ghost use Rattle.control_steps.specs.Messages.{control_end, user_end, qos_ie};

use crate::{NoMemory, REQUEST_ACCEPTED};
use bearer_state::Qos;
use gtpv2_ie::{CauseIe, Context, Fteid, Fteids, Ie, IeValue, QosIe};
use pc_base::{GATEWAY_ADDR, Octets, Slot, TeidUse, addr_of, teid_of};
use std::alloc::Global;

/// The interface types of the gateway's ends (TS 29.274, 8.22).
const S1U_SGW: u8 = 1;

const S11_SGW: u8 = 11;

/// A Cause without an offending element.
pub fn cause_element(code: u8) -> Ie
    ensures { result ≡ cause_element code }
{
    Ie {
        instance: 0,
        value: IeValue::Cause(CauseIe {
            cause: code,
            offending: None,
        }),
    }
}

/// The address of a slot's subscriber.
pub fn user_address(slot: Slot) -> Ie
    ensures { result ≡ record { instance = 0; value = IeValue.Paa (addr_of slot) } }
{
    Ie {
        instance: 0,
        value: IeValue::Paa(addr_of(slot).0),
    }
}

/// Where the gateway takes the requests of a slot.
pub fn control_end(slot: Slot) -> Fteid
    ensures value { result ≡ control_end slot }
    ensures valid { IsFteid result }
{
    Fteid {
        interface: S11_SGW,
        teid: teid_of(slot, TeidUse::Control).0,
        addr: GATEWAY_ADDR.0,
    }
}

/// Where it takes the packets of the bearer of an index.
fn user_end(slot: Slot, index: u8) -> Fteid
    requires { index ≤ 10 }
    ensures value { result ≡ user_end slot index }
    ensures valid { IsFteid result }
{
    Fteid {
        interface: S1U_SGW,
        teid: teid_of(slot, TeidUse::Bearer(index)).0,
        addr: GATEWAY_ADDR.0,
    }
}

/// The Bearer Context of a bearer that is accepted.
pub fn accepted(alloc: Global, slot: Slot, ebi: u8, index: u8) -> Result<Ie, NoMemory>
    requires ebi { IsEbi ebi }
    requires index { index ≤ 10 }
    ensures { IfOk result (λ element. element ≡ accepted slot ebi index) }
{
    Ok(Ie {
        instance: 0,
        value: IeValue::Context(Context {
            ebi: Some(ebi),
            cause: Some(CauseIe {
                cause: REQUEST_ACCEPTED,
                offending: None,
            }),
            tft: None,
            fteids: Fteids::of(vec![in alloc; (0, user_end(slot, index))]?),
            qos: None,
        }),
    })
}

/// What a bearer is to have.
pub fn qos_ie(qos: &Qos) -> QosIe
    requires { IsQos qos.now }
    ensures value { result ≡ qos_ie qos.now }
    ensures valid { elements.IsQos result }
{
    QosIe {
        arp: qos.arp,
        qci: qos.qci,
        mbr_up: qos.mbr_up.0,
        mbr_down: qos.mbr_down.0,
        gbr_up: qos.gbr_up.0,
        gbr_down: qos.gbr_down.0,
    }
}

/// The Bearer Context of a bearer that is asked for.
pub fn new_context(
    alloc: Global,
    slot: Slot,
    index: u8,
    tft: Octets,
    qos: &Qos,
) -> Result<Ie, NoMemory>
    requires index { index ≤ 10 }
    requires tft { IsOctets 1000 tft }
    requires qos { IsQos qos.now }
    ensures { IfOk result (λ element. element ≡ record {
      instance = 0;
      value = IeValue.Context (new_context slot index tft qos.now);
    }) }
{
    Ok(Ie {
        instance: 0,
        value: IeValue::Context(Context {
            ebi: Some(0),
            cause: None,
            tft: Some(tft),
            fteids: Fteids::of(vec![in alloc; (0, user_end(slot, index))]?),
            qos: Some(qos_ie(qos)),
        }),
    })
}

/// The Bearer Context of a bearer that changes. Takes no memory.
pub fn changed_context(alloc: Global, ebi: u8, tft: Option<Octets>) -> Ie
    requires ebi { IsEbi ebi }
    requires tft { IfSome tft (IsOctets 1000) }
    ensures { result ≡ record { instance = 0; value = IeValue.Context (changed_context ebi tft) } }
{
    Ie {
        instance: 0,
        value: IeValue::Context(Context {
            ebi: Some(ebi),
            cause: None,
            tft,
            fteids: Fteids::of(Vec::new(alloc)),
            qos: None,
        }),
    }
}
