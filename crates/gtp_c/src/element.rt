//! The values of elements (TS 29.274, section 8): each call takes the octets of one value. Longer values are
//! read as the shorter ones, and spare bits don't count.
ghost use Rattle.std.specs.Prelude.{◌≡◌, ◌==◌, if◌then◌else◌, Some, None};
ghost use Rattle.gtpv2_ie.specs.declared.kind.IeKind.TheVariants as kinds;
ghost use Rattle.gtpv2_ie.specs.declared.value.IeValue.TheVariants as values;
ghost use Rattle.gtp_c.specs.Element.{value_code, Tells, cause_said, ambr_said, qos_said, fteid_said};

use gtp_c_base::code::{SHORT, VALUE};
use gtpv2_ie::{IeKind, cause_of, ebi_of, fteid_of, paa_of, pdn_of, qos_of};
use wire_octets::be32_at;

/// A Cause. The offending element's type and instance count where `has_offending` is 1.
#[repr(C)]
#[derive(Clone, Copy, Drop)]
pub struct Cause {
    pub cause: u8,
    pub has_offending: u8,
    pub offending_kind: u8,
    pub offending_instance: u8,
}

/// An aggregate maximum bit rate, in kbps.
#[repr(C)]
#[derive(Clone, Copy, Drop)]
pub struct Ambr {
    pub up: u32,
    pub down: u32,
}

/// A Bearer QoS: rates are in kbps, below 2^40; of ARP the spare bits are 0.
#[repr(C)]
#[derive(Clone, Copy, Drop)]
pub struct BearerQos {
    pub mbr_up: u64,
    pub mbr_down: u64,
    pub gbr_up: u64,
    pub gbr_down: u64,
    pub arp: u8,
    pub qci: u8,
}

/// An F-TEID with an IPv4 address; the interface type is below 64.
#[repr(C)]
#[derive(Clone, Copy, Drop)]
pub struct Fteid {
    pub teid: u32,
    pub address: u32,
    pub interface: u8,
}

fn offending_numbers(offending: Option<(u8, u8)>) -> (u8, u8, u8)
    ensures { offending ≡ (if result.0 == 0 then None else Some (result.1, result.2)) }
{
    match offending {
        Some((kind, instance)) => (1, kind, instance),
        None => (0, 0, 0),
    }
}

/// A Cause (section 8.4).
#[unsafe(no_mangle)]
pub extern "C" fn gtp_c_cause(value: &[u8], cause: &mut Cause) -> u32
    ensures code { result ≡ value_code kinds.Cause value.now }
    ensures value { Tells cause_said kinds.Cause value.now cause.old cause.new }
{
    if value.len() < IeKind::Cause.least_len() {
        return SHORT;
    }
    let Some(found) = cause_of(value) else {
        return VALUE;
    };
    let (has_offending, offending_kind, offending_instance) = offending_numbers(found.offending);
    *cause = Cause {
        cause: found.cause,
        has_offending,
        offending_kind,
        offending_instance,
    };
    0
}

/// A Recovery: the restart counter (section 8.5).
#[unsafe(no_mangle)]
pub extern "C" fn gtp_c_recovery(value: &[u8], counter: &mut u8) -> u32
    ensures code { result ≡ value_code kinds.Recovery value.now }
    ensures value { Tells values.Recovery kinds.Recovery value.now counter.old counter.new }
{
    if value.len() < IeKind::Recovery.least_len() {
        return SHORT;
    }
    *counter = value[0];
    0
}

/// An AMBR (section 8.7).
#[unsafe(no_mangle)]
pub extern "C" fn gtp_c_ambr(value: &[u8], ambr: &mut Ambr) -> u32
    ensures code { result ≡ value_code kinds.Ambr value.now }
    ensures value { Tells ambr_said kinds.Ambr value.now ambr.old ambr.new }
{
    if value.len() < IeKind::Ambr.least_len() {
        return SHORT;
    }
    *ambr = Ambr {
        up: be32_at(value, 0),
        down: be32_at(value, 4),
    };
    0
}

/// An EPS bearer identity: 0 or 5 to 15 (section 8.8).
#[unsafe(no_mangle)]
pub extern "C" fn gtp_c_ebi(value: &[u8], ebi: &mut u8) -> u32
    ensures code { result ≡ value_code kinds.Ebi value.now }
    ensures value { Tells values.Ebi kinds.Ebi value.now ebi.old ebi.new }
{
    if value.len() < IeKind::Ebi.least_len() {
        return SHORT;
    }
    let Some(found) = ebi_of(value) else {
        return VALUE;
    };
    *ebi = found;
    0
}

/// A PAA with an IPv4 address (section 8.14).
#[unsafe(no_mangle)]
pub extern "C" fn gtp_c_paa(value: &[u8], address: &mut u32) -> u32
    ensures code { result ≡ value_code kinds.Paa value.now }
    ensures value { Tells values.Paa kinds.Paa value.now address.old address.new }
{
    if value.len() < IeKind::Paa.least_len() {
        return SHORT;
    }
    let Some(found) = paa_of(value) else {
        return VALUE;
    };
    *address = found;
    0
}

/// A Bearer QoS (section 8.15).
#[unsafe(no_mangle)]
pub extern "C" fn gtp_c_bearer_qos(value: &[u8], qos: &mut BearerQos) -> u32
    ensures code { result ≡ value_code kinds.Qos value.now }
    ensures value { Tells qos_said kinds.Qos value.now qos.old qos.new }
{
    if value.len() < IeKind::Qos.least_len() {
        return SHORT;
    }
    let found = qos_of(value);
    *qos = BearerQos {
        mbr_up: found.mbr_up,
        mbr_down: found.mbr_down,
        gbr_up: found.gbr_up,
        gbr_down: found.gbr_down,
        arp: found.arp,
        qci: found.qci,
    };
    0
}

/// A RAT Type (section 8.17).
#[unsafe(no_mangle)]
pub extern "C" fn gtp_c_rat_type(value: &[u8], rat: &mut u8) -> u32
    ensures code { result ≡ value_code kinds.Rat value.now }
    ensures value { Tells values.Rat kinds.Rat value.now rat.old rat.new }
{
    if value.len() < IeKind::Rat.least_len() {
        return SHORT;
    }
    *rat = value[0];
    0
}

/// An F-TEID with an IPv4 address (section 8.22).
#[unsafe(no_mangle)]
pub extern "C" fn gtp_c_fteid(value: &[u8], fteid: &mut Fteid) -> u32
    ensures code { result ≡ value_code kinds.Fteid value.now }
    ensures value { Tells fteid_said kinds.Fteid value.now fteid.old fteid.new }
{
    if value.len() < IeKind::Fteid.least_len() {
        return SHORT;
    }
    let Some(found) = fteid_of(value) else {
        return VALUE;
    };
    *fteid = Fteid {
        teid: found.teid,
        address: found.addr,
        interface: found.interface,
    };
    0
}

/// A PDN Type: 1 IPv4, 2 IPv6, 3 both (section 8.34).
#[unsafe(no_mangle)]
pub extern "C" fn gtp_c_pdn_type(value: &[u8], pdn: &mut u8) -> u32
    ensures code { result ≡ value_code kinds.Pdn value.now }
    ensures value { Tells values.Pdn kinds.Pdn value.now pdn.old pdn.new }
{
    if value.len() < IeKind::Pdn.least_len() {
        return SHORT;
    }
    let Some(found) = pdn_of(value) else {
        return VALUE;
    };
    *pdn = found;
    0
}
